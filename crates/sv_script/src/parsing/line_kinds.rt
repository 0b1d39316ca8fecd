// What a line is, by its words.
ghost use Rattle.std.specs.Prelude.{◌≡◌, map};
ghost use Rattle.sv_script.specs.Script.{begins_comment, is_phase_end, is_skipped};

use crate::parsing::verbs::is_word;

fn begins_comment(word: &[u8]) -> bool
    ensures { result ≡ begins_comment word.now }
{
    match word.split_first() {
        Some((first, _)) => *first == b'#',
        None => false,
    }
}

// Nothing stands on the line, or a comment.
pub(crate) fn is_skipped(words: &[&[u8]]) -> bool
    ensures { result ≡ is_skipped (map (λ word. word.now) words.now) }
{
    match words.split_first() {
        Some((word, _)) => begins_comment(word),
        None => true,
    }
}

// The line ends the phase.
pub(crate) fn is_phase_end(words: &[&[u8]]) -> bool
    ensures { result ≡ is_phase_end (map (λ word. word.now) words.now) }
{
    match words.split_first() {
        Some((word, rest)) => is_word(word, b"phase") && rest.is_empty(),
        None => false,
    }
}
