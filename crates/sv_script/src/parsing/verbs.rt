// The words that name commands.
ghost use Rattle.std.specs.Prelude.{◌≡◌, map};
ghost use Rattle.std.specs.Str.{bytes_eq};
ghost use Rattle.sv_script.specs.Commands.{named_by, verb_of};

// What the word after the lane's number names.
#[derive(Clone, Copy, Debug, PartialEq, Eq)]
pub(crate) enum Verb {
    Put,
    Delete,
    Get,
    Getp,
    Flush,
    Compact,
    Create,
    Open,
    Release,
    Drop,
    Set,
    Pin,
    Unpin,
    Hold,
    Unhold,
    Live,
    Purge,
    Scan,
    Rest,
    Snap,
    Gets,
    Unsnap,
}

pub(crate) fn is_word(word: &[u8], text: &[u8]) -> bool
    ensures { result ≡ bytes_eq word.now text.now }
{
    word == text
}

// The words that name commands.
const VERBS: [(&[u8], Verb); 22] = [
    (b"put", Verb::Put),
    (b"delete", Verb::Delete),
    (b"get", Verb::Get),
    (b"getp", Verb::Getp),
    (b"flush", Verb::Flush),
    (b"compact", Verb::Compact),
    (b"create", Verb::Create),
    (b"open", Verb::Open),
    (b"release", Verb::Release),
    (b"drop", Verb::Drop),
    (b"set", Verb::Set),
    (b"pin", Verb::Pin),
    (b"unpin", Verb::Unpin),
    (b"hold", Verb::Hold),
    (b"unhold", Verb::Unhold),
    (b"live", Verb::Live),
    (b"purge", Verb::Purge),
    (b"scan", Verb::Scan),
    (b"rest", Verb::Rest),
    (b"snap", Verb::Snap),
    (b"gets", Verb::Gets),
    (b"unsnap", Verb::Unsnap),
];

// What stands beside the word in the table.
fn named_by(table: &[(&[u8], Verb)], word: &[u8]) -> Option<Verb>
    ensures { result ≡ named_by (map (λ named. (named.0.now, named.1)) table.entry.now) word.now }
{
    for named in table {
        if is_word(word, named.0) {
            return Some(named.1);
        }
    }
    None
}

#[tactic(auto, unfolding(crate::specs::Commands::verb_of))]
pub(crate) fn verb_of(word: &[u8]) -> Option<Verb>
    ensures { result ≡ verb_of word.now }
{
    named_by(&VERBS, word)
}
