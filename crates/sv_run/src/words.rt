// The words that the program takes.
ghost use Rattle.std.specs.Prelude.{◌≡◌, Some, None, ◌∷◌, [], ◌↔◌, IsTrue, MatchOption, map, string_bytes, codes};
ghost use Rattle.sv_run.specs.RunWords.{AreRun, IsHelp, dir_word as path_in, joined_path as path_after, path_of as path_at};

fn path_of(word: &str) -> Option<&str>
    ensures { MatchOption result (path_at word.now ≡ None) (λ path. path_at word.now ≡ Some path.now) }
{
    if word.is_empty() || word.starts_with('-') {
        None
    } else {
        Some(word)
    }
}

fn joined_path(word: &str) -> Option<&str>
    ensures { MatchOption result (path_after word.now ≡ None) (λ path. path_after word.now ≡ Some path.now) }
{
    path_of(word.strip_prefix("--dir=")?)
}

fn is_run(word: &str) -> bool
    ensures { IsTrue result ↔ (word.now ≡ codes "run") }
{
    word == "run"
}

fn is_option(word: &str) -> bool
    ensures { IsTrue result ↔ (word.now ≡ codes "--dir") }
{
    word == "--dir"
}

/// The path that the words name: those of `run` with `--dir P` or `--dir=P`, where `P` is not empty and does not
/// begin with `-`. No other words name one.
pub fn dir_word(words: &[String]) -> Option<&str>
    ensures { MatchOption result (path_in (map string_bytes words.now) ≡ None) (λ path. path_in (map string_bytes words.now) ≡ Some path.now) }
{
    match words {
        [run, joined] if is_run(run.as_str()) => joined_path(joined.as_str()),
        [run, option, path] if is_run(run.as_str()) && is_option(option.as_str()) => {
            path_of(path.as_str())
        }
        _ => None,
    }
}

fn is_help_word(word: &str) -> bool
    ensures { IsTrue result ↔ (word.now ≡ codes "--help") }
{
    word == "--help"
}

/// Whether the one word is `--help`.
pub fn is_help(words: &[String]) -> bool
    ensures { IsTrue result ↔ IsHelp (map string_bytes words.now) }
{
    match words {
        [word] => is_help_word(word.as_str()),
        _ => false,
    }
}

fn is_run_alone(words: &[String]) -> bool
    ensures { IsTrue result ↔ (map string_bytes words.now ≡ codes "run" ∷ []) }
{
    match words {
        [word] => is_run(word.as_str()),
        _ => false,
    }
}

/// Whether the words are `run`, alone or with a path.
pub fn are_run(words: &[String]) -> bool
    ensures { IsTrue result ↔ AreRun (map string_bytes words.now) }
{
    is_run_alone(words) || dir_word(words).is_some()
}
