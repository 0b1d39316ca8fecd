// The opening: which numbers the directory has, so that none is taken again.
ghost use Rattle.std.specs.Prelude.{◌≡◌, ◌+◌, ◌≤◌, IfOk, IfSome, MatchOption, map, string_bytes, None, Some, ℕ};
ghost use Rattle.sv_model.specs.Faults.{HasCauseOf};
ghost use Rattle.sv_dir.specs.TableNames.{number_named};
ghost use Rattle.sv_run.specs.Openings.{IsFirst, IsFirstOf};

use sv_dir::{Dir, DirError, parse_name};
use sv_model::FileNumber;

// One above the number that the name has; 1 where it has none.
fn number_after(name: &str) -> u64
    ensures some { 1 ≤ result }
    ensures none { number_named name.now ≡ None → result ≡ 1 }
    ensures next { (n : ℕ) → number_named name.now ≡ Some n → result ≡ n + 1 }
{
    match parse_name(name) {
        Some(number) => number.0 + 1,
        None => 1,
    }
}

// One above the greatest number that a name has; 1 where none has one.
fn number_above(names: &[String]) -> FileNumber
    ensures some { 1 ≤ result }
    ensures first { IsFirstOf result (map string_bytes names.now) }
{
    let mut first = 1;
    for name in names {
        let after = number_after(name.as_str());
        if after > first {
            first = after;
        }
    }
    FileNumber(first)
}

/// The number of the first file that a run over the directory may make: one above the greatest that a file of it is
/// named by, or 1 where none is. Lists the directory once.
pub fn first_number<D: Dir>(dir: &mut D) -> Result<FileNumber, DirError>
    ensures some { IfOk result (λ first. 1 ≤ first) }
    ensures first { IfOk result (λ first. IfSome (D.files dir.old) (IsFirst first)) }
    ensures same { D.files dir.new ≡ D.files dir.old }
    ensures cause { HasCauseOf DirError.Failed (D.faults dir.old) (D.faults dir.new) result }
{
    let names = dir.list()?;
    Ok(number_above(names.as_slice()))
}
