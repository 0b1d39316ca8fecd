// The names of table files.
ghost use Rattle.std.specs.Prelude.{◌≡◌, ◌≤◌, ◌+◌, ◌<◌, ◌^◌, ℕ, [], ◌∷◌, ◌++◌, length, Some, IfSome};
ghost use Rattle.std.specs.List.{list_all};
ghost use Rattle.std.specs.Char.{is_ascii_digit};
ghost use Rattle.arrayvec.specs.ArrayString.{array_string_len};
ghost use Rattle.sv_model.specs.Files.{padded, file_name as name_of};
ghost use Rattle.sv_dir.specs.TableNames.{is_spelled, number_named};

use arrayvec::ArrayString;
use sv_model::FileNumber;

const SUFFIX: &str = ".sst";

const LEAST_DIGITS: usize = 6;

const MAX_DIGITS: usize = 12;

#[tactic(auto, using(crate::proofs::SpelledNumbers::digit_is_byte))]
fn push_digit(name: &mut ArrayString<24>, digit: u8)
    requires one_digit { digit < 10 }
    requires room { array_string_len name.old < 24 }
    ensures { name.new.bytes ≡ name.old.bytes ++ (48 + digit) ∷ [] }
{
    name.push((b'0' + digit) as char);
}

// Appends the number in decimal, with leading zeros to at least so many digits.
fn push_digits(name: &mut ArrayString<24>, number: u64, least: usize)
    requires { array_string_len name.old + length (padded least number) ≤ 24 }
    ensures { name.new.bytes ≡ name.old.bytes ++ padded least number }
{
    let digit = (number % 10) as u8;
    if number < 10 && least <= 1 {
        push_digit(name, digit);
        return;
    }
    push_digits(name, number / 10, least.saturating_sub(1));
    push_digit(name, digit);
}

/// The name of the table file of that number: its decimal digits, with leading zeros to at least six,
/// and `.sst`. Takes no memory.
pub fn file_name(number: FileNumber) -> ArrayString<24>
    ensures name { result.bytes ≡ name_of number }
    ensures read_back { 1 ≤ number → number ≤ 999999999999 → number_named result.bytes ≡ Some number }
    ensures own { (other : ℕ) → other < 2 ^ 64 → name_of other ≡ result.bytes → other ≡ number }
{
    let mut name = ArrayString::new();
    push_digits(&mut name, number.0, LEAST_DIGITS);
    name.push_str(SUFFIX);
    name
}

fn has_digits(text: &[u8]) -> bool
    ensures { result ≡ list_all is_ascii_digit text.now }
{
    text.iter().all(|byte| byte.is_ascii_digit())
}

#[tactic(auto, using(crate::proofs::SpelledNumbers::all_ascii_digits_is_all))]
fn is_spelled(digits: &[u8]) -> bool
    ensures { result ≡ is_spelled digits.now }
{
    if !has_digits(digits) {
        return false;
    }
    match digits.len() {
        LEAST_DIGITS => true,
        7..=MAX_DIGITS => digits[0] != b'0',
        _ => false,
    }
}

/// The number of the table file of that name: the name is six digits, or seven to twelve without a
/// leading zero, and `.sst`, and the number is not 0. None where the name is foreign. Takes no memory.
pub fn parse_name(name: &str) -> Option<FileNumber>
    ensures number { result ≡ number_named name.now }
    ensures spelled { IfSome result (λ number. name.now ≡ name_of number) }
{
    let Some(digits) = name.strip_suffix(SUFFIX) else {
        return None;
    };
    if !is_spelled(digits.as_bytes()) {
        return None;
    }
    match digits.parse::<u64>() {
        Ok(0) => None,
        Ok(number) => Some(FileNumber(number)),
        Err(_) => None,
    }
}
