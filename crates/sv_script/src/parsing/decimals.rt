// Numbers as words.
ghost use Rattle.std.specs.Prelude.{◌≡◌};
ghost use Rattle.sv_script.specs.Numbers.{lane_of, number_of, with_digit};

use sv_model::MAX_LANES;

// The greatest number of digits of a number.
const MAX_DIGITS: usize = 20;

// The number with one more digit, where it is a digit and the number fits.
fn with_digit(value: u64, digit: u8) -> Option<u64>
    ensures { result ≡ with_digit value digit }
{
    if !digit.is_ascii_digit() {
        return None;
    }
    value.checked_mul(10)?.checked_add(u64::from(digit - b'0'))
}

pub(crate) fn number_of(word: &[u8]) -> Option<u64>
    ensures { result ≡ number_of word.now }
{
    if word.is_empty() {
        return None;
    }
    if word.len() > MAX_DIGITS {
        return None;
    }
    let mut value = 0;
    for byte in word {
        value = with_digit(value, *byte)?;
    }
    Some(value)
}

#[tactic(auto, unfolding(crate::specs::Numbers::lane_of))]
pub(crate) fn lane_of(word: &[u8]) -> Option<u8>
    ensures { result ≡ lane_of word.now }
{
    let number = number_of(word)?;
    if (1..=u64::from(MAX_LANES)).contains(&number) {
        Some(number as u8)
    } else {
        None
    }
}
