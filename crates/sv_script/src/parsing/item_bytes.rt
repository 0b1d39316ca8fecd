// Items: words that stand for bytes.
ghost use Rattle.std.specs.Prelude.{
  ◌≡◌,
  ◌<◌,
  ◌∷◌,
  ◌⊎◌,
  ℕ,
  List,
  All,
  length,
  IfSome,
  IfNone,
  Some,
  None,
};
ghost use Rattle.sv_script.specs.declared.scripts.BadKind.TheVariants as kinds;
ghost use Rattle.sv_script.specs.Items.{
  before,
  hex_value,
  item_of,
  item_text,
  pair_value,
  units_of,
};
ghost use Rattle.sv_script.specs.Reading.{Gives, or_bad};

use crate::parsing::errors::WordError;
use crate::plain_bytes::is_plain;
use crate::scripts::BadKind;
use std::alloc::Global;
use sv_model::Items;

fn hex_value(digit: u8) -> Option<u8>
    ensures value { result ≡ hex_value digit }
    ensures below { IfSome result (λ value. value < 16) }
{
    match digit {
        b'0'..=b'9' => Some(digit - b'0'),
        b'A'..=b'F' => Some(digit - b'A' + 10),
        b'a'..=b'f' => Some(digit - b'a' + 10),
        _ => None,
    }
}

fn pair_value(high: u8, low: u8) -> Option<u8>
    ensures { result ≡ pair_value (hex_value high) (hex_value low) }
{
    let high = hex_value(high)?;
    let low = hex_value(low)?;
    Some(high * 16 + low)
}

// The byte that two digits at the front stand for, and what follows them.
fn escaped(bytes: &[u8]) -> Option<(u8, &[u8])>
    ensures some { IfSome result (λ unit. units_of (37 ∷ bytes.now) ≡ before (Some unit.0) (units_of unit.1.now)) }
    ensures none { IfNone result (units_of (37 ∷ bytes.now) ≡ None) }
    ensures shorter { IfSome result (λ unit. length unit.1.now < length bytes.now) }
{
    let (high, rest) = bytes.split_first()?;
    let (low, rest) = rest.split_first()?;
    let byte = pair_value(*high, *low)?;
    Some((byte, rest))
}

// The byte that the first unit stands for, and what follows the unit.
fn first_unit(bytes: &[u8]) -> Option<(u8, &[u8])>
    ensures some { IfSome result (λ unit. units_of bytes.now ≡ before (Some unit.0) (units_of unit.1.now)) }
    ensures none { IfNone result ((length bytes.now ≡ 0) ⊎ (units_of bytes.now ≡ None)) }
    ensures shorter { IfSome result (λ unit. length unit.1.now < length bytes.now) }
{
    let (first, rest) = bytes.split_first()?;
    if *first == b'%' {
        return escaped(rest);
    }
    if is_plain(*first) {
        Some((*first, rest))
    } else {
        None
    }
}

fn units(alloc: Global, word: &[u8]) -> Result<Items<u8>, WordError>
    ensures { Gives result (or_bad kinds.Item (units_of word.now)) }
{
    let mut bytes = Items::from_vec(Vec::with_capacity(alloc, word.len())?);
    let mut rest = word;
    while !rest.is_empty() {
        let Some((byte, left)) = first_unit(rest) else {
            return Err(WordError::Bad(BadKind::Item));
        };
        bytes.push(byte)?;
        rest = left;
    }
    Ok(bytes)
}

#[tactic(auto, unfolding(crate::specs::Items::item_of))]
pub(crate) fn item(alloc: Global, word: &[u8]) -> Result<Items<u8>, WordError>
    ensures { Gives result (or_bad kinds.Item (item_of word.now)) }
{
    match word {
        [] => Err(WordError::Bad(BadKind::Item)),
        [b'%'] => Ok(Items::from_vec(Vec::new(alloc))),
        _ => units(alloc, word),
    }
}

/// A law alone: what is printed for the bytes of an item is read as these bytes again.
pub fn printed_items_are_read()
    ensures again { (bytes : List ℕ) → All (λ byte. byte < 256) bytes → item_of (item_text bytes) ≡ Some bytes }
{}
