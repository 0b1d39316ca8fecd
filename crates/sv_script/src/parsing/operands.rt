// The words after a command.
ghost use Rattle.std.specs.Prelude.{map};
ghost use Rattle.sv_script.specs.Reading.{Gives};
ghost use Rattle.sv_script.specs.Commands.{
  alone,
  family_alone,
  family_and_key,
  gets_of,
  item,
  name,
  number,
  number_alone,
  option_name,
  pin_and_key,
  put_of,
  set_of,
};

use crate::commands::Command;
use crate::parsing::decimals::number_of;
use crate::parsing::errors::WordError;
use crate::parsing::item_bytes;
use crate::parsing::verbs::is_word;
use crate::scripts::BadKind;
use std::alloc::Global;
use sv_model::{Items, Name, OptionName};

fn name(word: &[u8]) -> Result<Name, WordError>
    ensures { Gives result (name word.now) }
{
    Name::new(word).ok_or(WordError::Bad(BadKind::Name))
}

fn item(alloc: Global, word: &[u8]) -> Result<Items<u8>, WordError>
    ensures { Gives result (item word.now) }
{
    item_bytes::item(alloc, word)
}

fn number(word: &[u8]) -> Result<u64, WordError>
    ensures { Gives result (number word.now) }
{
    number_of(word).ok_or(WordError::Bad(BadKind::Number))
}

#[tactic(auto, unfolding(crate::specs::Commands::option_of))]
fn option_name(word: &[u8]) -> Result<OptionName, WordError>
    ensures { Gives result (option_name word.now) }
{
    if is_word(word, b"memtable_rows") {
        Ok(OptionName::MemtableRows)
    } else if is_word(word, b"max_immutable") {
        Ok(OptionName::MaxImmutable)
    } else {
        Err(WordError::Bad(BadKind::Option))
    }
}

#[tactic(auto, unfolding(crate::specs::Commands::put_of))]
pub(crate) fn put(alloc: Global, words: &[&[u8]]) -> Result<Command, WordError>
    ensures { Gives result (put_of (map (λ word. word.now) words.now)) }
{
    let [family, key, value] = words else {
        return Err(WordError::Bad(BadKind::Count));
    };
    let family = name(family)?;
    let key = item(alloc, key)?;
    let value = item(alloc, value)?;
    Ok(Command::Put { family, key, value })
}

#[tactic(auto, unfolding(crate::specs::Commands::family_and_key))]
pub(crate) fn family_and_key(alloc: Global, words: &[&[u8]]) -> Result<(Name, Items<u8>), WordError>
    ensures { Gives result (family_and_key (map (λ word. word.now) words.now)) }
{
    let [family, key] = words else {
        return Err(WordError::Bad(BadKind::Count));
    };
    let family = name(family)?;
    let key = item(alloc, key)?;
    Ok((family, key))
}

#[tactic(auto, unfolding(crate::specs::Commands::pin_and_key))]
pub(crate) fn pin_and_key(alloc: Global, words: &[&[u8]]) -> Result<(u64, Items<u8>), WordError>
    ensures { Gives result (pin_and_key (map (λ word. word.now) words.now)) }
{
    let [pin, key] = words else {
        return Err(WordError::Bad(BadKind::Count));
    };
    let pin = number(pin)?;
    let key = item(alloc, key)?;
    Ok((pin, key))
}

#[tactic(auto, unfolding(crate::specs::Commands::gets_of))]
pub(crate) fn gets(alloc: Global, words: &[&[u8]]) -> Result<Command, WordError>
    ensures { Gives result (gets_of (map (λ word. word.now) words.now)) }
{
    let [snapshot, family, key] = words else {
        return Err(WordError::Bad(BadKind::Count));
    };
    let snapshot = number(snapshot)?;
    let family = name(family)?;
    let key = item(alloc, key)?;
    Ok(Command::Gets {
        snapshot,
        family,
        key,
    })
}

#[tactic(auto, unfolding(crate::specs::Commands::set_of))]
pub(crate) fn set(words: &[&[u8]]) -> Result<Command, WordError>
    ensures { Gives result (set_of (map (λ word. word.now) words.now)) }
{
    let [family, option, value] = words else {
        return Err(WordError::Bad(BadKind::Count));
    };
    let family = name(family)?;
    let option = option_name(option)?;
    let value = number(value)?;
    Ok(Command::Set {
        family,
        option,
        value,
    })
}

#[tactic(auto, unfolding(crate::specs::Commands::family_alone))]
pub(crate) fn family_alone(words: &[&[u8]]) -> Result<Name, WordError>
    ensures { Gives result (family_alone (map (λ word. word.now) words.now)) }
{
    let [family] = words else {
        return Err(WordError::Bad(BadKind::Count));
    };
    name(family)
}

#[tactic(auto, unfolding(crate::specs::Commands::number_alone))]
pub(crate) fn number_alone(words: &[&[u8]]) -> Result<u64, WordError>
    ensures { Gives result (number_alone (map (λ word. word.now) words.now)) }
{
    let [word] = words else {
        return Err(WordError::Bad(BadKind::Count));
    };
    number(word)
}

#[tactic(auto, unfolding(crate::specs::Commands::alone))]
pub(crate) fn alone(command: Command, words: &[&[u8]]) -> Result<Command, WordError>
    ensures { Gives result (alone command (map (λ word. word.now) words.now)) }
{
    match words {
        [] => Ok(command),
        _ => Err(WordError::Bad(BadKind::Count)),
    }
}
