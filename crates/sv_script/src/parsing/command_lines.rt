// Command lines.
ghost use Rattle.std.specs.Prelude.{◌≡◌, map};
ghost use Rattle.sv_script.specs.Built.{is_built, may_run};
ghost use Rattle.sv_script.specs.Commands.{command_of, of_verb};
ghost use Rattle.sv_script.specs.Reading.{Gives};
ghost use Rattle.sv_script.specs.Script.{command_line, lane_and_command};

use crate::commands::Command;
use crate::parsing::decimals::lane_of;
use crate::parsing::errors::WordError;
use crate::parsing::operands::{
    alone, family_alone, family_and_key, gets, number_alone, pin_and_key, put, set,
};
use crate::parsing::verbs::{Verb, verb_of};
use crate::scripts::{BadKind, MAX_COMMANDS};
use std::alloc::Global;

fn is_built(command: &Command) -> bool
    ensures { result ≡ is_built command.now }
{
    !matches!(
        command,
        Command::Pin(_) | Command::Unpin(_) | Command::Getp { .. } | Command::Rest
    )
}

fn may_run(lane: u8, command: &Command) -> bool
    ensures { result ≡ may_run lane command.now }
{
    lane <= 1 && is_built(command)
}

#[tactic(auto, unfolding(crate::specs::Commands::of_verb))]
fn of_verb(alloc: Global, verb: Verb, words: &[&[u8]]) -> Result<Command, WordError>
    ensures { Gives result (of_verb verb (map (λ word. word.now) words.now)) }
{
    match verb {
        Verb::Put => put(alloc, words),
        Verb::Delete => {
            let (family, key) = family_and_key(alloc, words)?;
            Ok(Command::Delete { family, key })
        }
        Verb::Get => {
            let (family, key) = family_and_key(alloc, words)?;
            Ok(Command::Get { family, key })
        }
        Verb::Getp => {
            let (pin, key) = pin_and_key(alloc, words)?;
            Ok(Command::Getp { pin, key })
        }
        Verb::Flush => Ok(Command::Flush(family_alone(words)?)),
        Verb::Compact => Ok(Command::Compact(family_alone(words)?)),
        Verb::Create => Ok(Command::Create(family_alone(words)?)),
        Verb::Open => Ok(Command::Open(family_alone(words)?)),
        Verb::Release => Ok(Command::Release(family_alone(words)?)),
        Verb::Drop => Ok(Command::Drop(family_alone(words)?)),
        Verb::Set => set(words),
        Verb::Pin => Ok(Command::Pin(family_alone(words)?)),
        Verb::Unpin => Ok(Command::Unpin(number_alone(words)?)),
        Verb::Hold => alone(Command::Hold, words),
        Verb::Unhold => alone(Command::Unhold, words),
        Verb::Live => alone(Command::Live, words),
        Verb::Purge => alone(Command::Purge, words),
        Verb::Scan => alone(Command::Scan, words),
        Verb::Rest => alone(Command::Rest, words),
        Verb::Snap => alone(Command::Snap, words),
        Verb::Gets => gets(alloc, words),
        Verb::Unsnap => Ok(Command::Unsnap(number_alone(words)?)),
    }
}

#[tactic(auto, unfolding(crate::specs::Commands::command_of))]
fn command_of(alloc: Global, words: &[&[u8]]) -> Result<Command, WordError>
    ensures { Gives result (command_of (map (λ word. word.now) words.now)) }
{
    let Some((word, words)) = words.split_first() else {
        return Err(WordError::Bad(BadKind::Command));
    };
    let Some(verb) = verb_of(word) else {
        return Err(WordError::Bad(BadKind::Command));
    };
    of_verb(alloc, verb, words)
}

#[tactic(auto, unfolding(crate::specs::Script::lane_and_command))]
fn lane_and_command(alloc: Global, words: &[&[u8]]) -> Result<(u8, Command), WordError>
    ensures { Gives result (lane_and_command (map (λ word. word.now) words.now)) }
{
    let Some((word, words)) = words.split_first() else {
        return Err(WordError::Bad(BadKind::Lane));
    };
    let Some(lane) = lane_of(word) else {
        return Err(WordError::Bad(BadKind::Lane));
    };
    let command = command_of(alloc, words)?;
    if may_run(lane, &command) {
        Ok((lane, command))
    } else {
        Err(WordError::Bad(BadKind::Unbuilt))
    }
}

// The lane and the command of a line that so many command lines came before.
#[tactic(auto, unfolding(crate::specs::Script::command_line))]
pub(crate) fn command_line(
    alloc: Global,
    before: usize,
    words: &[&[u8]],
) -> Result<(u8, Command), WordError>
    ensures { Gives result (command_line before (map (λ word. word.now) words.now)) }
{
    if before >= MAX_COMMANDS {
        return Err(WordError::Bad(BadKind::Commands));
    }
    lane_and_command(alloc, words)
}
