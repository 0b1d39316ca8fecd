// Reading a script line by line.
ghost use Rattle.std.specs.Prelude.{◌≡◌, ◌<◌, ◌+◌, ◌^◌, map, OnOk, IfErr, IfOk};
ghost use Rattle.std.specs.Str.Lines.{strip_carriage_return};
ghost use Rattle.sv_script.specs.Progress.{GoesOn, StopsAt};
ghost use Rattle.sv_script.specs.Reading.{error_at};
ghost use Rattle.sv_script.specs.Script.{IsParsed, lanes_of, script_of};
ghost use Rattle.sv_script.specs.ScriptLaws.{IsWellFormed};
ghost use Rattle.sv_script.specs.Words.{words_of};

use crate::parsing::command_lines::command_line;
use crate::parsing::errors::WordError;
use crate::parsing::line_kinds::{is_phase_end, is_skipped};
use crate::parsing::progress::Progress;
use crate::parsing::splitting::{read_words, without_return};
use crate::scripts::{BadLine, Line, MAX_PHASES, Script, ScriptError};
use std::alloc::Global;
use sv_model::{Items, OutOfMemory};

fn at_line(line: u64, error: WordError) -> ScriptError
    ensures { result ≡ error_at line error }
{
    match error {
        WordError::Bad(kind) => ScriptError::Bad(BadLine { line, kind }),
        WordError::OutOfMemory => ScriptError::OutOfMemory,
    }
}

// Takes a line by its words.
fn take(alloc: Global, read: &mut Progress, words: &[&[u8]]) -> Result<(), ScriptError>
    requires { read.old.number + 1 < 2 ^ 64 }
    ensures goes_on { OnOk result (GoesOn read.old (map (λ word. word.now) words.now) read.new) }
    ensures stops { IfErr result (StopsAt read.old (map (λ word. word.now) words.now)) }
{
    let number = read.number;
    if is_skipped(words) {
        read.number = number + 1;
        return Ok(());
    }
    if is_phase_end(words) {
        // No `Script` tells so many phases. A script that has them is above 24 GiB.
        if read.phase + 1 == MAX_PHASES {
            return Err(ScriptError::OutOfMemory);
        }
        read.phase += 1;
        read.number = number + 1;
        return Ok(());
    }
    let (lane, command) = match command_line(alloc, read.lines.as_slice().len(), words) {
        Ok(lane_and_command) => lane_and_command,
        Err(error) => return Err(at_line(number, error)),
    };
    let line = Line {
        line: number,
        lane,
        phase: read.phase,
        command,
    };
    read.lines.push(line)?;
    read.number = number + 1;
    Ok(())
}

// Takes a line by its bytes. Its words come into the list, whose memory serves each line.
fn take_line<'a>(
    alloc: Global,
    read: &mut Progress,
    words: &mut Vec<&'a [u8]>,
    line: &'a [u8],
) -> Result<(), ScriptError>
    requires { read.old.number + 1 < 2 ^ 64 }
    ensures goes_on { OnOk result (GoesOn read.old (words_of (strip_carriage_return line.now)) read.new) }
    ensures stops { IfErr result (StopsAt read.old (words_of (strip_carriage_return line.now))) }
{
    match read_words(words, without_return(line)) {
        Ok(()) => take(alloc, read, words.as_slice()),
        Err(error) => Err(ScriptError::from(OutOfMemory::from(error))),
    }
}

#[tactic(auto, unfolding(crate::specs::Script::lanes_of))]
fn lanes_of(lines: &[Line]) -> u8
    ensures { result ≡ lanes_of lines.now }
{
    let mut most = 1;
    for line in lines {
        most = most.max(line.lane);
    }
    most
}

fn script_from(alloc: Global, bytes: &[u8]) -> Result<Script, ScriptError>
    ensures script { IsParsed (script_of bytes.now) result }
{
    let mut read = Progress {
        number: 1,
        phase: 0,
        lines: Items::from_vec(Vec::new(alloc)),
    };
    let mut words = Vec::new(alloc);
    for line in bytes.split(|byte| *byte == b'\n') {
        take_line(alloc, &mut read, &mut words, line)?;
    }
    Ok(Script {
        lanes: lanes_of(read.lines.as_slice()),
        phases: read.phase + 1,
        lines: read.lines,
    })
}

/// The script that the bytes are, or its first bad line. `OutOfMemory` also stands for a script of more than
/// 4,294,967,295 phases, which has more than 24 GiB and whose phases no `Script` can tell.
pub fn parse(alloc: Global, bytes: &[u8]) -> Result<Script, ScriptError>
    ensures script { IsParsed (script_of bytes.now) result }
    ensures well_formed { IfOk result (λ script. IsWellFormed script) }
{
    script_from(alloc, bytes)
}
