// Reading a source to its end, and writing a text whole.
ghost use Rattle.std.specs.Prelude.{◌≡◌, ◌<◌, ◌≤◌, IfOk, IfErr, OnOk, OnErr, vec_len};
ghost use Rattle.std.specs.Io.KnownBytes.{Appends};
ghost use Rattle.sv_model.specs.Faults.{HasCause};
ghost use Rattle.sv_run.specs.Stops.{Stops};
ghost use Rattle.sv_run.specs.Transfers.{AppendsPart, MovesPiece, ReadsWhole, TakesAtMost};

use crate::stops::ReadStop;
use crate::streams::{Failed, Sink, Source};
use std::alloc::{AllocError, Global};

/// The greatest number of bytes of a script.
pub const MAX_SCRIPT: usize = 16_777_216;

/// How many bytes one call of a source is asked for.
const PIECE: usize = 65_536;

fn zeros(alloc: Global, count: usize) -> Result<Vec<u8>, AllocError>
    ensures { IfOk result (λ v. vec_len v ≡ count) }
{
    vec![in alloc; 0u8; count]
}

// Reads one piece onto the end of the bytes, and says how long it was: 0 at the end of the input.
fn read_piece<S: Source>(
    source: &mut S,
    buffer: &mut Vec<u8>,
    bytes: &mut Vec<u8>,
) -> Result<usize, ReadStop>
    requires some { 0 < vec_len buffer.old }
    ensures moved { IfOk result (MovesPiece (S.left source.old) (S.left source.new) bytes.old.items bytes.new.items) }
    ensures count { IfOk result (λ n. n ≤ vec_len buffer.old) }
    ensures room { vec_len buffer.new ≡ vec_len buffer.old }
    ensures took { TakesAtMost (vec_len buffer.old) (S.left source.old) (S.left source.new) }
    ensures stopped { IfErr result (Stops (S.left source.old) (S.faults source.old) (S.faults source.new)) }
    ensures later { S.faults source.old ≤ S.faults source.new }
{
    match source.read(buffer.as_mut_slice()) {
        Ok(count) => match bytes.extend_from_slice(&buffer[..count]) {
            Ok(()) => Ok(count),
            Err(_) => Err(ReadStop::OutOfMemory),
        },
        Err(_) => Err(ReadStop::Fault),
    }
}

/// Reads the source to its end, or until it has given one byte more than a script may have.
pub fn read_all<S: Source>(alloc: Global, source: &mut S) -> Result<Vec<u8>, ReadStop>
    ensures whole { IfOk result (λ bytes. ReadsWhole (S.left source.old) bytes.items) }
    ensures took { TakesAtMost 16777217 (S.left source.old) (S.left source.new) }
    ensures stopped { IfErr result (Stops (S.left source.old) (S.faults source.old) (S.faults source.new)) }
    ensures later { S.faults source.old ≤ S.faults source.new }
{
    let Ok(mut buffer) = zeros(alloc, PIECE) else {
        return Err(ReadStop::OutOfMemory);
    };
    let mut bytes = Vec::new(alloc);
    while bytes.len() <= MAX_SCRIPT {
        buffer.truncate(MAX_SCRIPT + 1 - bytes.len());
        let count = read_piece(source, &mut buffer, &mut bytes)?;
        if count == 0 {
            return Ok(bytes);
        }
    }
    Err(ReadStop::TooLong)
}

/// Writes the whole text, or a front of it where the sink fails.
pub fn write_all<K: Sink>(sink: &mut K, text: &[u8]) -> Result<(), Failed>
    ensures sent { OnOk result (Appends (K.written sink.old) (K.written sink.new) text.now) }
    ensures part { OnErr result (AppendsPart (K.written sink.old) (K.written sink.new) text.now) }
    ensures cause { HasCause (K.faults sink.old) (K.faults sink.new) result }
{
    let mut sent = 0;
    while sent < text.len() {
        match sink.write(&text[sent..]) {
            Ok(count) => sent += count,
            Err(failed) => return Err(failed),
        }
    }
    Ok(())
}
