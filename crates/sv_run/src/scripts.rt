// The script of a source, or how its reading ends.
ghost use Rattle.std.specs.Prelude.{◌≡◌, ◌≤◌, ℕ, List, IfOk, IfErr, IfSome, None, length};
ghost use Rattle.sv_script.specs.ScriptLaws.{IsWellFormed};
ghost use Rattle.sv_run.specs.Ends.{Comes, IsScript};
ghost use Rattle.sv_run.specs.Handed.{Directory, Input, IsUntouched};
ghost use Rattle.sv_run.specs.Stops.{Stops};
ghost use Rattle.sv_run.specs.Transfers.{TakesAtMost};

use crate::outcomes::Status;
use crate::stops::ReadStop;
use crate::streams::Source;
use crate::transfers::read_all;
use std::alloc::Global;
use sv_script::{Script, ScriptError, parse};

fn status_of(stop: ReadStop) -> Status
    ensures { (i : Input) (d : Directory) → IsUntouched d → Stops i.left i.before i.now stop → Comes i d None result }
{
    match stop {
        ReadStop::TooLong => Status::ScriptTooLong,
        ReadStop::Fault => Status::ReadFault,
        ReadStop::OutOfMemory => Status::OutOfMemory,
    }
}

fn script_of(alloc: Global, bytes: &[u8]) -> Result<Script, Status>
    requires { length bytes.now ≤ 16777216 }
    ensures script { IfOk result (λ script. IsScript script bytes.now) }
    ensures well_formed { IfOk result (λ script. IsWellFormed script) }
    ensures err { IfErr result (λ status. (i : Input) (d : Directory) → IsUntouched d → IfSome i.left (λ had. bytes.now ≡ had) → Comes i d None status) }
{
    match parse(alloc, bytes) {
        Ok(script) => Ok(script),
        Err(ScriptError::Bad(bad)) => Err(Status::BadScript(bad)),
        Err(ScriptError::OutOfMemory) => Err(Status::OutOfMemory),
    }
}

/// Reads the source to its end, as a script.
pub fn read_script<S: Source>(alloc: Global, source: &mut S) -> Result<Script, Status>
    ensures script { IfOk result (λ script. IfSome (S.left source.old) (IsScript script)) }
    ensures well_formed { IfOk result (λ script. IsWellFormed script) }
    ensures err { IfErr result (λ status. (words : List (List ℕ)) (d : Directory) → IsUntouched d
        → Comes (record { words = words; left = S.left source.old; before = S.faults source.old; now = S.faults source.new }) d None status) }
    ensures took { TakesAtMost 16777217 (S.left source.old) (S.left source.new) }
    ensures later { S.faults source.old ≤ S.faults source.new }
{
    match read_all(alloc, source) {
        Ok(bytes) => script_of(alloc, bytes.as_slice()),
        Err(stop) => Err(status_of(stop)),
    }
}
