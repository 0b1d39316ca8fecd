// What the program writes where no report is due.
ghost use Rattle.std.specs.Prelude.{◌≡◌, ◌++◌, OnOk, IfOk};
ghost use Rattle.sv_script.specs.OutcomeTexts.{bad_line_text, kind_word, outcome_text};

use crate::outcomes::Outcome;
use crate::scripts::{BadKind, BadLine};
use crate::texts::pieces::{push_bytes, push_numbered};
use std::alloc::Global;
use sv_model::OutOfMemory;

#[tactic(auto, unfolding(crate::specs::OutcomeTexts::kind_word))]
fn kind_word(kind: BadKind) -> &'static [u8]
    ensures { result.now ≡ kind_word kind }
{
    match kind {
        BadKind::Commands => b"commands",
        BadKind::Lane => b"lane",
        BadKind::Command => b"command",
        BadKind::Count => b"count",
        BadKind::Name => b"name",
        BadKind::Item => b"item",
        BadKind::Number => b"number",
        BadKind::Option => b"option",
        BadKind::Unbuilt => b"unbuilt",
    }
}

#[tactic(auto, unfolding(crate::specs::OutcomeTexts::bad_line_text))]
fn push_bad_line(out: &mut Vec<u8>, bad: BadLine) -> Result<(), OutOfMemory>
    ensures { OnOk result (out.new.items ≡ out.old.items ++ bad_line_text bad) }
{
    push_numbered(out, b"bad script line ", bad.line)?;
    push_bytes(out, b": ")?;
    push_bytes(out, kind_word(bad.kind))?;
    push_bytes(out, b"\n")
}

#[tactic(auto, unfolding(crate::specs::OutcomeTexts::outcome_text))]
fn push_outcome(out: &mut Vec<u8>, outcome: Outcome) -> Result<(), OutOfMemory>
    ensures { OnOk result (out.new.items ≡ out.old.items ++ outcome_text outcome) }
{
    match outcome {
        Outcome::Usage => push_bytes(
            out,
            b"usage: svrun run [--dir PATH]\n       svrun trial N\n       svrun --help\n",
        ),
        Outcome::BadScript(bad) => push_bad_line(out, bad),
        Outcome::ScriptTooLong => push_bytes(out, b"script too long\n"),
        Outcome::ReadFault => push_bytes(out, b"read fault\n"),
        Outcome::DirFault => push_bytes(out, b"directory fault\n"),
        Outcome::OutOfMemory => push_bytes(out, no_memory_text()),
    }
}

/// The text of an outcome, each of its lines ended by a line feed.
pub fn outcome_text(alloc: Global, outcome: Outcome) -> Result<Vec<u8>, OutOfMemory>
    ensures text { IfOk result (λ text. text.items ≡ outcome_text outcome) }
{
    let mut out = Vec::new(alloc);
    push_outcome(&mut out, outcome)?;
    Ok(out)
}

/// The text of `Outcome::OutOfMemory`, for where no memory is left to make it in.
#[tactic(auto, unfolding(crate::specs::OutcomeTexts::outcome_text))]
pub fn no_memory_text() -> &'static [u8]
    ensures text { result.now ≡ outcome_text Outcome.OutOfMemory }
{
    b"no memory\n"
}
