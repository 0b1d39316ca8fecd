// The texts of replies.
ghost use Rattle.std.specs.Prelude.{◌≡◌, ◌++◌, OnOk, IfOk};
ghost use Rattle.sv_script.specs.ReplyTexts.{answer_text, file_text, reply_text, seen_text};
ghost use Rattle.sv_script.specs.Texts.{listed};

use crate::replies::Reply;
use crate::texts::pieces::{push_bytes, push_files, push_item, push_number, push_numbered};
use crate::texts::refusal::push_refusal;
use std::alloc::Global;
use sv_model::{FileNumber, OutOfMemory, SvSerial};

#[tactic(auto, unfolding(crate::specs::ReplyTexts::seen_text))]
fn push_seen(out: &mut Vec<u8>, cut: u64, sv: SvSerial) -> Result<(), OutOfMemory>
    ensures { OnOk result (out.new.items ≡ out.old.items ++ seen_text cut sv) }
{
    push_numbered(out, b" cut ", cut)?;
    push_numbered(out, b" sv ", sv.0 as u64)
}

#[tactic(auto, unfolding(crate::specs::ReplyTexts::file_text))]
fn push_file(out: &mut Vec<u8>, number: FileNumber, from: u64, to: u64) -> Result<(), OutOfMemory>
    ensures { OnOk result (out.new.items ≡ out.old.items ++ file_text number from to) }
{
    push_numbered(out, b" file ", number.0)?;
    push_numbered(out, b" from ", from)?;
    push_numbered(out, b" to ", to)
}

fn push_list(out: &mut Vec<u8>, word: &[u8], numbers: &[FileNumber]) -> Result<(), OutOfMemory>
    ensures { OnOk result (out.new.items ≡ out.old.items ++ (word.now ++ listed numbers.now)) }
{
    push_bytes(out, word)?;
    push_files(out, numbers)
}

#[tactic(auto, unfolding(crate::specs::ReplyTexts::answer_text))]
fn push_answer(out: &mut Vec<u8>, reply: &Reply) -> Result<(), OutOfMemory>
    ensures { OnOk result (out.new.items ≡ out.old.items ++ answer_text reply.now) }
{
    match reply {
        Reply::Put(n) => push_numbered(out, b"ok put ", *n),
        Reply::Delete(n) => push_numbered(out, b"ok delete ", *n),
        Reply::Found { value, cut, sv } => {
            push_bytes(out, b"found ")?;
            push_item(out, value.as_bytes())?;
            push_seen(out, *cut, *sv)
        }
        Reply::Absent { cut, sv } => {
            push_bytes(out, b"absent")?;
            push_seen(out, *cut, *sv)
        }
        Reply::Flush { number, from, to } => {
            push_bytes(out, b"ok flush")?;
            push_file(out, *number, *from, *to)
        }
        Reply::Compact { number, from, to } => {
            push_bytes(out, b"ok compact")?;
            push_file(out, *number, *from, *to)
        }
        Reply::Create(id) => push_numbered(out, b"ok create ", id.0 as u64),
        Reply::Open(id) => push_numbered(out, b"ok open ", id.0 as u64),
        Reply::Release => push_bytes(out, b"ok release"),
        Reply::Drop => push_bytes(out, b"ok drop"),
        Reply::Set(sv) => push_numbered(out, b"ok set sv ", sv.0 as u64),
        Reply::Pin { pin, sv } => {
            push_numbered(out, b"ok pin ", *pin as u64)?;
            push_numbered(out, b" sv ", sv.0 as u64)
        }
        Reply::Unpin => push_bytes(out, b"ok unpin"),
        Reply::Hold(count) => push_numbered(out, b"ok hold ", *count as u64),
        Reply::Unhold(count) => push_numbered(out, b"ok unhold ", *count as u64),
        Reply::Live(numbers) => push_list(out, b"ok live", numbers.as_slice()),
        Reply::Purge(numbers) => push_list(out, b"ok purge", numbers.as_slice()),
        Reply::Scan(numbers) => push_list(out, b"ok scan", numbers.as_slice()),
        Reply::Rest(count) => push_numbered(out, b"ok rest ", *count as u64),
        Reply::Snap { snapshot, at } => {
            push_numbered(out, b"ok snap ", *snapshot as u64)?;
            push_numbered(out, b" at ", *at)
        }
        Reply::Unsnap => push_bytes(out, b"ok unsnap"),
        Reply::Refused(refusal) => push_refusal(out, *refusal),
    }
}

// Appends the line of a reply.
#[tactic(auto, unfolding(crate::specs::ReplyTexts::reply_text))]
pub(crate) fn push_reply(out: &mut Vec<u8>, line: u64, reply: &Reply) -> Result<(), OutOfMemory>
    ensures { OnOk result (out.new.items ≡ out.old.items ++ reply_text line reply.now) }
{
    push_number(out, line)?;
    push_bytes(out, b" ")?;
    push_answer(out, reply)?;
    push_bytes(out, b"\n")
}

/// The line of a reply: the number of its line, one space, the reply, a line feed.
pub fn reply_text(alloc: Global, line: u64, reply: &Reply) -> Result<Vec<u8>, OutOfMemory>
    ensures text { IfOk result (λ text. text.items ≡ reply_text line reply.now) }
{
    let mut out = Vec::new(alloc);
    push_reply(&mut out, line, reply)?;
    Ok(out)
}
