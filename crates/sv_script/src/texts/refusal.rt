// The texts of refusals.
ghost use Rattle.std.specs.Prelude.{◌≡◌, ◌++◌, OnOk};
ghost use Rattle.sv_script.specs.RefusalTexts.{refusal_fields, refusal_head, refusal_text};
ghost use Rattle.sv_script.specs.Texts.{listed};

use crate::texts::pieces::{push_bytes, push_listed};
use sv_model::{OutOfMemory, Refusal};

#[tactic(auto, unfolding(crate::specs::RefusalTexts::refusal_head))]
fn refusal_head(refusal: Refusal) -> &'static [u8]
    ensures { result.now ≡ refusal_head refusal }
{
    match refusal {
        Refusal::KeyLength { .. } => b"refused 1 KeyLength",
        Refusal::ValueLength { .. } => b"refused 2 ValueLength",
        Refusal::TooManyLive => b"refused 3 TooManyLive",
        Refusal::RegisterFull => b"refused 4 RegisterFull",
        Refusal::NameTaken => b"refused 5 NameTaken",
        Refusal::TooManyFamilies => b"refused 6 TooManyFamilies",
        Refusal::NoFamily => b"refused 7 NoFamily",
        Refusal::AlreadyOpen => b"refused 8 AlreadyOpen",
        Refusal::NotOpen => b"refused 9 NotOpen",
        Refusal::IsDefault => b"refused 10 IsDefault",
        Refusal::Dropped => b"refused 11 Dropped",
        Refusal::BadOption { .. } => b"refused 12 BadOption",
        Refusal::NoHold => b"refused 13 NoHold",
        Refusal::Disabled { .. } => b"refused 14 Disabled",
        Refusal::Stalled => b"refused 15 Stalled",
        Refusal::NothingToFlush => b"refused 16 NothingToFlush",
        Refusal::JournalFull => b"refused 17 JournalFull",
        Refusal::TooManyMemtables => b"refused 18 TooManyMemtables",
        Refusal::TooManyPins => b"refused 19 TooManyPins",
        Refusal::NoPin => b"refused 20 NoPin",
        Refusal::DirFault { .. } => b"refused 21 DirFault",
        Refusal::BadFile { .. } => b"refused 22 BadFile",
        Refusal::Busy { .. } => b"refused 23 Busy",
        Refusal::NothingToCompact => b"refused 24 NothingToCompact",
        Refusal::TooManyHolds => b"refused 25 TooManyHolds",
        Refusal::TooManySnapshots => b"refused 26 TooManySnapshots",
        Refusal::NoSnapshot => b"refused 27 NoSnapshot",
        Refusal::NoIterator => b"refused 28 NoIterator",
        Refusal::NoHandle { .. } => b"refused 29 NoHandle",
        Refusal::OutOfMemory => b"no memory",
    }
}

#[tactic(auto, unfolding(crate::specs::RefusalTexts::refusal_fields, crate::specs::Texts::listed))]
fn push_fields(out: &mut Vec<u8>, refusal: Refusal) -> Result<(), OutOfMemory>
    ensures { OnOk result (out.new.items ≡ out.old.items ++ listed (refusal_fields refusal)) }
{
    match refusal {
        Refusal::KeyLength { length } | Refusal::ValueLength { length } => {
            push_listed(out, &[length])
        }
        Refusal::BadOption {
            value,
            least,
            greatest,
        } => push_listed(out, &[value, least, greatest]),
        Refusal::Disabled { count } => push_listed(out, &[count]),
        Refusal::DirFault { number } | Refusal::Busy { number } => push_listed(out, &[number]),
        Refusal::BadFile { number, place } => push_listed(out, &[number, place]),
        Refusal::NoHandle { index } => push_listed(out, &[index]),
        _ => Ok(()),
    }
}

// Appends the refusal.
#[tactic(auto, unfolding(crate::specs::RefusalTexts::refusal_text))]
pub(crate) fn push_refusal(out: &mut Vec<u8>, refusal: Refusal) -> Result<(), OutOfMemory>
    ensures { OnOk result (out.new.items ≡ out.old.items ++ refusal_text refusal) }
{
    push_bytes(out, refusal_head(refusal))?;
    push_fields(out, refusal)
}
