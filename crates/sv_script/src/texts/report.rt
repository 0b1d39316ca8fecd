// The text of a report.
ghost use Rattle.std.specs.Prelude.{◌≡◌, ◌++◌, OnOk, IfOk, flat_map};
ghost use Rattle.sv_script.specs.ReportTexts.{
  end_text,
  family_counts,
  family_head,
  family_text,
  files_text,
  lane_text,
  last_files,
  report_text,
  standing_text,
  strays_text,
  summary_text,
  tail_text,
  totals_text,
};
ghost use Rattle.sv_script.specs.ReplyTexts.{reply_text};

use crate::replies::{LaneReport, Reply, Tail};
use crate::texts::pieces::{push_bytes, push_files, push_numbered};
use crate::texts::reply::push_reply;
use std::alloc::Global;
use sv_model::{End, FamilyLine, FileNumber, OutOfMemory, Summary, Totals};

#[tactic(auto, unfolding(crate::specs::ReportTexts::tail_text))]
fn push_tail(out: &mut Vec<u8>, lane: u8, tail: &Tail) -> Result<(), OutOfMemory>
    ensures { OnOk result (out.new.items ≡ out.old.items ++ tail_text lane tail.now) }
{
    push_numbered(out, b"lane ", lane as u64)?;
    push_numbered(out, b" uses ", tail.uses)?;
    push_numbered(out, b" misses ", tail.misses)?;
    push_numbered(out, b" swept ", tail.swept)?;
    push_bytes(out, b"\n")
}

fn push_replies(out: &mut Vec<u8>, replies: &[(u64, Reply)]) -> Result<(), OutOfMemory>
    ensures { OnOk result (out.new.items ≡ out.old.items ++ flat_map (λ r. reply_text r.0 r.1) replies.now) }
{
    for (line, reply) in replies {
        push_reply(out, *line, reply)?;
    }
    Ok(())
}

#[tactic(auto, unfolding(crate::specs::ReportTexts::lane_text))]
fn push_lane(out: &mut Vec<u8>, lane: &LaneReport) -> Result<(), OutOfMemory>
    ensures { OnOk result (out.new.items ≡ out.old.items ++ lane_text lane.now) }
{
    push_numbered(out, b"lane ", lane.lane as u64)?;
    push_bytes(out, b"\n")?;
    push_replies(out, lane.replies.as_slice())?;
    push_tail(out, lane.lane, &lane.counts)
}

#[tactic(auto, unfolding(crate::specs::ReportTexts::files_text))]
fn push_family_files(out: &mut Vec<u8>, numbers: &[FileNumber]) -> Result<(), OutOfMemory>
    ensures { OnOk result (out.new.items ≡ out.old.items ++ files_text numbers.now) }
{
    if numbers.is_empty() {
        return push_bytes(out, b" none");
    }
    push_files(out, numbers)
}

fn push_standing(out: &mut Vec<u8>, dropped: bool) -> Result<(), OutOfMemory>
    ensures { OnOk result (out.new.items ≡ out.old.items ++ standing_text dropped) }
{
    if dropped {
        return push_bytes(out, b" dropped");
    }
    push_bytes(out, b" live")
}

fn last_files(family: &FamilyLine) -> &[FileNumber]
    ensures { result.now ≡ last_files family.now }
{
    if family.dropped {
        return &[];
    }
    family.files.as_slice()
}

#[tactic(auto, unfolding(crate::specs::ReportTexts::family_head))]
fn push_family_head(out: &mut Vec<u8>, family: &FamilyLine) -> Result<(), OutOfMemory>
    ensures { OnOk result (out.new.items ≡ out.old.items ++ family_head family.now) }
{
    push_numbered(out, b"family ", family.id.0 as u64)?;
    push_bytes(out, b" ")?;
    push_bytes(out, family.name.as_bytes())?;
    push_standing(out, family.dropped)
}

#[tactic(auto, unfolding(crate::specs::ReportTexts::family_counts))]
fn push_family_counts(out: &mut Vec<u8>, family: &FamilyLine) -> Result<(), OutOfMemory>
    ensures { OnOk result (out.new.items ≡ out.old.items ++ family_counts family.now) }
{
    push_numbered(out, b" writes ", family.writes)?;
    push_bytes(out, b" files")?;
    push_family_files(out, last_files(family))?;
    push_bytes(out, b"\n")
}

#[tactic(auto, unfolding(crate::specs::ReportTexts::family_text))]
fn push_family(out: &mut Vec<u8>, family: &FamilyLine) -> Result<(), OutOfMemory>
    ensures { OnOk result (out.new.items ≡ out.old.items ++ family_text family.now) }
{
    push_family_head(out, family)?;
    push_family_counts(out, family)
}

#[tactic(auto, unfolding(crate::specs::ReportTexts::totals_text))]
fn push_totals(out: &mut Vec<u8>, word: &[u8], totals: &Totals) -> Result<(), OutOfMemory>
    ensures { OnOk result (out.new.items ≡ out.old.items ++ totals_text word.now totals.now) }
{
    push_bytes(out, word)?;
    push_numbered(out, b" superversions ", totals.superversions)?;
    push_numbered(out, b" memtables ", totals.memtables)?;
    push_numbered(out, b" files ", totals.files)?;
    push_bytes(out, b"\n")?;
    Ok(())
}

#[tactic(auto, unfolding(crate::specs::ReportTexts::strays_text))]
fn push_strays(out: &mut Vec<u8>, seen: u64, gone: u64) -> Result<(), OutOfMemory>
    ensures { OnOk result (out.new.items ≡ out.old.items ++ strays_text seen gone) }
{
    push_numbered(out, b"strays seen ", seen)?;
    push_numbered(out, b" gone ", gone)?;
    push_bytes(out, b"\n")?;
    Ok(())
}

#[tactic(auto, unfolding(crate::specs::ReportTexts::end_text))]
fn push_end(out: &mut Vec<u8>, end: End, left: &[FileNumber]) -> Result<(), OutOfMemory>
    ensures { OnOk result (out.new.items ≡ out.old.items ++ end_text end left.now) }
{
    match end {
        End::Clean => push_bytes(out, b"end clean\n"),
        End::DirFault => {
            push_bytes(out, b"end left")?;
            push_files(out, left)?;
            push_bytes(out, b"\n")
        }
        End::OutOfMemory => {
            push_bytes(out, b"end no memory left")?;
            push_files(out, left)?;
            push_bytes(out, b"\n")
        }
    }
}

fn push_families(out: &mut Vec<u8>, families: &[FamilyLine]) -> Result<(), OutOfMemory>
    ensures { OnOk result (out.new.items ≡ out.old.items ++ flat_map family_text families.now) }
{
    for family in families {
        push_family(out, family)?;
    }
    Ok(())
}

#[tactic(auto, unfolding(crate::specs::ReportTexts::summary_text))]
fn push_summary(out: &mut Vec<u8>, summary: &Summary) -> Result<(), OutOfMemory>
    ensures { OnOk result (out.new.items ≡ out.old.items ++ summary_text summary.now) }
{
    push_families(out, summary.families.as_slice())?;
    push_totals(out, b"made", &summary.made)?;
    push_totals(out, b"gone", &summary.gone)?;
    push_strays(out, summary.strays_seen, summary.strays_gone)?;
    push_end(out, summary.end, summary.left.as_slice())
}

fn push_lanes(out: &mut Vec<u8>, lanes: &[LaneReport]) -> Result<(), OutOfMemory>
    ensures { OnOk result (out.new.items ≡ out.old.items ++ flat_map lane_text lanes.now) }
{
    for lane in lanes {
        push_lane(out, lane)?;
    }
    Ok(())
}

/// What a lane counted: `lane L uses U misses M swept W` and a line feed.
pub fn tail_text(alloc: Global, lane: u8, tail: &Tail) -> Result<Vec<u8>, OutOfMemory>
    ensures text { IfOk result (λ text. text.items ≡ tail_text lane tail.now) }
{
    let mut out = Vec::new(alloc);
    push_tail(&mut out, lane, tail)?;
    Ok(out)
}

/// The whole report: for each lane a line with its number, its replies and what it counted; then a line
/// for each family, what was made, what is gone, the strays, and how close ended.
#[tactic(auto, unfolding(crate::specs::ReportTexts::report_text))]
pub fn report_text(
    alloc: Global,
    lanes: &[LaneReport],
    summary: &Summary,
) -> Result<Vec<u8>, OutOfMemory>
    ensures text { IfOk result (λ text. text.items ≡ report_text lanes.now summary.now) }
{
    let mut out = Vec::new(alloc);
    push_lanes(&mut out, lanes)?;
    push_summary(&mut out, summary)?;
    Ok(out)
}
