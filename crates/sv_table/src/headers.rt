// Reading a header.
ghost use Rattle.std.specs.Prelude.{◌≡◌, ◌≤◌, ◌&&◌, ◌||◌};
ghost use Rattle.sv_model.specs.TableTextFields.{is_count, is_cut, is_length};
ghost use Rattle.std.specs.Int.{w64};
ghost use Rattle.sv_table.specs.Reading.{checked, number_at, range_at, each_cut_at, some_cuts_at, bottom_at, header_at};
ghost use Rattle.sv_table.specs.Views.{Gives, format_is, header_is};

use crate::faults::Stuck;
use crate::fields::{byte_at, u32_at, u64_at};
use crate::formats::{Format, format_at, has_cuts, is_flag};
use sv_model::{Bottom, Cuts};

/// What a header says.
#[derive(Clone, Copy)]
pub(crate) struct Header {
    pub(crate) format: Format,
    pub(crate) from: u64,
    pub(crate) to: u64,
    pub(crate) bottom: Bottom,
    pub(crate) count: u32,
}

#[tactic(auto, unfolding(crate::specs::Reading::range_at))]
fn range_at(bytes: &[u8]) -> Result<((u64, u64), &[u8]), Stuck>
    ensures { Gives (λ x. (x.0, x.1.now)) result (range_at bytes.now) }
{
    let (from, after_from) = u64_at(bytes)?;
    let (to, rest) = u64_at(after_from)?;
    if to <= from {
        return Err(Stuck {
            left: after_from.len(),
        });
    }
    Ok(((from, to), rest))
}

/// A cut above the one before and inside the range.
fn cut_at(low: u64, to: u64, bytes: &[u8]) -> Result<(u64, &[u8]), Stuck>
    ensures { Gives (λ x. (x.0, x.1.now)) result (checked (λ c. is_cut low to c) bytes.now (number_at w64 bytes.now)) }
{
    let (cut, rest) = u64_at(bytes)?;
    if cut <= low || cut >= to {
        return Err(Stuck { left: bytes.len() });
    }
    Ok((cut, rest))
}

fn each_cut_at(count: u8, from: u64, to: u64, bytes: &[u8]) -> Result<(Cuts, &[u8]), Stuck>
    requires { count ≤ 64 }
    ensures { Gives (λ x. (x.0, x.1.now)) result (each_cut_at count from to bytes.now) }
{
    let mut cuts = Cuts::none();
    let mut low = from;
    let mut rest = bytes;
    for _ in 0..count {
        let (cut, after) = cut_at(low, to, rest)?;
        cuts.push(cut);
        low = cut;
        rest = after;
    }
    Ok((cuts, rest))
}

/// Whether a key may have so many bytes, or a file so many cuts.
pub(crate) fn is_length(len: u8) -> bool
    ensures { result ≡ is_length len }
{
    len >= 1 && len <= 64
}

#[tactic(auto, unfolding(crate::specs::Reading::some_cuts_at))]
fn some_cuts_at(from: u64, to: u64, bytes: &[u8]) -> Result<(Cuts, &[u8]), Stuck>
    ensures { Gives (λ x. (x.0, x.1.now)) result (some_cuts_at from to bytes.now) }
{
    let (count, rest) = byte_at(bytes)?;
    if !is_length(count) {
        return Err(Stuck { left: bytes.len() });
    }
    each_cut_at(count, from, to, rest)
}

#[tactic(auto, unfolding(crate::specs::Reading::bottom_at))]
fn bottom_at(format: Format, from: u64, to: u64, bytes: &[u8]) -> Result<(Bottom, &[u8]), Stuck>
    ensures { Gives (λ x. (x.0, x.1.now)) result (bottom_at (format_is format) from to bytes.now) }
{
    let (flag, after_flag) = byte_at(bytes)?;
    if !is_flag(format, flag) {
        return Err(Stuck { left: bytes.len() });
    }
    let last = flag == 1;
    if !has_cuts(format) {
        let cuts = Cuts::none();
        return Ok((Bottom { last, cuts }, after_flag));
    }
    match some_cuts_at(from, to, after_flag) {
        Ok((cuts, rest)) => Ok((Bottom { last, cuts }, rest)),
        Err(stuck) => Err(stuck),
    }
}

fn is_count(from: u64, to: u64, last: bool, count: u32) -> bool
    ensures { result ≡ is_count from to last count }
{
    u64::from(count) <= to.saturating_sub(from) && (last || count >= 1)
}

#[tactic(auto, unfolding(crate::specs::Reading::header_at))]
pub(crate) fn header_at(bytes: &[u8]) -> Result<(Header, &[u8]), Stuck>
    ensures { Gives (λ x. (header_is x.0, x.1.now)) result (header_at bytes.now) }
{
    let (format, after_magic) = format_at(bytes)?;
    let ((from, to), after_range) = range_at(after_magic)?;
    let (bottom, after_bottom) = match bottom_at(format, from, to, after_range) {
        Ok(read) => read,
        Err(stuck) => return Err(stuck),
    };
    let (count, rest) = u32_at(after_bottom)?;
    if !is_count(from, to, bottom.last, count) {
        return Err(Stuck {
            left: after_bottom.len(),
        });
    }
    let header = Header {
        format,
        from,
        to,
        bottom,
        count,
    };
    Ok((header, rest))
}
