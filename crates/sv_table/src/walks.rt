// Going over a whole file's fields.
ghost use Rattle.std.specs.Prelude.{◌≡◌, IfOk};
ghost use Rattle.sv_model.specs.TableTextFields.{start};
ghost use Rattle.sv_table.specs.Decoding.{IsTable};
ghost use Rattle.sv_table.specs.Lookups.{hit_op, found_in};
ghost use Rattle.sv_table.specs.Reading.{walked, entries_in, exact_key_at, tail_at, file_at};
ghost use Rattle.sv_table.specs.Views.{Gives, format_is, header_is, seen_is};

use crate::faults::Stuck;
use crate::fields::{byte_at, bytes_at};
use crate::formats::{Format, has_range};
use crate::headers::{Header, header_at};
use crate::hits::Hit;
use crate::lookups::first_hit;
use crate::rows::{Seen, entry_at, see, shape_of, start};

/// Over the rows: what was seen last, the bytes after them, and what the first row of the key does whose end is at most
/// the cut.
fn walk<'a>(
    header: &Header,
    bytes: &'a [u8],
    key: &[u8],
    cut: u64,
) -> Result<(Seen<'a>, &'a [u8], Option<Hit<'a>>), Stuck>
    ensures gives { Gives (λ x. (seen_is x.0, x.1.now)) result (walked start (entries_in (header_is header.now) bytes.now)) }
    ensures found { let h = header_is header.now in IfOk result (λ x. hit_op x.2 ≡ found_in h key.now cut (entries_in h bytes.now)) }
{
    let shape = shape_of(header);
    let count = header.count;
    let mut seen = start();
    let mut rest = bytes;
    let mut found = None;
    for i in 0..count {
        let (row, after) = entry_at(shape, count - 1 - i, seen, rest)?;
        found = first_hit(header, found, row, key, cut);
        seen = see(seen, row);
        rest = after;
    }
    Ok((seen, rest, found))
}

/// The bytes after this very key with its length.
#[tactic(auto, unfolding(crate::specs::Reading::exact_key_at))]
fn exact_key_at<'a>(key: &[u8], bytes: &'a [u8]) -> Result<&'a [u8], Stuck>
    ensures { Gives (λ x. (key.now, x.now)) result (exact_key_at key.now bytes.now) }
{
    let (len, after_len) = byte_at(bytes)?;
    if usize::from(len) != key.len() {
        return Err(Stuck { left: bytes.len() });
    }
    let (found, rest) = bytes_at(key.len(), after_len)?;
    if found != key {
        return Err(Stuck {
            left: after_len.len(),
        });
    }
    Ok(rest)
}

/// The bytes after the range of the keys, where there is one.
#[tactic(auto, unfolding(crate::specs::Reading::tail_at))]
fn tail_at<'a>(
    format: Format,
    least: &[u8],
    greatest: &[u8],
    bytes: &'a [u8],
) -> Result<&'a [u8], Stuck>
    ensures { Gives (λ x. (greatest.now, x.now)) result (tail_at (format_is format) least.now greatest.now bytes.now) }
{
    if !has_range(format, least) {
        return Ok(bytes);
    }
    let rest = exact_key_at(least, bytes)?;
    exact_key_at(greatest, rest)
}

/// The header of a whole file, the bytes after it, and what the first row of the key does whose end is at most the cut.
#[tactic(auto, unfolding(crate::specs::Reading::file_at))]
pub(crate) fn file_for<'a>(
    bytes: &'a [u8],
    key: &[u8],
    cut: u64,
) -> Result<(Header, &'a [u8], Option<Hit<'a>>), Stuck>
    ensures gives { Gives (λ x. (header_is x.0, x.1.now)) result (file_at bytes.now) }
    ensures table { IfOk result (λ x. IsTable bytes.now (header_is x.0) x.1.now) }
    ensures found { IfOk result (λ x. hit_op x.2 ≡ found_in (header_is x.0) key.now cut (entries_in (header_is x.0) x.1.now)) }
{
    let (header, rows) = match header_at(bytes) {
        Ok(read) => read,
        Err(stuck) => return Err(stuck),
    };
    let (seen, after_rows, found) = walk(&header, rows, key, cut)?;
    let rest = tail_at(header.format, seen.first, seen.key, after_rows)?;
    if !rest.is_empty() {
        return Err(Stuck { left: rest.len() });
    }
    Ok((header, rows, found))
}

/// The header of a whole file, and the bytes after it. No row is looked for: none has an empty key.
pub(crate) fn file_at(bytes: &[u8]) -> Result<(Header, &[u8]), Stuck>
    ensures gives { Gives (λ x. (header_is x.0, x.1.now)) result (file_at bytes.now) }
    ensures table { IfOk result (λ x. IsTable bytes.now (header_is x.0) x.1.now) }
{
    match file_for(bytes, &[], 0) {
        Ok((header, rows, _)) => Ok((header, rows)),
        Err(stuck) => Err(stuck),
    }
}
