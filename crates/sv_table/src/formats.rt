// The three formats of table files.
ghost use Rattle.std.specs.Prelude.{◌≡◌};
ghost use Rattle.sv_model.specs.TableText.{magic, written};
ghost use Rattle.sv_model.specs.TableTextFields.{has_cuts, is_flag};
ghost use Rattle.sv_table.specs.Reading.{format_at, has_range};
ghost use Rattle.sv_table.specs.Views.{Gives, format_is};

use crate::faults::Stuck;
use crate::fields::bytes_at;
use sv_model::Bottom;

/// How a file is written.
#[derive(Clone, Copy, Debug, PartialEq, Eq)]
pub(crate) enum Format {
    /// Without cuts. It was once also written where nothing lies below.
    One,
    /// Without cuts, where nothing lies below. The range of the keys follows the rows.
    Two,
    /// With cuts.
    Three,
}

/// The format in which a table is written.
pub(crate) fn format_of(bottom: &Bottom) -> Format
    ensures { format_is result ≡ written bottom.now.last bottom.now.cuts }
{
    if !bottom.cuts.as_slice().is_empty() {
        Format::Three
    } else if bottom.last {
        Format::Two
    } else {
        Format::One
    }
}

pub(crate) fn magic_of(format: Format) -> [u8; 8]
    ensures { result ≡ magic (format_is format) }
{
    match format {
        Format::One => *b"SVTABLE1",
        Format::Two => *b"SVTABLE2",
        Format::Three => *b"SVTABLE3",
    }
}

/// Whether cuts, and the ends of rows, are written.
#[inline(always)]
pub(crate) fn has_cuts(format: Format) -> bool
    ensures { result ≡ has_cuts (format_is format) }
{
    matches!(format, Format::Three)
}

/// Whether a flag tells that something, or nothing, lies below.
pub(crate) fn is_flag(format: Format, flag: u8) -> bool
    ensures { result ≡ is_flag (format_is format) flag }
{
    match format {
        Format::Two => flag == 1,
        Format::One | Format::Three => flag <= 1,
    }
}

/// Whether the range of the keys follows the rows, of which the first has this key, or which are none.
pub(crate) fn has_range(format: Format, least: &[u8]) -> bool
    ensures { result ≡ has_range (format_is format) least.now }
{
    match format {
        Format::Two => !least.is_empty(),
        Format::One | Format::Three => false,
    }
}

/// The format that the magic tells, and the bytes after it.
#[tactic(auto, unfolding(crate::specs::Reading::format_at))]
pub(crate) fn format_at(bytes: &[u8]) -> Result<(Format, &[u8]), Stuck>
    ensures { Gives (λ x. (format_is x.0, x.1.now)) result (format_at bytes.now) }
{
    let (magic, rest) = bytes_at(8, bytes)?;
    if magic == b"SVTABLE1".as_slice() {
        return Ok((Format::One, rest));
    }
    if magic == b"SVTABLE2".as_slice() {
        return Ok((Format::Two, rest));
    }
    if magic == b"SVTABLE3".as_slice() {
        return Ok((Format::Three, rest));
    }
    Err(Stuck { left: bytes.len() })
}
