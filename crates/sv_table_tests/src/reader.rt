// A plain reader of table files, written from the rules of the formats alone, one field after the other.
use std::alloc::{AllocError, AllocFailed, Global};

/// Why it stopped: the place of the first bad field, or memory.
#[derive(Clone, Copy, Debug, PartialEq, Eq)]
pub enum Stop {
    Bad(usize),
    Memory,
}

impl From<AllocError> for Stop {
    fn from(_error: AllocError) -> Stop {
        Stop::Memory
    }
}

impl<T: Drop> From<AllocFailed<T>> for Stop {
    fn from(_error: AllocFailed<T>) -> Stop {
        Stop::Memory
    }
}

/// A row: its key, the end that it bears, and the value that it puts; none for a delete.
#[derive(Clone, Copy)]
pub struct PlainRow<'a> {
    pub key: &'a [u8],
    pub end: u64,
    pub value: Option<&'a [u8]>,
    number: u8,
}

#[derive(Drop)]
pub struct PlainTable<'a> {
    format: u8,
    pub from: u64,
    pub to: u64,
    pub last: bool,
    pub cuts: Vec<u64>,
    pub rows: Vec<PlainRow<'a>>,
}

fn field(bytes: &[u8], at: usize, len: usize) -> Result<&[u8], Stop> {
    bytes.get(at..at.saturating_add(len)).ok_or(Stop::Bad(at))
}

/// The byte at this place, where it is between the two.
fn byte(bytes: &[u8], at: usize, least: u8, greatest: u8) -> Result<u8, Stop> {
    match bytes.get(at) {
        Some(byte) if *byte >= least && *byte <= greatest => Ok(*byte),
        _ => Err(Stop::Bad(at)),
    }
}

/// The little-endian number of so many bytes, where it is between the two.
fn number(bytes: &[u8], at: usize, len: usize, least: u64, greatest: u64) -> Result<u64, Stop> {
    let mut n: u64 = 0;
    for byte in field(bytes, at, len)?.iter().rev() {
        n = n.wrapping_mul(256).wrapping_add(u64::from(*byte));
    }
    if n < least || n > greatest {
        return Err(Stop::Bad(at));
    }
    Ok(n)
}

/// The format, `from`, `to`, and the flag.
fn head(alloc: Global, bytes: &[u8]) -> Result<PlainTable<'_>, Stop> {
    let magic = field(bytes, 0, 8)?;
    let format = match magic.strip_prefix(b"SVTABLE".as_slice()) {
        Some([b'1']) => 1,
        Some([b'2']) => 2,
        Some([b'3']) => 3,
        _ => return Err(Stop::Bad(0)),
    };
    let from = number(bytes, 8, 8, 0, u64::MAX)?;
    let to = number(bytes, 16, 8, 0, u64::MAX)?;
    if to <= from {
        return Err(Stop::Bad(16));
    }
    let flag = byte(bytes, 24, if format == 2 { 1 } else { 0 }, 1)?;
    Ok(PlainTable {
        format,
        from,
        to,
        last: flag == 1,
        cuts: Vec::new(alloc),
        rows: Vec::new(alloc),
    })
}

/// The cuts, of which there are 1 to 64; and the place after them.
fn cuts(bytes: &[u8], table: &mut PlainTable<'_>) -> Result<usize, Stop> {
    if table.format != 3 {
        return Ok(25);
    }
    let count = byte(bytes, 25, 1, 64)?;
    let mut at: usize = 26;
    let mut before = table.from;
    for _ in 0..count {
        let cut = number(
            bytes,
            at,
            8,
            before.saturating_add(1),
            table.to.saturating_sub(1),
        )?;
        table.cuts.push(cut)?;
        before = cut;
        at = at.saturating_add(8);
    }
    Ok(at)
}

/// Whether the key may follow the row before.
fn may_follow(table: &PlainTable<'_>, key: &[u8]) -> bool {
    let Some(before) = table.rows.last() else {
        return true;
    };
    if table.format != 3 {
        return key.cmp(before.key).is_gt();
    }
    if table.last && before.value.is_none() {
        return key == before.key;
    }
    key.cmp(before.key).is_ge()
}

/// The greatest number that the row's end may have; none where it may have none.
fn greatest_end(table: &PlainTable<'_>, key: &[u8]) -> Option<u8> {
    match table.rows.last() {
        Some(before) if before.key == key => before.number.checked_sub(1),
        _ => u8::try_from(table.cuts.len()).ok(),
    }
}

/// A row after which `left` more are to come; and the place after it.
fn row<'a>(
    bytes: &'a [u8],
    at: usize,
    table: &PlainTable<'a>,
    left: u64,
) -> Result<(PlainRow<'a>, usize), Stop> {
    let len = usize::from(byte(bytes, at, 1, 64)?);
    let at = at.saturating_add(1);
    let key = field(bytes, at, len)?;
    if !may_follow(table, key) {
        return Err(Stop::Bad(at));
    }
    let mut at = at.saturating_add(len);
    let mut number: u8 = 0;
    if table.format == 3 {
        number = byte(bytes, at, 0, greatest_end(table, key).ok_or(Stop::Bad(at))?)?;
        at = at.saturating_add(1);
    }
    let end = *table.cuts.get(usize::from(number)).unwrap_or(&table.to);
    let put_only = table.last && (table.format != 3 || left == 0);
    let mark = byte(bytes, at, u8::from(put_only), 1)?;
    let at = at.saturating_add(1);
    if mark == 0 {
        let value = None;
        return Ok((
            PlainRow {
                key,
                end,
                value,
                number,
            },
            at,
        ));
    }
    let size = self::number(bytes, at, 2, 0, 1024)? as usize;
    let at = at.saturating_add(2);
    let value = Some(field(bytes, at, size)?);
    Ok((
        PlainRow {
            key,
            end,
            value,
            number,
        },
        at.saturating_add(size),
    ))
}

/// The place after this key with its length.
fn exact_key(bytes: &[u8], at: usize, key: &[u8]) -> Result<usize, Stop> {
    let len = u8::try_from(key.len()).ok().ok_or(Stop::Bad(at))?;
    byte(bytes, at, len, len)?;
    let at = at.saturating_add(1);
    if field(bytes, at, key.len())? != key {
        return Err(Stop::Bad(at));
    }
    Ok(at.saturating_add(key.len()))
}

/// The table whose text the bytes are; else the place of the first bad field.
pub fn read(alloc: Global, bytes: &[u8]) -> Result<PlainTable<'_>, Stop> {
    let mut table = head(alloc, bytes)?;
    let at = cuts(bytes, &mut table)?;
    let least = if table.last { 0 } else { 1 };
    let count = self::number(bytes, at, 4, least, table.to.saturating_sub(table.from))?;
    let mut at = at.saturating_add(4);
    for i in 0..count {
        let (row, after) = row(bytes, at, &table, count.saturating_sub(i).saturating_sub(1))?;
        table.rows.push(row)?;
        at = after;
    }
    if let (2, Some(first), Some(last)) = (table.format, table.rows.first(), table.rows.last()) {
        at = exact_key(bytes, at, first.key)?;
        at = exact_key(bytes, at, last.key)?;
    }
    if bytes.len() > at {
        return Err(Stop::Bad(at));
    }
    Ok(table)
}
