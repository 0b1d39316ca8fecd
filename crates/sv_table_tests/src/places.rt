// The place of the first bad field: the cases worked out by hand, and each front and each changed byte of small files
// against a plain reader, which also tells the same table of bytes that are still one.
use crate::reader::{PlainRow, PlainTable, Stop, read};
use crate::texts::{COVERED, CUT, DELETES, EMPTY, LAST, OLD, PLAIN, RENEWED};
use std::alloc::Global;
use std::test::*;
use sv_model::{Kept, Op, Table};
use sv_table::{Bad, Checked, DecodeError, check, decode};

/// The place that reading tells, or none where the bytes are a table's text.
fn place_of<T: Drop>(read: Result<T, DecodeError>) -> Result<Option<u64>, Fail> {
    match read {
        Ok(_) => Ok(None),
        Err(DecodeError::Bad { place }) => Ok(Some(place)),
        Err(DecodeError::OutOfMemory) => Err("no memory")?,
    }
}

/// What all ways to read bytes tell of them: a place, or none where they are a table's text.
fn place(alloc: Global, bytes: &[u8]) -> Result<Option<u64>, Fail> {
    let decoded = place_of(decode(alloc, bytes))?;
    let kept = place_of(Checked::new(bytes.to_vec(alloc)?))?;
    let checked = match check(bytes) {
        Ok(_) => None,
        Err(Bad { place }) => Some(place),
    };
    if decoded != checked || kept != checked {
        Err("different places are told")?;
    }
    Ok(checked)
}

/// The bytes with one of them changed.
fn changed(alloc: Global, bytes: &[u8], at: usize, byte: u8) -> Result<Vec<u8>, Fail> {
    let mut other = bytes.to_vec(alloc)?;
    if at < other.len() {
        other[at] = byte;
    }
    Ok(other)
}

/// The bytes with a byte more.
fn longer(alloc: Global, bytes: &[u8]) -> Result<Vec<u8>, Fail> {
    let mut other = bytes.to_vec(alloc)?;
    other.push(0)?;
    Ok(other)
}

#[test]
fn whole_files(rt: HostRuntime) -> Result<(), Fail> {
    let alloc = rt.alloc();
    for text in [
        PLAIN.as_slice(),
        LAST.as_slice(),
        EMPTY.as_slice(),
        CUT.as_slice(),
        OLD.as_slice(),
        RENEWED.as_slice(),
        DELETES.as_slice(),
        COVERED.as_slice(),
    ] {
        assert_eq!(rt; place(alloc, text)?, None);
        assert_eq!(rt;
            place(alloc, &longer(alloc, text)?)?,
            Some(text.len() as u64)
        );
    }
    assert_eq!(rt; place(alloc, &[])?, Some(0));
    Ok(())
}

#[test]
fn places_by_hand(rt: HostRuntime) -> Result<(), Fail> {
    let alloc = rt.alloc();
    // A file, the place of the byte that is set, the byte, and the place that is to be told.
    let cases: [(&[u8], usize, u8, u64); 22] = [
        (&PLAIN, 16, 0, 16),
        (&PLAIN, 24, 2, 24),
        (&PLAIN, 25, 2, 25),
        (&PLAIN, 29, 0, 29),
        (&PLAIN, 31, 2, 31),
        (&LAST, 24, 0, 24),
        (&LAST, 31, 0, 31),
        (&LAST, 36, 0x62, 36),
        (&LAST, 37, 2, 37),
        (&LAST, 35, 2, 35),
        (&LAST, 38, 0x60, 38),
        // The same bytes as format 1 are right up to the end of the row.
        (&LAST, 7, 0x31, 35),
        (&RENEWED, 42, 2, 42),
        (&RENEWED, 46, 0x61, 45),
        (&CUT, 25, 0, 25),
        (&CUT, 26, 2, 26),
        (&CUT, 40, 2, 40),
        // The second row of the key may not bear the same end again.
        (&CUT, 47, 1, 47),
        (&CUT, 46, 0x60, 46),
        // The delete up to 6 has to stay on an older row of `a`.
        (&COVERED, 55, 0x62, 55),
        (&COVERED, 63, 3, 63),
        (&COVERED, 64, 0, 64),
    ];
    for (text, at, byte, wanted) in cases {
        let bytes = changed(alloc, text, at, byte)?;
        assert_eq!(rt; place(alloc, &bytes)?, Some(wanted));
    }
    assert_eq!(rt; place(alloc, &PLAIN[..34])?, Some(34));
    assert_eq!(rt; place(alloc, &LAST[..38])?, Some(38));
    assert_eq!(rt; place(alloc, &CUT[..51])?, Some(51));
    Ok(())
}

fn same_row(kept: &Kept, row: &PlainRow<'_>) -> bool {
    let value = match &kept.row.op {
        Op::Put(value) => Some(value.as_bytes()),
        Op::Delete => None,
    };
    kept.end == row.end && kept.row.key.as_bytes() == row.key && value == row.value
}

fn same_table(table: &Table, plain: &PlainTable<'_>) -> bool {
    let rows = table.rows.as_slice();
    (table.from, table.to, table.bottom.last) == (plain.from, plain.to, plain.last)
        && table.bottom.cuts.as_slice() == plain.cuts.as_slice()
        && rows.len() == plain.rows.len()
        && rows
            .iter()
            .zip(plain.rows.as_slice())
            .all(|(kept, row)| same_row(kept, row))
}

/// The plain reader tells the same place, or the same table.
fn agrees(alloc: Global, bytes: &[u8]) -> Result<bool, Fail> {
    match read(alloc, bytes) {
        Ok(plain) => match (place(alloc, bytes)?, decode(alloc, bytes)) {
            (None, Ok(table)) => Ok(same_table(&table, &plain)),
            _ => Ok(false),
        },
        Err(Stop::Bad(at)) => Ok(place(alloc, bytes)? == Some(at as u64)),
        Err(Stop::Memory) => Err("no memory")?,
    }
}

/// Each front of the text, and each byte of it set to each value.
fn changes(alloc: Global, text: &[u8]) -> Result<bool, Fail> {
    let mut all = true;
    for len in 0..text.len() {
        all = all && agrees(alloc, &text[..len])?;
    }
    for at in 0..text.len() {
        for byte in 0..=255 {
            let bytes = changed(alloc, text, at, byte)?;
            all = all && agrees(alloc, &bytes)?;
        }
    }
    Ok(all)
}

#[test]
fn changed_bytes(rt: HostRuntime) -> Result<(), Fail> {
    let alloc = rt.alloc();
    for text in [
        PLAIN.as_slice(),
        LAST.as_slice(),
        EMPTY.as_slice(),
        CUT.as_slice(),
        OLD.as_slice(),
        RENEWED.as_slice(),
        DELETES.as_slice(),
        COVERED.as_slice(),
    ] {
        assert!(rt; changes(alloc, text)?);
    }
    Ok(())
}
