// What is found in files: against the rows of a plain reader, for every cut.
use crate::reader::{PlainTable, read};
use crate::texts::{COVERED, CUT, DELETES, EMPTY, LAST, OLD, PLAIN, RENEWED};
use std::alloc::Global;
use std::test::*;
use sv_model::{Key, Op};
use sv_table::{Checked, Hit, check, decode, encode, find_in};

/// What stands under a key: no row, a delete, or a value.
#[derive(Clone, Copy, Debug, PartialEq, Eq)]
enum Found<'a> {
    Nothing,
    Deleted,
    Value(&'a [u8]),
}

fn of_hit(hit: Option<Hit<'_>>) -> Found<'_> {
    match hit {
        None => Found::Nothing,
        Some(Hit::Delete) => Found::Deleted,
        Some(Hit::Put(value)) => Found::Value(value),
    }
}

fn of_op(op: Option<&Op>) -> Found<'_> {
    match op {
        None => Found::Nothing,
        Some(Op::Delete) => Found::Deleted,
        Some(Op::Put(value)) => Found::Value(value.as_bytes()),
    }
}

/// The first row of the key whose end is at most the cut, by the rows of the plain reader.
fn wanted<'a>(table: &PlainTable<'a>, key: &[u8], cut: u64) -> Found<'a> {
    for row in table.rows.as_slice() {
        if row.key == key && row.end <= cut {
            return match row.value {
                None => Found::Deleted,
                Some(value) => Found::Value(value),
            };
        }
    }
    Found::Nothing
}

/// What is found in bytes that `check` takes.
fn in_bytes<'a>(bytes: &'a [u8], key: &Key, cut: u64) -> Result<Found<'a>, Fail> {
    match check(bytes) {
        Ok(_) => Ok(of_hit(find_in(bytes, key, cut))),
        Err(_) => Err("no table")?,
    }
}

fn checked(alloc: Global, text: &[u8]) -> Result<Checked, Fail> {
    match Checked::new(text.to_vec(alloc)?) {
        Ok(checked) => Ok(checked),
        Err(_) => Err("no table")?,
    }
}

/// All ways to look up a key in the text find the same.
fn finds(alloc: Global, text: &[u8], bytes: &[u8]) -> Result<bool, Fail> {
    let key = Key::new(alloc, bytes).ok().ok_or("a key")?;
    let plain = read(alloc, text).ok().ok_or("a table")?;
    let table = decode(alloc, text).ok().ok_or("a table")?;
    let file = checked(alloc, text)?;
    let mut all = true;
    for cut in 0..12 {
        let found = wanted(&plain, bytes, cut);
        all = all && found == in_bytes(text, &key, cut)?;
        all = all && found == of_hit(file.find(&key, cut));
        all = all && found == of_op(table.find_at(&key, cut));
    }
    Ok(all)
}

#[test]
fn every_cut(rt: HostRuntime) -> Result<(), Fail> {
    let alloc = rt.alloc();
    let keys: [&[u8]; 7] = [b"A", b"a", b"aa", b"ab", b"abc", b"b", b"c"];
    for text in [
        PLAIN.as_slice(),
        LAST.as_slice(),
        EMPTY.as_slice(),
        CUT.as_slice(),
        OLD.as_slice(),
        RENEWED.as_slice(),
        DELETES.as_slice(),
        COVERED.as_slice(),
    ] {
        for key in keys {
            assert!(rt; finds(alloc, text, key)?);
        }
    }
    Ok(())
}

#[test]
fn by_hand(rt: HostRuntime) -> Result<(), Fail> {
    let alloc = rt.alloc();
    let a = Key::new(alloc, b"a").ok().ok_or("a key")?;
    // The file, the cut, and what stands under `a`.
    let cases: [(&[u8], u64, Found<'_>); 10] = [
        (&PLAIN, 0, Found::Nothing),
        (&PLAIN, 1, Found::Value(b"1")),
        (&CUT, 0, Found::Nothing),
        (&CUT, 1, Found::Value(b"1")),
        (&CUT, 2, Found::Value(b"2")),
        (&COVERED, 2, Found::Nothing),
        (&COVERED, 3, Found::Value(b"1")),
        (&COVERED, 6, Found::Deleted),
        (&COVERED, 9, Found::Deleted),
        (&OLD, 9, Found::Value(b"")),
    ];
    for (text, cut, found) in cases {
        assert_eq!(rt; in_bytes(text, &a, cut)?, found);
    }
    Ok(())
}

#[test]
fn heads(rt: HostRuntime) -> Result<(), Fail> {
    let alloc = rt.alloc();
    // The file, and its `from`, `to`, whether nothing lies below it, its cuts and its number of rows.
    let cases: [(&[u8], u64, u64, bool, &[u64], u32); 6] = [
        (&PLAIN, 0, 1, false, &[], 1),
        (&EMPTY, 0, 1, true, &[], 0),
        (&CUT, 0, 2, false, &[1], 2),
        (&OLD, 2, 9, true, &[], 2),
        (&RENEWED, 2, 9, true, &[], 2),
        (&COVERED, 1, 9, true, &[3, 6], 4),
    ];
    for (text, from, to, last, cuts, count) in cases {
        let head = check(text).ok().ok_or("a table")?;
        assert_eq!(rt; (head.from, head.to, head.count), (from, to, count));
        assert_eq!(rt; head.bottom.last, last);
        assert_eq!(rt; head.bottom.cuts.as_slice(), cuts);
        let file = checked(alloc, text)?;
        assert!(rt; file.head() == head);
        assert_eq!(rt; file.len(), text.len() as u64);
    }
    Ok(())
}

#[test]
fn written_again(rt: HostRuntime) -> Result<(), Fail> {
    let alloc = rt.alloc();
    // What is read, and what is written of it: an old file in format 2.
    let cases: [(&[u8], &[u8]); 8] = [
        (&PLAIN, &PLAIN),
        (&LAST, &LAST),
        (&EMPTY, &EMPTY),
        (&CUT, &CUT),
        (&OLD, &RENEWED),
        (&RENEWED, &RENEWED),
        (&DELETES, &DELETES),
        (&COVERED, &COVERED),
    ];
    for (text, wanted) in cases {
        let table = decode(alloc, text).ok().ok_or("a table")?;
        let written = encode(alloc, &table).ok().ok_or("memory")?;
        assert_eq!(rt; written.as_slice(), wanted);
    }
    Ok(())
}
