// A small memtable of repeated keys and deletes, looked up at each cut while it is open and frozen, and frozen twice
// with a row added between.
use std::alloc::Global;
use std::test::*;
use sv_memtable::{Frozen, MemCell};
use sv_model::{Key, MAX_ROWS, MemId, Numbered, Op, Value};

/// What stands under a key: no row, a delete, or a value by its first byte.
#[derive(Clone, Copy, Debug, PartialEq, Eq)]
enum Found {
    Nothing,
    Deleted,
    Byte(u8),
    Empty,
}

fn shown(op: Option<&Op>) -> Found {
    match op {
        None => Found::Nothing,
        Some(Op::Delete) => Found::Deleted,
        Some(Op::Put(value)) => match value.as_bytes().first() {
            Some(byte) => Found::Byte(*byte),
            None => Found::Empty,
        },
    }
}

fn key(alloc: Global, bytes: &[u8]) -> Result<Key, Fail> {
    Ok(Key::new(alloc, bytes).ok().ok_or("a key")?)
}

/// A put of the value, or a delete.
fn op(alloc: Global, value: Option<&[u8]>) -> Result<Op, Fail> {
    Ok(match value {
        Some(bytes) => Op::Put(Value::new(alloc, bytes).ok().ok_or("a value")?),
        None => Op::Delete,
    })
}

fn add(alloc: Global, cell: &mut MemCell, bytes: &[u8], value: Option<&[u8]>) -> Result<(), Fail> {
    if cell.len() >= MAX_ROWS {
        return Err("a full memtable")?;
    }
    let key = key(alloc, bytes)?;
    let op = op(alloc, value)?;
    match cell.add(&key, &op) {
        Ok(()) => Ok(()),
        Err(_) => Err("no memory")?,
    }
}

fn freeze(cell: &MemCell) -> Result<Frozen, Fail> {
    match cell.freeze() {
        Ok(frozen) => Ok(frozen),
        Err(_) => Err("no memory")?,
    }
}

/// Adds the rows 1 to 6.
fn fill(alloc: Global, cell: &mut MemCell) -> Result<(), Fail> {
    let rows: [(&[u8], Option<&[u8]>); 6] = [
        (b"b", Some(b"1")),
        (b"a", Some(b"2")),
        (b"b", None),
        (b"b", Some(b"4")),
        (b"ab", None),
        (b"a", Some(b"")),
    ];
    for (bytes, value) in rows {
        add(alloc, cell, bytes, value)?;
    }
    Ok(())
}

/// Whether the rows are these, by number, key and what they do.
fn are(rows: &[Numbered], wanted: &[(u64, &[u8], Found)]) -> bool {
    if rows.len() != wanted.len() {
        return false;
    }
    for (numbered, (number, bytes, found)) in rows.iter().zip(wanted) {
        let row = &numbered.row;
        if numbered.number != *number
            || row.key.as_bytes() != *bytes
            || shown(Some(&row.op)) != *found
        {
            return false;
        }
    }
    true
}

#[test]
fn finds_at_each_cut(rt: HostRuntime) -> Result<(), Fail> {
    let alloc = rt.alloc();
    let mut cell = MemCell::new(alloc, MemId(7));
    assert_eq!(rt; cell.id(), MemId(7));
    assert_eq!(rt; cell.len(), 0);
    fill(alloc, &mut cell)?;
    assert_eq!(rt; cell.len(), 6);
    let frozen = freeze(&cell)?;
    assert_eq!(rt; frozen.id(), MemId(7));
    // Among the first so many rows: what stands under `a`, `ab` and `b`.
    let cuts: [(u32, Found, Found, Found); 9] = [
        (0, Found::Nothing, Found::Nothing, Found::Nothing),
        (1, Found::Nothing, Found::Nothing, Found::Byte(0x31)),
        (2, Found::Byte(0x32), Found::Nothing, Found::Byte(0x31)),
        (3, Found::Byte(0x32), Found::Nothing, Found::Deleted),
        (4, Found::Byte(0x32), Found::Nothing, Found::Byte(0x34)),
        (5, Found::Byte(0x32), Found::Deleted, Found::Byte(0x34)),
        (6, Found::Empty, Found::Deleted, Found::Byte(0x34)),
        (7, Found::Empty, Found::Deleted, Found::Byte(0x34)),
        (u32::MAX, Found::Empty, Found::Deleted, Found::Byte(0x34)),
    ];
    for (cut, a, ab, b) in cuts {
        let wanted: [(&[u8], Found); 6] = [
            (b"a", a),
            (b"ab", ab),
            (b"b", b),
            (b"A", Found::Nothing),
            (b"aa", Found::Nothing),
            (b"c", Found::Nothing),
        ];
        for (bytes, found) in wanted {
            let key = key(alloc, bytes)?;
            assert_eq!(rt; shown(cell.find_at(&key, cut)), found);
            assert_eq!(rt; shown(frozen.find_at(&key, cut)), found);
            if cut == u32::MAX {
                assert_eq!(rt; shown(cell.find(&key)), found);
                assert_eq!(rt; shown(frozen.find(&key)), found);
            }
        }
    }
    Ok(())
}

#[test]
fn freezes_twice(rt: HostRuntime) -> Result<(), Fail> {
    let alloc = rt.alloc();
    let mut cell = MemCell::new(alloc, MemId(1));
    let none = freeze(&cell)?;
    assert_eq!(rt; none.rows().len(), 0);
    fill(alloc, &mut cell)?;
    let first = freeze(&cell)?;
    let six: [(u64, &[u8], Found); 6] = [
        (6, b"a", Found::Empty),
        (2, b"a", Found::Byte(0x32)),
        (5, b"ab", Found::Deleted),
        (4, b"b", Found::Byte(0x34)),
        (3, b"b", Found::Deleted),
        (1, b"b", Found::Byte(0x31)),
    ];
    assert!(rt; are(first.rows(), &six));
    add(alloc, &mut cell, b"ab", Some(b"7"))?;
    assert_eq!(rt; cell.len(), 7);
    let second = freeze(&cell)?;
    let seven: [(u64, &[u8], Found); 7] = [
        (6, b"a", Found::Empty),
        (2, b"a", Found::Byte(0x32)),
        (7, b"ab", Found::Byte(0x37)),
        (5, b"ab", Found::Deleted),
        (4, b"b", Found::Byte(0x34)),
        (3, b"b", Found::Deleted),
        (1, b"b", Found::Byte(0x31)),
    ];
    assert!(rt; are(second.rows(), &seven));
    assert!(rt; are(first.rows(), &six));
    let key = key(alloc, b"ab")?;
    assert_eq!(rt; shown(none.find(&key)), Found::Nothing);
    assert_eq!(rt; shown(none.find_at(&key, 1)), Found::Nothing);
    assert_eq!(rt; shown(first.find(&key)), Found::Deleted);
    assert_eq!(rt; shown(second.find(&key)), Found::Byte(0x37));
    assert_eq!(rt; shown(second.find_at(&key, 6)), Found::Deleted);
    assert_eq!(rt; shown(cell.find(&key)), Found::Byte(0x37));
    assert_eq!(rt; shown(cell.find_at(&key, 6)), Found::Deleted);
    Ok(())
}
