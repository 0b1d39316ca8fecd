// Tables to measure with, and a check of them.
use crate::faults::Fault;
use std::alloc::{AllocError, Global};
use sv_model::{Op, Table};
use sv_table::{Checked, Hit, decode, encode};

/// A prime above any number of rows, so that leaps of it come to each row once.
const LEAP: usize = 2_654_435_761;

const VALUE: [u8; 16] = *b"sixteen bytes...";

/// Eight digits, so that keys ascend as their numbers do.
pub fn digits(number: u32) -> [u8; 8] {
    let mut digits = [b'0'; 8];
    let mut left = number;
    for digit in digits.iter_mut().rev() {
        *digit = b'0' + (left % 10) as u8;
        left /= 10;
    }
    digits
}

/// The numbers that a table has as keys: so many from the first on, each so far above the one before.
#[derive(Clone, Copy)]
pub struct Keys {
    pub first: u32,
    pub step: u32,
    pub count: u32,
}

/// The bytes of a table that covers the writes from `from + 1` on: a put under each of the keys.
pub fn text(alloc: Global, from: u64, keys: Keys) -> Result<Vec<u8>, AllocError> {
    let mut text = Vec::new(alloc);
    let to = from.saturating_add(u64::from(keys.count));
    text.extend_from_slice(b"SVTABLE1")?;
    text.extend_from_slice(&from.to_le_bytes())?;
    text.extend_from_slice(&to.to_le_bytes())?;
    text.push(0)?;
    text.extend_from_slice(&keys.count.to_le_bytes())?;
    for row in 0..keys.count {
        text.push(8)?;
        let leap = row.saturating_mul(keys.step);
        text.extend_from_slice(&digits(keys.first.saturating_add(leap)))?;
        text.extend_from_slice(&[1, 16, 0])?;
        text.extend_from_slice(&VALUE)?;
    }
    Ok(text)
}

/// How many of the table's own keys are found, each with a value. Each key is looked up once, those of rows far apart
/// one after the other, as a store's reads come.
pub fn found(table: &Table, first: usize) -> u64 {
    let rows = table.rows.as_slice();
    let mut found: u64 = 0;
    let mut at = first;
    for _ in 0..rows.len() {
        at = at.wrapping_add(LEAP) % rows.len().max(1);
        if let Some(row) = rows.get(at)
            && matches!(table.find(&row.row.key), Some(Op::Put(_)))
        {
            found = found.saturating_add(1);
        }
    }
    found
}

/// The same in a file's bytes.
pub fn found_by(file: &Checked, table: &Table, first: usize) -> u64 {
    let rows = table.rows.as_slice();
    let mut found: u64 = 0;
    let mut at = first;
    for _ in 0..rows.len() {
        at = at.wrapping_add(LEAP) % rows.len().max(1);
        if let Some(row) = rows.get(at)
            && matches!(file.find(&row.row.key, u64::MAX), Some(Hit::Put(_)))
        {
            found = found.saturating_add(1);
        }
    }
    found
}

/// A number below the count, far from that of the round before.
pub fn leap(round: u32, count: u32) -> u32 {
    let far = u64::from(round).wrapping_mul(LEAP as u64);
    (far % u64::from(count.max(1))) as u32
}

/// The bytes are decoded, encoding gives them again, and each key is found in the table and in the bytes.
pub fn check(alloc: Global, text: &[u8]) -> Result<(), Fault> {
    let table = decode(alloc, text)?;
    let again = encode(alloc, &table)?;
    let file = Checked::new(text.to_vec(alloc)?)?;
    let rows = table.rows.as_slice().len() as u64;
    if again.as_slice() != text || found(&table, 0) != rows || found_by(&file, &table, 0) != rows {
        return Err(Fault::Wrong);
    }
    Ok(())
}
