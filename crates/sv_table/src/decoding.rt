// Reading a table's text into memory.
ghost use Rattle.std.specs.Prelude.{◌≡◌, ◌≤◌, Ok, IfOk, IfErr, length};
ghost use Rattle.sv_model.specs.TableText.{IsTextOf};
ghost use Rattle.sv_table.specs.Decoding.{IsRefused};
ghost use Rattle.sv_table.specs.Reading.{HasRows, FitsMemory, entries_in, kept_in, kept_of};
ghost use Rattle.sv_table.specs.Views.{header_is, op_is, entry_is};

use crate::faults::DecodeError;
use crate::headers::Header;
use crate::hits::Hit;
use crate::lookups::end_of;
use crate::rows::{RowAt, entry_at, see, shape_of, start};
use crate::walks::file_at;
use std::alloc::Global;
use sv_model::{Items, Kept, Key, Op, OutOfMemory, Refusal, Row, Table, Value};

fn key_of(alloc: Global, bytes: &[u8]) -> Result<Key, OutOfMemory>
    requires least { 1 ≤ length bytes.now }
    requires greatest { length bytes.now ≤ 64 }
    ensures { IfOk result (λ key. key ≡ bytes.now) }
{
    match Key::new(alloc, bytes) {
        Ok(key) => Ok(key),
        Err(Refusal::OutOfMemory) => Err(OutOfMemory),
        Err(_) => unreachable!(),
    }
}

fn value_of(alloc: Global, bytes: &[u8]) -> Result<Value, OutOfMemory>
    requires { length bytes.now ≤ 1024 }
    ensures { IfOk result (λ value. value ≡ bytes.now) }
{
    match Value::new(alloc, bytes) {
        Ok(value) => Ok(value),
        Err(Refusal::OutOfMemory) => Err(OutOfMemory),
        Err(_) => unreachable!(),
    }
}

fn op_of(alloc: Global, hit: Hit<'_>) -> Result<Op, OutOfMemory>
    requires { FitsMemory (op_is hit) }
    ensures { IfOk result (λ op. op ≡ op_is hit.entry) }
{
    match hit {
        Hit::Put(bytes) => Ok(Op::Put(value_of(alloc, bytes)?)),
        Hit::Delete => Ok(Op::Delete),
    }
}

/// A copy of the row, with its end itself.
fn kept_of(alloc: Global, header: &Header, row: RowAt<'_>) -> Result<Kept, OutOfMemory>
    requires least { 1 ≤ length row.key.now }
    requires greatest { length row.key.now ≤ 64 }
    requires op { FitsMemory (op_is row.op) }
    requires number { row.number ≤ length header.now.bottom.cuts }
    ensures { IfOk result (λ kept. kept ≡ kept_of (header_is header.now) (entry_is row.entry)) }
{
    let key = key_of(alloc, row.key)?;
    let op = op_of(alloc, row.op)?;
    Ok(Kept {
        end: end_of(header, row.number),
        row: Row { key, op },
    })
}

/// The rows that stand at the front of the bytes.
fn rows_of(alloc: Global, header: &Header, bytes: &[u8]) -> Result<Vec<Kept>, OutOfMemory>
    requires { HasRows (header_is header.now) bytes.now }
    ensures { IfOk result (λ rows. let h = header_is header.now in kept_in h (entries_in h bytes.now) ≡ Ok rows.items) }
{
    let shape = shape_of(header);
    let count = header.count;
    let mut rows = Vec::new(alloc);
    let mut seen = start();
    let mut rest = bytes;
    for i in 0..count {
        let Ok((row, after)) = entry_at(shape, count - 1 - i, seen, rest) else {
            unreachable!();
        };
        rows.push(kept_of(alloc, header, row)?)?;
        seen = see(seen, row);
        rest = after;
    }
    Ok(rows)
}

/// The table of which the bytes are a text; else the offset of the first bad field, or out of memory where they are
/// a text.
pub fn decode(alloc: Global, bytes: &[u8]) -> Result<Table, DecodeError>
    ensures read { IfOk result (λ t. IsTextOf bytes.now t.from t.to t.bottom t.rows) }
    ensures refused { IfErr result (λ e. IsRefused bytes.now e) }
{
    let (header, rows) = match file_at(bytes) {
        Ok(file) => file,
        Err(stuck) => {
            return Err(DecodeError::Bad {
                place: (bytes.len() - stuck.left) as u64,
            });
        }
    };
    match rows_of(alloc, &header, rows) {
        Ok(rows) => Ok(Table {
            from: header.from,
            to: header.to,
            bottom: header.bottom,
            rows: Items::from_vec(rows),
        }),
        Err(OutOfMemory) => Err(DecodeError::OutOfMemory),
    }
}
