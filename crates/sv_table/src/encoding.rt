// Writing a table's text.
ghost use Rattle.std.specs.Prelude.{◌≡◌, ◌++◌, ◌<◌, ◌≤◌, ◌^◌, length, IfOk, OnOk};
ghost use Rattle.std.specs.Int.{to_le_bytes};
ghost use Rattle.sv_model.specs.TableText.{AreBytes, HasText, IsStored, IsStoredOp, IsWellFormed, flag, cuts_text, end_number, end_text, header_text, key_text, kept_text, range_text, op_text, table_text};
ghost use Rattle.sv_table.specs.Views.{format_is};

use crate::formats::{Format, format_of, has_cuts, magic_of};
use std::alloc::Global;
use sv_model::{Kept, Op, OutOfMemory, Table};

fn flag_of(last: bool) -> u8
    ensures { result ≡ flag last }
{
    if last { 1 } else { 0 }
}

fn put_cuts(out: &mut Vec<u8>, format: Format, cuts: &[u64]) -> Result<(), OutOfMemory>
    requires { length cuts.now ≤ 64 }
    ensures { OnOk result (out.new.items ≡ out.old.items ++ cuts_text (format_is format) cuts.now) }
{
    if !has_cuts(format) {
        return Ok(());
    }
    out.push(cuts.len() as u8)?;
    for cut in cuts {
        out.extend_from_slice(&cut.to_le_bytes())?;
    }
    Ok(())
}

fn put_header(out: &mut Vec<u8>, format: Format, table: &Table) -> Result<(), OutOfMemory>
    requires { length table.now.rows < 2 ^ 32 }
    ensures text { let t = table.now in OnOk result (out.new.items ≡ out.old.items ++ header_text (format_is format) t.from t.to t.bottom (length t.rows)) }
    ensures in_range { OnOk result (table.now.to < 2 ^ 64) }
{
    out.extend_from_slice(&magic_of(format))?;
    out.extend_from_slice(&table.from.to_le_bytes())?;
    out.extend_from_slice(&table.to.to_le_bytes())?;
    out.push(flag_of(table.bottom.last))?;
    put_cuts(out, format, table.bottom.cuts.as_slice())?;
    let count = table.rows.as_slice().len() as u32;
    out.extend_from_slice(&count.to_le_bytes())?;
    Ok(())
}

fn put_op(out: &mut Vec<u8>, op: &Op) -> Result<(), OutOfMemory>
    ensures text { OnOk result (out.new.items ≡ out.old.items ++ op_text op.now) }
    ensures stored { OnOk result (IsStoredOp op.now) }
{
    match op {
        Op::Put(value) => {
            let bytes = value.as_bytes();
            out.push(1)?;
            out.extend_from_slice(&(bytes.len() as u16).to_le_bytes())?;
            out.extend_from_slice(bytes)?;
        }
        Op::Delete => out.push(0)?,
    }
    Ok(())
}

fn put_key(out: &mut Vec<u8>, key: &[u8]) -> Result<(), OutOfMemory>
    requires { length key.now ≤ 64 }
    ensures text { OnOk result (out.new.items ≡ out.old.items ++ key_text key.now) }
    ensures bytes { OnOk result (AreBytes key.now) }
{
    out.push(key.len() as u8)?;
    out.extend_from_slice(key)?;
    Ok(())
}

/// The number of the row's end, where it is written.
fn put_end(out: &mut Vec<u8>, format: Format, cuts: &[u64], end: u64) -> Result<(), OutOfMemory>
    requires { length cuts.now ≤ 64 }
    ensures { OnOk result (out.new.items ≡ out.old.items ++ end_text (format_is format) (end_number cuts.now end)) }
{
    if has_cuts(format) {
        let number = cuts.iter().filter(|cut| **cut < end).count();
        out.push(number as u8)?;
    }
    Ok(())
}

fn put_row(out: &mut Vec<u8>, format: Format, cuts: &[u64], kept: &Kept) -> Result<(), OutOfMemory>
    requires { length cuts.now ≤ 64 }
    ensures text { OnOk result (out.new.items ≡ out.old.items ++ kept_text (format_is format) cuts.now kept.now) }
    ensures stored { OnOk result (IsStored kept.now.row) }
{
    put_key(out, kept.row.key.as_bytes())?;
    put_end(out, format, cuts, kept.end)?;
    put_op(out, &kept.row.op)
}

/// The least and the greatest key, in format 2 alone.
fn put_range(out: &mut Vec<u8>, format: Format, rows: &[Kept]) -> Result<(), OutOfMemory>
    ensures { OnOk result (out.new.items ≡ out.old.items ++ range_text (format_is format) rows.now) }
{
    if let (Format::Two, Some(first), Some(last)) = (format, rows.first(), rows.last()) {
        put_key(out, first.row.key.as_bytes())?;
        put_key(out, last.row.key.as_bytes())?;
    }
    Ok(())
}

/// The text of a well-formed table, in the format that its bottom tells.
pub fn encode(alloc: Global, table: &Table) -> Result<Vec<u8>, OutOfMemory>
    requires { let t = table.now in IsWellFormed t.from t.to t.bottom t.rows }
    ensures text { let t = table.now in IfOk result (λ text. text.items ≡ table_text t.from t.to t.bottom t.rows) }
    // A table in memory meets all that its text asks of the fields.
    ensures has_text { let t = table.now in IfOk result (λ _. HasText t.from t.to t.bottom t.rows) }
{
    let format = format_of(&table.bottom);
    let cuts = table.bottom.cuts.as_slice();
    let mut out = Vec::new(alloc);
    put_header(&mut out, format, table)?;
    for kept in table.rows.as_slice() {
        put_row(&mut out, format, cuts, kept)?;
    }
    put_range(&mut out, format, table.rows.as_slice())?;
    Ok(out)
}
