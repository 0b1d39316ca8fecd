// The pieces of which texts are made.
ghost use Rattle.std.specs.Prelude.{◌≡◌, ◌++◌, ◌<◌, OnOk, decimal, flat_map};
ghost use Rattle.sv_script.specs.Items.{hex_digit, byte_text, item_text};
ghost use Rattle.sv_script.specs.Texts.{numbered, listed};

use crate::plain_bytes::is_plain;
use itoa::Buffer;
use sv_model::{FileNumber, OutOfMemory};

// Appends the bytes.
pub(crate) fn push_bytes(out: &mut Vec<u8>, bytes: &[u8]) -> Result<(), OutOfMemory>
    ensures { OnOk result (out.new.items ≡ out.old.items ++ bytes.now) }
{
    out.extend_from_slice(bytes)?;
    Ok(())
}

// Appends the number in decimal.
pub(crate) fn push_number(out: &mut Vec<u8>, n: u64) -> Result<(), OutOfMemory>
    ensures { OnOk result (out.new.items ≡ out.old.items ++ decimal n) }
{
    let mut digits = Buffer::new();
    push_bytes(out, digits.format(n).as_bytes())
}

// Appends the word and the number.
#[tactic(auto, unfolding(crate::specs::Texts::numbered))]
pub(crate) fn push_numbered(out: &mut Vec<u8>, word: &[u8], n: u64) -> Result<(), OutOfMemory>
    ensures { OnOk result (out.new.items ≡ out.old.items ++ numbered word.now n) }
{
    push_bytes(out, word)?;
    push_number(out, n)
}

// Appends each number, preceded by one space.
#[tactic(auto, unfolding(crate::specs::Texts::listed))]
pub(crate) fn push_listed(out: &mut Vec<u8>, numbers: &[u64]) -> Result<(), OutOfMemory>
    ensures { OnOk result (out.new.items ≡ out.old.items ++ listed numbers.now) }
{
    for n in numbers {
        push_numbered(out, b" ", *n)?;
    }
    Ok(())
}

// Appends the number of each file, preceded by one space.
#[tactic(auto, unfolding(crate::specs::Texts::listed))]
pub(crate) fn push_files(out: &mut Vec<u8>, numbers: &[FileNumber]) -> Result<(), OutOfMemory>
    ensures { OnOk result (out.new.items ≡ out.old.items ++ listed numbers.now) }
{
    for number in numbers {
        push_numbered(out, b" ", number.0)?;
    }
    Ok(())
}

fn hex_digit(n: u8) -> u8
    requires { n < 16 }
    ensures { result ≡ hex_digit n }
{
    if n < 10 { b'0' + n } else { b'A' + (n - 10) }
}

fn push_byte(out: &mut Vec<u8>, byte: u8) -> Result<(), OutOfMemory>
    ensures { OnOk result (out.new.items ≡ out.old.items ++ byte_text byte) }
{
    if is_plain(byte) {
        out.push(byte)?;
        return Ok(());
    }
    push_bytes(out, &[b'%', hex_digit(byte / 16), hex_digit(byte % 16)])
}

fn push_each(out: &mut Vec<u8>, bytes: &[u8]) -> Result<(), OutOfMemory>
    ensures { OnOk result (out.new.items ≡ out.old.items ++ flat_map byte_text bytes.now) }
{
    for byte in bytes {
        push_byte(out, *byte)?;
    }
    Ok(())
}

// Appends the bytes as an item.
pub(crate) fn push_item(out: &mut Vec<u8>, bytes: &[u8]) -> Result<(), OutOfMemory>
    ensures { OnOk result (out.new.items ≡ out.old.items ++ item_text bytes.now) }
{
    match bytes {
        [] => push_bytes(out, b"%"),
        _ => push_each(out, bytes),
    }
}
