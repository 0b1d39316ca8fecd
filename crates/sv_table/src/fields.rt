// Reading one field.
ghost use Rattle.std.specs.Int.{w16, w32, w64};
ghost use Rattle.sv_table.specs.Reading.{bytes_at, number_at, byte_at};
ghost use Rattle.sv_table.specs.Views.{Gives};

use crate::faults::Stuck;

#[inline(always)]
pub(crate) fn u16_at(bytes: &[u8]) -> Result<(u16, &[u8]), Stuck>
    ensures { Gives (λ x. (x.0, x.1.now)) result (number_at w16 bytes.now) }
{
    if bytes.len() < 2 {
        return Err(Stuck { left: bytes.len() });
    }
    let (front, rest) = bytes.split_at(2);
    let number = u16::from_le_bytes([front[0], front[1]]);
    Ok((number, rest))
}

#[inline(always)]
pub(crate) fn u32_at(bytes: &[u8]) -> Result<(u32, &[u8]), Stuck>
    ensures { Gives (λ x. (x.0, x.1.now)) result (number_at w32 bytes.now) }
{
    if bytes.len() < 4 {
        return Err(Stuck { left: bytes.len() });
    }
    let (front, rest) = bytes.split_at(4);
    let number = u32::from_le_bytes([front[0], front[1], front[2], front[3]]);
    Ok((number, rest))
}

#[inline(always)]
pub(crate) fn u64_at(bytes: &[u8]) -> Result<(u64, &[u8]), Stuck>
    ensures { Gives (λ x. (x.0, x.1.now)) result (number_at w64 bytes.now) }
{
    if bytes.len() < 8 {
        return Err(Stuck { left: bytes.len() });
    }
    let (front, rest) = bytes.split_at(8);
    let number = u64::from_le_bytes([
        front[0], front[1], front[2], front[3], front[4], front[5], front[6], front[7],
    ]);
    Ok((number, rest))
}

#[inline(always)]
pub(crate) fn byte_at(bytes: &[u8]) -> Result<(u8, &[u8]), Stuck>
    ensures { Gives (λ x. (x.0, x.1.now)) result (byte_at bytes.now) }
{
    match bytes {
        [] => Err(Stuck { left: 0 }),
        [byte, rest @ ..] => Ok((*byte, rest)),
    }
}

#[inline(always)]
pub(crate) fn bytes_at(len: usize, bytes: &[u8]) -> Result<(&[u8], &[u8]), Stuck>
    ensures { Gives (λ x. (x.0.now, x.1.now)) result (bytes_at len bytes.now) }
{
    if bytes.len() < len {
        return Err(Stuck { left: bytes.len() });
    }
    Ok(bytes.split_at(len))
}
