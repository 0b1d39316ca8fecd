// Whether bytes are a table's text over the range of a file.
ghost use Rattle.std.specs.Prelude.{◌≡◌, IfOk, IfErr};
ghost use Rattle.sv_model.specs.declared.refusals.Refusal.TheVariants.{BadFile};
ghost use Rattle.sv_table.specs.Lookups.{IsFoundIn, hit_op};
ghost use Rattle.sv_file_checks.specs.Checks.{BytesRefusal, IsTextFor, other_field};

use sv_model::{Bottom, FileMeta, Key, Refusal};
use sv_table::{Bad, Hit, check, check_and_find};

/// The offset in a table's text of the first field of its range that is not the file's; none where the table is over
/// the file's range. Takes no memory.
pub fn other_field(file: &FileMeta, from: u64, to: u64, bottom: &Bottom) -> Option<u64>
    ensures { result ≡ other_field file.now from to bottom.now }
{
    if from != file.from {
        return Some(8);
    }
    if to != file.to {
        return Some(16);
    }
    if bottom.last != file.bottom.last {
        return Some(24);
    }
    if bottom.cuts.as_slice() != file.bottom.cuts.as_slice() {
        return Some(25);
    }
    None
}

fn no_table(file: &FileMeta, bad: Bad) -> Refusal
    ensures { result ≡ BadFile file.now.number bad.place }
{
    Refusal::BadFile {
        number: file.number.0,
        place: bad.place,
    }
}

/// Whether the bytes are a table's text over the file's range; else `BadFile` with the offset of the first bad field,
/// or, where they are the text of another table, of the first field that is not the file's. Takes no memory.
pub fn check_bytes(file: &FileMeta, bytes: &[u8]) -> Result<(), Refusal>
    ensures good { IfOk result (λ _. IsTextFor file.now bytes.now) }
    ensures bad { IfErr result (BytesRefusal file.now bytes.now) }
{
    match check(bytes) {
        Err(bad) => Err(no_table(file, bad)),
        Ok(head) => match other_field(file, head.from, head.to, &head.bottom) {
            None => Ok(()),
            Some(place) => Err(Refusal::BadFile {
                number: file.number.0,
                place,
            }),
        },
    }
}

/// What `check_bytes` says of the bytes; and where they are over the file's range, what their table has of the key at
/// the cut. Takes no memory, and goes over the bytes once.
pub fn find_checked<'a>(
    file: &FileMeta,
    bytes: &'a [u8],
    key: &Key,
    cut: u64,
) -> Result<Option<Hit<'a>>, Refusal>
    ensures good { IfOk result (λ _. IsTextFor file.now bytes.now) }
    ensures found { IfOk result (λ hit. IsFoundIn bytes.now key.now cut (hit_op hit)) }
    ensures bad { IfErr result (BytesRefusal file.now bytes.now) }
{
    match check_and_find(bytes, key, cut) {
        Err(bad) => Err(no_table(file, bad)),
        Ok((head, hit)) => match other_field(file, head.from, head.to, &head.bottom) {
            None => Ok(hit),
            Some(place) => Err(Refusal::BadFile {
                number: file.number.0,
                place,
            }),
        },
    }
}
