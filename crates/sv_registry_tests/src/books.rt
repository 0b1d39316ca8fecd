// Calls on a book of file numbers that can always be made: each tells whether it was due.
ghost use Rattle.std.specs.Prelude.{◌<◌};

use std::alloc::Global;
use sv_files::{FileBook, Settled};
use sv_model::{FamilyId, FileNumber, FileStatus, MAX_JOBS, Refusal};

pub fn capture(book: &mut FileBook, family: u8) -> Result<FileNumber, Refusal>
    requires { family < 16 }
{
    if let Some(number) = book.busy(FamilyId(family)) {
        return Err(Refusal::Busy { number: number.0 });
    }
    book.capture(FamilyId(family))
}

pub fn settle(book: &mut FileBook, number: u64, settled: Settled) -> bool {
    match book.status(FileNumber(number)) {
        Some(FileStatus::Pending) => {
            book.settle(FileNumber(number), settled);
            true
        }
        _ => false,
    }
}

pub fn retire(book: &mut FileBook, number: u64) -> bool {
    match book.status(FileNumber(number)) {
        Some(FileStatus::Live) => {
            book.retire(FileNumber(number));
            true
        }
        _ => false,
    }
}

pub fn ungrab(book: &mut FileBook, number: u64, gone: bool) -> bool {
    match book.status(FileNumber(number)) {
        Some(FileStatus::Grabbed) => {
            book.ungrab(FileNumber(number), gone);
            true
        }
        _ => false,
    }
}

pub fn take(book: &mut FileBook, number: u64) -> bool {
    book.jobs() < MAX_JOBS && book.take(FileNumber(number))
}

pub fn end_job(book: &mut FileBook) {
    if book.jobs() > 0 {
        book.end_job();
    }
}

pub fn find(book: &mut FileBook) -> Result<Vec<FileNumber>, Refusal> {
    if book.jobs() >= MAX_JOBS {
        return Err(Refusal::OutOfMemory);
    }
    book.find_obsolete()
}

pub fn scan(
    alloc: Global,
    book: &mut FileBook,
    listed: &[u64],
) -> Result<Vec<FileNumber>, Refusal> {
    if book.jobs() >= MAX_JOBS {
        return Err(Refusal::OutOfMemory);
    }
    let mut numbers = Vec::new(alloc);
    for number in listed {
        if numbers.push(FileNumber(*number)).is_err() {
            return Err(Refusal::OutOfMemory);
        }
    }
    book.scan(numbers.as_slice())
}

// Whether a call gave exactly these numbers, in this order.
pub fn gave(found: Result<Vec<FileNumber>, Refusal>, wanted: &[u64]) -> bool {
    match found {
        Ok(found) => {
            found.len() == wanted.len() && found.iter().zip(wanted).all(|(a, b)| a.0 == *b)
        }
        Err(_) => false,
    }
}

pub fn refused(found: Result<Vec<FileNumber>, Refusal>, wanted: Refusal) -> bool {
    match found {
        Ok(_) => false,
        Err(refusal) => refusal == wanted,
    }
}

// The Obsolete numbers.
pub fn left(book: &FileBook) -> Result<Vec<FileNumber>, Refusal> {
    let left = book.obsolete()?;
    Ok(left)
}
