// How many numbers were captured or strays, and how many of them are Gone.
ghost use Rattle.std.specs.Prelude.{◌≡◌, count_by, is_some, is_none, ◌&&◌};
ghost use Rattle.sv_model.specs.Summaries.{is_gone};

use super::FileBook;
use sv_model::{FileStatus, RegisteredFile};

impl FileBook {
    /// How many numbers were ever captured. Takes no memory.
    pub fn made(&self) -> u64
        ensures { result ≡ count_by (λ f. is_some f.family) self.now.numbers }
    {
        self.made as u64
    }

    /// How many of the captured numbers are Gone. Looks at each number. Takes no memory.
    pub fn gone(&self) -> u64
        ensures { result ≡ count_by (λ f. is_some f.family && is_gone f.status) self.now.numbers }
    {
        self.numbers
            .as_slice()
            .iter()
            .filter(|file| file.family.is_some() && is_gone(file))
            .count() as u64
    }

    /// How many numbers were registered as strays. Looks at each number. Takes no memory.
    pub fn strays_seen(&self) -> u64
        ensures { result ≡ count_by (λ f. is_none f.family) self.now.numbers }
    {
        self.numbers
            .as_slice()
            .iter()
            .filter(|file| file.family.is_none())
            .count() as u64
    }

    /// How many of the strays are Gone. Looks at each number. Takes no memory.
    pub fn strays_gone(&self) -> u64
        ensures { result ≡ count_by (λ f. is_none f.family && is_gone f.status) self.now.numbers }
    {
        self.numbers
            .as_slice()
            .iter()
            .filter(|file| file.family.is_none() && is_gone(file))
            .count() as u64
    }
}

fn is_gone(file: &RegisteredFile) -> bool
    ensures { result ≡ is_gone file.now.status }
{
    matches!(file.status, FileStatus::Gone)
}
