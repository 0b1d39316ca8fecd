// Why words are not read.
ghost use Rattle.std.specs.Prelude.{◌≡◌};
ghost use Rattle.sv_script.specs.declared.parsing.errors.WordError.TheVariants as errors;

use crate::scripts::BadKind;
use std::alloc::AllocError;
use sv_model::OutOfMemory;

// Why words are not read.
#[derive(Clone, Copy, Debug, PartialEq, Eq)]
pub(crate) enum WordError {
    Bad(BadKind),
    OutOfMemory,
}

impl From<AllocError> for WordError {
    ghost from_gives = { λ _ error. error ≡ errors.OutOfMemory };

    fn from(_error: AllocError) -> WordError {
        WordError::OutOfMemory
    }
}

impl From<OutOfMemory> for WordError {
    ghost from_gives = { λ _ error. error ≡ errors.OutOfMemory };

    fn from(_error: OutOfMemory) -> WordError {
        WordError::OutOfMemory
    }
}
