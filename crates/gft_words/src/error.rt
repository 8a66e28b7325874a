ghost use Rattle.std.specs.Prelude.{◌≡◌};

use gft_base::OutOfMemory;
use std::alloc::{AllocError, AllocFailed};
use thiserror::Error;

/// Why words gave no value.
#[derive(Clone, Copy, Debug, PartialEq, Eq, Error)]
pub enum WordsError {
    /// The words aren't in the grammar of the program.
    #[error("wrong words")]
    Usage,
    /// Memory was refused.
    #[error("out of memory")]
    OutOfMemory,
}

impl From<AllocError> for WordsError {
    ghost use Rattle.gft_words.specs.declared.error.WordsError.TheVariants as errors;

    ghost from_gives = { λ _ e. e ≡ errors.OutOfMemory };

    fn from(_refused: AllocError) -> WordsError {
        WordsError::OutOfMemory
    }
}

impl<T: Drop> From<AllocFailed<T>> for WordsError {
    ghost use Rattle.gft_words.specs.declared.error.WordsError.TheVariants as errors;

    ghost from_gives = { λ _ e. e ≡ errors.OutOfMemory };

    fn from(_refused: AllocFailed<T>) -> WordsError {
        WordsError::OutOfMemory
    }
}
