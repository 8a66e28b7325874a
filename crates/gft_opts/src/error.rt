ghost use Rattle.std.specs.Prelude.{◌≡◌};

use gft_base::OutOfMemory;
use std::alloc::AllocError;
use thiserror::Error;

/// Why a parameter gave no value.
#[derive(Clone, Copy, Debug, PartialEq, Eq, Error)]
pub enum OptsError {
    /// The text isn't in the grammar.
    #[error("bad parameter")]
    BadParameter,
    /// Memory was refused.
    #[error("out of memory")]
    OutOfMemory,
}

impl From<AllocError> for OptsError {
    ghost use Rattle.gft_opts.specs.declared.error.OptsError.TheVariants as errors;

    ghost from_gives = { λ _ e. e ≡ errors.OutOfMemory };

    fn from(_refused: AllocError) -> OptsError {
        OptsError::OutOfMemory
    }
}

impl From<OutOfMemory> for OptsError {
    ghost use Rattle.gft_opts.specs.declared.error.OptsError.TheVariants as errors;

    ghost from_gives = { λ _ e. e ≡ errors.OutOfMemory };

    fn from(_refused: OutOfMemory) -> OptsError {
        OptsError::OutOfMemory
    }
}
