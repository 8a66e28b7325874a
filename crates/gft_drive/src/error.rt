use gft_base::OutOfMemory;
use std::alloc::AllocError;
use thiserror::Error;

/// Why a drive gave no twin.
#[derive(Clone, Copy, Debug, PartialEq, Eq, Error)]
pub enum TwinError {
    /// The drive failed; its count of faults rose.
    #[error("the drive failed")]
    Failed,
    /// Memory was refused; nothing changed.
    #[error("out of memory")]
    OutOfMemory,
}

impl From<OutOfMemory> for TwinError {
    ghost use Rattle.std.specs.Prelude.{◌≡◌};
    ghost use Rattle.gft_drive.specs.declared.error.TwinError.TheVariants as errors;

    ghost from_gives = { λ _ e. e ≡ errors.OutOfMemory };

    fn from(_refused: OutOfMemory) -> TwinError {
        TwinError::OutOfMemory
    }
}

impl From<AllocError> for TwinError {
    ghost use Rattle.std.specs.Prelude.{◌≡◌};
    ghost use Rattle.gft_drive.specs.declared.error.TwinError.TheVariants as errors;

    ghost from_gives = { λ _ e. e ≡ errors.OutOfMemory };

    fn from(_refused: AllocError) -> TwinError {
        TwinError::OutOfMemory
    }
}
