use gft_book::{BeginError, Use};
use gft_keep::{AttachError, Damage};
use gft_outside::ShelfError;
use gft_range::Range;
use thiserror::Error;

/// Why the library refuses.
#[derive(Clone, Copy, Debug, PartialEq, Eq, Error)]
pub enum LibraryError {
    /// The file is in use.
    #[error("the file is in use: {found:?}")]
    Busy { found: Use },
    /// The journal of the file can't be read.
    #[error("the journal is damaged: {0}")]
    Damaged(Damage),
    /// The file is complete with this length, or was made elsewhere and has so many bytes.
    #[error("the file is complete with {len} bytes")]
    CompleteAlready { len: u64 },
    /// The list names these offsets, which aren't kept.
    #[error("{}-{} isn't kept", missing.start, missing.end)]
    NotInJournal { missing: Range },
    /// There is no file of this name.
    #[error("there is no file")]
    NoSuch,
    /// The file isn't complete.
    #[error("the file isn't complete")]
    Incomplete,
    /// As many names are kept as may be, and this is none of them.
    #[error("too many names")]
    TooManyNames,
    /// The shelf failed; its count of faults rose.
    #[error("the shelf failed")]
    ShelfFailed,
    /// Memory was refused.
    #[error("out of memory")]
    OutOfMemory,
    /// The file's drive failed; its count of faults rose.
    #[error("the drive failed")]
    DriveFailed,
}

impl From<BeginError> for LibraryError {
    ghost use Rattle.std.specs.Prelude.{◌≡◌};
    ghost use Rattle.gft_library.specs.Finding.{of_begin};

    ghost from_gives = { λ why error. error ≡ of_begin why };

    fn from(why: BeginError) -> LibraryError {
        match why {
            BeginError::Busy { found } => LibraryError::Busy { found },
            BeginError::Damaged(damage) => LibraryError::Damaged(damage),
            BeginError::CompleteAlready { len } => LibraryError::CompleteAlready { len },
            BeginError::NotInJournal { missing } => LibraryError::NotInJournal { missing },
            BeginError::NoSuch => LibraryError::NoSuch,
            BeginError::Incomplete => LibraryError::Incomplete,
            BeginError::OutOfMemory => LibraryError::OutOfMemory,
            BeginError::DriveFailed => LibraryError::DriveFailed,
        }
    }
}

impl From<AttachError> for LibraryError {
    ghost use Rattle.std.specs.Prelude.{◌≡◌};
    ghost use Rattle.gft_library.specs.Finding.{of_attach};

    ghost from_gives = { λ why error. error ≡ of_attach why };

    fn from(why: AttachError) -> LibraryError {
        match why {
            AttachError::Failed => LibraryError::DriveFailed,
            AttachError::OutOfMemory => LibraryError::OutOfMemory,
            AttachError::Damaged(damage) => LibraryError::Damaged(damage),
        }
    }
}

impl From<ShelfError> for LibraryError {
    ghost use Rattle.std.specs.Prelude.{◌≡◌};
    ghost use Rattle.gft_library.specs.Finding.{of_shelf};

    ghost from_gives = { λ why error. error ≡ of_shelf why };

    fn from(why: ShelfError) -> LibraryError {
        match why {
            ShelfError::Failed => LibraryError::ShelfFailed,
            ShelfError::OutOfMemory => LibraryError::OutOfMemory,
        }
    }
}
