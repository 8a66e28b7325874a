use thiserror::Error;

/// Why a drive's ranges can't be read, the first in this order.
#[derive(Clone, Copy, Debug, PartialEq, Eq, Error)]
pub enum Damage {
    /// The part has another length than a journal's.
    #[error("the ranges have {len} bytes")]
    Size { len: u64 },
    /// The selected bank is of a version that is not known.
    #[error("bank {bank} is of version {found}")]
    Version { bank: u8, found: u8 },
    /// The first open slot that is none of a range or of a length.
    #[error("slot {slot} is none")]
    Slot { slot: u32 },
    /// There are more ranges than a file may have.
    #[error("{count} ranges are kept, more than may be")]
    Ranges { count: u32 },
    /// The data is shorter than what is kept of it.
    #[error("the data has {len} bytes, and is kept up to {end}")]
    Short { end: u64, len: u64 },
}

/// Why a drive can't be attached.
#[derive(Clone, Copy, Debug, PartialEq, Eq, Error)]
pub enum AttachError {
    /// The drive failed; its count of faults rose.
    #[error("the drive failed")]
    Failed,
    /// Memory was refused; nothing is lost.
    #[error("out of memory")]
    OutOfMemory,
    /// The ranges can't be read.
    #[error("the journal is damaged: {0}")]
    Damaged(Damage),
}
