use thiserror::Error;

/// Why a block was not stored.
#[derive(Clone, Copy, Debug, PartialEq, Eq, Error)]
pub enum KeepError {
    /// So many ranges are kept, as many as may be, and the block would make one more.
    #[error("{kept} ranges are kept, and no more can be")]
    RangesFull { kept: u64 },
    /// Memory was refused; nothing changed.
    #[error("out of memory")]
    OutOfMemory,
    /// The drive failed; its count of faults rose, and the keep is broken.
    #[error("the drive failed")]
    Failed,
}
