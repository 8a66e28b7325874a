use gft_eblock::BadBlock;
use gft_eod::EodError;
use gft_range::Range;

/// How the input of `drain` ended.
#[derive(Clone, Copy, Debug)]
pub enum Outcome {
    /// Its arrivals are done, and the file is stored.
    Complete,
    /// It ended after so many bytes, at least one, without an EOD.
    Lost {
        taken: u64,
    },
    /// It ended without a byte, or its EOD came and the total isn't met, or offsets below the
    /// greatest end are missing: the total and the first missing ones, where they are there.
    Hole {
        total: Option<u64>,
        eods: u64,
        missing: Option<Range>,
    },
    /// A header was refused.
    BadBlock(BadBlock),
    /// An EOF or an EOD was refused by the count.
    CountRefused(EodError),
    /// 2^58 bytes were taken.
    TooLong,
    /// So many ranges are kept, and one more would be needed.
    RangesFull {
        kept: u64,
    },
    /// What the drive keeps of its ranges is damaged, or its data is shorter than they are.
    Damaged,
    /// A read failed.
    ReadFailed,
    /// A call of the drive failed.
    DriveFailed,
    /// Memory was refused.
    OutOfMemory,
}
