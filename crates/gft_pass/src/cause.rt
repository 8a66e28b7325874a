ghost use Rattle.std.specs.Prelude.{◌≡◌};
ghost use Rattle.gft_pass.specs.Causes.{cause_of_count};

use gft_eblock::BadBlock;
use gft_eod::EodError;
use gft_range::Range;

/// Why a transfer failed, with the numbers that show it. Lanes and channels are counted from 0.
#[derive(Clone, Copy, Debug, PartialEq, Eq)]
pub enum Cause {
    /// A channel that had given bytes, so many, ended without its EOD.
    Lost {
        lane: u16,
        channel: u32,
        taken: u64,
    },
    /// A block is refused.
    BadBlock {
        lane: u16,
        channel: u32,
        bad: BadBlock,
    },
    /// An EOF announces another total than the one that is kept.
    TwoTotals {
        kept: u64,
        new: u64,
    },
    /// An EOF announces 0 or more than [`gft_eod::MAX_EODS`] EODs.
    BadTotal {
        total: u64,
    },
    /// More EODs come than the total, or than [`gft_eod::MAX_EODS`] if no total is known.
    TooManyEods {
        total: u64,
    },
    /// A lane was quiet too long, while the count of turns stood at this number.
    Idle {
        lane: u16,
        turns: u64,
    },
    /// The total isn't known or isn't the number of EODs, or the file has a gap: its first one.
    Hole {
        total: Option<u64>,
        eods: u64,
        missing: Option<Range>,
    },
    /// As many bytes as [`gft_eblock::MAX_BYTES`] were taken from a lane.
    StreamTooLong {
        lane: u16,
    },
    /// A channel opened on a lane where no further one may be opened or live.
    TooManyChannels {
        lane: u16,
        opened: u32,
        live: u16,
    },
    /// The peer asked for the end, by ABOR.
    Aborted,
    /// The control connection ended, or a call to it failed.
    ControlGone,
    /// A call to a data connection failed.
    LinkFailed,
    /// A call to the drive failed.
    DriveFailed,
    /// The file would have more ranges than these.
    RangesFull {
        kept: u64,
    },
    /// Memory was refused.
    Memory,
}

impl Cause {
    /// The cause as which the refusal of an EOF or an EOD is kept, with the same numbers.
    pub fn of_count(error: EodError) -> Cause
        ensures { result ≡ cause_of_count error }
    {
        match error {
            EodError::BadTotal { total } => Cause::BadTotal { total },
            EodError::TwoTotals { kept, new } => Cause::TwoTotals { kept, new },
            EodError::TooManyEods { total } => Cause::TooManyEods { total },
        }
    }
}
