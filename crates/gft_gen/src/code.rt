ghost use Rattle.std.specs.Prelude.{◌≡◌};
ghost use Rattle.gft_gen.specs.Codes.{code_of_cause, code_of_refusal};

use gft_book::BeginError;
use gft_pass::Cause;

/// The code of the reply that answers a transfer which ended so (RFC 959, section 4.2).
pub(crate) fn code_of_cause(cause: &Cause) -> u16
    ensures { result ≡ code_of_cause cause.now }
{
    match cause {
        Cause::Lost { .. }
        | Cause::BadBlock { .. }
        | Cause::TwoTotals { .. }
        | Cause::BadTotal { .. }
        | Cause::TooManyEods { .. }
        | Cause::Idle { .. }
        | Cause::Hole { .. }
        | Cause::StreamTooLong { .. }
        | Cause::TooManyChannels { .. }
        | Cause::Aborted
        | Cause::ControlGone => 426,
        Cause::LinkFailed => 425,
        Cause::DriveFailed => 451,
        Cause::RangesFull { .. } => 452,
        Cause::Memory => 455,
    }
}

/// The code of the reply to a STOR that doesn't begin.
pub(crate) fn code_of_refusal(refusal: &BeginError) -> u16
    ensures { result ≡ code_of_refusal refusal.now }
{
    match refusal {
        BeginError::Busy { .. } => 450,
        BeginError::Damaged(_) | BeginError::DriveFailed => 451,
        BeginError::OutOfMemory => 455,
        BeginError::CompleteAlready { .. } | BeginError::NoSuch | BeginError::Incomplete => 550,
        BeginError::NotInJournal { .. } => 554,
    }
}
