ghost use Rattle.std.specs.Prelude.{◌≡◌};
ghost use Rattle.gft_book.specs.Calls.{cause_of_keep};

use gft_keep::KeepError;
use gft_pass::Cause;

/// The transfer failed, in this call or before it. The Book keeps the cause.
#[derive(Clone, Copy, Debug, PartialEq, Eq)]
pub struct Stop;

/// The cause as which a block's refusal is kept.
pub(crate) fn of_keep(error: KeepError) -> Cause
    ensures { result ≡ cause_of_keep error }
{
    match error {
        KeepError::RangesFull { kept } => Cause::RangesFull { kept },
        KeepError::OutOfMemory => Cause::Memory,
        KeepError::Failed => Cause::DriveFailed,
    }
}
