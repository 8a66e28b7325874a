ghost use Rattle.std.specs.Prelude.{◌≡◌, ◌<◌, ◌≤◌, ℕ, length, IfOk, OnOk};
ghost use Rattle.gft_base.specs.Words.{HasCause};
ghost use Rattle.gft_drive.specs.Drive.{DriveState, IsLawful, Unchanged, ChangesOnly, Reads, Leaves};
ghost use Rattle.gft_drive.specs.Drive.{IsSynced, HasLength, HasRead};
ghost use Rattle.gft_drive.specs.Twin.{IsTwin, HasTwinCause};
ghost use Rattle.gft_drive.specs.Write.{Written, Torn, CutTo, TornCut, Same};

use crate::error::TwinError;
use gft_base::Failed;
use std::alloc::Global;

/// One of the two byte lists of a drive: a file's data, and what is kept beside it of its ranges.
#[derive(Clone, Copy, Debug, PartialEq, Eq)]
pub enum Part {
    Bytes,
    Ranges,
}

/// A file's data and its ranges, as a read gives them, and as a crash may leave them. Places and
/// lengths are in bytes.
///
/// A call on one part changes nothing that a read of the other gives, or that a crash leaves of it.
pub trait Drive: Sized + Send {
    /// The label, what a read gives where the drive tells it, what a crash may leave since each
    /// moment, and the count of faults.
    ghost state: { Self → DriveState };

    /// The number of bytes of a part.
    fn len(&mut self, part: Part) -> Result<u64, Failed>
        ensures length { IfOk result (HasLength part (state self.old)) }
        ensures unchanged { Unchanged (state self.old) (state self.new) }
        ensures cause { HasCause (state self.old).faults (state self.new).faults result };

    /// Reads the bytes from this place on into the front of the buffer, fewer than asked only at
    /// the end.
    fn read(&mut self, part: Part, at: u64, buf: &mut [u8]) -> Result<usize, Failed>
        ensures bound { IfOk result (λ n. n ≤ length buf.new) }
        ensures bytes { IfOk result (HasRead part at buf.new (state self.old)) }
        ensures unchanged { Unchanged (state self.old) (state self.new) }
        ensures cause { HasCause (state self.old).faults (state self.new).faults result };

    /// Writes over what is there, and past the end, where zeros stand between. Until a sync a crash
    /// may leave any bytes there. After a failed write nothing more is known of this part.
    fn write_at(&mut self, part: Part, at: u64, bytes: &[u8]) -> Result<(), Failed>
        requires { 0 < length bytes.now }
        ensures written { OnOk result (Reads part (Written at bytes.now) (state self.old) (state self.new)) }
        ensures crash { Leaves part (Torn at (length bytes.now)) (state self.old) (state self.new) }
        ensures only { ChangesOnly part (state self.old) (state self.new) result };

    /// Shortens a part to this length; it changes nothing if the part isn't longer. Until a sync
    /// a crash may leave any length from the new one to the old one.
    fn cut(&mut self, part: Part, len: u64) -> Result<(), Failed>
        ensures cut { OnOk result (Reads part (CutTo len) (state self.old) (state self.new)) }
        ensures crash { Leaves part (TornCut len) (state self.old) (state self.new) }
        ensures only { ChangesOnly part (state self.old) (state self.new) result };

    /// From now on a crash leaves in this part what a read gives.
    fn sync(&mut self, part: Part) -> Result<(), Failed>
        ensures durable { OnOk result (IsSynced part (state self.new)) }
        ensures read { OnOk result ((state self.new).contents ≡ (state self.old).contents) }
        ensures crash { Leaves part Same (state self.old) (state self.new) }
        ensures only { ChangesOnly part (state self.old) (state self.new) result };

    /// Another drive under the same label, which reads what this one reads now. A crash leaves that of
    /// it, and no call of it has failed. This drive stays as it is.
    fn twin(&mut self, alloc: Global) -> Result<Self, TwinError>
        ensures twin { IfOk result (λ twin. IsTwin (state self.old) (state twin)) }
        ensures unchanged { Unchanged (state self.old) (state self.new) }
        ensures cause { HasTwinCause (state self.old).faults (state self.new).faults result };

    /// Every drive's state is lawful.
    ghost lawful: { (drive : Self) → IsLawful (state drive) };
}
