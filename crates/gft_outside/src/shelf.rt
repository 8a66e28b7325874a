ghost use Rattle.std.specs.Prelude.{IfErr, IfOk, MatchOption, MatchResult};
ghost use Rattle.gft_drive.specs.Words.{DriveState};
ghost use Rattle.gft_outside.specs.Shelves.{FindsDrive, FindsNone, MakesDrive, NotFound, NotMade, NotRemoved};
ghost use Rattle.gft_outside.specs.Shelves.{RemovesName, ShelfState};

use gft_base::Failed;
use gft_drive::Drive;
use gft_text::Name;
use std::alloc::Global;
use thiserror::Error;

/// Why a shelf gives no drive.
#[derive(Clone, Copy, Debug, PartialEq, Eq, Error)]
pub enum ShelfError {
    /// The call failed, and the count of faults rose.
    #[error("the shelf failed")]
    Failed,
    /// Memory was refused.
    #[error("out of memory")]
    OutOfMemory,
}

/// Where files lie, each a drive under its name. Every call leaves all other names and their drives as they
/// are.
pub trait Shelf: Sized + Send {
    type D: Drive + Drop;

    /// The drive under each name, if the shelf tells them, and the count of faults.
    ghost state: { Self → ShelfState Self.D };

    /// Hands out the drive under the name, whose label is the name, or answers that there is none. The shelf
    /// then has none under the name. If it refuses, nothing changes.
    fn find(&mut self, alloc: Global, name: &Name) -> Result<Option<Self::D>, ShelfError>
        ensures found { IfOk result (λ found. MatchOption found
            (FindsNone (state self.old) (state self.new) name.now)
            (λ drive. FindsDrive (Self.D.state drive) (state self.old) (state self.new) name.now drive)) }
        ensures refused { IfErr result (NotFound (state self.old) (state self.new) name.now) };

    /// Hands out a new drive, whose label is the name; the shelf then has none under the name. If it refuses,
    /// there may be a new drive under the name.
    fn make(&mut self, alloc: Global, name: &Name) -> Result<Self::D, ShelfError>
        ensures made { IfOk result (λ drive. MakesDrive (Self.D.state drive) (state self.old)
            (state self.new) name.now) }
        ensures refused { IfErr result (NotMade Self.D.state (state self.old) (state self.new) name.now) };

    /// Takes the name from the shelf, with its drive. If it fails, the name may be gone.
    fn remove(&mut self, name: &Name) -> Result<(), Failed>
        ensures { MatchResult result (λ _. RemovesName (state self.old) (state self.new) name.now)
            (λ _. NotRemoved (state self.old) (state self.new) name.now) };
}
