ghost use Rattle.std.specs.Prelude.{◌≡◌, ◌≢◌, ◌↔◌, ◌≤◌, length, IsTrue, IfOk, IfErr, OnOk};
ghost use Rattle.gft_base.specs.Words.{HasCause};
ghost use Rattle.gft_drive.specs.Words.{HasLength, HasRead, HasTwinCause, IsTwin};
ghost use Rattle.gft_drive.specs.declared.Part.TheVariants.{Bytes};
ghost use Rattle.gft_journal.specs.Words.{HasAttachCause};
ghost use Rattle.gft_keep.specs.declared.standing.Standing.TheVariants.{Whole};
ghost use Rattle.gft_keep.specs.Calls.{Attached, NotAttached, NotReattached, OnlyLooks, Reattached};
ghost use Rattle.gft_keep.specs.Keep.{IsKeep, MovesBy};
ghost use Rattle.gft_keep.specs.Of.{drive_of, keep_of};
ghost use Rattle.gft_keep.specs.State.{IsWhole};

use crate::opening::open;
use crate::standing::Standing;
use gft_base::Failed;
use gft_drive::{Drive, Part, TwinError};
use gft_journal::{AttachError, Found, Journal};
use gft_range::RangeSet;
use std::alloc::Global;

/// A file on a drive beside its journal. Contracts see `keep_of D.state keep`: the drive's state, what
/// is kept, and how the keep stands.
///
/// Looks: `ranges`, `born`, `completed`, `broken`, `read`, `size`, `twin`. Changes: `fresh` or `resume`, then
/// `store` for each block, then `finish`. A change that fails leaves it broken: then only the looks in
/// memory, which show what was kept before, `into_drive` and `reattach` may be called, and only a
/// `reattach` that is `Ok` repairs it.
#[derive(Drop)]
pub struct Keep<D: Drive + Drop> {
    pub(crate) drive: D,
    pub(crate) journal: Journal,
    pub(crate) set: RangeSet,
    pub(crate) born: bool,
    pub(crate) complete: Option<u64>,
    pub(crate) standing: Standing,
    pub(crate) alloc: Global,
}

impl<D: Drive + Drop> Keep<D> {
    /// Takes a drive as a keep, once both parts are synced; it writes nothing. On every error the drive
    /// comes back.
    ///
    /// `Damaged` names the first damage, the journal's before `Short`: `end` is the greatest kept end
    /// or the complete length, whichever is more, and the data has `len` bytes, fewer than that.
    pub fn attach(alloc: Global, drive: D) -> Result<Self, (AttachError, D)>
        ensures ok { IfOk result (λ keep. Attached (D.state drive) (keep_of D.state keep)) }
        ensures failed { IfErr result (λ error. NotAttached (D.state drive) error.0 (D.state error.1)) }
    {
        let mut drive = drive;
        match open(alloc, &mut drive) {
            Ok(
                Found {
                    journal,
                    set,
                    born,
                    complete,
                },
            ) => Ok(Keep {
                drive,
                journal,
                set,
                born,
                complete,
                standing: Standing::Whole,
                alloc,
            }),
            Err(error) => Err((error, drive)),
        }
    }

    /// Attaches the drive again, and stands on what it finds there. On every error the keep is broken,
    /// and shows what it kept before.
    pub fn reattach(&mut self) -> Result<(), AttachError>
        requires keep { IsKeep (keep_of D.state self.old) }
        ensures any_moment { MovesBy (λ from image. image ≡ from) (keep_of D.state self.old)
            (keep_of D.state self.new) }
        ensures reattached { OnOk result (Reattached (keep_of D.state self.old) (keep_of D.state self.new)) }
        ensures failed { IfErr result (NotReattached (keep_of D.state self.old) (keep_of D.state self.new)) }
        ensures cause { HasAttachCause (keep_of D.state self.old).drive.faults
            (keep_of D.state self.new).drive.faults result }
    {
        match open(self.alloc, &mut self.drive) {
            Ok(
                Found {
                    journal,
                    set,
                    born,
                    complete,
                },
            ) => {
                self.journal = journal;
                self.set = set;
                self.born = born;
                self.complete = complete;
                self.standing = Standing::Whole;
                Ok(())
            }
            Err(error) => {
                self.standing = self.standing.once_failed();
                Err(error)
            }
        }
    }

    /// The kept offsets.
    pub fn ranges(&self) -> &RangeSet
        ensures { result.now.ranges ≡ (keep_of D.state self.now).ranges }
    {
        &self.set
    }

    /// Whether this server has stored on the drive.
    pub fn born(&self) -> bool
        ensures { result ≡ (keep_of D.state self.now).is_born }
    {
        self.born
    }

    /// The length of a complete file, in bytes.
    pub fn completed(&self) -> Option<u64>
        ensures { result ≡ (keep_of D.state self.now).complete }
    {
        self.complete
    }

    /// Whether a change failed.
    pub fn broken(&self) -> bool
        ensures { IsTrue result ↔ ((keep_of D.state self.now).standing ≢ Whole) }
    {
        self.standing.is_broken()
    }

    /// Gives the drive back.
    pub fn into_drive(self) -> D
        ensures { result ≡ drive_of self }
    {
        self.drive
    }

    /// Reads bytes of the file from this place on into the front of the buffer, fewer than asked
    /// only at the end.
    pub fn read(&mut self, at: u64, buf: &mut [u8]) -> Result<usize, Failed>
        requires whole { IsWhole (keep_of D.state self.old) }
        ensures bound { IfOk result (λ n. n ≤ length buf.new) }
        ensures bytes { IfOk result (HasRead Bytes at buf.new (keep_of D.state self.old).drive) }
        ensures looks { OnlyLooks (keep_of D.state self.old) (keep_of D.state self.new) }
        ensures cause { HasCause (keep_of D.state self.old).drive.faults
            (keep_of D.state self.new).drive.faults result }
    {
        self.drive.read(Part::Bytes, at, buf)
    }

    /// The number of bytes of the file.
    pub fn size(&mut self) -> Result<u64, Failed>
        requires whole { IsWhole (keep_of D.state self.old) }
        ensures length { IfOk result (HasLength Bytes (keep_of D.state self.old).drive) }
        ensures looks { OnlyLooks (keep_of D.state self.old) (keep_of D.state self.new) }
        ensures cause { HasCause (keep_of D.state self.old).drive.faults
            (keep_of D.state self.new).drive.faults result }
    {
        self.drive.len(Part::Bytes)
    }

    /// Another drive under the same label, which reads what the keep's drive reads now. A crash leaves
    /// that of it, and no call of it has failed.
    pub fn twin(&mut self) -> Result<D, TwinError>
        requires whole { IsWhole (keep_of D.state self.old) }
        ensures twin { IfOk result (λ twin. IsTwin (keep_of D.state self.old).drive (D.state twin)) }
        ensures looks { OnlyLooks (keep_of D.state self.old) (keep_of D.state self.new) }
        ensures cause { HasTwinCause (keep_of D.state self.old).drive.faults
            (keep_of D.state self.new).drive.faults result }
    {
        self.drive.twin(self.alloc)
    }
}
