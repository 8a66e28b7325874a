ghost use Rattle.std.specs.Prelude.{◌≡◌, ◌≢◌, ℕ, ◌≤◌, List, IfOk, IfErr, OnOk, OnErr, IsSome, MatchOption};
ghost use Rattle.std.specs.Prelude.{IfNone, IfSome};
ghost use Rattle.gft_base.specs.Words.{HasCause};
ghost use Rattle.gft_range.specs.Words.{HasOffset};
ghost use Rattle.gft_core.specs.declared.CoreEvent.{CoreEvent};
ghost use Rattle.gft_keep.specs.Words.{Broke, IsKeep, IsUnbroken, MovesBy, keep_of};
ghost use Rattle.gft_keep.specs.declared.Standing.TheVariants.{Whole};
ghost use Rattle.gft_book.specs.Begin.{Admits, BeginsEvents, BeginsIn, BeginsStore, CountsAnswer};
ghost use Rattle.gft_book.specs.Begin.{CountsRefusal, FindsKeep, IsFirstUnkept, KeepsUnlessFresh, Looks};
ghost use Rattle.gft_book.specs.Begin.{MayOpen, NamesSome, NotBegun, NotRecovered, OpensFor, RefusedFor, broken_by};
ghost use Rattle.gft_book.specs.Begin.{known_of, marks_left};
ghost use Rattle.gft_book.specs.Book.{book_of};
ghost use Rattle.gft_book.specs.Fits.{Fits};

use crate::book::Book;
use crate::mark::Mark;
use crate::transfer::{Stage, Transfer};
use crate::usage::{How, Use};
use gft_base::{Failed, OutOfMemory};
use gft_drive::{Drive, Origin};
use gft_eod::EodCount;
use gft_keep::{AttachError, Damage, Keep};
use gft_pass::{Pass, Roster};
use gft_range::{Range, RangeSet};
use thiserror::Error;

/// Why a transfer, or a read, doesn't begin.
#[derive(Clone, Copy, Debug, PartialEq, Eq, Error)]
pub enum BeginError {
    /// The file is in use.
    #[error("the file is in use: {found:?}")]
    Busy { found: Use },
    /// The journal of a keep that a failed call broke can't be read.
    #[error("the journal is damaged: {0}")]
    Damaged(Damage),
    /// The file is complete with this length, or was made elsewhere and has so many bytes.
    #[error("the file is complete with {len} bytes")]
    CompleteAlready { len: u64 },
    /// The list names these offsets, which aren't kept.
    #[error("{}-{} isn't kept", missing.start, missing.end)]
    NotInJournal { missing: Range },
    /// There is no file.
    #[error("there is no file")]
    NoSuch,
    /// The file isn't complete.
    #[error("the file isn't complete")]
    Incomplete,
    /// Memory was refused.
    #[error("out of memory")]
    OutOfMemory,
    /// The drive failed; its count of faults rose.
    #[error("the drive failed")]
    DriveFailed,
}

impl<D: Drive + Drop, O: Origin> Book<D, O> {
    /// Begins a transfer of so many lanes, with a pass for each lane, in order, and then the teller's.
    ///
    /// Refusals, in this order: `Busy` if the file isn't at rest; what attaching a broken keep again answers;
    /// `CompleteAlready` for an ESTO; `NotInJournal` for a restart; `OutOfMemory`; `DriveFailed`. The use is
    /// then as before.
    pub fn begin_store(&mut self, how: How, lanes: u16) -> Result<Vec<Pass>, BeginError>
        requires lanes { (1 ≤ lanes) × (lanes ≤ 16) }
        requires list { NamesSome how }
        ensures begun { IfOk result (λ passes. BeginsStore (book_of D.state self.old)
            (book_of D.state self.new) how lanes passes.items) }
        ensures refused { IfErr result (NotBegun (self.new ≡ self.old) (book_of D.state self.old)
            (book_of D.state self.new) how) }
        ensures since { BeginsIn (book_of D.state self.old) (book_of D.state self.new) }
        ensures keeps { KeepsUnlessFresh how (keep_of D.state self.old.keep) (keep_of D.state self.new.keep) }
        // A keep that was broken over a drive that tells nothing can't be tied to the events.
        ensures events { (events : List CoreEvent) → Fits (book_of D.state self.old) events
            → IsSome (keep_of D.state self.old.keep).drive.contents
            → BeginsEvents (book_of D.state self.old) (book_of D.state self.new) how result events }
    {
        let found = self.use_now();
        if found != Use::Rest {
            return Err(BeginError::Busy { found });
        }
        if let Some(refusal) = prepare(&mut self.keep, &how) {
            return Err(refusal);
        }
        let (roster, passes) = match Roster::begin(self.alloc, lanes + 1) {
            Ok(begun) => begun,
            Err(OutOfMemory) => return Err(BeginError::OutOfMemory),
        };
        if open_file(&mut self.keep, &how).is_err() {
            forget_marks(&mut self.marks, &how);
            return Err(BeginError::DriveFailed);
        }
        self.marks.clear();
        self.unmarked = 0;
        self.turns = 0;
        self.stage = Stage::Storing(Transfer {
            roster,
            how,
            count: EodCount::new(),
            cause: None,
        });
        Ok(passes)
    }
}

/// Attaches the keep again if a failed call broke it, and tells why the transfer may not begin so, if it may
/// not.
fn prepare<D: Drive + Drop>(keep: &mut Keep<D>, how: &How) -> Option<BeginError>
    requires keep { IsKeep (keep_of D.state keep.old) }
    ensures keep { IsKeep (keep_of D.state keep.new) }
    ensures finds { FindsKeep (keep_of D.state keep.old) (keep_of D.state keep.new) }
    ensures ready { IfNone result ((keep_of D.state keep.new).standing ≡ Whole) }
    ensures admits { IfNone result (Admits (known_of (keep_of D.state keep.new)) how.now) }
    ensures refused { IfSome result (RefusedFor (keep_of D.state keep.old)
        (known_of (keep_of D.state keep.new)) how.now) }
    ensures counts { CountsRefusal (keep_of D.state keep.old).drive.faults
        (keep_of D.state keep.new).drive.faults result }
{
    if let Err(refusal) = recover(keep) {
        return Some(refusal);
    }
    judge(keep, how)
}

/// Attaches a keep again that a failed call broke.
pub(crate) fn recover<D: Drive + Drop>(keep: &mut Keep<D>) -> Result<(), BeginError>
    requires keep { IsKeep (keep_of D.state keep.old) }
    ensures keep { IsKeep (keep_of D.state keep.new) }
    ensures finds { FindsKeep (keep_of D.state keep.old) (keep_of D.state keep.new) }
    ensures ready { OnOk result ((keep_of D.state keep.new).standing ≡ Whole) }
    ensures refused { IfErr result (NotRecovered (keep_of D.state keep.old)) }
    ensures counts { CountsAnswer (keep_of D.state keep.old).drive.faults
        (keep_of D.state keep.new).drive.faults result }
{
    if !keep.broken() {
        return Ok(());
    }
    match keep.reattach() {
        Ok(()) => Ok(()),
        Err(AttachError::Damaged(damage)) => Err(BeginError::Damaged(damage)),
        Err(AttachError::OutOfMemory) => Err(BeginError::OutOfMemory),
        Err(AttachError::Failed) => Err(BeginError::DriveFailed),
    }
}

/// Why a transfer may not begin so on the file as it is kept, if it may not.
fn judge<D: Drive + Drop>(keep: &mut Keep<D>, how: &How) -> Option<BeginError>
    requires unbroken { IsUnbroken (keep_of D.state keep.old) }
    ensures looks { Looks (keep_of D.state keep.old) (keep_of D.state keep.new) }
    ensures answer { MatchOption result (Admits (known_of (keep_of D.state keep.old)) how.now)
        (RefusedFor (keep_of D.state keep.old) (known_of (keep_of D.state keep.old)) how.now) }
    ensures counts { CountsRefusal (keep_of D.state keep.old).drive.faults
        (keep_of D.state keep.new).drive.faults result }
{
    match how {
        How::Fresh => None,
        How::Resume(list) => first_missing(keep.ranges(), list),
        How::Esto => judge_esto(keep),
    }
}

/// Why no ESTO may add to the file, if none may.
fn judge_esto<D: Drive + Drop>(keep: &mut Keep<D>) -> Option<BeginError>
    requires unbroken { IsUnbroken (keep_of D.state keep.old) }
    ensures looks { Looks (keep_of D.state keep.old) (keep_of D.state keep.new) }
    ensures answer { MatchOption result (Admits (known_of (keep_of D.state keep.old)) How.Esto)
        (RefusedFor (keep_of D.state keep.old) (known_of (keep_of D.state keep.old)) How.Esto) }
    ensures counts { CountsRefusal (keep_of D.state keep.old).drive.faults
        (keep_of D.state keep.new).drive.faults result }
{
    if let Some(len) = keep.completed() {
        return Some(BeginError::CompleteAlready { len });
    }
    if keep.born() {
        return None;
    }
    match keep.size() {
        Ok(0) => None,
        Ok(len) => Some(BeginError::CompleteAlready { len }),
        Err(Failed) => Some(BeginError::DriveFailed),
    }
}

/// The first range of the list's offsets that aren't kept, as a refusal.
fn first_missing(kept: &RangeSet, list: &RangeSet) -> Option<BeginError>
    ensures { MatchOption result ((x : ℕ) → HasOffset list.now.ranges x → HasOffset kept.now.ranges x)
        (λ error. (missing : Range) × (error ≡ BeginError.NotInJournal missing)
        × IsFirstUnkept kept.now.ranges list.now.ranges missing) }
{
    for i in 0..list.count() {
        if let Some(range) = list.nth(i) {
            if let Some(missing) = kept.missing(range).next() {
                return Some(BeginError::NotInJournal { missing });
            }
        }
    }
    None
}

/// Opens the file for the blocks of a transfer: emptied, or as it is kept.
fn open_file<D: Drive + Drop>(keep: &mut Keep<D>, how: &How) -> Result<(), Failed>
    requires unbroken { IsUnbroken (keep_of D.state keep.old) }
    ensures any_moment { MovesBy (MayOpen how.now) (keep_of D.state keep.old) (keep_of D.state keep.new) }
    ensures opened { OnOk result (OpensFor how.now (keep_of D.state keep.old) (keep_of D.state keep.new)) }
    ensures failed { OnErr result (Broke (broken_by how.now) (keep_of D.state keep.old)
        (keep_of D.state keep.new)) }
    ensures cause { HasCause (keep_of D.state keep.old).drive.faults (keep_of D.state keep.new).drive.faults
        result }
{
    match how {
        How::Fresh => keep.fresh(),
        How::Resume(_) => keep.resume(),
        How::Esto => keep.resume(),
    }
}

/// Drops the marks of a file that was to be emptied: some image may lack what they name.
fn forget_marks(marks: &mut Vec<Mark>, how: &How)
    ensures { marks.new.items ≡ marks_left how.now marks.old.items }
{
    match how {
        How::Fresh => marks.clear(),
        How::Resume(_) | How::Esto => {}
    }
}
