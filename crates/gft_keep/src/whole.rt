ghost use Rattle.std.specs.Prelude.{◌≡◌, ◌↔◌, ◌≤◌, ℕ, ◌<◌, [], IfSome, OnOk, OnErr};
ghost use Rattle.gft_base.specs.Words.{HasCause};
ghost use Rattle.gft_range.specs.Words.{HasOffset};
ghost use Rattle.gft_keep.specs.declared.standing.Standing.TheVariants.{Emptying, Torn};
ghost use Rattle.gft_keep.specs.Calls.{Broke, Emptied, Finished, Reopened};
ghost use Rattle.gft_keep.specs.Keep.{IsUnbroken, MovesBy};
ghost use Rattle.gft_keep.specs.Of.{keep_of};
ghost use Rattle.gft_keep.specs.Steps.{Empties, Finishes, IsEmpty, Reopens};
ghost use Rattle.gft_keep.specs.Tearing.{EachSince, NamesSet};
ghost use Rattle.gft_keep.specs.Changing.{EmptiesSoundly, FinishesSoundly, IsFinished, IsMarked, IsReady};
ghost use Rattle.gft_keep.specs.Changing.{IsReopened, MayFinish, ReadyBy, ReopensSoundly};

use crate::keep::Keep;
use crate::standing::Standing;
use gft_base::{Failed, LIMIT};
use gft_drive::{Drive, Part};
use gft_journal::Journal;
use gft_range::RangeSet;

impl<D: Drive + Drop> Keep<D> {
    /// Keeps nothing, and empties the file, which is born then. If it fails the keep is broken.
    pub fn fresh(&mut self) -> Result<(), Failed>
        requires unbroken { IsUnbroken (keep_of D.state self.old) }
        ensures any_moment { MovesBy Empties (keep_of D.state self.old) (keep_of D.state self.new) }
        ensures emptied { OnOk result (Emptied (keep_of D.state self.old) (keep_of D.state self.new)) }
        ensures failed { OnErr result (Broke Emptying (keep_of D.state self.old) (keep_of D.state self.new)) }
        ensures cause { HasCause (keep_of D.state self.old).drive.faults
            (keep_of D.state self.new).drive.faults result }
    {
        let none = RangeSet::new(self.alloc);
        match empty(&mut self.journal, &mut self.drive, &none) {
            Ok(()) => {
                self.set.clear();
                self.born = true;
                self.complete = None;
                Ok(())
            }
            Err(Failed) => {
                self.standing = Standing::Emptying;
                Err(Failed)
            }
        }
    }

    /// Takes the complete mark away if there is one, and keeps the ranges; the file is born then. If it
    /// fails the keep is broken.
    pub fn resume(&mut self) -> Result<(), Failed>
        requires unbroken { IsUnbroken (keep_of D.state self.old) }
        ensures any_moment { MovesBy Reopens (keep_of D.state self.old) (keep_of D.state self.new) }
        ensures reopened { OnOk result (Reopened (keep_of D.state self.old) (keep_of D.state self.new)) }
        ensures failed { OnErr result (Broke Torn (keep_of D.state self.old) (keep_of D.state self.new)) }
        ensures cause { HasCause (keep_of D.state self.old).drive.faults
            (keep_of D.state self.new).drive.faults result }
    {
        let marked = self.complete.is_some();
        match reopen(&mut self.journal, &mut self.drive, &self.set, marked) {
            Ok(()) => {
                self.born = true;
                self.complete = None;
                Ok(())
            }
            Err(Failed) => {
                self.standing = Standing::Torn;
                Err(Failed)
            }
        }
    }

    /// Cuts the file to this length, up to which all its bytes are kept, and completes it. A file that is
    /// complete already is so with at most this length. If it fails the keep is broken.
    pub fn finish(&mut self, len: u64) -> Result<(), Failed>
        requires unbroken { IsUnbroken (keep_of D.state self.old) }
        requires exact { (x : ℕ) → HasOffset (keep_of D.state self.old).ranges x ↔ (x < len) }
        requires mark { IfSome (keep_of D.state self.old).complete (λ n. n ≤ len) }
        ensures any_moment { MovesBy (Finishes len) (keep_of D.state self.old) (keep_of D.state self.new) }
        ensures finished { OnOk result
            (Finished len (keep_of D.state self.old) (keep_of D.state self.new)) }
        ensures failed { OnErr result (Broke Torn (keep_of D.state self.old) (keep_of D.state self.new)) }
        ensures cause { HasCause (keep_of D.state self.old).drive.faults
            (keep_of D.state self.new).drive.faults result }
    {
        match finish_at(&mut self.journal, &mut self.drive, len) {
            Ok(()) => {
                self.complete = Some(len);
                Ok(())
            }
            Err(Failed) => {
                self.standing = Standing::Torn;
                Err(Failed)
            }
        }
    }
}

// Names nothing, and then leaves no data.
fn empty<D: Drive>(journal: &mut Journal, drive: &mut D, none: &RangeSet) -> Result<(), Failed>
    requires ready { IsReady journal.old (D.state drive.old) }
    requires none { none.now.ranges ≡ [] }
    ensures since { EachSince EmptiesSoundly (D.state drive.old) (D.state drive.new) }
    ensures emptied { OnOk result (ReadyBy IsEmpty journal.new (D.state drive.old) (D.state drive.new)) }
    ensures cause { HasCause (D.state drive.old).faults (D.state drive.new).faults result }
{
    journal.birth(drive)?;
    journal.rebase(drive, none, None)?;
    drive.cut(Part::Bytes, 0)?;
    drive.sync(Part::Bytes)
}

// Takes the complete mark away if there is one.
fn reopen<D: Drive>(
    journal: &mut Journal,
    drive: &mut D,
    set: &RangeSet,
    marked: bool,
) -> Result<(), Failed>
    requires ready { IsReady journal.old (D.state drive.old) }
    requires names { NamesSet set.now.ranges (D.state drive.old) }
    requires marked { IsMarked marked (D.state drive.old) }
    ensures since { EachSince ReopensSoundly (D.state drive.old) (D.state drive.new) }
    ensures reopened { OnOk result (ReadyBy IsReopened journal.new (D.state drive.old) (D.state drive.new)) }
    ensures cause { HasCause (D.state drive.old).faults (D.state drive.new).faults result }
{
    journal.birth(drive)?;
    if !marked {
        return Ok(());
    }
    journal.rebase(drive, set, None)
}

// Leaves data of this length, and then completes it.
fn finish_at<D: Drive>(journal: &mut Journal, drive: &mut D, len: u64) -> Result<(), Failed>
    requires ready { IsReady journal.old (D.state drive.old) }
    requires exact { MayFinish len (D.state drive.old) }
    requires in_limit { len ≤ LIMIT }
    ensures since { EachSince (FinishesSoundly len) (D.state drive.old) (D.state drive.new) }
    ensures finished { OnOk result
        (ReadyBy (IsFinished len) journal.new (D.state drive.old) (D.state drive.new)) }
    ensures cause { HasCause (D.state drive.old).faults (D.state drive.new).faults result }
{
    drive.cut(Part::Bytes, len)?;
    drive.sync(Part::Bytes)?;
    journal.complete(drive, len)
}
