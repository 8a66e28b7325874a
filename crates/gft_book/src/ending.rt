ghost use Rattle.std.specs.Prelude.{◌≡◌, List, IsOk, IfOk, IfErr, OnOk, MatchResult, true};
ghost use Rattle.gft_base.specs.Words.{HasCause};
ghost use Rattle.gft_range.specs.Words.{HasNoGap};
ghost use Rattle.gft_drive.specs.Words.{sent_by};
ghost use Rattle.gft_core.specs.declared.CoreEvent.{CoreEvent};
ghost use Rattle.gft_keep.specs.Words.{IsOpen, MovesBy, keep_of};
ghost use Rattle.gft_keep.specs.declared.Standing.TheVariants.{Whole, Torn};
ghost use Rattle.gft_book.specs.Book.{HasAllPasses, InTransfer, book_of};
ghost use Rattle.gft_book.specs.Ending.{Closed, Closes, ComesToRest, EqualsSource, SettlesBadly};
ghost use Rattle.gft_book.specs.Ending.{SettlesEvents, SettlesWell};
ghost use Rattle.gft_book.specs.Fits.{Fits};
ghost use Rattle.gft_book.specs.Keeping.{KeepsThrough};

use crate::book::Book;
use crate::transfer::Stage;
use gft_base::Failed;
use gft_drive::{Drive, Origin};
use gft_keep::Keep;
use gft_pass::{Cause, Ended, Pass};
use std::marker::Model;
use std::mem;

/// A transfer that was settled well, with the numbers of its passes. Only `settle` makes one.
#[derive(Drop)]
pub struct Finished {
    numbers: Ended,
    len: u64,
    is_whole: bool,
}

impl Model for Finished {
    ghost use Rattle.gft_book.specs.Ending.{SettledFile};

    ghost Value = { SettledFile };

    ghost view = { λ f. record { numbers = f.numbers; len = f.len; is_whole = f.is_whole } };
}

impl Finished {
    /// The offset behind the last kept byte.
    pub fn len(&self) -> u64
        ensures { result ≡ self.now.len }
    {
        self.len
    }

    /// Whether the file is complete: false for an ESTO alone.
    pub fn is_whole(&self) -> bool
        ensures { result ≡ self.now.is_whole }
    {
        self.is_whole
    }
}

impl<D: Drive + Drop, O: Origin> Book<D, O> {
    /// Ends the transfer, with all its passes in the order in which they were given. The file is at rest
    /// afterwards.
    ///
    /// The answer is the kept cause; else `Hole`, if no total is known, EODs are missing, or for a STOR the
    /// file has a gap; else `DriveFailed`, if the drive fails to complete the file.
    pub fn settle(&mut self, passes: Vec<Pass>) -> Result<Finished, Cause>
        requires passes { HasAllPasses self.old.stage passes.items }
        ensures rest { ComesToRest (book_of D.state self.old) (book_of D.state self.new) passes.items }
        ensures finished { IfOk result (λ file. InTransfer (SettlesWell (keep_of D.state self.old.keep)
            (keep_of D.state self.new.keep) file) self.old.stage) }
        ensures refused { IfErr result (λ cause. InTransfer (SettlesBadly (keep_of D.state self.old.keep)
            (keep_of D.state self.new.keep) cause) self.old.stage) }
        ensures keeps { KeepsThrough (Closes (keep_of D.state self.old.keep)) (keep_of D.state self.old.keep)
            (keep_of D.state self.new.keep) }
        ensures honest { OnOk result (EqualsSource
            (sent_by O.source O.orders O.fit (keep_of D.state self.old.keep).drive.label)
            (book_of D.state self.old) (keep_of D.state self.new.keep)) }
        ensures events { (events : List CoreEvent) → Fits (book_of D.state self.old) events
            → SettlesEvents (book_of D.state self.old) (book_of D.state self.new) (IsOk result) events }
    {
        let stage = mem::replace(&mut self.stage, Stage::Rest);
        let Stage::Storing(transfer) = stage else {
            unreachable!()
        };
        let failure = transfer.failure(self.keep.ranges());
        let is_whole = transfer.how.is_stor();
        let (settled, numbers) = transfer.roster.settle(passes);
        self.last = Some(settled);
        if let Some(cause) = failure {
            return Err(cause);
        }
        match close(&mut self.keep, is_whole) {
            Ok(len) => Ok(Finished {
                numbers,
                len,
                is_whole,
            }),
            Err(Failed) => Err(Cause::DriveFailed),
        }
    }
}

/// Completes a file without a gap, or leaves it, and tells the offset behind its last kept byte.
fn close<D: Drive + Drop>(keep: &mut Keep<D>, completes: bool) -> Result<u64, Failed>
    requires is_open { IsOpen (keep_of D.state keep.old) }
    requires no_gap { completes ≡ true → HasNoGap (keep_of D.state keep.old).ranges }
    ensures any_moment { MovesBy (Closes (keep_of D.state keep.old)) (keep_of D.state keep.old)
        (keep_of D.state keep.new) }
    ensures closed { IfOk result (Closed (keep_of D.state keep.old) (keep_of D.state keep.new) completes) }
    ensures ranges { (keep_of D.state keep.new).ranges ≡ (keep_of D.state keep.old).ranges }
    ensures standing { MatchResult result (λ _. (keep_of D.state keep.new).standing ≡ Whole)
        (λ _. (keep_of D.state keep.new).standing ≡ Torn) }
    ensures cause { HasCause (keep_of D.state keep.old).drive.faults (keep_of D.state keep.new).drive.faults
        result }
{
    let len = keep.ranges().end();
    if completes {
        keep.finish(len)?;
    }
    Ok(len)
}
