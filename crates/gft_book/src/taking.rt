ghost use Rattle.std.specs.Prelude.{◌≡◌, List, ◌∷◌, IfOk, OnErr, OnOk, true, false};
ghost use Rattle.gft_core.specs.declared.CoreEvent.{CoreEvent};
ghost use Rattle.gft_core.specs.declared.CoreEvent.TheVariants as event;
ghost use Rattle.gft_drive.specs.Words.{sent_by};
ghost use Rattle.gft_keep.specs.Words.{IsBlock};
ghost use Rattle.gft_book.specs.Book.{IsLanePass, IsPass, Moving, book_of, cause_of};
ghost use Rattle.gft_book.specs.Calls.{AwaitsMore, CallsOn, CarriesOn, FindsEnded, IsOutside, KeepsFirst};
ghost use Rattle.gft_book.specs.Calls.{SendsBlock, SendsEod, SendsTotal, StageOnly};
ghost use Rattle.gft_book.specs.Calls.{StopsBlock, StopsEod, StopsEof, TakesBlock, TakesEod, TakesEof};
ghost use Rattle.gft_book.specs.Fits.{Fits, StoresEvents, failure_of, if_running};

use crate::book::Book;
use crate::cause::{Stop, of_keep};
use gft_drive::{Drive, Origin};
use gft_pass::{Cause, Pass};

impl<D: Drive + Drop, O: Origin> Book<D, O> {
    /// Whether the transfer runs, and not all EODs were taken. If not, whoever has the pass takes nothing
    /// more, and the pass notes it. This is no turn.
    pub fn awaits_more(&mut self, pass: &mut Pass) -> bool
        requires pass { IsPass self.old.stage pass.old }
        ensures awaits { result ≡ true → AwaitsMore pass.old pass.new self.old self.new }
        ensures ended { result ≡ false → FindsEnded pass.old pass.new self.old.stage self.new.stage }
        ensures only { StageOnly self.old self.new }
        ensures carries_on { CarriesOn (book_of D.state self.old) (book_of D.state self.new) }
        ensures events { (events : List CoreEvent) → Fits (book_of D.state self.old) events
            → Fits (book_of D.state self.new) events }
    {
        if !self.stage.has_ended() {
            return true;
        }
        self.stage.note(pass);
        false
    }

    /// Stores a block of a lane, and tells how many of its bytes are new. A byte that was kept stays.
    ///
    /// `Stop` if the transfer had failed, or fails in this call: the keep takes no more ranges, memory was
    /// refused, or the drive failed.
    pub fn store(&mut self, pass: &mut Pass, offset: u64, bytes: &[u8]) -> Result<u64, Stop>
        requires pass { IsLanePass self.old.stage pass.old }
        requires block { IsBlock offset bytes.now }
        requires honest { SendsBlock (sent_by O.source O.orders O.fit) (book_of D.state self.old) pass.old
            offset bytes.now }
        ensures stored { IfOk result (TakesBlock (book_of D.state self.old) (book_of D.state self.new)
            pass.old pass.new offset bytes.now) }
        ensures stopped { OnErr result (StopsBlock (self.new.keep ≡ self.old.keep) (book_of D.state self.old)
            (book_of D.state self.new) pass.old pass.new offset bytes.now) }
        ensures unmarked { OnErr result (self.new.unmarked ≡ self.old.unmarked) }
        ensures calls_on { CallsOn D.state self.old self.new }
        ensures events { (events : List CoreEvent) → Fits (book_of D.state self.old) events
            → StoresEvents (book_of D.state self.old) (book_of D.state self.new) pass.old.lane offset
            bytes.now events }
    {
        if self.stage.has_failed() {
            self.stage.stop(pass);
            return Err(Stop);
        }
        self.turns = self.turns.saturating_add(1);
        match self.keep.store(offset, bytes) {
            Ok(added) => {
                self.stage.book(pass, bytes.len() as u64);
                self.unmarked = self.unmarked.saturating_add(added);
                Ok(added)
            }
            Err(error) => {
                self.stage.break_off(pass, of_keep(error));
                Err(Stop)
            }
        }
    }

    /// Takes the total of a lane's EOF. The same total again is taken.
    ///
    /// `Stop` if the transfer had failed, or fails in this call: the count refuses the total.
    pub fn eof(&mut self, pass: &mut Pass, total: u64) -> Result<(), Stop>
        requires pass { IsLanePass self.old.stage pass.old }
        requires honest { SendsTotal (sent_by O.source O.orders O.fit) (book_of D.state self.old) total }
        ensures taken { OnOk result (Moving (TakesEof total pass.old pass.new) self.old.stage
            self.new.stage) }
        ensures stopped { OnErr result (Moving (StopsEof total pass.old pass.new) self.old.stage
            self.new.stage) }
        ensures keep { self.new.keep ≡ self.old.keep }
        ensures unmarked { self.new.unmarked ≡ self.old.unmarked }
        ensures calls_on { CallsOn D.state self.old self.new }
        ensures events { (events : List CoreEvent) → Fits (book_of D.state self.old) events
            → Fits (book_of D.state self.new)
            (if_running (cause_of self.old.stage) (event.Eof total ∷ events) events) }
    {
        if self.stage.has_failed() {
            self.stage.stop(pass);
            return Err(Stop);
        }
        self.turns = self.turns.saturating_add(1);
        self.stage.eof(pass, total)
    }

    /// Counts an EOD of a lane.
    ///
    /// `Stop` if the transfer had failed, or fails in this call: the count refuses the EOD.
    pub fn eod(&mut self, pass: &mut Pass) -> Result<(), Stop>
        requires pass { IsLanePass self.old.stage pass.old }
        requires honest { SendsEod (sent_by O.source O.orders O.fit) (book_of D.state self.old) pass.old }
        ensures taken { OnOk result (Moving (TakesEod pass.old pass.new) self.old.stage self.new.stage) }
        ensures stopped { OnErr result (Moving (StopsEod pass.old pass.new) self.old.stage self.new.stage) }
        ensures keep { self.new.keep ≡ self.old.keep }
        ensures unmarked { self.new.unmarked ≡ self.old.unmarked }
        ensures calls_on { CallsOn D.state self.old self.new }
        ensures events { (events : List CoreEvent) → Fits (book_of D.state self.old) events
            → Fits (book_of D.state self.new)
            (if_running (cause_of self.old.stage) (event.Eod pass.old.lane ∷ events) events) }
    {
        if self.stage.has_failed() {
            self.stage.stop(pass);
            return Err(Stop);
        }
        self.turns = self.turns.saturating_add(1);
        self.stage.eod(pass)
    }

    /// Fails the transfer for a cause that the Book can't find itself. The first cause is kept.
    pub fn fail(&mut self, pass: &mut Pass, cause: Cause)
        requires pass { IsPass self.old.stage pass.old }
        requires outside { IsOutside cause }
        ensures failed { Moving (KeepsFirst cause pass.old pass.new) self.old.stage self.new.stage }
        ensures keep { self.new.keep ≡ self.old.keep }
        ensures unmarked { self.new.unmarked ≡ self.old.unmarked }
        ensures calls_on { CallsOn D.state self.old self.new }
        ensures events { (events : List CoreEvent) → Fits (book_of D.state self.old) events
            → Fits (book_of D.state self.new)
            (if_running (cause_of self.old.stage) (failure_of cause ∷ events) events) }
    {
        if self.stage.has_failed() {
            self.stage.stop(pass);
            return;
        }
        self.turns = self.turns.saturating_add(1);
        self.stage.break_off(pass, cause);
    }
}
