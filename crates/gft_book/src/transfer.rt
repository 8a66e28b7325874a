ghost use Rattle.std.specs.Prelude.{◌≡◌, ◌⊎◌, None, OnOk, OnErr, IsSome, MatchOption, true, false};
ghost use Rattle.std.specs.Option.{is_some};
ghost use Rattle.gft_book.specs.Book.{HasKeptCause, HasMetTotal, IsPass, IsRunning, IsStoring, Moving};
ghost use Rattle.gft_book.specs.Book.{cause_of};
ghost use Rattle.gft_book.specs.Calls.{FindsFailed, KeepsCause, NotesEnd, RefusesEod, RefusesEof, RunsOn};
ghost use Rattle.gft_book.specs.Calls.{TakesEod, TakesEof, more_bytes};
ghost use Rattle.gft_book.specs.Ending.{EndsFailed, MissesNothing};

use crate::cause::Stop;
use crate::usage::How;
use gft_eod::EodCount;
use gft_pass::{Cause, Numbers, Pass, Roster};
use gft_range::RangeSet;

/// What a Book is used for.
#[derive(Drop)]
pub(crate) enum Stage {
    Rest,
    /// So many readers.
    Reading(u32),
    Storing(Transfer),
}

/// A transfer that runs, or has failed and isn't settled.
#[derive(Drop)]
pub(crate) struct Transfer {
    pub(crate) roster: Roster,
    pub(crate) how: How,
    pub(crate) count: EodCount,
    pub(crate) cause: Option<Cause>,
}

// A method of `Stage` with a pass is one `match` with one call of the transfer's.
impl Stage {
    /// Whether a transfer failed, and isn't settled.
    pub(crate) fn has_failed(&self) -> bool
        ensures { result ≡ is_some (cause_of self.now) }
    {
        match self {
            Stage::Storing(transfer) => transfer.cause.is_some(),
            Stage::Rest | Stage::Reading(_) => false,
        }
    }

    /// Whether the transfer failed, or all EODs came that were announced.
    pub(crate) fn has_ended(&self) -> bool
        requires storing { IsStoring self.now }
        ensures ended { result ≡ true → HasKeptCause self.now ⊎ HasMetTotal self.now }
        ensures runs { result ≡ false → IsRunning self.now × (¬ HasMetTotal self.now) }
    {
        match self {
            Stage::Storing(transfer) => transfer.cause.is_some() || transfer.count.is_met(),
            Stage::Rest | Stage::Reading(_) => unreachable!(),
        }
    }

    /// A block of so many bytes was stored.
    pub(crate) fn book(&mut self, pass: &mut Pass, count: u64)
        requires pass { IsPass self.old pass.old }
        requires running { cause_of self.old ≡ None }
        ensures { Moving (λ t u. RunsOn (more_bytes count pass.old.count) t.count pass.old pass.new t u)
            self.old self.new }
    {
        match self {
            Stage::Storing(transfer) => transfer.book(pass, count),
            Stage::Rest | Stage::Reading(_) => unreachable!(),
        }
    }

    /// Keeps the cause of a call that failed.
    pub(crate) fn break_off(&mut self, pass: &mut Pass, cause: Cause)
        requires pass { IsPass self.old pass.old }
        requires running { cause_of self.old ≡ None }
        ensures { Moving (KeepsCause cause pass.old pass.new) self.old self.new }
    {
        match self {
            Stage::Storing(transfer) => transfer.break_off(pass, cause),
            Stage::Rest | Stage::Reading(_) => unreachable!(),
        }
    }

    /// A call found the transfer failed: the pass notes it.
    pub(crate) fn stop(&mut self, pass: &mut Pass)
        requires pass { IsPass self.old pass.old }
        requires failed { HasKeptCause self.old }
        ensures { Moving (FindsFailed pass.old pass.new) self.old self.new }
    {
        match self {
            Stage::Storing(transfer) => transfer.stop(pass),
            Stage::Rest | Stage::Reading(_) => unreachable!(),
        }
    }

    /// The pass notes that the transfer takes nothing more.
    pub(crate) fn note(&mut self, pass: &mut Pass)
        requires pass { IsPass self.old pass.old }
        ensures { Moving (NotesEnd pass.old pass.new) self.old self.new }
    {
        match self {
            Stage::Storing(transfer) => transfer.note(pass),
            Stage::Rest | Stage::Reading(_) => unreachable!(),
        }
    }

    /// An EOF's total.
    pub(crate) fn eof(&mut self, pass: &mut Pass, total: u64) -> Result<(), Stop>
        requires pass { IsPass self.old pass.old }
        requires running { cause_of self.old ≡ None }
        ensures ok { OnOk result (Moving (TakesEof total pass.old pass.new) self.old self.new) }
        ensures err { OnErr result (Moving (RefusesEof total pass.old pass.new) self.old self.new) }
    {
        match self {
            Stage::Storing(transfer) => transfer.eof(pass, total),
            Stage::Rest | Stage::Reading(_) => unreachable!(),
        }
    }

    /// An EOD.
    pub(crate) fn eod(&mut self, pass: &mut Pass) -> Result<(), Stop>
        requires pass { IsPass self.old pass.old }
        requires running { cause_of self.old ≡ None }
        ensures ok { OnOk result (Moving (TakesEod pass.old pass.new) self.old self.new) }
        ensures err { OnErr result (Moving (RefusesEod pass.old pass.new) self.old self.new) }
    {
        match self {
            Stage::Storing(transfer) => transfer.eod(pass),
            Stage::Rest | Stage::Reading(_) => unreachable!(),
        }
    }
}

impl Transfer {
    fn book(&mut self, pass: &mut Pass, count: u64)
        requires table { pass.old.table ≡ self.old.roster.table }
        requires running { self.old.cause ≡ None }
        ensures { RunsOn (more_bytes count pass.old.count) self.old.count pass.old pass.new
            self.old self.new }
    {
        let numbers = pass.numbers();
        let after = Numbers {
            bytes: numbers.bytes.saturating_add(count),
            ..numbers
        };
        self.roster.change(pass, &after);
    }

    fn break_off(&mut self, pass: &mut Pass, cause: Cause)
        requires table { pass.old.table ≡ self.old.roster.table }
        requires running { self.old.cause ≡ None }
        ensures { KeepsCause cause pass.old pass.new self.old self.new }
    {
        let after = Numbers {
            cause: Some(cause),
            ..pass.numbers()
        };
        self.roster.change(pass, &after);
        self.cause = Some(cause);
    }

    fn stop(&mut self, pass: &mut Pass)
        requires table { pass.old.table ≡ self.old.roster.table }
        requires failed { IsSome self.old.cause }
        ensures { FindsFailed pass.old pass.new self.old self.new }
    {
        self.note(pass);
    }

    fn note(&mut self, pass: &mut Pass)
        requires table { pass.old.table ≡ self.old.roster.table }
        ensures { NotesEnd pass.old pass.new self.old self.new }
    {
        let after = Numbers {
            stopped: true,
            ..pass.numbers()
        };
        self.roster.change(pass, &after);
    }

    /// The cause that is kept; else the hole, if something is missing of what was announced, or for a STOR
    /// of the file.
    pub(crate) fn failure(&self, ranges: &RangeSet) -> Option<Cause>
        ensures { MatchOption result ((self.now.cause ≡ None) × MissesNothing ranges.now.ranges self.now)
            (EndsFailed ranges.now.ranges self.now) }
    {
        if self.cause.is_some() {
            return self.cause;
        }
        let missing = ranges.first_gap();
        if self.count.is_met() && !(self.how.is_stor() && missing.is_some()) {
            return None;
        }
        Some(Cause::Hole {
            total: self.count.total(),
            eods: self.count.eods(),
            missing,
        })
    }

    fn eof(&mut self, pass: &mut Pass, total: u64) -> Result<(), Stop>
        requires table { pass.old.table ≡ self.old.roster.table }
        requires running { self.old.cause ≡ None }
        ensures ok { OnOk result (TakesEof total pass.old pass.new self.old self.new) }
        ensures err { OnErr result (RefusesEof total pass.old pass.new self.old self.new) }
    {
        match self.count.eof(total) {
            Ok(()) => {
                let after = Numbers {
                    total: Some(total),
                    ..pass.numbers()
                };
                self.roster.change(pass, &after);
                Ok(())
            }
            Err(error) => {
                self.break_off(pass, Cause::of_count(error));
                Err(Stop)
            }
        }
    }

    fn eod(&mut self, pass: &mut Pass) -> Result<(), Stop>
        requires table { pass.old.table ≡ self.old.roster.table }
        requires running { self.old.cause ≡ None }
        ensures ok { OnOk result (TakesEod pass.old pass.new self.old self.new) }
        ensures err { OnErr result (RefusesEod pass.old pass.new self.old self.new) }
    {
        match self.count.eod() {
            Ok(()) => {
                let numbers = pass.numbers();
                let after = Numbers {
                    eods: numbers.eods.saturating_add(1),
                    ..numbers
                };
                self.roster.change(pass, &after);
                Ok(())
            }
            Err(error) => {
                self.break_off(pass, Cause::of_count(error));
                Err(Stop)
            }
        }
    }
}
