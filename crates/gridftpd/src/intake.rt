ghost use Rattle.std.specs.Prelude.{◌≡◌, ℕ, ◌+◌, ◌<◌, ◌≤◌, ◌↔◌, List, [], ◌++◌, length};
ghost use Rattle.std.specs.Prelude.{IsTrue, IfErr, IfOk, MatchResult, ◌⊎◌, if◌then◌else◌, false, None};
ghost use Rattle.std.specs.Prelude.{Option};
ghost use Rattle.std.specs.Io.KnownBytes.{IsAtEnd};
ghost use Rattle.gft_drive.specs.Words.{Goes};
ghost use Rattle.gft_eblock.specs.Words.{wanted, IsDone};
ghost use Rattle.gft_keep.specs.Words.{drive_of, IsOpen, keep_of};
ghost use Rattle.gridftpd.specs.Cause.{IsCause};
ghost use Rattle.gridftpd.specs.Drain.{DriveIsBlamed, InputIsBlamed, IsTaken};
ghost use Rattle.gridftpd.specs.Images.{HoldsTaken, IsStored};
ghost use Rattle.gridftpd.specs.Turn.{IsTurnsOutcome, IsEndsOutcome, IsRunsOutcome};

use crate::outcome::Outcome;
use crate::reading::{READ_LEN, read_next};
use gft_base::Failed;
use gft_drive::{Drive, Source};
use gft_eblock::{Channel, Event, MAX_BYTES};
use gft_eod::EodCount;
use gft_keep::{Keep, KeepError};

/// One recorded data connection on its way into a file: the channel, the file with its set, and the
/// count of EODs.
#[derive(Drop)]
pub(crate) struct Intake<D: Drive + Drop> {
    channel: Channel,
    keep: Keep<D>,
    count: EodCount,
}

impl<D: Drive + Drop> Intake<D> {
    ghost use Rattle.gridftpd.specs.Follows.{Follows};

    /// An intake before its first byte.
    pub(crate) fn new(keep: Keep<D>) -> Self
        requires is_open { IsOpen (keep_of D.state keep) }
        requires empty { (keep_of D.state keep).ranges ≡ [] }
        ensures follows { Follows D.state 0 [] result }
        ensures not_done { ¬ IsDone result.channel }
        ensures keep { result.keep ≡ keep }
    {
        Intake {
            channel: Channel::new(0),
            keep,
            count: EodCount::new(),
        }
    }

    /// Gives the drive back.
    pub(crate) fn into_drive(self) -> D
        ensures { result ≡ drive_of self.keep }
    {
        self.keep.into_drive()
    }

    /// Takes one recorded data connection up to its EOD or the end of the input.
    pub(crate) fn run<I: Source>(&mut self, input: &mut I, buf: &mut [u8]) -> Outcome
        requires room { (0 < length buf.old) × (length buf.old ≤ READ_LEN) }
        requires follows { Follows D.state 0 [] self.old }
        requires not_done { ¬ IsDone self.old.channel }
        ensures caused { (stream : List ℕ) × IsTaken (I.left input.old) (I.left input.new) stream
            × IsCause result stream (I.left input.new) × IsRunsOutcome result
            × HoldsTaken result stream (keep_of D.state self.new.keep).drive
            × (result ≡ Outcome.Complete → IsStored stream (keep_of D.state self.new.keep).drive) }
        ensures input { InputIsBlamed result (I.faults input.old) (I.faults input.new) }
        ensures drive { DriveIsBlamed result (keep_of D.state self.old.keep).drive.faults
            (keep_of D.state self.new.keep).drive.faults }
        ensures goes { Goes (keep_of D.state self.old.keep).drive (keep_of D.state self.new.keep).drive }
    {
        'reads: loop {
            let wants = self.channel.wants();
            let room = MAX_BYTES - self.channel.taken();
            let Ok(count) = read_next(input, buf, wants.min(room)) else {
                return Outcome::ReadFailed;
            };
            if count == 0 && wants > 0 {
                return self.lost();
            }
            if count as u64 == room {
                return Outcome::TooLong;
            }
            match self.turn(&buf[..count]) {
                Ok(true) => return self.finish(),
                Ok(false) => {}
                Err(outcome) => return outcome,
            }
        }
    }

    /// Feeds one piece, and tells whether the EOD came.
    fn turn(&mut self, piece: &[u8]) -> Result<bool, Outcome>
        requires not_done { ¬ IsDone self.old.channel }
        requires room { self.old.channel.taken + length piece.now < MAX_BYTES }
        requires wanted { length piece.now ≤ wanted self.old.channel }
        requires one_read { length piece.now ≤ READ_LEN }
        requires is_open { IsOpen (keep_of D.state self.old.keep) }
        ensures follows { IfOk result (λ ended. (stream : List ℕ) → Follows D.state 0 stream self.old
            → Follows D.state (if ended then 1 else 0) (stream ++ piece.now) self.new) }
        ensures ended { IfOk result (λ ended. IsTrue ended ↔ IsDone self.new.channel) }
        ensures waiting { IfOk result (λ ended. wanted self.old.channel ≡ 0 → IsTrue ended) }
        ensures caused { IfErr result (λ outcome. (stream : List ℕ) (left : Option (List ℕ))
            → Follows D.state 0 stream self.old → IsCause outcome (stream ++ piece.now) left
            × HoldsTaken outcome (stream ++ piece.now) (keep_of D.state self.new.keep).drive) }
        ensures which { IfErr result IsTurnsOutcome }
        ensures drive { let before = (keep_of D.state self.old.keep).drive.faults in
            let now = (keep_of D.state self.new.keep).drive.faults in
            MatchResult result (λ _. now ≡ before) (λ outcome. DriveIsBlamed outcome before now) }
        ensures goes { Goes (keep_of D.state self.old.keep).drive (keep_of D.state self.new.keep).drive }
    {
        let step = match self.channel.feed(piece) {
            Ok(step) => step,
            Err(bad) => return Err(Outcome::BadBlock(bad)),
        };
        let Some(event) = step.event else {
            return Ok(false);
        };
        match event {
            Event::Piece { offset, bytes } => match self.keep.store(offset, bytes) {
                Ok(_) => Ok(false),
                Err(KeepError::RangesFull { kept }) => Err(Outcome::RangesFull { kept }),
                Err(KeepError::OutOfMemory) => Err(Outcome::OutOfMemory),
                Err(KeepError::Failed) => Err(Outcome::DriveFailed),
            },
            Event::Eof { total } => match self.count.eof(total) {
                Ok(()) => Ok(false),
                Err(error) => Err(Outcome::CountRefused(error)),
            },
            Event::Eod => match self.count.eod() {
                Ok(()) => Ok(true),
                Err(error) => Err(Outcome::CountRefused(error)),
            },
        }
    }

    /// The outcome where the input ended before the EOD.
    fn lost(&self) -> Outcome
        requires awaits { 0 < wanted self.now.channel }
        ensures caused { (stream : List ℕ) (left : Option (List ℕ)) → Follows D.state 0 stream self.now
            → IsAtEnd left → IsCause result stream left
            × HoldsTaken result stream (keep_of D.state self.now.keep).drive }
        ensures which { (result ≡ Outcome.Hole None 0 None) ⊎ (result ≡ Outcome.Lost self.now.channel.taken) }
    {
        let taken = self.channel.taken();
        if taken > 0 {
            return Outcome::Lost { taken };
        }
        Outcome::Hole {
            total: None,
            eods: 0,
            missing: None,
        }
    }

    /// The outcome where the EOD came.
    fn finish(&mut self) -> Outcome
        requires is_open { IsOpen (keep_of D.state self.old.keep) }
        ensures caused { (stream : List ℕ) (left : Option (List ℕ)) → Follows D.state 1 stream self.old
            → IsDone self.old.channel → IsCause result stream left
            × HoldsTaken result stream (keep_of D.state self.new.keep).drive }
        ensures complete { (stream : List ℕ) → Follows D.state 1 stream self.old → IsDone self.old.channel
            → result ≡ Outcome.Complete → IsStored stream (keep_of D.state self.new.keep).drive }
        ensures which { IsEndsOutcome result }
        ensures drive { DriveIsBlamed result (keep_of D.state self.old.keep).drive.faults
            (keep_of D.state self.new.keep).drive.faults }
        ensures goes { Goes (keep_of D.state self.old.keep).drive (keep_of D.state self.new.keep).drive }
    {
        let missing = self.keep.ranges().first_gap();
        if !self.count.is_met() || missing.is_some() {
            return Outcome::Hole {
                total: self.count.total(),
                eods: self.count.eods(),
                missing,
            };
        }
        let end = self.keep.ranges().end();
        match self.keep.finish(end) {
            Ok(()) => Outcome::Complete,
            Err(Failed) => Outcome::DriveFailed,
        }
    }
}
