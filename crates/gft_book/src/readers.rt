ghost use Rattle.std.specs.Prelude.{◌≡◌, ◌≤◌, IfErr, IfOk, IsSome, List, MatchResult, OnOk};
ghost use Rattle.gft_drive.specs.Words.{sent_by};
ghost use Rattle.gft_core.specs.declared.CoreEvent.{CoreEvent};
ghost use Rattle.gft_keep.specs.Words.{IsKeep, IsUnbroken, keep_of};
ghost use Rattle.gft_keep.specs.declared.Standing.TheVariants.{Whole};
ghost use Rattle.gft_book.specs.Begin.{CountsAnswer, FindsKeep, Looks, known_of};
ghost use Rattle.gft_book.specs.Book.{book_of};
ghost use Rattle.gft_book.specs.Fits.{Fits};
ghost use Rattle.gft_book.specs.Readers.{AreTwins, BeginsRead, IsTwinsRefusal, MayRead, NotRead, OnlyReads};
ghost use Rattle.gft_book.specs.Readers.{ReadsEvents, RefusedRead, one_reader_fewer, one_reader_more};

use crate::begin::{BeginError, recover};
use crate::book::Book;
use crate::transfer::Stage;
use gft_base::Failed;
use gft_drive::{Drive, Origin, TwinError};
use gft_keep::Keep;
use std::alloc::Global;

/// What a reader is lent: drives of its own, which read the file as it is now, and how many bytes are to be
/// read.
#[derive(Drop)]
pub struct Reading<D: Drive + Drop> {
    pub drives: Vec<D>,
    pub len: u64,
}

impl<D: Drive + Drop, O: Origin> Book<D, O> {
    /// Begins to read the file with so many drives, from 1 to 16. Its length is that of a complete file, or
    /// all bytes of one that was made elsewhere.
    ///
    /// Refusals, in this order: `Busy` if the file is stored, or read by 4,294,967,295 readers; what attaching
    /// a broken keep again answers; `NoSuch` if nothing was stored here and there is no byte; `Incomplete` if
    /// the file isn't complete; `DriveFailed` and `OutOfMemory` as they come. The use is then as before.
    pub fn begin_read(&mut self, drives: u16) -> Result<Reading<D>, BeginError>
        requires drives { (1 ≤ drives) × (drives ≤ 16) }
        ensures begun { IfOk result (λ reading. BeginsRead D.state (sent_by O.source O.orders O.fit)
            (book_of D.state self.old) (book_of D.state self.new) drives reading.drives.items reading.len) }
        ensures refused { IfErr result (NotRead (self.new ≡ self.old) (book_of D.state self.old)
            (book_of D.state self.new)) }
        ensures only { OnlyReads (book_of D.state self.old) (book_of D.state self.new) }
        // A keep that was broken over a drive that tells nothing can't be tied to the events.
        ensures events { (events : List CoreEvent) → Fits (book_of D.state self.old) events
            → IsSome (keep_of D.state self.old.keep).drive.contents
            → ReadsEvents (book_of D.state self.old) (book_of D.state self.new) events }
    {
        let Some(readers) = self.stage.one_reader_more() else {
            let found = self.use_now();
            return Err(BeginError::Busy { found });
        };
        match lend(self.alloc, &mut self.keep, drives) {
            Ok(reading) => {
                self.stage = Stage::Reading(readers);
                Ok(reading)
            }
            Err(refusal) => Err(refusal),
        }
    }

    /// One reader has ended. If there is none, nothing changes.
    pub fn end_read(&mut self)
        ensures { self.new ≡ record self.old { stage = one_reader_fewer self.old.stage } }
    {
        self.stage.end_reader();
    }
}

impl Stage {
    /// How many readers there are with one more, unless the file is stored or they can't be counted.
    fn one_reader_more(&self) -> Option<u32>
        ensures { result ≡ one_reader_more self.now }
    {
        match self {
            Stage::Rest => Some(1),
            Stage::Reading(readers) => readers.checked_add(1),
            Stage::Storing(_) => None,
        }
    }

    /// One reader has ended.
    fn end_reader(&mut self)
        ensures { self.new ≡ one_reader_fewer self.old }
    {
        if let Stage::Reading(readers) = self {
            if *readers > 1 {
                *readers -= 1;
            } else {
                *self = Stage::Rest;
            }
        }
    }
}

/// Attaches the keep again if a failed call broke it, and lends drives of the file.
fn lend<D: Drive + Drop>(
    alloc: Global,
    keep: &mut Keep<D>,
    drives: u16,
) -> Result<Reading<D>, BeginError>
    requires keep { IsKeep (keep_of D.state keep.old) }
    ensures keep { IsKeep (keep_of D.state keep.new) }
    ensures finds { FindsKeep (keep_of D.state keep.old) (keep_of D.state keep.new) }
    ensures ready { OnOk result ((keep_of D.state keep.new).standing ≡ Whole) }
    ensures lent { IfOk result (λ reading. MayRead (known_of (keep_of D.state keep.new)) reading.len
        × AreTwins D.state (keep_of D.state keep.new).drive drives reading.drives.items) }
    ensures refused { IfErr result (RefusedRead (keep_of D.state keep.old)
        (known_of (keep_of D.state keep.new))) }
    ensures counts { CountsAnswer (keep_of D.state keep.old).drive.faults
        (keep_of D.state keep.new).drive.faults result }
{
    if let Err(refusal) = recover(keep) {
        return Err(refusal);
    }
    open_read(alloc, keep, drives)
}

/// Lends drives of an unbroken keep.
fn open_read<D: Drive + Drop>(
    alloc: Global,
    keep: &mut Keep<D>,
    drives: u16,
) -> Result<Reading<D>, BeginError>
    requires unbroken { IsUnbroken (keep_of D.state keep.old) }
    ensures looks { Looks (keep_of D.state keep.old) (keep_of D.state keep.new) }
    ensures lent { IfOk result (λ reading. MayRead (known_of (keep_of D.state keep.new)) reading.len
        × AreTwins D.state (keep_of D.state keep.new).drive drives reading.drives.items) }
    ensures refused { IfErr result (RefusedRead (keep_of D.state keep.old)
        (known_of (keep_of D.state keep.new))) }
    ensures counts { CountsAnswer (keep_of D.state keep.old).drive.faults
        (keep_of D.state keep.new).drive.faults result }
{
    let len = match readable(keep) {
        Ok(len) => len,
        Err(refusal) => return Err(refusal),
    };
    match twins(alloc, keep, drives) {
        Ok(drives) => Ok(Reading { drives, len }),
        Err(refusal) => Err(refusal),
    }
}

/// How many bytes of the file are read, or why none may be.
fn readable<D: Drive + Drop>(keep: &mut Keep<D>) -> Result<u64, BeginError>
    requires unbroken { IsUnbroken (keep_of D.state keep.old) }
    ensures looks { Looks (keep_of D.state keep.old) (keep_of D.state keep.new) }
    ensures answer { MatchResult result (MayRead (known_of (keep_of D.state keep.old)))
        (RefusedRead (keep_of D.state keep.old) (known_of (keep_of D.state keep.old))) }
    ensures counts { CountsAnswer (keep_of D.state keep.old).drive.faults
        (keep_of D.state keep.new).drive.faults result }
{
    if keep.born() {
        return keep.completed().ok_or(BeginError::Incomplete);
    }
    match keep.size() {
        Ok(0) => Err(BeginError::NoSuch),
        Ok(len) => Ok(len),
        Err(Failed) => Err(BeginError::DriveFailed),
    }
}

/// So many drives that read what the keep's drive reads.
fn twins<D: Drive + Drop>(
    alloc: Global,
    keep: &mut Keep<D>,
    count: u16,
) -> Result<Vec<D>, BeginError>
    requires unbroken { IsUnbroken (keep_of D.state keep.old) }
    ensures looks { Looks (keep_of D.state keep.old) (keep_of D.state keep.new) }
    ensures twins { IfOk result (λ drives. AreTwins D.state (keep_of D.state keep.new).drive count
        drives.items) }
    ensures refused { IfErr result IsTwinsRefusal }
    ensures counts { CountsAnswer (keep_of D.state keep.old).drive.faults
        (keep_of D.state keep.new).drive.faults result }
{
    let most = usize::from(count);
    let mut drives = match Vec::with_capacity(alloc, most) {
        Ok(drives) => drives,
        Err(_) => return Err(BeginError::OutOfMemory),
    };
    'twins: while drives.len() < most {
        match keep.twin() {
            Ok(twin) => drives.push_reserved(twin),
            Err(TwinError::OutOfMemory) => return Err(BeginError::OutOfMemory),
            Err(TwinError::Failed) => return Err(BeginError::DriveFailed),
        }
    }
    Ok(drives)
}
