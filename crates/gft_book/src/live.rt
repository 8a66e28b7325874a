ghost use Rattle.std.specs.Prelude.{◌≡◌, length, OnOk, OnErr, Some, if◌then◌else◌};
ghost use Rattle.gft_drive.specs.Words.{sent_by};
ghost use Rattle.gft_eod.specs.Words.{Count, eod_refusal, eof_refusal};
ghost use Rattle.gft_keep.specs.declared.KeepError.{KeepError};
ghost use Rattle.gft_keep.specs.Words.{IsBlock};
ghost use Rattle.gft_book.specs.Book.{book_of};
ghost use Rattle.gft_book.specs.Calls.{IsOutside, as_stopped, cause_of_keep, more_bytes, one_eod, with_total};
ghost use Rattle.gft_book.specs.Live.{BlockIn, EodIn, FillsLine, IsLaneOf, IsLive, IsPassOf, KeepsTotal};
ghost use Rattle.gft_book.specs.Live.{Learns, LearnsCount, SamePass, TotalIn};

use crate::book::Book;
use crate::cause::Stop;
use gft_drive::{Drive, Origin};
use gft_herald::Pusher;
use gft_pass::{Cause, Pass};
use std::marker::{Brand, Model, PhantomData};
use std::sync::Mutex;

/// Names one transfer in a type. It has no value; the call that makes the lock picks its meaning.
pub trait Run {
    ghost use Rattle.gft_book.specs.Live.{LineStart, Start};

    /// What is known when the lock is made.
    ghost start: { Start };

    /// And of the line of marks.
    ghost line: { LineStart };
}

impl Run for Brand {
    ghost use Rattle.gft_book.specs.Live.{no_line, no_start};

    ghost start = { no_start };

    ghost line = { no_line };
}

/// A Book that stores the transfer of `N`, which runs or has failed, with the end of its line. Contracts see
/// the Book. Each mark that it makes goes into the line.
#[derive(Drop)]
pub struct Live<D: Drive + Drop, O: Origin, N: Run> {
    book: Book<D, O>,
    pusher: Pusher,
    /// A mark is due once so many bytes were booked since the last.
    every: u64,
    run: PhantomData<N>,
}

/// The lock of one transfer.
pub type Shared<D, O, N> = Mutex<Live<D, O, N>>;

impl<D: Drive + Drop, O: Origin, N: Run> Model for Live<D, O, N> {
    ghost use Rattle.gft_book.specs.Book.{Seen, book_of};
    ghost use Rattle.gft_book.specs.Live.{FillsLine, IsLive, KeepsTotal};

    ghost Value = { Seen D };

    ghost view = { λ l. l.book };

    ghost invariant = { λ l. IsLive N.start (book_of D.state l.book) × KeepsTotal N.start l.book.stage
        × FillsLine N.line l.book.marks l.pusher };
}

impl<D: Drive + Drop, O: Origin, N: Run> Live<D, O, N> {
    /// A Book for the lock of its transfer. A mark is due once `every` bytes were booked since the last.
    pub fn new(book: Book<D, O>, pusher: Pusher, every: u64) -> Live<D, O, N>
        requires live { IsLive N.start (book_of D.state book) }
        requires total { KeepsTotal N.start book.stage }
        requires line { FillsLine N.line book.marks pusher }
        ensures book { result ≡ book }
    {
        Live {
            book,
            pusher,
            every,
            run: PhantomData,
        }
    }

    /// Takes the Book out again, and the end of the line.
    pub fn into_parts(self) -> (Book<D, O>, Pusher)
        ensures book { result.0 ≡ self }
        ensures live { IsLive N.start (book_of D.state result.0) }
        ensures total { KeepsTotal N.start result.0.stage }
        ensures line { FillsLine N.line result.0.marks result.1 }
    {
        (self.book, self.pusher)
    }

    /// Tells the teller that no mark comes any more.
    pub fn close(&mut self)
        ensures same { self.new ≡ self.old }
    {
        self.pusher.close();
    }

    /// `Book::awaits_more`, for a mover that knows its transfer by the type of the lock.
    pub fn awaits_more(&mut self, pass: &mut Pass) -> bool
        requires pass { IsPassOf N.start pass.old }
        ensures pass { SamePass pass.old pass.new }
        ensures noted { pass.new.count ≡ (if result then pass.old.count else as_stopped pass.old.count) }
        ensures turns { self.new.turns ≡ self.old.turns }
    {
        self.book.facts();
        self.book.awaits_more(pass)
    }

    /// `Book::turns`.
    pub fn turns(&self) -> u64
        ensures { result ≡ self.now.turns }
    {
        self.book.turns()
    }

    /// `Book::store`, for a mover that knows its transfer by the type of the lock; then a mark is made, if it is
    /// due and the line has room for it.
    pub fn store(&mut self, pass: &mut Pass, offset: u64, bytes: &[u8]) -> Result<u64, Stop>
        requires pass { IsLaneOf N.start pass.old }
        requires block { IsBlock offset bytes.now }
        requires honest { BlockIn (sent_by O.source O.orders O.fit) N.start pass.old offset bytes.now }
        ensures pass { SamePass pass.old pass.new }
        ensures stored { OnOk result (pass.new.count ≡ more_bytes (length bytes.now) pass.old.count) }
        ensures stopped { OnErr result (Learns (λ cause. (error : KeepError) × (cause ≡ cause_of_keep error))
            pass.old.count pass.new.count) }
    {
        self.book.facts();
        let answer = self.book.store(pass, offset, bytes);
        self.book.facts();
        self.book.mark_into(&mut self.pusher, self.every);
        answer
    }

    /// `Book::eof`, for a mover that knows its transfer by the type of the lock.
    pub fn eof(&mut self, pass: &mut Pass, total: u64) -> Result<(), Stop>
        requires pass { IsLaneOf N.start pass.old }
        requires honest { TotalIn (sent_by O.source O.orders O.fit) N.start total }
        ensures pass { SamePass pass.old pass.new }
        ensures taken { OnOk result (pass.new.count ≡ with_total total pass.old.count) }
        ensures stopped { OnErr result (LearnsCount (λ count. eof_refusal count total) pass.old.count
            pass.new.count) }
    {
        self.book.facts();
        let answer = self.book.eof(pass, total);
        self.book.facts();
        answer
    }

    /// `Book::eod`, for a mover that knows its transfer by the type of the lock.
    pub fn eod(&mut self, pass: &mut Pass) -> Result<(), Stop>
        requires pass { IsLaneOf N.start pass.old }
        requires honest { EodIn (sent_by O.source O.orders O.fit) N.start pass.old }
        ensures pass { SamePass pass.old pass.new }
        ensures taken { OnOk result (pass.new.count ≡ one_eod pass.old.count) }
        ensures stopped { OnErr result (LearnsCount eod_refusal pass.old.count pass.new.count) }
    {
        self.book.facts();
        let answer = self.book.eod(pass);
        self.book.facts();
        answer
    }

    /// `Book::fail`, for a mover that knows its transfer by the type of the lock.
    pub fn fail(&mut self, pass: &mut Pass, cause: Cause)
        requires pass { IsPassOf N.start pass.old }
        requires outside { IsOutside cause }
        ensures pass { SamePass pass.old pass.new }
        ensures learned { Learns (λ kept. kept ≡ cause) pass.old.count pass.new.count }
    {
        self.book.facts();
        self.book.fail(pass, cause);
    }
}
