ghost use Rattle.std.specs.Prelude.{◌≡◌, [], None, IsSome};
ghost use Rattle.gft_keep.specs.Words.{keep_of};
ghost use Rattle.gft_herald.specs.Words.{SamePushed};
ghost use Rattle.gft_book.specs.Words.{HasKeptCause, IsPass, IsStoring, MarksOnly, SamePass, book_of};
ghost use Rattle.gft_receive.specs.Teller.{HasPut, HasTeller, IsFresh, IsTellersFor, LeavesLive, TellsLast};
ghost use Rattle.gft_receive.specs.Teller.{TellsMore, TellsRest};

use crate::telling::{TellError, Told};
use gft_base::OutOfMemory;
use gft_book::{Book, Run, Shared};
use gft_drive::{Drive, Origin, Sink};
use gft_herald::{Next, Pusher, Taker};
use gft_pass::Pass;
use std::alloc::Global;
use std::sync::Wait;

/// Tells marks on the sink: those that come through the line, and the last one.
#[derive(Drop)]
pub(crate) struct Teller {
    pub(crate) taker: Taker,
    pub(crate) pass: Pass,
    pub(crate) told: Told,
}

impl Teller {
    pub(crate) fn new(taker: Taker, pass: Pass) -> Teller
        ensures taker { result.taker ≡ taker }
        ensures pass { result.pass ≡ pass }
        ensures told { result.told ≡ record { count = 0; error = None } }
    {
        Teller {
            taker,
            pass,
            told: Told {
                count: 0,
                error: None,
            },
        }
    }

    /// Tells marks as they come, until no mark comes any more, or one can't be told: then the transfer fails.
    pub(crate) fn tell_beside<D: Drive + Drop, O: Origin, N: Run, W: Sink, R: Wait>(
        &mut self,
        rt: &R,
        alloc: Global,
        book: &Shared<D, O, N>,
        out: &mut W,
    )
        requires sink { W.is_open out.old }
        requires fresh { IsFresh N.start self.old }
        ensures { HasTeller W.written W.is_open W.faults out.old out.new self.old self.new }
    {
        self.tell_coming(rt, alloc, out);
        if let Some(error) = self.told.error {
            book.lock(rt).fail(&mut self.pass, error.cause());
        }
    }

    /// Tells marks as they come.
    fn tell_coming<W: Sink, R: Wait>(&mut self, rt: &R, alloc: Global, out: &mut W)
        requires sink { W.is_open out.old }
        requires taken { self.old.taker.marks ≡ [] }
        requires told { self.old.told ≡ record { count = 0; error = None } }
        ensures pass { self.new.pass ≡ self.old.pass }
        ensures line { self.new.taker.line ≡ self.old.taker.line }
        ensures puts { HasPut W.written W.is_open W.faults out.old out.new self.new.taker.marks
            self.new.told }
    {
        'marks: for _ in rt.forever() {
            match self.taker.next(rt) {
                Next::Mark(ranges) => self.told.tell(alloc, out, &ranges),
                Next::Starved => self.told.error = Some(TellError::Memory),
                Next::Closed => return,
            }
            if self.told.error.is_some() {
                return;
            }
        }
        unreachable!()
    }

    /// Tells the marks that were pushed and not taken.
    fn tell_rest<W: Sink>(&mut self, alloc: Global, pusher: &mut Pusher, out: &mut W)
        requires line { pusher.old.line ≡ self.old.taker.line }
        requires sink { self.old.told.error ≡ None → W.is_open out.old }
        ensures pass { self.new.pass ≡ self.old.pass }
        ensures pusher { SamePushed pusher.old pusher.new }
        ensures puts { TellsMore W.written W.is_open W.faults out.old out.new self.old.taker.marks
            pusher.new.marks self.old.told self.new.told }
        ensures sink { self.new.told.error ≡ None → W.is_open out.new }
        ensures stays { IsSome self.old.told.error → self.new.told ≡ self.old.told }
    {
        'marks: while self.told.error.is_none() {
            let Some(ranges) = self.taker.next_beside(pusher) else {
                return;
            };
            self.told.tell(alloc, out, &ranges);
        }
        self.taker.look_beside(pusher);
    }

    /// Makes the last mark, if an offset is kept, and tells it.
    fn tell_last<D: Drive + Drop, O: Origin, W: Sink>(
        &mut self,
        alloc: Global,
        book: &mut Book<D, O>,
        out: &mut W,
    )
        requires storing { IsStoring book.old.stage }
        requires sink { self.old.told.error ≡ None → W.is_open out.old }
        ensures pass { self.new.pass ≡ self.old.pass }
        ensures only { MarksOnly book.old book.new }
        ensures tells { TellsLast W.written W.is_open W.faults out.old out.new
            (keep_of D.state book.old.keep).ranges book.old.marks book.new.marks self.old.told self.new.told }
        ensures stays { IsSome self.old.told.error → self.new.told ≡ self.old.told }
    {
        if self.told.error.is_some() || !book.keeps_some() {
            return;
        }
        let number = match book.mark() {
            Ok(number) => number,
            Err(OutOfMemory) => {
                self.told.error = Some(TellError::Memory);
                return;
            }
        };
        let Some(mark) = book.mark_at(number) else {
            unreachable!()
        };
        self.told.tell(alloc, out, &mark.ranges);
    }

    /// Tells what is left when the movers have ended, and the last mark. If one wasn't told the transfer fails.
    pub(crate) fn finish<D: Drive + Drop, O: Origin, W: Sink>(
        &mut self,
        alloc: Global,
        book: &mut Book<D, O>,
        pusher: Pusher,
        out: &mut W,
    )
        requires storing { IsPass book.old.stage self.old.pass }
        requires line { pusher.line ≡ self.old.taker.line }
        requires sink { self.old.told.error ≡ None → W.is_open out.old }
        requires numbers { IsTellersFor self.old.told.error self.old.pass.count }
        ensures pass { SamePass self.old.pass self.new.pass }
        ensures numbers { IsTellersFor self.new.told.error self.new.pass.count }
        ensures failed { IsSome self.new.told.error → HasKeptCause book.new.stage }
        ensures keep { book.new.keep ≡ book.old.keep }
        ensures live { LeavesLive (book_of D.state book.old) (book_of D.state book.new) }
        ensures tells { TellsRest W.written W.is_open W.faults out.old out.new
            (keep_of D.state book.old.keep).ranges book.old.marks book.new.marks self.old.taker.marks
            pusher.marks self.old.told self.new.told }
    {
        let mut pusher = pusher;
        book.facts();
        self.tell_rest(alloc, &mut pusher, out);
        self.tell_last(alloc, book, out);
        book.facts();
        if let Some(error) = self.told.error {
            book.fail(&mut self.pass, error.cause());
        }
    }
}
