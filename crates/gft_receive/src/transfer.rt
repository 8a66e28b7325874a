ghost use Rattle.std.specs.Prelude.{◌≡◌, ◌+◌, ◌≤◌, ◌<◌, ◌^◌, ◌++◌, ◌∷◌, ℕ, [], All, Err, OnOk, Some, false, length};
ghost use Rattle.std.specs.Prelude.{map};
ghost use Rattle.std.specs.Prelude.{slice_index_or, vec_capacity, vec_len};
ghost use Rattle.gft_base.specs.declared.TheConstants.{LIMIT};
ghost use Rattle.gft_drive.specs.Words.{sent_by};
ghost use Rattle.gft_keep.specs.Words.{keep_of};
ghost use Rattle.gft_pass.specs.declared.Cause.TheVariants.{Memory};
ghost use Rattle.gft_pass.specs.Words.{nothing};
ghost use Rattle.gft_book.specs.declared.transfer.Stage.TheVariants.{Rest};
ghost use Rattle.gft_book.specs.Words.{EqualsSource, FillsLine, HasAllPasses, IsLive, IsRunning, KeepsTotal};
ghost use Rattle.gft_book.specs.Words.{KeptSince, book_of, start_now};
ghost use Rattle.gft_receive.specs.Complete.{WholeRunsEndWell};
ghost use Rattle.gft_receive.specs.Teller.{HasTeller, IsFresh};
ghost use Rattle.gft_receive.specs.Telling.{HasTold};
ghost use Rattle.gft_receive.specs.Transfer.{AreFresh, AreReady, HasRun, IsLaneReady, IsWorked, Receives};

use crate::limits::Limits;
use crate::mover::receive_lane;
use crate::outcome::{Outcome, Received};
use crate::teller::Teller;
use gft_book::{Book, Live, Run, Shared};
use gft_drive::{Drive, Origin, Sink};
use gft_herald::{Pusher, Taker, line};
use gft_outside::{Clock, Control, Lane};
use gft_pass::{Cause, Pass};
use gft_text::Lines;
use std::alloc::Global;
use std::marker::Brand;
use std::sync::{Mutex, Wait};
use std::thread;
use std::thread::{Threads, join_mut};

/// The most movers that run side by side: as many as a transfer has stripes.
const MAX_MOVERS: usize = 16;

/// How many marks may wait for the teller.
const LINE_ROOM: usize = 64;

/// A lane, and the pass with which its mover books.
#[derive(Drop)]
pub(crate) struct LaneWork<L: Drop> {
    pub(crate) lane: L,
    pub(crate) pass: Pass,
}

// Runs the movers, one a lane, and says when all have ended.
fn move_lanes<
    L: Lane + Drop,
    D: Drive + Drop,
    O: Origin + Send,
    N: Run + Send + Sync,
    R: Threads + Wait + Sync,
>(rt: &R, book: &Shared<D, O, N>, limits: &Limits, works: &mut [LaneWork<L>])
    requires works { All (IsLaneReady L.state (sent_by O.source O.orders O.fit) N.start limits.now)
        works.old }
    ensures worked { (i : ℕ) (d : _) → i < length works.old
        → IsWorked L.state limits.now (slice_index_or works.old i d) (slice_index_or works.new i d) }
{
    thread::for_each_mut(
        rt,
        works,
        MAX_MOVERS,
        &|_, work: &mut LaneWork<L>|
            requires { IsLaneReady L.state (sent_by O.source O.orders O.fit) N.start limits.now work.old }
            ensures { IsWorked L.state limits.entry.now work.old work.new }
        { receive_lane(rt, &mut work.lane, book, &mut work.pass, limits) },
    );
    book.lock(rt).close();
}

// Runs the movers, and the teller beside them, over the lock that they share.
fn run_beside<
    L: Lane + Drop,
    D: Drive + Drop,
    O: Origin + Send,
    W: Sink + Send,
    N: Run + Send + Sync,
    R: Threads + Wait + Sync,
>(
    rt: &R,
    alloc: Global,
    book: &Shared<D, O, N>,
    limits: &Limits,
    teller: &mut Teller,
    out: &mut W,
    works: &mut [LaneWork<L>],
)
    requires teller { IsFresh N.start teller.old }
    requires sink { W.is_open out.old }
    requires works { All (IsLaneReady L.state (sent_by O.source O.orders O.fit) N.start limits.now)
        works.old }
    ensures teller { HasTeller W.written W.is_open W.faults out.old out.new teller.old teller.new }
    ensures worked { (i : ℕ) (d : _) → i < length works.old
        → IsWorked L.state limits.now (slice_index_or works.old i d) (slice_index_or works.new i d) }
{
    let mut moves = ||
        requires { All (IsLaneReady L.state (sent_by O.source O.orders O.fit) N.start limits.now)
            works.now }
        ensures { (i : ℕ) (d : _) → i < length works.entry.now
            → IsWorked L.state limits.entry.now (slice_index_or works.entry.now i d)
            (slice_index_or works.exit.now i d) }
    { move_lanes(rt, book, limits, works) };
    let mut tells = ||
        requires { W.is_open out.now × IsFresh N.start teller.now }
        ensures { HasTeller W.written W.is_open W.faults out.entry.now out.exit.now teller.entry.now
            teller.exit.now }
    { teller.tell_beside(rt, alloc, book, out) };
    join_mut(rt, &mut moves, &mut tells);
}

// The type of the lock names the transfer, and the Book comes out of it.
fn run_movers<
    L: Lane + Drop,
    D: Drive + Drop,
    O: Origin + Send,
    W: Sink + Send,
    N: Run + Send + Sync,
    R: Threads + Wait + Sync,
>(
    rt: &R,
    alloc: Global,
    book: Book<D, O>,
    pusher: Pusher,
    teller: &mut Teller,
    out: &mut W,
    works: &mut [LaneWork<L>],
    limits: &Limits,
) -> (Book<D, O>, Pusher)
    requires live { IsLive N.start (book_of D.state book) × KeepsTotal N.start book.stage }
    requires line { FillsLine N.line book.marks pusher }
    requires teller { IsFresh N.start teller.old }
    requires sink { W.is_open out.old }
    requires works { All (IsLaneReady L.state (sent_by O.source O.orders O.fit) N.start limits.now)
        works.old }
    ensures live { IsLive N.start (book_of D.state result.0) × KeepsTotal N.start result.0.stage }
    ensures line { FillsLine N.line result.0.marks result.1 }
    ensures teller { HasTeller W.written W.is_open W.faults out.old out.new teller.old teller.new }
    ensures worked { (i : ℕ) (d : _) → i < length works.old
        → IsWorked L.state limits.now (slice_index_or works.old i d) (slice_index_or works.new i d) }
{
    let shared = Mutex::new(Live::<D, O, N>::new(book, pusher, limits.marker_bytes));
    run_beside(rt, alloc, &shared, limits, teller, out, works);
    shared.into_inner().into_parts()
}

/// Gives each lane its pass.
fn take_lanes<L: Lane + Drop>(
    lanes: &mut Vec<L>,
    passes: &mut Vec<Pass>,
    works: &mut Vec<LaneWork<L>>,
)
    requires same { vec_len passes.old ≡ vec_len lanes.old }
    requires room { (works.old.items ≡ []) × (vec_len lanes.old ≤ vec_capacity works.old) }
    ensures lanes { lanes.old.items ≡ map (λ w. w.lane) works.new.items }
    ensures passes { passes.old.items ≡ map (λ w. w.pass) works.new.items }
    ensures left { (lanes.new.items ≡ []) × (passes.new.items ≡ []) }
    ensures capacity { (vec_capacity lanes.new ≡ vec_capacity lanes.old)
        × (vec_capacity passes.new ≡ vec_capacity passes.old) }
{
    'lanes: while !lanes.is_empty() {
        let lane = lanes.remove(0);
        let pass = passes.remove(0);
        works.push_reserved(LaneWork { lane, pass });
    }
}

/// Takes the lanes and their passes back.
fn give_back<L: Lane + Drop>(
    works: &mut Vec<LaneWork<L>>,
    lanes: &mut Vec<L>,
    passes: &mut Vec<Pass>,
)
    requires none { (lanes.old.items ≡ []) × (passes.old.items ≡ []) }
    requires room { (vec_len works.old ≤ vec_capacity lanes.old)
        × (vec_len works.old < vec_capacity passes.old) }
    ensures lanes { lanes.new.items ≡ map (λ w. w.lane) works.old.items }
    ensures passes { passes.new.items ≡ map (λ w. w.pass) works.old.items }
    ensures room { vec_len passes.new < vec_capacity passes.new }
{
    'works: while !works.is_empty() {
        let LaneWork { lane, pass } = works.remove(0);
        lanes.push_reserved(lane);
        passes.push_reserved(pass);
    }
}

// Tells contracts the bound of a count.
fn count_fits(count: u64)
    ensures { count < 2 ^ 64 }
{}

// Runs the movers and the teller, and settles when all have ended.
fn run<L: Lane + Drop, D: Drive + Drop, O: Origin + Send, W: Sink + Send, R: Threads + Wait + Sync>(
    rt: &R,
    alloc: Global,
    lanes: Vec<L>,
    book: Book<D, O>,
    passes: Vec<Pass>,
    teller: Pass,
    works: Vec<LaneWork<L>>,
    ends: (Pusher, Taker),
    out: &mut W,
    limits: &Limits,
) -> Received<L, D, O>
    requires running { IsRunning book.stage }
    requires passes { HasAllPasses book.stage (passes.items ++ teller ∷ [])
        × AreFresh (passes.items ++ teller ∷ []) }
    requires room { (works.items ≡ []) × (vec_len lanes ≤ vec_capacity works)
        × (vec_len passes ≡ vec_len lanes) × (vec_len passes < vec_capacity passes) }
    requires line { (ends.0.line ≡ ends.1.line) × (ends.0.marks ≡ []) × (ends.1.marks ≡ []) }
    requires sink { W.is_open out.old }
    requires lanes { AreReady L.state (sent_by O.source O.orders O.fit) (start_now (book_of D.state book))
        limits.now.shift lanes.items × (limits.now.shift ≤ LIMIT) }
    ensures rest { (result.book.stage ≡ Rest)
        × (result.book.last ≡ Some (start_now (book_of D.state book)).table) }
    ensures kept { KeptSince (start_now (book_of D.state book)) (keep_of D.state result.book.keep) }
    ensures run { HasRun L.state limits.now (start_now (book_of D.state book)) lanes.items result.lanes.items
        (keep_of D.state result.book.keep) result.outcome.end result.put_failed }
    ensures honest { OnOk result.outcome.end (EqualsSource
        (sent_by O.source O.orders O.fit (keep_of D.state book.keep).drive.label) (book_of D.state book)
        (keep_of D.state result.book.keep)) }
    ensures complete { result.put_failed ≡ false → WholeRunsEndWell L.state
        (sent_by O.source O.orders O.fit) limits.now (start_now (book_of D.state book)) book.stage lanes.items
        result.lanes.items result.outcome.end }
    ensures told { HasTold W.written W.is_open W.faults out.old out.new
        (sent_by O.source O.orders O.fit (start_now (book_of D.state book)).label)
        (keep_of D.state result.book.keep) book.marks result.book.marks result.outcome.end
        result.outcome.told result.put_failed }
{
    let mut lanes = lanes;
    let mut passes = passes;
    let mut works = works;
    let (pusher, taker) = ends;
    let mut teller = Teller::new(taker, teller);
    take_lanes(&mut lanes, &mut passes, &mut works);
    book.facts();
    let (mut book, pusher) = run_movers::<L, D, O, W, Brand, R>(
        rt,
        alloc,
        book,
        pusher,
        &mut teller,
        out,
        works.as_mut_slice(),
        limits,
    );
    give_back(&mut works, &mut lanes, &mut passes);
    teller.finish(alloc, &mut book, pusher, out);
    let Teller {
        taker: _,
        pass,
        told,
    } = teller;
    passes.push_reserved(pass);
    book.facts();
    let end = book.settle(passes);
    book.facts();
    let marks = book.mark_count();
    count_fits(marks);
    Received {
        outcome: Outcome {
            end,
            told: told.count,
        },
        put_failed: told.put_failed(),
        book,
        lanes,
    }
}

// Ends a transfer whose movers get no memory.
fn give_up<L: Lane + Drop, D: Drive + Drop, O: Origin>(
    lanes: Vec<L>,
    book: Book<D, O>,
    passes: Vec<Pass>,
    teller: Pass,
) -> Received<L, D, O>
    requires running { IsRunning book.stage }
    requires passes { HasAllPasses book.stage (passes.items ++ teller ∷ []) }
    requires room { vec_len passes < vec_capacity passes }
    ensures rest { (result.book.stage ≡ Rest)
        × (result.book.last ≡ Some (start_now (book_of D.state book)).table) }
    ensures kept { KeptSince (start_now (book_of D.state book)) (keep_of D.state result.book.keep) }
    ensures memory { result.outcome.end ≡ Err Memory }
    ensures lanes { result.lanes ≡ lanes }
    ensures told { (result.outcome.told ≡ 0) × (result.put_failed ≡ false)
        × (result.book.marks ≡ book.marks) }
{
    let mut book = book;
    let mut passes = passes;
    let mut teller = teller;
    book.facts();
    book.fail(&mut teller, Cause::Memory);
    passes.push_reserved(teller);
    book.facts();
    let ending = book.settle(passes);
    Received {
        outcome: Outcome {
            end: ending,
            told: 0,
        },
        put_failed: false,
        book,
        lanes,
    }
}

/// Stores what the lanes bring, one mover a lane side by side, and settles the transfer when all have ended.
/// The passes are those that `begin_store` gave, in their order, the teller's last; the Book that comes
/// back is at rest.
///
/// Beside the movers each mark of the Book is told on the sink, in order, by a 111 line (GFD.20, restart
/// markers); a mark is made once so many bytes as the limits say were booked since the last, and one more when
/// the movers have ended, if an offset is kept. Nothing more is put behind a put that failed.
///
/// The end is Ok only where the lanes' arrivals have one total and as many EODs, a STOR leaves no gap, and all
/// marks were told. Else it is the cause that one mover, the teller or the Book kept first, `Hole` or
/// `DriveFailed` of the settling, or `Memory` where memory for the movers is refused: then no lane is asked.
/// The teller's causes are `Memory`, if memory for a mark or its line is refused, and `ControlGone`, if a put
/// fails.
///
/// The control, its lines and the clock are not asked.
pub fn receive<
    L: Lane + Drop,
    D: Drive + Drop,
    O: Origin + Send,
    C: Control,
    W: Sink + Send,
    T: Clock,
    R: Threads + Wait + Sync,
>(
    rt: &R,
    alloc: Global,
    lanes: Vec<L>,
    book: Book<D, O>,
    passes: Vec<Pass>,
    control: &mut C,
    lines: &mut Lines,
    out: &mut W,
    clock: &mut T,
    limits: &Limits,
) -> Received<L, D, O>
    requires running { IsRunning book.stage }
    requires passes { HasAllPasses book.stage passes.items × AreFresh passes.items
        × (vec_len passes ≡ vec_len lanes + 1) }
    requires lanes { AreReady L.state (sent_by O.source O.orders O.fit) (start_now (book_of D.state book))
        limits.now.shift lanes.items × (limits.now.shift ≤ LIMIT) }
    requires sink { W.is_open out.old }
    ensures rest { (result.book.stage ≡ Rest)
        × (result.book.last ≡ Some (start_now (book_of D.state book)).table) }
    ensures kept { KeptSince (start_now (book_of D.state book)) (keep_of D.state result.book.keep) }
    ensures receives { Receives L.state limits.now (start_now (book_of D.state book)) lanes.items
        result.lanes.items (keep_of D.state result.book.keep) result.outcome.end result.put_failed }
    ensures honest { OnOk result.outcome.end (EqualsSource
        (sent_by O.source O.orders O.fit (keep_of D.state book.keep).drive.label) (book_of D.state book)
        (keep_of D.state result.book.keep)) }
    ensures complete { result.put_failed ≡ false → WholeRunsEndWell L.state
        (sent_by O.source O.orders O.fit) limits.now (start_now (book_of D.state book)) book.stage lanes.items
        result.lanes.items result.outcome.end }
    ensures told { HasTold W.written W.is_open W.faults out.old out.new
        (sent_by O.source O.orders O.fit (start_now (book_of D.state book)).label)
        (keep_of D.state result.book.keep) book.marks result.book.marks result.outcome.end
        result.outcome.told result.put_failed }
    ensures unasked { (control.new ≡ control.old) × (lines.new ≡ lines.old) × (clock.new ≡ clock.old) }
{
    let mut passes = passes;
    let Some(teller) = passes.pop() else {
        unreachable!()
    };
    let Ok(works) = Vec::with_capacity(alloc, lanes.len()) else {
        return give_up(lanes, book, passes, teller);
    };
    let Ok(ends) = line(alloc, LINE_ROOM) else {
        return give_up(lanes, book, passes, teller);
    };
    run(
        rt, alloc, lanes, book, passes, teller, works, ends, out, limits,
    )
}
