ghost use Rattle.std.specs.Prelude.{◌≡◌, [], IfOk, IfSome};
ghost use Rattle.gft_book.specs.Begin.{NamesSome};
ghost use Rattle.gft_book.specs.Book.{HasAllPasses, IsLanePass, IsStoring, Moving, book_of};
ghost use Rattle.gft_book.specs.Calls.{SameTransfer};
ghost use Rattle.gft_book.specs.Live.{FillsLine, IsLaneOf, IsLive, KeepsTotal, SamePass};
ghost use Rattle.gft_book.specs.declared.transfer.Stage.TheVariants.{Rest};

use super::*;
use gft_base::LIMIT;
use gft_drive::{CallKind, Drive, FailAt, MemoryDrive, Part, Unknown};
use gft_herald::{Next, Pusher, line};
use gft_keep::{Damage, Keep};
use gft_range::{Range, RangeSet};
use std::alloc::Global;
use std::marker::Brand;
use std::process::Abort;
use std::sync::{Mutex, Wait};
use std::test::Fail;
use std::thread;
use std::thread::Threads;

type MemoryBook = Book<MemoryDrive, Unknown>;

/// What is asked of a Book with a lane's pass.
#[derive(Clone, Copy, Debug)]
enum Call<'a> {
    Store(u64, &'a [u8]),
    Eof(u64),
    Eod,
    Lose,
    Abort,
    Mark,
}

const HELLO: Call<'static> = Call::Store(0, b"hello");

const WORLD: Call<'static> = Call::Store(5, b"world");

const ONE_LANE: [(usize, Call<'static>); 5] = [
    (0, HELLO),
    (0, Call::Mark),
    (0, WORLD),
    (0, Call::Eof(1)),
    (0, Call::Eod),
];

const LOST: Cause = Cause::Lost {
    lane: 0,
    channel: 1,
    taken: 17,
};

/// Stores a block that is one.
fn put<D: Drive + Drop>(
    book: &mut Book<D, Unknown>,
    pass: &mut Pass,
    offset: u64,
    bytes: &[u8],
) -> Result<u64, Stop>
    requires { IsLanePass book.old.stage pass.old }
    ensures same { Moving SameTransfer book.old.stage book.new.stage }
    ensures pass { SamePass pass.old pass.new }
{
    if bytes.is_empty() || offset > LIMIT || bytes.len() as u64 > LIMIT - offset {
        return Err(Stop);
    }
    book.store(pass, offset, bytes)
}

/// Marks what is booked, if anything is.
fn mark<D: Drive + Drop>(book: &mut Book<D, Unknown>) -> Result<u64, Stop>
    requires { IsStoring book.old.stage }
    ensures { book.new.stage ≡ book.old.stage }
{
    if book.keep.ranges().count() == 0 {
        return Err(Stop);
    }
    match book.mark() {
        Ok(number) => Ok(number),
        Err(_refused) => Err(Stop),
    }
}

/// Makes a call, and tells how many bytes are new, or a mark's number, or else 0.
fn make<D: Drive + Drop>(
    book: &mut Book<D, Unknown>,
    pass: &mut Pass,
    call: Call,
) -> Result<u64, Stop>
    requires { IsLanePass book.old.stage pass.old }
    ensures same { Moving SameTransfer book.old.stage book.new.stage }
    ensures pass { SamePass pass.old pass.new }
{
    match call {
        Call::Store(offset, bytes) => return put(book, pass, offset, bytes),
        Call::Eof(total) => book.eof(pass, total)?,
        Call::Eod => book.eod(pass)?,
        Call::Lose => book.fail(pass, LOST),
        Call::Abort => book.fail(pass, Cause::Aborted),
        Call::Mark => return mark(book),
    }
    Ok(0)
}

/// Makes a call with the pass at this place, if it is a lane's.
fn call_at<D: Drive + Drop>(
    book: &mut Book<D, Unknown>,
    passes: &mut Vec<Pass>,
    place: usize,
    call: Call,
) -> Result<u64, Stop>
    requires { HasAllPasses book.old.stage passes.old.items }
    ensures { HasAllPasses book.new.stage passes.new.items }
{
    let lanes = passes.len();
    let Some(pass) = passes.get_mut(place) else {
        return Err(Stop);
    };
    if place + 1 >= lanes {
        return Err(Stop);
    }
    make(book, pass, call)
}

/// Begins a transfer of two lanes.
fn begin<D: Drive + Drop>(book: &mut Book<D, Unknown>, how: How) -> Result<Vec<Pass>, BeginError>
    requires { NamesSome how }
    ensures { IfOk result (λ passes. HasAllPasses book.new.stage passes.items) }
{
    book.begin_store(how, 2)
}

/// How a transfer ends; if it ends well, with its file's length, and whether the file is complete.
type End = Result<(u64, bool), Cause>;

/// Begins a transfer of two lanes, makes the calls, and settles it.
fn run<D: Drive + Drop>(
    book: &mut Book<D, Unknown>,
    how: How,
    calls: &[(usize, Call)],
) -> Result<End, BeginError>
    requires { NamesSome how }
    ensures { IfOk result (λ _. book.new.stage ≡ Rest) }
{
    let mut passes = begin(book, how)?;
    for &(place, call) in calls {
        let _ = call_at(book, &mut passes, place, call);
    }
    match book.settle(passes) {
        Ok(finished) => Ok(Ok((finished.len(), finished.is_whole()))),
        Err(cause) => Ok(Err(cause)),
    }
}

/// Why a transfer of one lane doesn't begin; if it does, its pass is let go.
fn refusal<D: Drive + Drop>(book: &mut Book<D, Unknown>, how: How) -> Option<BeginError>
    requires { NamesSome how }
{
    match book.begin_store(how, 1) {
        Ok(_passes) => None,
        Err(error) => Some(error),
    }
}

/// A restart from a list of ranges, or a begin afresh if it has no offset.
fn restart(alloc: Global, list: &[u8]) -> Result<How, Fail>
    ensures { IfOk result (λ how. NamesSome how) }
{
    let list = RangeSet::parse_list(alloc, list)?;
    if list.count() == 0 {
        return Ok(How::Fresh);
    }
    Ok(How::Resume(list))
}

fn range(start: u64, end: u64) -> Range {
    Range { start, end }
}

fn book_over(alloc: Global, drive: MemoryDrive) -> Result<MemoryBook, Fail>
    ensures { IfOk result (λ book. book.stage ≡ Rest) }
{
    match Keep::attach(alloc, drive) {
        Ok(keep) => Ok(Book::new(alloc, keep)),
        Err((error, _drive)) => Err(Fail::from(error)),
    }
}

fn new_drive(alloc: Global, failing: &[FailAt]) -> Result<MemoryDrive, Fail> {
    Ok(MemoryDrive::new(alloc, b"name", 40_000, u32::MAX, failing)?)
}

/// A Book over a new drive.
fn new_book(alloc: Global, failing: &[FailAt]) -> Result<MemoryBook, Fail>
    ensures { IfOk result (λ book. book.stage ≡ Rest) }
{
    book_over(alloc, new_drive(alloc, failing)?)
}

#[test]
fn a_restart_lacks_what_is_not_kept(rt: HostRuntime) -> Result<(), Fail> {
    let mut book = new_book(rt.alloc(), &[])?;
    let missing = range(0, 5);
    let restarted = refusal(&mut book, restart(rt.alloc(), b"0-5")?);
    assert_eq!(rt; restarted, Some(BeginError::NotInJournal { missing }));
    assert_eq!(rt; book.use_now(), Use::Rest);
    Ok(())
}

#[test]
fn a_transfer_that_runs_is_busy(rt: HostRuntime) -> Result<(), Fail> {
    let mut book = new_book(rt.alloc(), &[])?;
    assert_eq!(rt; refusal(&mut book, How::Fresh), None);
    let found = Use::Storing;
    assert_eq!(rt; book.use_now(), found);
    let again = refusal(&mut book, How::Fresh);
    assert_eq!(rt; again, Some(BeginError::Busy { found }));
    Ok(())
}

#[test]
fn a_complete_file_is_not_added_to(rt: HostRuntime) -> Result<(), Fail> {
    let mut book = new_book(rt.alloc(), &[])?;
    let whole = [(0, HELLO), (0, Call::Eof(1)), (0, Call::Eod)];
    assert_eq!(rt; run(&mut book, How::Fresh, &whole)?, Ok((5, true)));
    let len = 5;
    let added = refusal(&mut book, How::Esto);
    assert_eq!(rt; added, Some(BeginError::CompleteAlready { len }));
    Ok(())
}

#[test]
fn a_file_made_elsewhere_is_not_added_to(rt: HostRuntime) -> Result<(), Fail> {
    let mut drive = new_drive(rt.alloc(), &[])?;
    drive.write_at(Part::Bytes, 0, b"hello")?;
    let mut book = book_over(rt.alloc(), drive)?;
    let len = 5;
    let added = refusal(&mut book, How::Esto);
    assert_eq!(rt; added, Some(BeginError::CompleteAlready { len }));
    Ok(())
}

/// How long a file that a reader is lent is, and how many drives with its bytes the reader has; or why it is
/// lent nothing.
fn read<'a>(book: &mut MemoryBook, bytes: &'a [u8]) -> Result<(u64, usize), BeginError> {
    let reading = book.begin_read(2)?;
    let drives = reading.drives.as_slice();
    let same = drives.iter().filter(|drive| drive.bytes() == bytes);
    Ok((reading.len, same.count()))
}

#[test]
fn a_file_that_is_not_complete_has_no_reader(rt: HostRuntime) -> Result<(), Fail> {
    let mut book = new_book(rt.alloc(), &[])?;
    assert_eq!(rt; read(&mut book, b""), Err(BeginError::NoSuch));
    assert_eq!(rt; run(&mut book, How::Fresh, &[(0, HELLO)])?.is_ok(), false);
    assert_eq!(rt; read(&mut book, b""), Err(BeginError::Incomplete));
    assert_eq!(rt; book.use_now(), Use::Rest);
    Ok(())
}

#[test]
fn readers_of_a_complete_file_are_counted(rt: HostRuntime) -> Result<(), Fail> {
    let mut book = new_book(rt.alloc(), &[])?;
    assert_eq!(rt; run(&mut book, How::Fresh, &ONE_LANE)?, Ok((10, true)));
    assert_eq!(rt; read(&mut book, b"helloworld"), Ok((10, 2)));
    assert_eq!(rt; read(&mut book, b"helloworld"), Ok((10, 2)));
    let found = Use::Reading(2);
    assert_eq!(rt;
        refusal(&mut book, How::Fresh),
        Some(BeginError::Busy { found })
    );
    book.end_read();
    assert_eq!(rt; book.use_now(), Use::Reading(1));
    book.end_read();
    book.end_read();
    assert_eq!(rt; book.use_now(), Use::Rest);
    Ok(())
}

#[test]
fn a_file_that_is_stored_is_busy(rt: HostRuntime) -> Result<(), Fail> {
    let mut book = new_book(rt.alloc(), &[])?;
    let _passes = begin(&mut book, How::Fresh)?;
    let found = Use::Storing;
    assert_eq!(rt; read(&mut book, b""), Err(BeginError::Busy { found }));
    book.end_read();
    assert_eq!(rt; book.use_now(), found);
    Ok(())
}

#[test]
fn a_file_made_elsewhere_is_read_whole(rt: HostRuntime) -> Result<(), Fail> {
    let mut drive = new_drive(rt.alloc(), &[])?;
    drive.write_at(Part::Bytes, 0, b"hello")?;
    let mut book = book_over(rt.alloc(), drive)?;
    assert_eq!(rt; read(&mut book, b"hello"), Ok((5, 2)));
    Ok(())
}

// Attaching asks for the length first, and a file made elsewhere has no other.
#[test]
fn a_reader_is_told_that_the_drive_failed(rt: HostRuntime) -> Result<(), Fail> {
    let call = CallKind::Len;
    let part = Part::Bytes;
    let failing = [FailAt {
        call,
        part,
        number: 2,
    }];
    let mut drive = new_drive(rt.alloc(), &failing)?;
    drive.write_at(Part::Bytes, 0, b"hello")?;
    let mut book = book_over(rt.alloc(), drive)?;
    assert_eq!(rt; read(&mut book, b"hello"), Err(BeginError::DriveFailed));
    assert_eq!(rt; read(&mut book, b"hello"), Ok((5, 2)));
    Ok(())
}

// Attaching syncs each part once. A begin afresh then syncs the birth, the rebase's bank and its selector,
// and then the data.
#[test]
fn a_begin_afresh_that_failed_is_begun_anew(rt: HostRuntime) -> Result<(), Fail> {
    use Part::{Bytes, Ranges};
    let call = CallKind::Sync;
    for (part, number) in [(Ranges, 2), (Ranges, 3), (Ranges, 4), (Bytes, 2)] {
        let failing = [FailAt { call, part, number }];
        let mut book = new_book(rt.alloc(), &failing)?;
        let failed = refusal(&mut book, How::Fresh);
        assert_eq!(rt; failed, Some(BeginError::DriveFailed), "{failing:?}");
        assert_eq!(rt; book.use_now(), Use::Rest);
        let end = run(&mut book, How::Fresh, &ONE_LANE)?;
        assert_eq!(rt; end, Ok((10, true)), "{failing:?}");
    }
    Ok(())
}

#[test]
fn a_mark_names_what_is_booked(rt: HostRuntime) -> Result<(), Fail> {
    let mut book = new_book(rt.alloc(), &[])?;
    let mut passes = begin(&mut book, How::Fresh)?;
    assert_eq!(rt; call_at(&mut book, &mut passes, 0, Call::Mark), Err(Stop));
    assert_eq!(rt; call_at(&mut book, &mut passes, 0, HELLO), Ok(5));
    assert!(rt; book.mark_due(5) && !book.mark_due(6));
    assert_eq!(rt; call_at(&mut book, &mut passes, 0, Call::Mark), Ok(0));
    assert!(rt; book.mark_due(0) && !book.mark_due(1));
    let marked = book.mark_at(0).map(|mark| mark.ranges.as_slice());
    assert_eq!(rt; marked, Some([range(0, 5)].as_slice()));
    assert!(rt; book.mark_at(1).is_none());
    assert!(rt; book.running() && !book.met());
    assert_eq!(rt; call_at(&mut book, &mut passes, 0, Call::Eof(1)), Ok(0));
    assert_eq!(rt; call_at(&mut book, &mut passes, 0, Call::Eod), Ok(0));
    assert!(rt; book.running() && book.met());
    assert_eq!(rt; call_at(&mut book, &mut passes, 0, Call::Abort), Ok(0));
    assert_eq!(rt; call_at(&mut book, &mut passes, 0, HELLO), Err(Stop));
    assert!(rt; !book.running());
    // the mark and the call that found the transfer failed aren't turns
    assert_eq!(rt; book.turns(), 4);
    Ok(())
}

/// What is done, and how the transfer ends.
type Row<'a> = (&'a [(usize, Call<'a>)], End);

/// Runs a transfer for each row, over one Book.
fn ends_so(rt: &impl Abort, alloc: Global, rows: &[Row]) -> Result<(), Fail> {
    let mut book = new_book(alloc, &[])?;
    for &(calls, want) in rows {
        assert_eq!(rt; run(&mut book, How::Fresh, calls)?, want, "{calls:?}");
        assert_eq!(rt; book.use_now(), Use::Rest);
    }
    Ok(())
}

#[test]
fn a_transfer_ends_for_its_first_cause(rt: HostRuntime) -> Result<(), Fail> {
    use Call::{Abort, Eod, Eof, Lose};
    let two = Cause::TwoTotals { kept: 2, new: 3 };
    let bad = |total| Cause::BadTotal { total };
    let rows: [Row; 8] = [
        (
            &[(1, WORLD), (0, HELLO), (1, Eof(2)), (1, Eod), (0, Eod)],
            Ok((10, true)),
        ),
        (&[(0, Eof(2)), (1, Eof(3))], Err(two)),
        (
            &[(0, Eof(2)), (1, Eof(3)), (0, Lose), (1, Eof(4))],
            Err(two),
        ),
        (&[(0, Eof(0))], Err(bad(0))),
        (&[(0, Eof(1_025))], Err(bad(1_025))),
        (
            &[(0, HELLO), (0, Eof(1)), (0, Eod), (1, Eod)],
            Err(Cause::TooManyEods { total: 1 }),
        ),
        (&[(0, Lose), (1, Abort)], Err(LOST)),
        (&[(0, Abort), (1, Lose), (0, HELLO)], Err(Cause::Aborted)),
    ];
    ends_so(&rt, rt.alloc(), &rows)
}

#[test]
fn a_hole_is_told_with_its_numbers(rt: HostRuntime) -> Result<(), Fail> {
    use Call::{Eod, Eof};
    let hole = |total, eods, missing| {
        Err(Cause::Hole {
            total,
            eods,
            missing,
        })
    };
    let gap = Call::Store(7, b"ld");
    let rows: [Row; 4] = [
        (
            &[(0, WORLD), (0, Eof(1)), (0, Eod)],
            hole(Some(1), 1, Some(range(0, 5))),
        ),
        (
            &[(0, HELLO), (1, gap), (1, Eof(2)), (1, Eod)],
            hole(Some(2), 1, Some(range(5, 7))),
        ),
        (&[(0, HELLO), (0, Eod)], hole(None, 1, None)),
        (&[], hole(None, 0, None)),
    ];
    ends_so(&rt, rt.alloc(), &rows)
}

#[test]
fn a_part_is_added_and_the_rest_resumed(rt: HostRuntime) -> Result<(), Fail> {
    let alloc = rt.alloc();
    let mut book = new_book(alloc, &[])?;
    let part = [(1, HELLO), (1, Call::Eof(1)), (0, Call::Eod)];
    assert_eq!(rt; run(&mut book, How::Esto, &part)?, Ok((5, false)));
    let more = [(0, WORLD), (0, Call::Eof(1)), (0, Call::Eod)];
    let how = restart(alloc, b"0-5")?;
    assert_eq!(rt; run(&mut book, how, &more)?, Ok((10, true)));
    let drive = book.into_keep().into_drive();
    assert_eq!(rt; drive.bytes(), b"helloworld".as_slice());
    Ok(())
}

/// The call that was made at this place, as the one of its kind and part.
fn nth_call(drive: &MemoryDrive, place: usize) -> Option<FailAt> {
    let wanted = drive.call(place)?;
    let mut number = 0u32;
    for i in 0..=place {
        if let Some(call) = drive.call(i) {
            if call.call == wanted.call && call.part == wanted.part {
                number = number.saturating_add(1);
            }
        }
    }
    Some(FailAt {
        call: wanted.call,
        part: wanted.part,
        number,
    })
}

/// Stores a file while one call of the drive fails, and then again from what was marked.
fn fail_once(rt: &impl Abort, alloc: Global, failing: FailAt) -> Result<(), Fail> {
    let mut book = new_book(alloc, &[failing])?;
    match run(&mut book, How::Fresh, &ONE_LANE) {
        Ok(end) => assert_eq!(rt; end, Err(Cause::DriveFailed), "{failing:?}"),
        Err(error) => assert_eq!(rt; error, BeginError::DriveFailed, "{failing:?}"),
    }
    assert_eq!(rt; book.use_now(), Use::Rest, "{failing:?}");
    let marked = book.mark_at(0).is_some();
    let list: &[u8] = if marked { b"0-5" } else { b"0-0" };
    let end = run(&mut book, restart(alloc, list)?, &[])?;
    let hole = Cause::Hole {
        total: None,
        eods: 0,
        missing: None,
    };
    assert_eq!(rt; end, Err(hole), "{failing:?}");
    let drive = book.into_keep().into_drive();
    if marked {
        let front = drive.bytes().get(..5);
        assert_eq!(rt; front, Some(b"hello".as_slice()), "{failing:?}");
    }
    Ok(())
}

// Attaching takes 262 calls, a begin afresh 263, and the rest 18.
#[test]
fn a_drive_that_failed_once_has_what_was_marked(rt: HostRuntime) -> Result<(), Fail> {
    let mut book = new_book(rt.alloc(), &[])?;
    assert_eq!(rt; run(&mut book, How::Fresh, &ONE_LANE)?, Ok((10, true)));
    let drive = book.into_keep().into_drive();
    assert_eq!(rt; drive.count(), 262 + 263 + 18);
    for place in [262, 263, 264, 300, 519, 520, 521, 522, 523, 524] {
        if let Some(failing) = nth_call(&drive, place) {
            fail_once(&rt, rt.alloc(), failing)?;
        }
    }
    for place in 525..543 {
        if let Some(failing) = nth_call(&drive, place) {
            fail_once(&rt, rt.alloc(), failing)?;
        }
    }
    Ok(())
}

/// Makes calls through the lock of a transfer, and tells which were `Ok`, whether it awaits more before the
/// EOD and behind it, and whether it has had four turns.
fn call_locked<D: Drive + Drop, N: Run, R: Wait>(
    rt: &R,
    book: &Shared<D, Unknown, N>,
    pass: &mut Pass,
) -> [bool; 7]
    requires pass { IsLaneOf N.start pass.old }
    requires known { IfSome N.start.total (λ known. 1 ≡ known) }
{
    let stores = book.lock(rt).store(pass, 0, b"hello").is_ok();
    let announces = book.lock(rt).eof(pass, 1).is_ok();
    let awaits = book.lock(rt).awaits_more(pass);
    let ends = book.lock(rt).eod(pass).is_ok();
    let awaits_still = book.lock(rt).awaits_more(pass);
    book.lock(rt).fail(pass, Cause::Aborted);
    let goes_on = book.lock(rt).store(pass, 5, b"world").is_ok();
    let turns = book.lock(rt).turns();
    [
        stores,
        announces,
        awaits,
        ends,
        awaits_still,
        goes_on,
        turns == 4,
    ]
}

/// Lends a Book under its lock, and a pass, to another thread.
fn lend<D: Drive + Drop + Send, N: Run + Send + Sync, R: Threads + Wait + Sync>(
    rt: &R,
    book: Book<D, Unknown>,
    pusher: Pusher,
    pass: &mut Pass,
) -> (Book<D, Unknown>, [bool; 7])
    requires live { IsLive N.start (book_of D.state book) }
    requires total { KeepsTotal N.start book.stage }
    requires line { FillsLine N.line book.marks pusher }
    requires pass { IsLaneOf N.start pass.old }
    requires known { IfSome N.start.total (λ known. 1 ≡ known) }
{
    let shared = Mutex::new(Live::<D, Unknown, N>::new(book, pusher, 1));
    let lock = &shared;
    let (told, ()) = thread::join(
        rt,
        move ||
            requires { IsLaneOf N.start pass.now × IfSome N.start.total (λ known. 1 ≡ known) }
        { call_locked(rt, lock, pass) },
        || (),
    );
    (shared.into_inner().into_parts().0, told)
}

/// Lends a Book and the first of its passes.
fn lend_first<D: Drive + Drop + Send, R: Threads + Wait + Sync>(
    rt: &R,
    book: Book<D, Unknown>,
    pusher: Pusher,
    passes: &mut Vec<Pass>,
) -> (Book<D, Unknown>, [bool; 7])
    requires passes { HasAllPasses book.stage passes.old.items }
    requires line { pusher.marks ≡ [] }
{
    if passes.len() < 2 {
        return (book, [false; 7]);
    }
    if book.running() {
        if let Some(pass) = passes.get_mut(0) {
            book.facts();
            return lend::<D, Brand, R>(rt, book, pusher, pass);
        }
    }
    (book, [false; 7])
}

#[test]
fn a_book_is_lent_to_another_thread(rt: HostRuntime) -> Result<(), Fail> {
    let mut book = new_book(rt.alloc(), &[])?;
    let mut passes = begin(&mut book, How::Fresh)?;
    let (pusher, mut taker) = line(rt.alloc(), 8)?;
    let (book, told) = lend_first(&rt, book, pusher, &mut passes);
    assert_eq!(rt; told, [true, true, true, true, false, false, true]);
    assert!(rt; book.met() && !book.running());
    assert!(rt; book.keeps_some() && book.mark_count() == 1);
    let Next::Mark(ranges) = taker.next(&rt) else {
        return Err(Fail::new("no mark was made"));
    };
    assert_eq!(rt; ranges.end(), 5);
    Ok(())
}

#[test]
fn refusals_of_a_begin_have_their_texts(rt: HostRuntime) -> Result<(), Fail> {
    let rows = [
        (
            BeginError::Busy {
                found: Use::Storing,
            },
            "the file is in use: Storing",
        ),
        (
            BeginError::CompleteAlready { len: 5 },
            "the file is complete with 5 bytes",
        ),
        (
            BeginError::NotInJournal {
                missing: range(0, 5),
            },
            "0-5 isn't kept",
        ),
        (
            BeginError::Damaged(Damage::Slot { slot: 3 }),
            "the journal is damaged: slot 3 is none",
        ),
        (BeginError::NoSuch, "there is no file"),
        (BeginError::Incomplete, "the file isn't complete"),
        (BeginError::OutOfMemory, "out of memory"),
        (BeginError::DriveFailed, "the drive failed"),
    ];
    for (error, text) in rows {
        assert_eq!(rt; error.to_string(rt.alloc())?.as_str(), text);
    }
    Ok(())
}
