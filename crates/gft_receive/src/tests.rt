ghost use Rattle.std.specs.Prelude.{◌≡◌, ◌<◌, All, IfOk, length};
ghost use Rattle.gft_base.specs.Words.{HasCause};
ghost use Rattle.gft_book.specs.declared.transfer.Stage.TheVariants.{Rest};
ghost use Rattle.gft_book.specs.Words.{NamesSome};
ghost use Rattle.gft_outside.specs.Words.{EventFits, Gives, LaneEnds, gate_state, given_by, lane_state};
ghost use Rattle.gft_outside.specs.Words.{no_channels};
ghost use Rattle.gft_receive.specs.Rows.{AreHalves, BringsBytes};

use super::*;
use gft_base::Failed;
use gft_book::{Book, How};
use gft_core::Octets;
use gft_drive::{DriveCall, FailAt, MemoryDrive, Origin, Unknown};
use gft_eblock::{BadBlock, Header, encode};
use gft_keep::Keep;
use gft_outside::{GateLane, Lane, LaneEvent, LaneItem, MemoryLane, NoClock, NoControl, NoSink};
use gft_pass::Cause;
use gft_text::Lines;
use std::alloc::Global;
use std::process::Abort;
use std::sync::atomic::{AtomicBool, Ordering};
use std::sync::{Arc, Wait};
use std::test::Fail;
use std::thread::Threads;

type MemoryBook = Book<MemoryDrive, Unknown>;

/// What comes on a lane; the number is the channel's.
#[derive(Clone, Copy, Debug)]
enum Item<'a> {
    Open(u32),
    /// A block with its header.
    Block(u32, u64, &'a [u8]),
    /// A header of these flags, this count and this offset.
    Head(u32, u8, u64, u64),
    Bytes(u32, &'a [u8]),
    End(u32),
    Quiet,
}

use Item::{Block, Bytes, End, Head, Open, Quiet};

const HELLO: Item<'static> = Block(0, 0, b"hello");

const WORLD: Item<'static> = Block(0, 5, b"world");

const EOF_1: Item<'static> = Head(0, 64, 0, 1);

const EOF_2: Item<'static> = Head(0, 64, 0, 2);

const EOD: Item<'static> = Head(0, 8, 0, 0);

/// An EOD without its last byte.
const CUT_EOD: &[u8] = b"\x08\0\0\0\0\0\0\0\0\0\0\0\0\0\0\0";

const EOD_AND_MORE: &[u8] = b"\x08\0\0\0\0\0\0\0\0\0\0\0\0\0\0\0\0more";

const ONE_LANE: [Item<'static>; 6] = [Open(0), HELLO, WORLD, EOF_1, EOD, End(0)];

fn octets(alloc: Global, channel: u32, head: &[u8], data: &[u8]) -> Result<LaneItem, Fail> {
    let mut bytes = Vec::from_slice(alloc, head)?;
    bytes.extend_from_slice(data)?;
    let bytes = Octets::from_bytes(alloc, bytes.as_slice())?;
    Ok(LaneItem::Bytes { channel, bytes })
}

fn header(flags: u8, count: u64, offset: u64) -> [u8; 17] {
    encode(&Header {
        flags,
        count,
        offset,
    })
}

fn lane_item(alloc: Global, item: Item) -> Result<LaneItem, Fail> {
    match item {
        Open(channel) => Ok(LaneItem::Opened(channel)),
        Block(channel, offset, data) => {
            octets(alloc, channel, &header(0, data.len() as u64, offset), data)
        }
        Head(channel, flags, count, offset) => octets(
            alloc,
            channel,
            &header(flags, count, offset),
            b"",
        ),
        Bytes(channel, bytes) => octets(alloc, channel, bytes, b""),
        End(channel) => Ok(LaneItem::Ended(channel)),
        Quiet => Ok(LaneItem::Quiet),
    }
}

/// A lane of which these calls fail.
fn lane(alloc: Global, items: &[Item], failing: &[u32]) -> Result<MemoryLane, Fail>
    ensures { IfOk result (λ lane. (lane_state lane).channels ≡ no_channels) }
{
    let mut list = Vec::new(alloc);
    for &item in items {
        list.push(lane_item(alloc, item)?)?;
    }
    let failing = Vec::from_slice(alloc, failing)?;
    Ok(MemoryLane::new(list, failing))
}

fn lanes(alloc: Global, lists: &[&[Item]]) -> Result<Vec<MemoryLane>, Fail>
    ensures { IfOk result (λ lanes. All (λ lane. (lane_state lane).channels ≡ no_channels) lanes.items) }
{
    let mut lanes = Vec::new(alloc);
    for items in lists {
        lanes.push(lane(alloc, items, &[])?)?;
    }
    Ok(lanes)
}

fn book_over(alloc: Global, drive: MemoryDrive) -> Result<MemoryBook, Fail>
    ensures { IfOk result (λ book. book.stage ≡ Rest) }
{
    match Keep::attach(alloc, drive) {
        Ok(keep) => Ok(Book::new(alloc, keep)),
        Err((error, _drive)) => Err(Fail::from(error)),
    }
}

/// A Book over a new drive.
fn new_book(alloc: Global, failing: &[FailAt]) -> Result<MemoryBook, Fail>
    ensures { IfOk result (λ book. book.stage ≡ Rest) }
{
    book_over(
        alloc,
        MemoryDrive::new(alloc, b"name", 100, u32::MAX, failing)?,
    )
}

/// How a transfer ends; if it ends well, with its file's length, and whether the file is complete.
type Ending = Result<(u64, bool), Cause>;

/// Begins a transfer of these lanes and receives it.
fn transfer<L: Lane + Drop, R: Threads + Wait + Sync>(
    rt: &R,
    alloc: Global,
    book: MemoryBook,
    how: How,
    lanes: Vec<L>,
    idle: u32,
) -> Result<(Ending, MemoryBook), Fail>
    requires list { NamesSome how }
    requires unopened { All (λ lane. (L.state lane).channels ≡ no_channels) lanes.items }
    ensures { IfOk result (λ ended. ended.1.stage ≡ Rest) }
{
    let mut book = book;
    let count = lanes.len();
    if count == 0 || count > 16 {
        return Err(Fail::new("a transfer has 1 to 16 lanes"));
    }
    let passes = book.begin_store(how, count as u16)?;
    let limits = Limits {
        marker_bytes: 1,
        idle,
        shift: 0,
    };
    let Received {
        outcome,
        put_failed: _,
        book,
        lanes: _,
    } = receive(
        rt,
        alloc,
        lanes,
        book,
        passes,
        &mut NoControl,
        &mut Lines::new(alloc),
        &mut NoSink,
        &mut NoClock,
        &limits,
    );
    match outcome.end {
        Ok(file) => Ok((Ok((file.len(), file.is_whole())), book)),
        Err(cause) => Ok((Err(cause), book)),
    }
}

/// What a transfer of these lanes ends with; the file has the front of `helloworld`.
fn ending(
    rt: &(impl Abort + Threads + Wait + Sync),
    alloc: Global,
    lists: &[&[Item]],
) -> Result<Ending, Fail> {
    let book = new_book(alloc, &[])?;
    let (end, book) = transfer(rt, alloc, book, How::Fresh, lanes(alloc, lists)?, 3)?;
    let drive = book.into_keep().into_drive();
    assert!(rt; b"helloworld".starts_with(drive.bytes()));
    Ok(end)
}

#[test]
fn two_lanes_make_a_file(rt: HostRuntime) -> Result<(), Fail> {
    let first = [Open(0), WORLD, EOF_2, EOD, End(0)];
    let second = [Open(0), HELLO, EOD, End(0)];
    let end = ending(&rt, rt.alloc(), &[&first, &second])?;
    assert_eq!(rt; end, Ok((10, true)));
    Ok(())
}

#[test]
fn a_silent_lane_is_idle(rt: HostRuntime) -> Result<(), Fail> {
    let end = ending(&rt, rt.alloc(), &[&[Open(0), HELLO, Quiet, Quiet, Quiet]])?;
    assert_eq!(rt; end, Err(Cause::Idle { lane: 0, turns: 1 }));
    Ok(())
}

#[test]
fn a_channel_without_a_byte_counts_as_nothing(rt: HostRuntime) -> Result<(), Fail> {
    let hello = Block(2, 0, b"hello");
    let items = [
        Open(0),
        End(0),
        Open(1),
        End(1),
        Open(2),
        hello,
        Head(2, 76, 0, 1),
    ];
    let end = ending(&rt, rt.alloc(), &[&items])?;
    assert_eq!(rt; end, Ok((5, true)));
    Ok(())
}

#[test]
fn a_channel_that_ends_before_its_eod_is_lost(rt: HostRuntime) -> Result<(), Fail> {
    let end = ending(
        &rt,
        rt.alloc(),
        &[&[Open(0), HELLO, Bytes(0, CUT_EOD), End(0)]],
    )?;
    let lost = Cause::Lost {
        lane: 0,
        channel: 0,
        taken: 38,
    };
    assert_eq!(rt; end, Err(lost));
    Ok(())
}

#[test]
fn a_refused_header_is_told_with_its_channel(rt: HostRuntime) -> Result<(), Fail> {
    let items = [
        Open(0),
        Open(1),
        Open(2),
        HELLO,
        Head(1, 16, 0, 0),
        EOF_1,
        EOD,
    ];
    let end = ending(&rt, rt.alloc(), &[&items])?;
    let bad = BadBlock {
        place: 0,
        flags: 16,
        count: 0,
        offset: 0,
    };
    let refused = Cause::BadBlock {
        lane: 0,
        channel: 1,
        bad,
    };
    assert_eq!(rt; end, Err(refused));
    Ok(())
}

#[test]
fn bytes_behind_an_eod_are_dropped(rt: HostRuntime) -> Result<(), Fail> {
    let end = ending(
        &rt,
        rt.alloc(),
        &[&[Open(0), HELLO, EOF_1, Bytes(0, EOD_AND_MORE), End(0)]],
    )?;
    assert_eq!(rt; end, Ok((5, true)));
    Ok(())
}

// Either lane may be the first.
#[test]
fn lanes_of_two_totals_are_refused(rt: HostRuntime) -> Result<(), Fail> {
    let alloc = rt.alloc();
    let end = ending(
        &rt,
        alloc,
        &[&[Open(0), EOF_2], &[Open(0), Head(0, 64, 0, 3)]],
    )?;
    let first = Cause::TwoTotals { kept: 2, new: 3 };
    let second = Cause::TwoTotals { kept: 3, new: 2 };
    assert!(rt; end == Err(first) || end == Err(second));
    Ok(())
}

#[test]
fn a_lane_has_64_live_channels(rt: HostRuntime) -> Result<(), Fail> {
    let alloc = rt.alloc();
    let mut items = Vec::new(alloc);
    for channel in 0..65 {
        items.push(Open(channel))?;
    }
    let end = ending(&rt, alloc, &[items.as_slice()])?;
    let full = Cause::TooManyChannels {
        lane: 0,
        opened: 64,
        live: 64,
    };
    assert_eq!(rt; end, Err(full));
    Ok(())
}

// Behind the fourth call, which brings the EOD, no further one is made.
#[test]
fn each_call_of_a_lane_fails_once(rt: HostRuntime) -> Result<(), Fail> {
    let alloc = rt.alloc();
    let items = [Open(0), HELLO, EOF_1, EOD];
    let failed = Err(Cause::LinkFailed);
    let rows = [
        (1, failed),
        (2, failed),
        (3, failed),
        (4, failed),
        (5, Ok((5, true))),
    ];
    for (number, want) in rows {
        let lanes = vec![in alloc; lane(alloc, &items, &[number])?]?;
        let book = new_book(alloc, &[])?;
        let (end, _book) = transfer(&rt, alloc, book, How::Fresh, lanes, 3)?;
        assert_eq!(rt; end, want, "call {number}");
    }
    Ok(())
}

/// A lane that sets a flag when it is asked for what comes behind so many events that aren't `Quiet`.
#[derive(Drop)]
struct Signal<L: Lane + Drop> {
    lane: L,
    left: u64,
    flag: Arc<AtomicBool, Global>,
}

impl<L: Lane + Drop> Lane for Signal<L> {
    ghost state = { λ s. L.state s.lane };

    fn next(&mut self, buf: &mut [u8]) -> Result<LaneEvent, Failed> {
        if self.left == 0 {
            self.flag.store(true, Ordering::SeqCst);
        }
        let event = self.lane.next(buf)?;
        if event != LaneEvent::Quiet {
            self.left = self.left.saturating_sub(1);
        }
        Ok(event)
    }
}

/// A lane whose event of this number is held until a flag is set, and which sets another when its second
/// event is booked.
fn held(
    alloc: Global,
    items: &[Item],
    number: u64,
    waits: &Arc<AtomicBool, Global>,
    tells: &Arc<AtomicBool, Global>,
) -> Result<Signal<GateLane<MemoryLane>>, Fail>
    ensures { IfOk result (λ signal. (gate_state lane_state signal.lane).channels ≡ no_channels) }
{
    let waits = Arc::try_clone(waits)?;
    let flag = Arc::try_clone(tells)?;
    let lane = GateLane::new(lane(alloc, items, &[])?, number, 2_000_000, waits);
    Ok(Signal {
        lane,
        left: 2,
        flag,
    })
}

// Each lane waits for a block of the other, so a mover behind another would end in Idle.
#[test]
fn lanes_are_received_side_by_side(rt: HostRuntime) -> Result<(), Fail> {
    let alloc = rt.alloc();
    let first = Arc::new(alloc, AtomicBool::new(false))?;
    let second = Arc::new(alloc, AtomicBool::new(false))?;
    let lanes = vec![in alloc;
        held(alloc, &[Open(0), WORLD, EOF_2, EOD], 2, &second, &first)?,
        held(alloc, &[Open(0), HELLO, EOD], 3, &first, &second)?,
    ]?;
    let book = new_book(alloc, &[])?;
    let (end, book) = transfer(&rt, alloc, book, How::Fresh, lanes, 1_000_000)?;
    assert_eq!(rt; end, Ok((10, true)));
    assert_eq!(rt;
        book.into_keep().into_drive().bytes(),
        b"helloworld".as_slice()
    );
    Ok(())
}

/// The call that was made at this place, as the one of its kind and part.
fn nth_call(drive: &MemoryDrive, place: usize) -> Option<FailAt> {
    let DriveCall { call, part, .. } = drive.call(place)?;
    let mut number = 0u32;
    for i in 0..=place {
        if drive
            .call(i)
            .is_some_and(|made| made.call == call && made.part == part)
        {
            number = number.saturating_add(1);
        }
    }
    Some(FailAt { call, part, number })
}

/// A restart from what a drive keeps.
fn restart(alloc: Global, drive: MemoryDrive) -> Result<(How, MemoryBook), Fail>
    ensures { IfOk result (λ again. NamesSome again.0) }
{
    let keep = match Keep::attach(alloc, drive) {
        Ok(keep) => keep,
        Err((error, _drive)) => return Err(Fail::from(error)),
    };
    let kept = keep.ranges().copy()?;
    let book = Book::new(alloc, keep);
    if kept.count() == 0 {
        return Ok((How::Fresh, book));
    }
    Ok((How::Resume(kept), book))
}

/// A transfer of one lane over a Book.
fn store(
    rt: &(impl Threads + Wait + Sync),
    alloc: Global,
    book: MemoryBook,
    how: How,
) -> Result<(Ending, MemoryBook), Fail>
    requires { NamesSome how }
    ensures { IfOk result (λ ended. ended.1.stage ≡ Rest) }
{
    let lanes = lanes(alloc, &[&ONE_LANE])?;
    transfer(rt, alloc, book, how, lanes, 3)
}

/// A transfer of which one call of the drive fails, and then one from what was kept.
fn fail_once(
    rt: &(impl Abort + Threads + Wait + Sync),
    alloc: Global,
    failing: FailAt,
) -> Result<(), Fail> {
    let book = new_book(alloc, &[failing])?;
    let (end, book) = store(rt, alloc, book, How::Fresh)?;
    assert_eq!(rt; end, Err(Cause::DriveFailed), "{failing:?}");
    let (how, book) = restart(alloc, book.into_keep().into_drive())?;
    let (end, book) = store(rt, alloc, book, how)?;
    assert_eq!(rt; end, Ok((10, true)));
    let drive = book.into_keep().into_drive();
    assert_eq!(rt; drive.bytes(), b"helloworld".as_slice());
    Ok(())
}

// Attaching takes 262 calls, a begin afresh 263, and the rest 18.
#[test]
fn each_call_of_the_drive_fails_once(rt: HostRuntime) -> Result<(), Fail> {
    let alloc = rt.alloc();
    let book = new_book(alloc, &[])?;
    let (end, book) = store(&rt, alloc, book, How::Fresh)?;
    assert_eq!(rt; end, Ok((10, true)));
    let drive = book.into_keep().into_drive();
    assert_eq!(rt; drive.count(), 262 + 263 + 18);
    for place in 525..543 {
        let failing = nth_call(&drive, place).expect(&rt, "a call");
        fail_once(&rt, alloc, failing)?;
    }
    Ok(())
}

/// How many bytes come at once, over and over.
const CUTS: [usize; 7] = [1, 17, 300, 5, 4_096, 16, 1_000];

const BLOCK_LEN: u64 = 4_096;

fn byte_at(offset: u64) -> u8 {
    (offset % 251) as u8
}

/// A block of the generated file, with its header.
fn block(alloc: Global, offset: u64) -> Result<Vec<u8>, Fail> {
    let mut bytes = Vec::from_slice(alloc, &header(0, BLOCK_LEN, offset))?;
    for i in 0..BLOCK_LEN {
        bytes.push(byte_at(offset.saturating_add(i)))?;
    }
    Ok(bytes)
}

/// What a channel of 64 brings: each 64th block.
fn stream(alloc: Global, first: u8) -> Result<Vec<u8>, Fail> {
    let mut bytes = Vec::new(alloc);
    for round in 0..4u64 {
        let number = round * 64 + u64::from(first);
        bytes.extend_from_slice(block(alloc, number * BLOCK_LEN)?.as_slice())?;
    }
    if first == 0 {
        bytes.extend_from_slice(&header(64, 0, 64))?;
    }
    bytes.extend_from_slice(&header(8, 0, 0))?;
    Ok(bytes)
}

/// The streams of four channels, cut and interleaved.
fn interleave(alloc: Global, streams: &[Vec<u8>], items: &mut Vec<LaneItem>) -> Result<(), Fail> {
    let mut places = [0usize; 4];
    for step in 0..140usize {
        let channel = step % 4;
        let Some(stream) = streams.get(channel) else {
            continue;
        };
        let from = places[channel];
        let end = from.saturating_add(CUTS[step % 7]).min(stream.len());
        places[channel] = end;
        if let Some(piece) = stream.as_slice().get(from..end) {
            items.push(octets(alloc, channel as u32, piece, b"")?)?;
        }
    }
    Ok(())
}

fn wide_lane(alloc: Global, lane: u8) -> Result<MemoryLane, Fail>
    ensures { IfOk result (λ lane. (lane_state lane).channels ≡ no_channels) }
{
    let mut items = Vec::new(alloc);
    let mut streams = Vec::new(alloc);
    for channel in 0..4u8 {
        items.push(LaneItem::Opened(u32::from(channel)))?;
        streams.push(stream(alloc, lane.saturating_mul(4).saturating_add(channel))?)?;
    }
    interleave(alloc, streams.as_slice(), &mut items)?;
    Ok(MemoryLane::new(items, Vec::new(alloc)))
}

fn wide_lanes(alloc: Global) -> Result<Vec<MemoryLane>, Fail>
    ensures { IfOk result (λ lanes. All (λ lane. (lane_state lane).channels ≡ no_channels) lanes.items) }
{
    let mut lanes = Vec::new(alloc);
    for lane in 0..16u8 {
        lanes.push(wide_lane(alloc, lane)?)?;
    }
    Ok(lanes)
}

fn is_generated(bytes: &[u8]) -> bool {
    for (offset, &byte) in bytes.iter().enumerate() {
        if byte != byte_at(offset as u64) {
            return false;
        }
    }
    true
}

#[test]
fn sixteen_lanes_bring_a_mebibyte(rt: HostRuntime) -> Result<(), Fail> {
    let alloc = rt.alloc();
    let lanes = wide_lanes(alloc)?;
    let drive = MemoryDrive::new(alloc, b"name", 1_048_576, u32::MAX, &[])?;
    let book = book_over(alloc, drive)?;
    let (end, book) = transfer(&rt, alloc, book, How::Fresh, lanes, 3)?;
    assert_eq!(rt; end, Ok((1_048_576, true)));
    let drive = book.into_keep().into_drive();
    assert!(rt; is_generated(drive.bytes()));
    Ok(())
}

/// Lane 0's channel: a block of `world` at 5, an EOF with the total 2, and an EOD.
const SECOND_HALF: &[u8] = b"\0\0\0\0\0\0\0\0\x05\0\0\0\0\0\0\0\x05world\
\x40\0\0\0\0\0\0\0\0\0\0\0\0\0\0\0\x02\x08\0\0\0\0\0\0\0\0\0\0\0\0\0\0\0\0";

/// Lane 1's channel: a block of `hello` at 0, and an EOD.
const FIRST_HALF: &[u8] = b"\0\0\0\0\0\0\0\0\x05\0\0\0\0\0\0\0\0hello\
\x08\0\0\0\0\0\0\0\0\0\0\0\0\0\0\0\0";

/// A source of the ten bytes `helloworld` for each label: lane 0 sends the second half, lane 1 the first.
struct HelloWorld;

impl Origin for HelloWorld {
    ghost use Rattle.std.specs.Prelude.{Some};
    ghost use Rattle.gft_receive.specs.Rows.{halves_fit, hello_world, two_halves};

    ghost source = { λ _. Some hello_world };

    ghost orders = { λ _ _. two_halves };

    ghost fit = { halves_fit };
}

/// A lane that opens a channel on which these bytes come.
fn one_channel(alloc: Global, bytes: &[u8]) -> Result<MemoryLane, Fail>
    ensures { IfOk result (λ lane. BringsBytes bytes.now (lane_state lane)) }
{
    let bytes = Octets::from_bytes(alloc, bytes)?;
    let mut items = Vec::new(alloc);
    items.push(LaneItem::Opened(0))?;
    items.push(LaneItem::Bytes { channel: 0, bytes })?;
    Ok(MemoryLane::new(items, Vec::new(alloc)))
}

fn halves(alloc: Global) -> Result<Vec<MemoryLane>, Fail>
    ensures { IfOk result (λ lanes. AreHalves lane_state lanes.items) }
{
    let second = one_channel(alloc, SECOND_HALF)?;
    let first = one_channel(alloc, FIRST_HALF)?;
    let mut lanes = Vec::new(alloc);
    lanes.push(second)?;
    lanes.push(first)?;
    Ok(lanes)
}

#[test]
fn two_lanes_bring_a_named_file(rt: HostRuntime) -> Result<(), Fail> {
    let alloc = rt.alloc();
    let lanes = halves(alloc)?;
    let drive = MemoryDrive::new(alloc, b"name", 100, u32::MAX, &[])?;
    let keep = match Keep::attach(alloc, drive) {
        Ok(keep) => keep,
        Err((error, _drive)) => return Err(Fail::from(error)),
    };
    let mut book = Book::<MemoryDrive, HelloWorld>::new(alloc, keep);
    let passes = book.begin_store(How::Fresh, 2)?;
    let limits = Limits {
        marker_bytes: 1,
        idle: 3,
        shift: 0,
    };
    let received = receive(
        &rt,
        alloc,
        lanes,
        book,
        passes,
        &mut NoControl,
        &mut Lines::new(alloc),
        &mut NoSink,
        &mut NoClock,
        &limits,
    );
    let end = received
        .outcome
        .end
        .map(|file| (file.len(), file.is_whole()));
    assert_eq!(rt; end, Ok((10, true)));
    let drive = received.book.into_keep().into_drive();
    assert_eq!(rt; drive.bytes(), b"helloworld".as_slice());
    Ok(())
}
