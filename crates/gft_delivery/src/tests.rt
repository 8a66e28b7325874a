ghost use Rattle.std.specs.Prelude.{◌≡◌, ◌≤◌, ◌<◌, true, All, IfOk, length, vec_len};
ghost use Rattle.gft_book.specs.declared.transfer.Stage.TheVariants.{Rest};
ghost use Rattle.gft_book.specs.Words.{NamesSome};
ghost use Rattle.gft_drive.specs.Words.{image_of};
ghost use Rattle.gft_outside.specs.Words.{lane_state, no_channels};
ghost use Rattle.gft_send.specs.Words.{IsSendPlan};
ghost use Rattle.gft_receive.specs.Words.{BringsBytes};
ghost use Rattle.gft_delivery.specs.Rows.{AreTen, HasFile};

use super::*;
use gft_book::{Book, How};
use gft_core::Octets;
use gft_drive::{Drive, MemoryDrive, Origin, Part, Unknown};
use gft_eblock::{Header, encode};
use gft_keep::Keep;
use gft_layout::{Layout, Shape};
use gft_outside::{LaneItem, MemoryLane, MemoryOutLane, NoClock, NoControl, NoSink};
use gft_range::{Range, RangeSet};
use gft_receive::{Limits, Received, receive};
use gft_send::{SendPlan, Stripe, send};
use gft_text::Lines;
use std::alloc::Global;
use std::process::Abort;
use std::sync::Wait;
use std::test::Fail;
use std::thread::Threads;

type MemoryStripe = Stripe<MemoryDrive, MemoryOutLane>;

type MemoryBook = Book<MemoryDrive, Unknown>;

/// What a file of this size arrives as, spread so, where the receiver has this part of it.
#[derive(Clone, Copy, Debug)]
struct Row {
    size: u64,
    layout: Layout,
    shape: Shape,
    kept: Range,
}

const NOTHING: Range = Range { start: 0, end: 0 };

const SOME: Range = Range {
    start: 1_000,
    end: 1_000_000,
};

const LIMITS: Limits = Limits {
    marker_bytes: 1,
    idle: 1,
    shift: 0,
};

fn generated(alloc: Global, size: u64) -> Result<Vec<u8>, Fail> {
    let mut bytes = Vec::new(alloc);
    for offset in 0..size {
        bytes.push((offset % 251) as u8)?;
    }
    Ok(bytes)
}

/// A drive of these bytes.
fn drive_of(alloc: Global, bytes: &[u8]) -> Result<MemoryDrive, Fail>
    ensures { IfOk result (λ drive. length bytes.now ≤ length (image_of drive).bytes) }
{
    let mut drive = MemoryDrive::new(alloc, b"name", bytes.len() as u64, u32::MAX, &[])?;
    if !bytes.is_empty() {
        drive.write_at(Part::Bytes, 0, bytes)?;
    }
    if drive.bytes().len() < bytes.len() {
        return Err(Fail::new("the drive lacks bytes"));
    }
    Ok(drive)
}

fn out_lanes(alloc: Global, count: u16, room: usize) -> Result<Vec<MemoryOutLane>, Fail>
    ensures { IfOk result (λ outs. (vec_len outs ≡ count) × All (λ out. out.is_open ≡ true) outs.items) }
{
    let mut outs = Vec::new(alloc);
    'outs: while outs.len() < usize::from(count) {
        outs.push(MemoryOutLane::new(alloc, room, Vec::new(alloc))?)?;
    }
    Ok(outs)
}

fn stripe(alloc: Global, bytes: &[u8], parallel: u16) -> Result<MemoryStripe, Fail>
    ensures { IfOk result (HasFile (length bytes.now) parallel) }
{
    let room = bytes.len().saturating_mul(2).saturating_add(100);
    Ok(Stripe {
        drive: drive_of(alloc, bytes)?,
        channels: out_lanes(alloc, parallel, room)?,
        sent: Ok(0),
    })
}

fn stripes(alloc: Global, bytes: &[u8], shape: Shape) -> Result<Vec<MemoryStripe>, Fail>
    ensures { IfOk result (λ stripes. (vec_len stripes ≡ shape.stripes)
        × All (HasFile (length bytes.now) shape.parallel) stripes.items) }
{
    let mut stripes = Vec::new(alloc);
    'stripes: while stripes.len() < usize::from(shape.stripes) {
        stripes.push(stripe(alloc, bytes, shape.parallel)?)?;
    }
    Ok(stripes)
}

/// What was put on the data connections of this stripe comes on a lane of as many channels, the last one's
/// first.
fn lane_of(alloc: Global, stripe: &MemoryStripe) -> Result<MemoryLane, Fail>
    ensures { IfOk result (λ lane. (lane_state lane).channels ≡ no_channels) }
{
    let mut items = Vec::new(alloc);
    let mut pieces = Vec::new(alloc);
    for out in &stripe.channels {
        let channel = u32::try_from(pieces.len()).unwrap_or(u32::MAX);
        let bytes = Octets::from_bytes(alloc, out.bytes())?;
        items.push(LaneItem::Opened(channel))?;
        pieces.push(LaneItem::Bytes { channel, bytes })?;
    }
    pieces.as_mut_slice().reverse();
    for piece in pieces {
        items.push(piece)?;
    }
    Ok(MemoryLane::new(items, Vec::new(alloc)))
}

fn lanes_of(alloc: Global, stripes: &[MemoryStripe]) -> Result<Vec<MemoryLane>, Fail>
    ensures { IfOk result (λ lanes. All (λ lane. (lane_state lane).channels ≡ no_channels) lanes.items) }
{
    let mut lanes = Vec::new(alloc);
    'lanes: for stripe in stripes {
        lanes.push(lane_of(alloc, stripe)?)?;
    }
    Ok(lanes)
}

/// How a file of this length is spread in a row.
fn plan_for(row: Row, end: u64) -> Result<SendPlan, Fail>
    ensures { IfOk result (λ plan. IsSendPlan plan × (plan.region.start ≡ 0) × (plan.region.end ≡ end)) }
{
    let shape = row.shape;
    let is_shape = (1..=16).contains(&shape.stripes) && (1..=64).contains(&shape.parallel);
    if !is_shape || row.layout == (Layout::Blocked { block: 0 }) {
        return Err(Fail::new("there are no such plans"));
    }
    Ok(SendPlan {
        region: Range { start: 0, end },
        layout: row.layout,
        shape,
    })
}

/// The set of this range.
fn set_of(alloc: Global, range: Range) -> Result<RangeSet, Fail>
    ensures { IfOk result (λ set. range.start < range.end → 0 < length set.ranges) }
{
    let mut set = RangeSet::new(alloc);
    if range.start >= range.end {
        return Ok(set);
    }
    set.reserve(1)?;
    set.insert(range);
    Ok(set)
}

/// What a sender of these bytes brings to a receiver that keeps a part of them.
fn sent(
    rt: &(impl Threads + Wait + Sync),
    alloc: Global,
    bytes: &[u8],
    row: Row,
) -> Result<Vec<MemoryLane>, Fail>
    ensures { IfOk result (λ lanes. All (λ lane. (lane_state lane).channels ≡ no_channels) lanes.items) }
{
    let plan = plan_for(row, bytes.len() as u64)?;
    let done = set_of(alloc, row.kept)?;
    let mut stripes = stripes(alloc, bytes, plan.shape)?;
    match send(rt, alloc, stripes.as_mut_slice(), &plan, &done) {
        Ok(_) => lanes_of(alloc, stripes.as_slice()),
        Err(cause) => Err(Fail::from(cause)),
    }
}

/// A lane that brings this part of the bytes as one block, an EOF of one EOD, and the EOD.
fn part_lane(alloc: Global, bytes: &[u8], part: Range) -> Result<MemoryLane, Fail>
    ensures { IfOk result (λ lane. (lane_state lane).channels ≡ no_channels) }
{
    let Some(data) = bytes.get(part.start as usize..part.end as usize) else {
        return Err(Fail::new("the part lies behind the end"));
    };
    let head = header(0, data.len() as u64, part.start);
    let mut stream = Vec::from_slice(alloc, &head)?;
    stream.extend_from_slice(data)?;
    stream.extend_from_slice(&header(64, 0, 1))?;
    stream.extend_from_slice(&header(8, 0, 0))?;
    let bytes = Octets::from_bytes(alloc, stream.as_slice())?;
    let items = vec![in alloc; LaneItem::Opened(0), LaneItem::Bytes { channel: 0, bytes }]?;
    Ok(MemoryLane::new(items, Vec::new(alloc)))
}

fn header(flags: u8, count: u64, offset: u64) -> [u8; 17] {
    encode(&Header {
        flags,
        count,
        offset,
    })
}

/// Begins a transfer of these lanes and receives it. It must end well.
fn transfer(
    rt: &(impl Threads + Wait + Sync),
    alloc: Global,
    book: MemoryBook,
    how: How,
    lanes: Vec<MemoryLane>,
) -> Result<MemoryBook, Fail>
    requires list { NamesSome how }
    requires unopened { All (λ lane. (lane_state lane).channels ≡ no_channels) lanes.items }
    ensures { IfOk result (λ book. book.stage ≡ Rest) }
{
    let mut book = book;
    let count = lanes.len();
    if count == 0 || count > 16 {
        return Err(Fail::new("a transfer has 1 to 16 lanes"));
    }
    let passes = book.begin_store(how, count as u16)?;
    let Received { outcome, book, .. } = receive(
        rt,
        alloc,
        lanes,
        book,
        passes,
        &mut NoControl,
        &mut Lines::new(alloc),
        &mut NoSink,
        &mut NoClock,
        &LIMITS,
    );
    match outcome.end {
        Ok(_) => Ok(book),
        Err(cause) => Err(Fail::from(cause)),
    }
}

/// A Book at rest over a new drive, which keeps this part of the bytes.
fn receiver(
    rt: &(impl Threads + Wait + Sync),
    alloc: Global,
    bytes: &[u8],
    kept: Range,
) -> Result<MemoryBook, Fail>
    ensures { IfOk result (λ book. book.stage ≡ Rest) }
{
    let drive = MemoryDrive::new(alloc, b"name", bytes.len() as u64, u32::MAX, &[])?;
    let book = match Keep::attach(alloc, drive) {
        Ok(keep) => Book::new(alloc, keep),
        Err((error, _drive)) => return Err(Fail::from(error)),
    };
    if kept.start >= kept.end {
        return Ok(book);
    }
    let lanes = vec![in alloc; part_lane(alloc, bytes, kept)?]?;
    transfer(rt, alloc, book, How::Esto, lanes)
}

/// What a receiver that keeps this range is asked for.
fn how_of(alloc: Global, kept: Range) -> Result<How, Fail>
    ensures { IfOk result NamesSome }
{
    if kept.start >= kept.end {
        return Ok(How::Fresh);
    }
    Ok(How::Resume(set_of(alloc, kept)?))
}

/// Sends the row's file, receives it, and says whether the two are equal.
fn arrives(rt: &(impl Threads + Wait + Sync), alloc: Global, row: Row) -> Result<bool, Fail> {
    let bytes = generated(alloc, row.size)?;
    let lanes = sent(rt, alloc, bytes.as_slice(), row)?;
    let book = receiver(rt, alloc, bytes.as_slice(), row.kept)?;
    let book = transfer(rt, alloc, book, how_of(alloc, row.kept)?, lanes)?;
    let drive = book.into_keep().into_drive();
    Ok(drive.bytes() == bytes.as_slice())
}

/// Every row of this layout and shape arrives.
fn all_arrive(
    rt: &(impl Abort + Threads + Wait + Sync),
    alloc: Global,
    layout: Layout,
    shape: Shape,
    sizes: &[(u64, Range)],
) -> Result<(), Fail> {
    for &(size, kept) in sizes {
        let row = Row {
            size,
            layout,
            shape,
            kept,
        };
        assert!(rt; arrives(rt, alloc, row)?, "{row:?}");
    }
    Ok(())
}

#[test]
fn a_file_on_one_connection_arrives(rt: HostRuntime) -> Result<(), Fail> {
    let shape = Shape {
        stripes: 1,
        parallel: 1,
    };
    let sizes = [
        (0, NOTHING),
        (1, NOTHING),
        (1_048_575, NOTHING),
        (1_048_576, SOME),
        (1_048_577, NOTHING),
    ];
    all_arrive(&rt, rt.alloc(), Layout::Partitioned, shape, &sizes)
}

#[test]
fn a_file_in_parts_arrives(rt: HostRuntime) -> Result<(), Fail> {
    let shape = Shape {
        stripes: 3,
        parallel: 2,
    };
    let sizes = [(0, NOTHING), (1, NOTHING), (1_048_577, SOME)];
    all_arrive(&rt, rt.alloc(), Layout::Partitioned, shape, &sizes)
}

#[test]
fn a_file_in_blocks_arrives(rt: HostRuntime) -> Result<(), Fail> {
    let shape = Shape {
        stripes: 4,
        parallel: 4,
    };
    let sizes = [(1, NOTHING), (1_048_575, SOME)];
    all_arrive(
        &rt,
        rt.alloc(),
        Layout::Blocked { block: 65_536 },
        shape,
        &sizes,
    )
}

#[test]
fn a_file_over_all_stripes_arrives(rt: HostRuntime) -> Result<(), Fail> {
    let shape = Shape {
        stripes: 16,
        parallel: 1,
    };
    let sizes = [(0, NOTHING), (10_000, NOTHING)];
    all_arrive(&rt, rt.alloc(), Layout::Blocked { block: 7 }, shape, &sizes)
}

#[test]
fn a_larger_file_arrives(rt: HostRuntime) -> Result<(), Fail> {
    let shape = Shape {
        stripes: 2,
        parallel: 2,
    };
    let sizes = [(3_000_000, SOME)];
    all_arrive(
        &rt,
        rt.alloc(),
        Layout::Blocked { block: 1_048_576 },
        shape,
        &sizes,
    )
}

/// The streams of `abcdefghij` in blocks of 4 over three stripes: a block, on the first an EOF of three EODs,
/// and an EOD.
const TEN: [&[u8]; 3] = [
    b"\0\0\0\0\0\0\0\0\x04\0\0\0\0\0\0\0\0abcd\
\x40\0\0\0\0\0\0\0\0\0\0\0\0\0\0\0\x03\x0c\0\0\0\0\0\0\0\0\0\0\0\0\0\0\0\0",
    b"\0\0\0\0\0\0\0\0\x04\0\0\0\0\0\0\0\x04efgh\
\x0c\0\0\0\0\0\0\0\0\0\0\0\0\0\0\0\0",
    b"\0\0\0\0\0\0\0\0\x02\0\0\0\0\0\0\0\x08ij\
\x0c\0\0\0\0\0\0\0\0\0\0\0\0\0\0\0\0",
];

/// A source of the ten bytes `abcdefghij` for each label, of which those streams are sent.
struct Ten;

impl Origin for Ten {
    ghost use Rattle.std.specs.Prelude.{Some};
    ghost use Rattle.gft_delivery.specs.Rows.{ten, ten_fit, ten_orders};

    ghost source = { λ _. Some ten };

    ghost orders = { λ _ _. ten_orders };

    ghost fit = { ten_fit };
}

/// A lane that opens a channel on which these bytes come.
fn one_channel(alloc: Global, bytes: &[u8]) -> Result<MemoryLane, Fail>
    ensures { IfOk result (λ lane. BringsBytes bytes.now (lane_state lane)) }
{
    let bytes = Octets::from_bytes(alloc, bytes)?;
    let mut items = Vec::new(alloc);
    items.push(LaneItem::Opened(0))?;
    items.push(LaneItem::Bytes { channel: 0, bytes })?;
    Ok(MemoryLane::new(items, Vec::new(alloc)))
}

fn ten_lanes(alloc: Global) -> Result<Vec<MemoryLane>, Fail>
    ensures { IfOk result (λ lanes. AreTen lane_state lanes.items) }
{
    let first = one_channel(alloc, TEN[0])?;
    let second = one_channel(alloc, TEN[1])?;
    let third = one_channel(alloc, TEN[2])?;
    Ok(vec![in alloc; first, second, third]?)
}

#[test]
fn ten_bytes_of_a_named_file_are_delivered(rt: HostRuntime) -> Result<(), Fail> {
    let alloc = rt.alloc();
    let lanes = ten_lanes(alloc)?;
    let drive = MemoryDrive::new(alloc, b"name", 10, u32::MAX, &[])?;
    let keep = match Keep::attach(alloc, drive) {
        Ok(keep) => keep,
        Err((error, _drive)) => return Err(Fail::from(error)),
    };
    let mut book = Book::<MemoryDrive, Ten>::new(alloc, keep);
    let passes = book.begin_store(How::Fresh, 3)?;
    let delivered = deliver(
        &rt,
        alloc,
        lanes,
        book,
        passes,
        &mut NoControl,
        &mut Lines::new(alloc),
        &mut NoSink,
        &mut NoClock,
        &LIMITS,
    );
    let end = delivered
        .outcome
        .end
        .map(|file| (file.len(), file.is_whole()));
    assert_eq!(rt; end, Ok((10, true)));
    let drive = delivered.book.into_keep().into_drive();
    assert_eq!(rt; drive.bytes(), b"abcdefghij".as_slice());
    Ok(())
}
