ghost use Rattle.std.specs.Prelude.{◌≡◌, All, IfOk, true};
ghost use Rattle.gft_book.specs.declared.transfer.Stage.TheVariants.{Rest};
ghost use Rattle.gft_book.specs.Words.{NamesSome};
ghost use Rattle.gft_outside.specs.Words.{gate_state, lane_state, no_channels};

use super::*;
use gft_base::Failed;
use gft_book::{Book, How};
use gft_core::Octets;
use gft_drive::{MemoryDrive, MemorySink, Sink, Unknown};
use gft_eblock::{Header, encode};
use gft_keep::Keep;
use gft_outside::{GateLane, LaneItem, MemoryLane, NoClock, NoControl};
use gft_pass::Cause;
use gft_text::Lines;
use std::alloc::Global;
use std::sync::atomic::{AtomicBool, Ordering};
use std::sync::{Arc, Wait};
use std::test::Fail;
use std::thread::Threads;

/// A sink that sets a flag behind each put.
#[derive(Drop)]
struct FlagSink {
    sink: MemorySink,
    flag: Arc<AtomicBool, Global>,
}

impl Sink for FlagSink {
    ghost use Rattle.std.specs.Prelude.{◌≡◌, Some, true};

    ghost written = { λ s. Some s.sink.written };

    ghost is_open = { λ s. s.sink.is_open ≡ true };

    ghost faults = { λ s. s.sink.faults };

    fn put(&mut self, bytes: &[u8]) -> Result<(), Failed> {
        let answer = self.sink.put(bytes);
        self.flag.store(true, Ordering::SeqCst);
        answer
    }
}

fn sink(alloc: Global, failing: &[u32], flag: &Arc<AtomicBool, Global>) -> Result<FlagSink, Fail>
    ensures { IfOk result (λ sink. sink.sink.is_open ≡ true) }
{
    let sink = MemorySink::new(alloc, 1_000, Vec::from_slice(alloc, failing)?)?;
    let flag = Arc::try_clone(flag)?;
    Ok(FlagSink { sink, flag })
}

fn header(flags: u8, count: u64, offset: u64) -> [u8; 17] {
    encode(&Header {
        flags,
        count,
        offset,
    })
}

fn bytes(alloc: Global, head: &[u8], data: &[u8]) -> Result<LaneItem, Fail> {
    let mut bytes = Vec::from_slice(alloc, head)?;
    bytes.extend_from_slice(data)?;
    let bytes = Octets::from_bytes(alloc, bytes.as_slice())?;
    Ok(LaneItem::Bytes { channel: 0, bytes })
}

/// A lane that brings `helloworld` in two blocks. The second is held until the flag is set, with a million
/// Quiets at most.
fn halves(alloc: Global, flag: &Arc<AtomicBool, Global>) -> Result<GateLane<MemoryLane>, Fail>
    ensures { IfOk result (λ lane. (gate_state lane_state lane).channels ≡ no_channels) }
{
    let mut items = Vec::new(alloc);
    items.push(LaneItem::Opened(0))?;
    items.push(bytes(alloc, &header(0, 5, 0), b"hello")?)?;
    items.push(bytes(alloc, &header(0, 5, 5), b"world")?)?;
    items.push(bytes(alloc, &header(64, 0, 1), b"")?)?;
    items.push(bytes(alloc, &header(8, 0, 0), b"")?)?;
    let flag = Arc::try_clone(flag)?;
    Ok(GateLane::new(MemoryLane::new(items, Vec::new(alloc)), 3, 2_000_000, flag))
}

/// How a transfer ended, how many marks it told, whether a put failed, and what was put.
type Told = (Result<u64, Cause>, u64, bool, Vec<u8>);

fn told<R: Threads + Wait + Sync>(
    rt: &R,
    alloc: Global,
    marker_bytes: u64,
    failing: &[u32],
    opened: bool,
) -> Result<Told, Fail> {
    let drive = MemoryDrive::new(alloc, b"name", 100, u32::MAX, &[])?;
    let keep = match Keep::attach(alloc, drive) {
        Ok(keep) => keep,
        Err((error, _drive)) => return Err(Fail::from(error)),
    };
    let mut book = Book::<MemoryDrive, Unknown>::new(alloc, keep);
    let flag = Arc::new(alloc, AtomicBool::new(opened))?;
    let lanes = vec![in alloc; halves(alloc, &flag)?]?;
    let count = lanes.len();
    if count == 0 || count > 16 {
        return Err(Fail::new("a transfer has 1 to 16 lanes"));
    }
    let passes = book.begin_store(How::Fresh, count as u16)?;
    let mut out = sink(alloc, failing, &flag)?;
    let limits = Limits {
        marker_bytes,
        idle: 1_000_000,
        shift: 0,
    };
    let received = receive(
        rt,
        alloc,
        lanes,
        book,
        passes,
        &mut NoControl,
        &mut Lines::new(alloc),
        &mut out,
        &mut NoClock,
        &limits,
    );
    let put = Vec::from_slice(alloc, out.sink.bytes())?;
    let end = received.outcome.end.map(|file| file.len());
    Ok((end, received.outcome.told, received.put_failed, put))
}

// The second block is held until the first mark was put: a teller that waits for the end would end in Idle.
#[test]
fn a_mark_is_told_while_movers_run(rt: HostRuntime) -> Result<(), Fail> {
    let (end, told, put_failed, put) = told(&rt, rt.alloc(), 5, &[], false)?;
    assert_eq!(rt; end, Ok(10));
    assert!(rt; !put_failed && (told == 2 || told == 3));
    assert!(rt; put.starts_with(b"111 Range Marker 0-5\r\n"));
    assert!(rt; put.ends_with(b"111 Range Marker 0-10\r\n"));
    Ok(())
}

// Without marks beside the movers the last one is the only one.
#[test]
fn puts_that_fail(rt: HostRuntime) -> Result<(), Fail> {
    let alloc = rt.alloc();
    let gone = Err(Cause::ControlGone);
    let rows: [(u64, &[u32], bool, Result<u64, Cause>, u64, bool, &[u8]); 4] = [
        (
            1_000,
            &[],
            true,
            Ok(10),
            1,
            false,
            b"111 Range Marker 0-10\r\n",
        ),
        (1_000, &[1], true, gone, 0, true, b""),
        (5, &[1], false, gone, 0, true, b""),
        (5, &[2], false, gone, 1, true, b"111 Range Marker 0-5\r\n"),
    ];
    for (marker_bytes, failing, opened, end, count, put_failed, put) in rows {
        let answer = told(&rt, alloc, marker_bytes, failing, opened)?;
        assert_eq!(rt; answer.0, end, "each {marker_bytes}, {failing:?}");
        assert_eq!(rt; answer.1, count, "each {marker_bytes}, {failing:?}");
        assert_eq!(rt; answer.2, put_failed, "each {marker_bytes}, {failing:?}");
        assert_eq!(rt;
            answer.3.as_slice(),
            put,
            "each {marker_bytes}, {failing:?}"
        );
    }
    Ok(())
}
