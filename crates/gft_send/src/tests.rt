ghost use Rattle.std.specs.Prelude.{◌≡◌, ◌≤◌, true, All, IfOk, length, vec_len};
ghost use Rattle.gft_range.specs.Words.{InRange};
ghost use Rattle.gft_drive.specs.Words.{image_of};
ghost use Rattle.gft_send.specs.Sending.{MustHave};

use super::*;
use gft_drive::{CallKind, Drive, FailAt, FileDrive, MemoryDrive, Part};
use gft_layout::{Layout, Shape};
use gft_outside::MemoryOutLane;
use gft_pass::Cause;
use gft_range::{Range, RangeSet};
use std::alloc::Global;
use std::fs;
use std::sync::Wait;
use std::test::Fail;
use std::thread::Threads;

/// Ten bytes in blocks of two, over two stripes of two data connections.
const PLAN: SendPlan = SendPlan {
    region: Range { start: 0, end: 10 },
    layout: Layout::Blocked { block: 2 },
    shape: Shape {
        stripes: 2,
        parallel: 2,
    },
};

/// The blocks 0-1 and 8-10, the EOF of four EODs, and an EOD.
const FIRST: &[u8] = b"\0\0\0\0\0\0\0\0\x01\0\0\0\0\0\0\0\0a\
    \0\0\0\0\0\0\0\0\x02\0\0\0\0\0\0\0\x08ij\
    \x40\0\0\0\0\0\0\0\0\0\0\0\0\0\0\0\x04\
    \x0c\0\0\0\0\0\0\0\0\0\0\0\0\0\0\0\0";

/// The block 5-6, and an EOD.
const SECOND: &[u8] = b"\0\0\0\0\0\0\0\0\x01\0\0\0\0\0\0\0\x05f\
    \x0c\0\0\0\0\0\0\0\0\0\0\0\0\0\0\0\0";

/// An EOD alone.
const THIRD: &[u8] = b"\x0c\0\0\0\0\0\0\0\0\0\0\0\0\0\0\0\0";

/// The block 6-8, and an EOD.
const FOURTH: &[u8] = b"\0\0\0\0\0\0\0\0\x02\0\0\0\0\0\0\0\x06gh\
    \x0c\0\0\0\0\0\0\0\0\0\0\0\0\0\0\0\0";

/// A drive of these bytes, of which these calls fail.
fn memory_drive(alloc: Global, bytes: &[u8], failing: &[FailAt]) -> Result<MemoryDrive, Fail>
    ensures { IfOk result (λ drive. length bytes.now ≤ length (image_of drive).bytes) }
{
    let mut drive = MemoryDrive::new(alloc, b"name", bytes.len() as u64, u32::MAX, failing)?;
    if !bytes.is_empty() {
        drive.write_at(Part::Bytes, 0, bytes)?;
    }
    if drive.bytes().len() < bytes.len() {
        return Err(Fail::new("the drive lacks bytes"));
    }
    Ok(drive)
}

/// Two out lanes, of each of which the put of this number fails; none where it is 0.
fn out_lanes(alloc: Global, first: u32, second: u32) -> Result<Vec<MemoryOutLane>, Fail>
    ensures { IfOk result (λ outs. (vec_len outs ≡ 2) × All (λ out. out.is_open ≡ true) outs.items) }
{
    let first = MemoryOutLane::new(alloc, 100, vec![in alloc; first]?)?;
    let second = MemoryOutLane::new(alloc, 100, vec![in alloc; second]?)?;
    Ok(vec![in alloc; first, second]?)
}

/// What the peer has.
fn done_set(alloc: Global) -> Result<RangeSet, Fail> {
    let mut done = RangeSet::new(alloc);
    done.reserve(1)?;
    done.insert(Range { start: 1, end: 5 });
    Ok(done)
}

/// How the first stripe ends over this drive, where these puts fail.
fn first_stripe<D: Drive>(
    alloc: Global,
    drive: &mut D,
    first: u32,
    second: u32,
) -> Result<Result<u64, Cause>, Fail>
    requires there { MustHave (D.state drive.old).contents (InRange (record { start = 0; end = 10 })) }
{
    let done = done_set(alloc)?;
    let mut outs = out_lanes(alloc, first, second)?;
    Ok(send_lane(alloc, drive, outs.as_mut_slice(), 0, &PLAN, &done))
}

/// How it ends over a drive in memory.
fn in_memory(
    alloc: Global,
    failing: &[FailAt],
    first: u32,
    second: u32,
) -> Result<Result<u64, Cause>, Fail> {
    let mut drive = memory_drive(alloc, b"abcdefghij", failing)?;
    first_stripe(alloc, &mut drive, first, second)
}

#[test]
fn each_call_of_an_out_lane_fails_once(rt: HostRuntime) -> Result<(), Fail> {
    let alloc = rt.alloc();
    let failed = Err(Cause::LinkFailed);
    let rows = [
        (1, 0, failed),
        (2, 0, failed),
        (3, 0, failed),
        (4, 0, failed),
        (0, 1, failed),
        (0, 2, failed),
        (5, 3, Ok(4)),
    ];
    for (first, second, want) in rows {
        let sent = in_memory(alloc, &[], first, second)?;
        assert_eq!(rt; sent, want, "puts {first} and {second}");
    }
    Ok(())
}

#[test]
fn each_read_of_a_drive_fails_once(rt: HostRuntime) -> Result<(), Fail> {
    let alloc = rt.alloc();
    let failed = Err(Cause::DriveFailed);
    let rows = [(1, failed), (2, failed), (3, failed), (4, Ok(4))];
    for (number, want) in rows {
        let read = FailAt {
            call: CallKind::Read,
            part: Part::Bytes,
            number,
        };
        let sent = in_memory(alloc, &[read], 0, 0)?;
        assert_eq!(rt; sent, want, "read {number}");
    }
    Ok(())
}

#[test]
fn a_file_that_ends_below_the_region_has_a_hole(rt: HostRuntime) -> Result<(), Fail> {
    let path = String::from_str(rt.alloc(), "short.dat")?;
    let mut drive = FileDrive::at(rt.clone()?, path)?;
    assert!(rt; drive.write_at(Part::Bytes, 0, b"abcdefghi").is_ok());
    let sent = first_stripe(rt.alloc(), &mut drive, 0, 0)?;
    fs::remove_file(&rt, "short.dat")?;
    let hole = Cause::Hole {
        total: None,
        eods: 0,
        missing: Some(Range { start: 9, end: 10 }),
    };
    assert_eq!(rt; sent, Err(hole));
    Ok(())
}

/// A stripe that may be sent.
fn stripe(alloc: Global) -> Result<Stripe<MemoryDrive, MemoryOutLane>, Fail>
    ensures ready { IfOk result (λ stripe. (vec_len stripe.channels ≡ 2)
        × All (λ out. out.is_open ≡ true) stripe.channels.items) }
    ensures bytes { IfOk result (λ stripe. 10 ≤ length (image_of stripe.drive).bytes) }
{
    Ok(Stripe {
        drive: memory_drive(alloc, b"abcdefghij", &[])?,
        channels: out_lanes(alloc, 0, 0)?,
        sent: Ok(0),
    })
}

/// Both stripes, and what sending them answered.
#[derive(Drop)]
struct Sent {
    stripes: Vec<Stripe<MemoryDrive, MemoryOutLane>>,
    answer: Result<u64, Cause>,
}

fn send_both<R: Threads + Wait + Sync>(rt: &R, alloc: Global) -> Result<Sent, Fail> {
    let done = done_set(alloc)?;
    let mut stripes = vec![in alloc; stripe(alloc)?, stripe(alloc)?]?;
    let answer = send(rt, alloc, stripes.as_mut_slice(), &PLAN, &done);
    Ok(Sent { stripes, answer })
}

#[test]
fn each_data_connection_gets_its_stream(rt: HostRuntime) -> Result<(), Fail> {
    let Sent { stripes, answer } = send_both(&rt, rt.alloc())?;
    assert_eq!(rt; answer, Ok(6));
    let rows = [(0, 0, FIRST), (0, 1, SECOND), (1, 0, THIRD), (1, 1, FOURTH)];
    for (stripe, channel, want) in rows {
        let out = stripes.get(stripe).and_then(|s| s.channels.get(channel));
        let bytes = out.map(|out| out.bytes());
        assert_eq!(rt; bytes, Some(want), "stripe {stripe}, channel {channel}");
    }
    assert_eq!(rt; FIRST.len(), 71);
    Ok(())
}
