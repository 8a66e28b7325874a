use super::*;
use gft_drive::{Drive, Part, RANGES_LEN};
use gft_outside::{Lane, LaneEvent};
use gft_range::RangeSet;
use std::alloc::Global;
use std::process::Abort;
use std::test::Fail;

/// The first five bytes of seed 7.
const FIVE: [u8; 5] = [83, 241, 143, 46, 204];

// From an outside program: python3 -c "print([((s+x)%2**32*2654435761%2**32)>>24 for s, x in ROWS])"
#[test]
fn bytes_are_those_of_multiplicative_hashing(rt: HostRuntime) -> Result<(), Fail> {
    let rows = [
        (7, 0, 83),
        (7, 1, 241),
        (7, 2, 143),
        (7, 3, 46),
        (7, 4, 204),
        (7, 65_536, 205),
        (7, 4_294_967_288, 97),
        (7, 4_294_967_289, 0),
        (0, 0, 0),
        (0, 1, 158),
        (u64::MAX, 0, 97),
        (u64::MAX, 1, 0),
        (u64::MAX, u64::MAX, 195),
    ];
    for (seed, place, byte) in rows {
        assert_eq!(rt; byte_at(seed, place), byte);
        let mut buf = [0; 3];
        generate(seed, place, &mut buf[..1]);
        assert_eq!(rt; buf, [byte, 0, 0]);
    }
    assert!(rt; is_generated(7, 0, &FIVE));
    assert!(rt; is_generated(7, 1, &FIVE[1..]));
    assert!(rt; !is_generated(7, 1, &FIVE));
    Ok(())
}

/// What a read of the whole part gives into this room.
fn read<D: Drive>(drive: &mut D, part: Part, at: u64, buf: &mut [u8]) -> Result<usize, Fail> {
    Ok(drive.read(part, at, buf)?)
}

#[test]
fn a_drive_notes_a_wrong_byte(rt: HostRuntime) -> Result<(), Fail> {
    let mut drive = GeneratedDrive::new(rt.alloc(), 7)?;
    drive.write_at(Part::Bytes, 1, &FIVE[1..])?;
    drive.sync(Part::Bytes)?;
    assert!(rt; !drive.differs());
    assert_eq!(rt; drive.len(Part::Bytes)?, 5);
    let mut buf = [0; 8];
    assert_eq!(rt; read(&mut drive, Part::Bytes, 2, &mut buf)?, 3);
    assert_eq!(rt; buf, [143, 46, 204, 0, 0, 0, 0, 0]);
    drive.cut(Part::Bytes, 3)?;
    assert_eq!(rt; drive.len(Part::Bytes)?, 3);
    drive.write_at(Part::Bytes, 0, &FIVE[1..])?;
    assert!(rt; drive.differs());
    assert!(rt; drive.twin(rt.alloc())?.differs());
    Ok(())
}

#[test]
fn a_drive_holds_its_ranges_part(rt: HostRuntime) -> Result<(), Fail> {
    let mut drive = GeneratedDrive::new(rt.alloc(), 7)?;
    assert_eq!(rt; drive.len(Part::Ranges)?, RANGES_LEN);
    drive.write_at(Part::Ranges, RANGES_LEN - 2, b"abc")?;
    drive.write_at(Part::Ranges, 64, b"de")?;
    let mut buf = [9; 4];
    assert_eq!(rt; read(&mut drive, Part::Ranges, 63, &mut buf)?, 4);
    assert_eq!(rt; &buf, b"\0de\0");
    assert_eq!(rt;
        read(&mut drive, Part::Ranges, RANGES_LEN - 2, &mut buf)?,
        2
    );
    assert_eq!(rt; &buf, b"abe\0");
    assert!(rt; !drive.differs());
    Ok(())
}

/// What came on a lane: how many data connections opened and ended, and the bytes of each.
#[derive(Drop)]
struct Came {
    opened: u32,
    ended: u32,
    bytes: [usize; 4],
    first: [u8; 64],
}

/// Takes all that comes on a lane, with a buffer of this many bytes at most; keeps channel 0's bytes.
fn take_all<L: Lane>(rt: &impl Abort, lane: &mut L, room: usize) -> Result<Came, Fail> {
    let mut came = Came {
        opened: 0,
        ended: 0,
        bytes: [0; 4],
        first: [0; 64],
    };
    let mut buf = [0; 64];
    for _ in 0..2_000 {
        let room = room.clamp(1, 64);
        match lane.next(&mut buf[..room])? {
            LaneEvent::Opened(number) => {
                assert_eq!(rt; number, came.opened);
                came.opened = came.opened.saturating_add(1);
            }
            LaneEvent::Bytes { channel, count } => {
                assert!(rt; channel < 4);
                let at = came.bytes[channel as usize % 4];
                if channel == 0 && count <= room && at <= 64 - count {
                    came.first[at..at + count].copy_from_slice(&buf[..count]);
                }
                came.bytes[channel as usize % 4] = at.saturating_add(count);
            }
            LaneEvent::Ended(_) => came.ended = came.ended.saturating_add(1),
            LaneEvent::Quiet => return Err(Fail::new("a generated lane is never silent")),
            LaneEvent::Done => return Ok(came),
        }
    }
    Err(Fail::new("the lane doesn't end"))
}

// A block of five bytes, the EOF of 16 EODs and an EOD; an EOD alone on each other data connection.
#[test]
fn a_small_file_comes_on_one_data_connection(rt: HostRuntime) -> Result<(), Fail> {
    let alloc = rt.alloc();
    let file = Generated { seed: 7, size: 5 };
    let want = b"\0\0\0\0\0\0\0\0\x05\0\0\0\0\0\0\0\0\x53\xf1\x8f\x2e\xcc\
        \x40\0\0\0\0\0\0\0\0\0\0\0\0\0\0\0\x10\
        \x0c\0\0\0\0\0\0\0\0\0\0\0\0\0\0\0\0";
    for room in [64, 1, 17, 20] {
        let lanes = generated_lanes(alloc, file, &RangeSet::new(alloc), None)?;
        for (stripe, mut lane) in lanes.into_iter().enumerate() {
            let came = take_all(&rt, &mut lane, room)?;
            assert_eq!(rt; (came.opened, came.ended), (4, 4));
            assert_eq!(rt; came.bytes, [if stripe == 0 { 56 } else { 17 }, 17, 17, 17]);
            if stripe == 0 {
                assert_eq!(rt; &came.first[..56], want.as_slice());
            }
        }
    }
    Ok(())
}

#[test]
fn a_data_connection_is_cut(rt: HostRuntime) -> Result<(), Fail> {
    let alloc = rt.alloc();
    let file = Generated { seed: 7, size: 5 };
    let rows = [(u64::MAX, 55), (30, 30), (0, 0)];
    for (most, bytes) in rows {
        let cut = Cut {
            stripe: 0,
            channel: 0,
            most,
        };
        let mut lanes = generated_lanes(alloc, file, &RangeSet::new(alloc), Some(cut))?;
        let mut lane = lanes.remove(0);
        let came = take_all(&rt, &mut lane, 64)?;
        assert_eq!(rt; came.bytes, [bytes, 17, 17, 17]);
        assert_eq!(rt; came.ended, 4);
    }
    Ok(())
}
