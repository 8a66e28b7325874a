use super::*;
use gft_base::Failed;
use gft_core::Octets;
use gft_drive::{CallKind, Drive, FailAt, MemoryDrive, Part, Sink};
use gft_text::{HostPort, read_name};
use std::alloc::Global;
use std::sync::Arc;
use std::sync::atomic::{AtomicBool, Ordering};
use std::test::Fail;
use std::thread;

fn bytes(alloc: Global, channel: u32, bytes: &[u8]) -> Result<LaneItem, Fail> {
    let bytes = Octets::from_bytes(alloc, bytes)?;
    Ok(LaneItem::Bytes { channel, bytes })
}

/// The answer that so many bytes came on a channel.
fn came(channel: u32, count: usize) -> Result<LaneEvent, Failed> {
    Ok(LaneEvent::Bytes { channel, count })
}

#[test]
fn a_lane_gives_its_items(rt: HostRuntime) -> Result<(), Fail> {
    let alloc = rt.alloc();
    let hello = bytes(alloc, 0, b"hello")?;
    let nothing = bytes(alloc, 0, b"")?;
    let items = vec![in alloc;
        LaneItem::Opened(0),
        nothing,
        hello,
        LaneItem::Opened(1),
        LaneItem::Ended(0),
        LaneItem::Quiet,
    ]?;
    let mut lane = MemoryLane::new(items, vec![in alloc; 2]?);
    let rows: [(Result<LaneEvent, Failed>, &[u8]); 9] = [
        (Ok(LaneEvent::Opened(0)), b""),
        (Err(Failed), b""),
        (came(0, 3), b"hel"),
        (came(0, 2), b"lo"),
        (Ok(LaneEvent::Opened(1)), b""),
        (Ok(LaneEvent::Ended(0)), b""),
        (Ok(LaneEvent::Quiet), b""),
        (Ok(LaneEvent::Done), b""),
        (Ok(LaneEvent::Done), b""),
    ];
    for (i, (want, text)) in rows.into_iter().enumerate() {
        let mut buf = [0u8; 3];
        assert_eq!(rt; lane.next(&mut buf), want, "call {i}");
        assert!(rt; buf.starts_with(text), "call {i}");
    }
    Ok(())
}

// Each list ends behind its first item.
#[test]
fn an_item_out_of_turn_ends_the_list(rt: HostRuntime) -> Result<(), Fail> {
    let alloc = rt.alloc();
    let others = [
        LaneItem::Opened(0),
        LaneItem::Opened(2),
        LaneItem::Ended(1),
        bytes(alloc, 1, b"x")?,
    ];
    for (i, other) in others.into_iter().enumerate() {
        let items = vec![in alloc; LaneItem::Opened(0), other, LaneItem::Quiet]?;
        let mut lane = MemoryLane::new(items, Vec::new(alloc));
        let mut buf = [0u8; 3];
        assert_eq!(rt; lane.next(&mut buf), Ok(LaneEvent::Opened(0)), "list {i}");
        assert_eq!(rt; lane.next(&mut buf), Ok(LaneEvent::Done), "list {i}");
    }
    Ok(())
}

#[test]
fn a_control_hears_its_items(rt: HostRuntime) -> Result<(), Fail> {
    let alloc = rt.alloc();
    let quit = ControlItem::Bytes(Octets::from_bytes(alloc, b"QUIT")?);
    let items = vec![in alloc; ControlItem::Quiet, quit]?;
    let mut control = MemoryControl::new(items, vec![in alloc; 1]?);
    let rows: [(Result<Heard, Failed>, &[u8]); 6] = [
        (Err(Failed), b""),
        (Ok(Heard::Quiet), b""),
        (Ok(Heard::Bytes(3)), b"QUI"),
        (Ok(Heard::Bytes(1)), b"T"),
        (Ok(Heard::Ended), b""),
        (Ok(Heard::Ended), b""),
    ];
    for (i, (want, text)) in rows.into_iter().enumerate() {
        let mut buf = [0u8; 3];
        assert_eq!(rt; control.poll(&mut buf), want, "poll {i}");
        assert!(rt; buf.starts_with(text), "poll {i}");
    }
    Ok(())
}

#[test]
fn a_gate_holds_its_event(rt: HostRuntime) -> Result<(), Fail> {
    let alloc = rt.alloc();
    for (is_set, quiets) in [(false, 3), (true, 1)] {
        let flag = Arc::new(alloc, AtomicBool::new(false))?;
        let items = vec![in alloc; LaneItem::Opened(0), LaneItem::Ended(0)]?;
        let inner = MemoryLane::new(items, Vec::new(alloc));
        let mut lane = GateLane::new(inner, 2, 3, Arc::try_clone(&flag)?);
        let mut buf = [0u8; 3];
        assert_eq!(rt; lane.next(&mut buf), Ok(LaneEvent::Opened(0)));
        assert_eq!(rt; lane.next(&mut buf), Ok(LaneEvent::Quiet));
        flag.store(is_set, Ordering::SeqCst);
        for _ in 1..quiets {
            assert_eq!(rt; lane.next(&mut buf), Ok(LaneEvent::Quiet));
        }
        assert_eq!(rt; lane.next(&mut buf), Ok(LaneEvent::Ended(0)));
        assert_eq!(rt; lane.next(&mut buf), Ok(LaneEvent::Done));
        assert_eq!(rt; lane.quiets(), quiets);
    }
    Ok(())
}

#[test]
fn a_clock_gives_its_readings_and_the_absent_say_nothing(rt: HostRuntime) -> Result<(), Fail> {
    let mut clock = ListClock::new(vec![in rt.alloc(); 5, 17]?);
    for want in [5, 17, 0, 0] {
        assert_eq!(rt; clock.tenths(), want);
    }
    assert_eq!(rt; NoClock.tenths(), 0);
    let mut buf = [0u8; 3];
    assert_eq!(rt; NoControl.poll(&mut buf), Ok(Heard::Quiet));
    assert_eq!(rt; NoSink.put(b"200 Done."), Ok(()));
    Ok(())
}

// The second put, behind `abc`, on an out lane with room for 5 bytes.
#[test]
fn an_out_lane_keeps_what_is_put(rt: HostRuntime) -> Result<(), Fail> {
    let alloc = rt.alloc();
    let rows: [(u32, &[u8], Result<(), Failed>, &[u8]); 5] = [
        (3, b"de", Ok(()), b"abcde"),
        (3, b"", Ok(()), b"abc"),
        (3, b"def", Err(Failed), b"abcde"),
        (2, b"d", Err(Failed), b"abc"),
        (2, b"def", Err(Failed), b"abc"),
    ];
    for (failing, second, want, bytes) in rows {
        let mut out = MemoryOutLane::new(alloc, 5, vec![in alloc; failing]?)?;
        assert!(rt; out.is_open());
        assert_eq!(rt; out.put(b"abc"), Ok(()));
        assert!(rt; out.is_open());
        assert_eq!(rt; out.put(second), want, "{second:?}");
        assert_eq!(rt; out.is_open(), want.is_ok(), "{second:?}");
        assert_eq!(rt; out.bytes(), bytes);
        out.close();
        out.close();
        assert!(rt; !out.is_open());
        assert_eq!(rt; out.bytes(), bytes);
    }
    Ok(())
}

// What comes from outside may be handed to a thread, and what goes there.
#[test]
fn two_threads_take_from_their_lanes(rt: HostRuntime) -> Result<(), Fail> {
    let alloc = rt.alloc();
    let flag = Arc::new(alloc, AtomicBool::new(true))?;
    let items = vec![in alloc; LaneItem::Opened(0)]?;
    let inner = MemoryLane::new(items, Vec::new(alloc));
    let mut lane = GateLane::new(inner, 1, 3, flag);
    let mut control = MemoryControl::new(Vec::new(alloc), Vec::new(alloc));
    let mut clock = ListClock::new(vec![in alloc; 5]?);
    let mut out = MemoryOutLane::new(alloc, 5, Vec::new(alloc))?;
    let (event, heard) = thread::join(
        &rt,
        || {
            let mut buf = [0u8; 3];
            lane.next(&mut buf)
        },
        || {
            let mut buf = [0u8; 3];
            let heard = control.poll(&mut buf);
            out.close();
            (heard, clock.tenths())
        },
    );
    assert_eq!(rt; event, Ok(LaneEvent::Opened(0)));
    assert_eq!(rt; heard, (Ok(Heard::Ended), 5));
    assert!(rt; !out.is_open());
    Ok(())
}

fn address(port: u16) -> HostPort {
    HostPort {
        host: [127, 0, 0, 1],
        port,
    }
}

// A lane at this port, whose first call fails.
fn waiting(alloc: Global, port: u16) -> Result<Listening<MemoryLane>, Fail> {
    let lane = MemoryLane::new(Vec::new(alloc), vec![in alloc; 1]?);
    let at = address(port);
    Ok(Listening { at, lane })
}

// The second call is to fail, and the third asks for more lanes than are to come.
#[test]
fn a_link_hands_out_lanes_and_takes_them_back(rt: HostRuntime) -> Result<(), Fail> {
    let alloc = rt.alloc();
    let lanes = vec![in alloc; waiting(alloc, 1)?, waiting(alloc, 2)?, waiting(alloc, 3)?]?;
    let mut link = MemoryLink::new(alloc, lanes, Vec::new(alloc), vec![in alloc; 2]?)?;
    let mut lanes = link.listen(alloc, 2)?;
    for stripes in [1, 2] {
        let refused = link.listen(alloc, stripes).err();
        assert_eq!(rt; refused, Some(LinkError::Failed), "{stripes}");
    }
    assert_eq!(rt; (link.handed_out(), link.faults()), (2, 2));
    let second = lanes.remove(1);
    let mut first = lanes.remove(0);
    assert_eq!(rt; (first.at, second.at), (address(1), address(2)));
    let mut buf = [0u8; 3];
    assert_eq!(rt; first.lane.next(&mut buf), Err(Failed));
    link.back_in(second.lane);
    link.back_in(first.lane);
    assert_eq!(rt; (link.handed_out(), link.faults()), (0, 3));
    assert_eq!(rt; link.lanes_back().len(), 2);
    assert_eq!(rt; link.listen(alloc, 1)?.remove(0).at, address(3));
    Ok(())
}

// The first dial is to another address, the third is to fail, and the last finds none to come.
#[test]
fn a_link_dials_and_takes_out_lanes_back(rt: HostRuntime) -> Result<(), Fail> {
    let alloc = rt.alloc();
    let out = MemoryOutLane::new(alloc, 5, vec![in alloc; 1]?)?;
    let at = address(1);
    let dials = vec![in alloc; Dial { at, out }]?;
    let mut link = MemoryLink::new(alloc, Vec::new(alloc), dials, vec![in alloc; 3]?)?;
    assert_eq!(rt; link.dial(&address(2)).err(), Some(Failed));
    let mut out = link.dial(&at)?;
    assert_eq!(rt; link.handed_out(), 1);
    assert_eq!(rt; out.put(b"abc"), Err(Failed));
    link.back_out(out);
    for _ in 0..2 {
        assert_eq!(rt; link.dial(&at).err(), Some(Failed));
    }
    assert_eq!(rt; (link.handed_out(), link.faults()), (0, 4));
    assert_eq!(rt; link.out_lanes_back().len(), 1);
    Ok(())
}

// The first lane was called and the first out lane was closed before.
#[test]
fn a_link_leaves_out_what_was_used(rt: HostRuntime) -> Result<(), Fail> {
    let alloc = rt.alloc();
    let mut used = waiting(alloc, 1)?;
    let mut buf = [0u8; 3];
    assert_eq!(rt; used.lane.next(&mut buf), Err(Failed));
    let mut out = MemoryOutLane::new(alloc, 5, Vec::new(alloc))?;
    out.close();
    let lanes = vec![in alloc; used, waiting(alloc, 2)?]?;
    let dials = vec![in alloc;
        Dial {
            at: address(3),
            out
        },
    ]?;
    let mut link = MemoryLink::new(alloc, lanes, dials, Vec::new(alloc))?;
    assert_eq!(rt; link.listen(alloc, 1)?.remove(0).at, address(2));
    assert_eq!(rt; link.dial(&address(3)).err(), Some(Failed));
    Ok(())
}

// A drive with this label and room.
fn named(alloc: Global, name: &[u8], room: u64) -> Result<NamedDrive, Fail> {
    let name = read_name(alloc, name)?;
    let drive = MemoryDrive::new(alloc, name.as_bytes(), room, 9, &[])?;
    Ok(NamedDrive::new(name, drive))
}

// The second call is to fail. Of the drives under `a` the first counts.
#[test]
fn a_shelf_hands_out_its_drives(rt: HostRuntime) -> Result<(), Fail> {
    let alloc = rt.alloc();
    let drives = vec![in alloc;
        named(alloc, b"b", 1)?,
        named(alloc, b"a", 2)?,
        named(alloc, b"a", 3)?,
    ]?;
    let (a, b) = (read_name(alloc, b"a")?, read_name(alloc, b"b")?);
    let mut shelf = MemoryShelf::new(drives, 9, 9, Vec::new(alloc), vec![in alloc; 2]?);
    let Some(mut drive) = shelf.find(alloc, &a)? else {
        return Err(Failed.into());
    };
    assert_eq!(rt; drive.write_at(Part::Bytes, 0, b"ab"), Ok(()));
    assert_eq!(rt; drive.write_at(Part::Bytes, 2, b"c"), Err(Failed));
    assert_eq!(rt; shelf.find(alloc, &b).err(), Some(ShelfError::Failed));
    assert!(rt; shelf.find(alloc, &a)?.is_none());
    assert_eq!(rt;
        (shelf.has(&a), shelf.has(&b), shelf.faults()),
        (false, true, 1)
    );
    assert_eq!(rt; shelf.remove(&b), Ok(()));
    assert!(rt; !shelf.has(&b));
    Ok(())
}

// The first call is to fail, as is the first length of a drive that is made.
#[test]
fn a_shelf_makes_drives(rt: HostRuntime) -> Result<(), Fail> {
    let alloc = rt.alloc();
    let drives = vec![in alloc; named(alloc, b"a", 1)?]?;
    let name = read_name(alloc, b"a")?;
    let first = FailAt {
        call: CallKind::Len,
        part: Part::Bytes,
        number: 1,
    };
    let mut shelf = MemoryShelf::new(drives, 2, 2, vec![in alloc; first]?, vec![in alloc; 1]?);
    assert_eq!(rt; shelf.make(alloc, &name).err(), Some(ShelfError::Failed));
    assert!(rt; shelf.has(&name));
    let mut drive = shelf.make(alloc, &name)?;
    assert!(rt; !shelf.has(&name));
    assert_eq!(rt; drive.len(Part::Bytes), Err(Failed));
    assert_eq!(rt; drive.len(Part::Bytes), Ok(0));
    assert_eq!(rt; drive.len(Part::Ranges), Err(Failed));
    assert_eq!(rt; shelf.remove(&name), Ok(()));
    Ok(())
}
