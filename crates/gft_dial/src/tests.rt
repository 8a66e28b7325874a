ghost use Rattle.std.specs.Prelude.{◌≡◌};

use super::*;
use gft_outside::{Dial, Link, MemoryLink, MemoryOutLane, OutLane};
use gft_range::Range;
use gft_send::Stripe;
use gft_text::HostPort;
use std::alloc::Global;
use std::test::Fail;

fn address(port: u16) -> HostPort {
    HostPort {
        host: [127, 0, 0, 1],
        port,
    }
}

/// A link with a dial to each of these ports, in order. Its call
/// of this number fails, none where it is 0.
fn link_to(alloc: Global, ports: &[u16], failing: u32) -> Result<MemoryLink, Fail> {
    let mut dials = Vec::new(alloc);
    for port in ports {
        let out = MemoryOutLane::new(alloc, 8, Vec::new(alloc))?;
        dials.push(Dial {
            at: address(*port),
            out,
        })?;
    }
    Ok(MemoryLink::new(alloc, Vec::new(alloc), dials, vec![in alloc; failing]?)?)
}

/// Two places, of three data connections each.
const PORTS: [u16; 6] = [1, 1, 1, 2, 2, 2];

#[test]
fn each_stripe_has_its_drive_and_its_data_connections(rt: HostRuntime) -> Result<(), Fail> {
    let alloc = rt.alloc();
    let mut link = link_to(alloc, &PORTS, 0)?;
    let drives = vec![in alloc; 10u8, 20]?;
    let stripes = dial_stripes(alloc, &mut link, &[address(1), address(2)], 3, drives)?;
    for (number, drive) in [(0, 10), (1, 20)] {
        let shown = stripes.get(number).map(|s| (s.drive, s.channels.len()));
        assert_eq!(rt; shown, Some((drive, 3)), "{number}");
    }
    assert_eq!(rt; (link.handed_out(), link.faults()), (6, 0));
    hang_up(&mut link, stripes);
    assert_eq!(rt; (link.handed_out(), link.faults()), (0, 0));
    assert_eq!(rt; link.out_lanes_back().len(), 6);
    Ok(())
}

#[test]
fn a_dial_that_fails_leaves_none_open(rt: HostRuntime) -> Result<(), Fail> {
    let alloc = rt.alloc();
    for failing in 1..=6 {
        let mut link = link_to(alloc, &PORTS, failing)?;
        let drives = vec![in alloc; 10u8, 20]?;
        let dialled = dial_stripes(alloc, &mut link, &[address(1), address(2)], 3, drives);
        assert_eq!(rt; dialled.err(), Some(DialError::Failed), "{failing}");
        assert_eq!(rt; (link.handed_out(), link.faults()), (0, 1), "{failing}");
        assert_eq!(rt; link.out_lanes_back().len() + 1, failing as usize);
    }
    Ok(())
}

#[test]
fn a_dial_to_another_place_than_the_next_fails(rt: HostRuntime) -> Result<(), Fail> {
    let alloc = rt.alloc();
    let rows = [
        ([1, 2, 3, 2, 2, 2], 1),
        ([2, 1, 1, 1, 2, 2], 0),
        ([1, 1, 1, 2, 2, 1], 5),
    ];
    for (ports, made) in rows {
        let mut link = link_to(alloc, &ports, 0)?;
        let drives = vec![in alloc; 10u8, 20]?;
        let dialled = dial_stripes(alloc, &mut link, &[address(1), address(2)], 3, drives);
        assert_eq!(rt; dialled.err(), Some(DialError::Failed), "{made}");
        assert_eq!(rt; link.out_lanes_back().len(), made);
    }
    Ok(())
}

#[test]
fn out_lanes_come_back_with_their_faults(rt: HostRuntime) -> Result<(), Fail> {
    let alloc = rt.alloc();
    let mut link = link_to(alloc, &[1, 2, 2], 0)?;
    let mut faulty = MemoryOutLane::new(alloc, 1, Vec::new(alloc))?;
    assert!(rt; faulty.put(b"ab").is_err());
    let kept = vec![in alloc; link.dial(&address(1))?, faulty]?;
    let other = vec![in alloc; link.dial(&address(2))?]?;
    let stripes = vec![in alloc; stripe_of(kept), stripe_of(other)]?;
    let _unused = link.dial(&address(2))?;
    hang_up(&mut link, stripes);
    assert_eq!(rt; (link.handed_out(), link.faults()), (0, 1));
    Ok(())
}

#[test]
fn a_part_goes_as_far_as_the_file(rt: HostRuntime) -> Result<(), Fail> {
    let rows = [
        (2, 3, 2, 5),
        (0, 10, 0, 10),
        (8, 5, 8, 10),
        (10, 1, 10, 10),
        (11, 4, 10, 10),
        (3, u64::MAX, 3, 10),
        (u64::MAX, u64::MAX, 10, 10),
        (4, 0, 4, 4),
    ];
    assert_eq!(rt; region_of(10, None), Range { start: 0, end: 10 });
    for (offset, size, start, end) in rows {
        let region = region_of(10, Some(FilePart { offset, size }));
        assert_eq!(rt; region, Range { start, end }, "{offset} {size}");
    }
    Ok(())
}

fn stripe_of(channels: Vec<MemoryOutLane>) -> Stripe<u8, MemoryOutLane>
    ensures { result.channels ≡ channels }
{
    Stripe {
        drive: 0,
        channels,
        sent: Ok(0),
    }
}
