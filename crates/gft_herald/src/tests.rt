use super::*;
use gft_range::{MAX_ITEMS, Range, RangeSet};
use std::alloc::Global;
use std::test::Fail;

/// The set of the offsets from 0 up to this end.
fn below(alloc: Global, end: u64) -> Result<RangeSet, Fail> {
    let mut set = RangeSet::new(alloc);
    set.reserve(1)?;
    if end > 0 {
        set.insert(Range { start: 0, end });
    }
    Ok(set)
}

/// Pushes a set, if it may be pushed.
fn push(pusher: &mut Pusher, set: RangeSet) -> bool {
    let count = set.count();
    if count == 0 || count > MAX_ITEMS || !pusher.has_room() {
        return false;
    }
    pusher.push(set);
    true
}

#[test]
fn marks_come_in_their_order(rt: HostRuntime) -> Result<(), Fail> {
    let alloc = rt.alloc();
    let (mut pusher, mut taker) = line(alloc, 2)?;
    for (end, room) in [(5, true), (10, true), (15, false)] {
        let pushed = push(&mut pusher, below(alloc, end)?);
        assert_eq!(rt; pushed, room, "0-{end}");
    }
    pusher.close();
    for end in [5, 10] {
        let Next::Mark(ranges) = taker.next(&rt) else {
            return Err(Fail::new("a mark was pushed and is not there"));
        };
        assert_eq!(rt; ranges.end(), end);
    }
    let closed = match taker.next(&rt) {
        Next::Closed => true,
        Next::Mark(_) | Next::Starved => false,
    };
    assert!(rt; closed);
    Ok(())
}

#[test]
fn a_refused_mark_is_told(rt: HostRuntime) -> Result<(), Fail> {
    let (mut pusher, mut taker) = line(rt.alloc(), 2)?;
    pusher.starve();
    let starved = match taker.next(&rt) {
        Next::Starved => true,
        Next::Mark(_) | Next::Closed => false,
    };
    assert!(rt; starved);
    Ok(())
}
