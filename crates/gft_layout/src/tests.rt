use super::*;
use gft_range::{Range, RangeSet};
use std::alloc::Global;
use std::process::Abort;
use std::test::Fail;

fn range(start: u64, end: u64) -> Range {
    Range { start, end }
}

/// The set of these ranges.
fn set_of(rt: &impl Abort, alloc: Global, ranges: &[Range]) -> Result<RangeSet, Fail> {
    let mut set = RangeSet::new(alloc);
    for &range in ranges {
        set.reserve(1)?;
        assert!(rt; range.start < range.end);
        set.insert(range);
    }
    Ok(set)
}

/// What is cut, over how many stripes and channels, and which of them is asked for.
#[derive(Clone, Copy, Drop)]
struct Case {
    region: Range,
    layout: Layout,
    shape: Shape,
    stripe: u16,
    channel: u16,
}

/// Asserts that the plan of this case has these blocks, and no more.
fn has_blocks(rt: &impl Abort, done: &RangeSet, case: Case, blocks: &[Range]) {
    let shape = case.shape;
    assert!(rt; 1 <= shape.stripes && shape.stripes <= 16);
    assert!(rt; 1 <= shape.parallel && shape.parallel <= 64);
    assert!(rt; case.stripe < shape.stripes && case.channel < shape.parallel);
    if let Layout::Blocked { block } = case.layout {
        assert!(rt; 1 <= block);
    }
    let mut plan = plan(
        case.region,
        done,
        case.layout,
        shape,
        case.stripe,
        case.channel,
    );
    for block in blocks {
        assert_eq!(rt; plan.next(), Some(*block), "{:?}", case.region);
    }
    assert_eq!(rt; plan.next(), None, "{:?}", case.region);
    assert_eq!(rt; plan.next(), None, "{:?}", case.region);
}

#[test]
fn blocks_without_what_is_done_go_to_stripes_and_channels_in_turn(
    rt: HostRuntime,
) -> Result<(), Fail> {
    let done = set_of(&rt, rt.alloc(), &[range(1, 5)])?;
    let case = Case {
        region: range(0, 10),
        layout: Layout::Blocked { block: 2 },
        shape: Shape {
            stripes: 2,
            parallel: 2,
        },
        stripe: 0,
        channel: 0,
    };
    has_blocks(&rt, &done, case, &[range(0, 1), range(8, 10)]);
    has_blocks(&rt, &done, Case { channel: 1, ..case }, &[range(5, 6)]);
    has_blocks(&rt, &done, Case { stripe: 1, ..case }, &[]);
    has_blocks(
        &rt,
        &done,
        Case {
            stripe: 1,
            channel: 1,
            ..case
        },
        &[range(6, 8)],
    );
    Ok(())
}

/// What a case cuts, and the one block that it gives, if any.
type Row = (Range, Layout, Shape, u16, Option<Range>);

/// Asserts that channel 0 of each row's stripe has this block, and no other.
fn has_one_block(rt: &impl Abort, alloc: Global, rows: &[Row]) -> Result<(), Fail> {
    let none_done = set_of(rt, alloc, &[])?;
    for &(region, layout, shape, stripe, block) in rows {
        let case = Case {
            region,
            layout,
            shape,
            stripe,
            channel: 0,
        };
        match block {
            Some(block) => has_blocks(rt, &none_done, case, &[block]),
            None => has_blocks(rt, &none_done, case, &[]),
        }
    }
    Ok(())
}

/// Stripes of one channel.
fn alone(stripes: u16) -> Shape {
    Shape {
        stripes,
        parallel: 1,
    }
}

#[test]
fn a_stripe_gets_its_part_up_to_the_end_of_the_region(rt: HostRuntime) -> Result<(), Fail> {
    let partitioned = Layout::Partitioned;
    let fours = Layout::Blocked { block: 4 };
    let rows: [Row; 8] = [
        (range(0, 10), partitioned, alone(3), 0, Some(range(0, 4))),
        (range(0, 10), partitioned, alone(3), 1, Some(range(4, 8))),
        (range(0, 10), partitioned, alone(3), 2, Some(range(8, 10))),
        (range(0, 10), fours, alone(3), 0, Some(range(0, 4))),
        (range(0, 10), fours, alone(3), 1, Some(range(4, 8))),
        (range(0, 10), fours, alone(3), 2, Some(range(8, 10))),
        (range(5, 5), partitioned, alone(3), 0, None),
        (range(7, 3), fours, alone(3), 1, None),
    ];
    has_one_block(&rt, rt.alloc(), &rows)
}

#[test]
fn a_region_may_end_at_the_top(rt: HostRuntime) -> Result<(), Fail> {
    let top = u64::MAX;
    let last = range(top - 5, top);
    let partitioned = Layout::Partitioned;
    let half = Layout::Blocked { block: 1 << 63 };
    let middle = 9_223_372_036_854_775_813;
    let rows: [Row; 6] = [
        (last, partitioned, alone(16), 4, Some(range(top - 1, top))),
        (last, partitioned, alone(16), 5, None),
        (last, partitioned, alone(16), 15, None),
        (range(5, top), half, alone(3), 0, Some(range(5, middle))),
        (range(5, top), half, alone(3), 1, Some(range(middle, top))),
        (range(5, top), half, alone(3), 2, None),
    ];
    has_one_block(&rt, rt.alloc(), &rows)
}

#[test]
fn channels_take_blocks_of_a_partition_in_turn(rt: HostRuntime) -> Result<(), Fail> {
    let none_done = set_of(&rt, rt.alloc(), &[])?;
    let case = Case {
        region: range(100, 2_500_100),
        layout: Layout::Partitioned,
        shape: Shape {
            stripes: 1,
            parallel: 2,
        },
        stripe: 0,
        channel: 0,
    };
    let first = [range(100, 1_048_676), range(2_097_252, 2_500_100)];
    has_blocks(&rt, &none_done, case, &first);
    has_blocks(
        &rt,
        &none_done,
        Case { channel: 1, ..case },
        &[range(1_048_676, 2_097_252)],
    );
    Ok(())
}
