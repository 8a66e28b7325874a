use super::*;
use std::alloc::Global;
use std::process::Abort;
use std::test::Fail;

/// The set of these ranges, with room for one more insert.
fn set_of(rt: &impl Abort, alloc: Global, ranges: &[Range]) -> Result<RangeSet, Fail> {
    let mut set = RangeSet::new(alloc);
    for &range in ranges {
        set.reserve(2)?;
        assert!(rt; range.start < range.end);
        set.insert(range);
    }
    Ok(set)
}

fn range(start: u64, end: u64) -> Range {
    Range { start, end }
}

/// Asserts that the set's normal list is this one.
fn is_list(rt: &impl Abort, set: &RangeSet, list: &[Range]) {
    assert_eq!(rt; set.count(), list.len());
    assert_eq!(rt; set.as_slice(), list);
    for (i, range) in list.iter().enumerate() {
        assert_eq!(rt; set.nth(i), Some(*range), "at {i}");
    }
    assert_eq!(rt; set.nth(list.len()), None);
}

#[test]
fn a_range_between_two_joins_them(rt: HostRuntime) -> Result<(), Fail> {
    let mut set = set_of(&rt, rt.alloc(), &[range(0, 5), range(7, 9), range(5, 7)])?;
    is_list(&rt, &set, &[range(0, 9)]);
    set.reserve(1)?;
    set.insert(Range { start: 20, end: 21 });
    is_list(&rt, &set, &[range(0, 9), range(20, 21)]);
    Ok(())
}

#[test]
fn looks_at_a_set_with_a_gap(rt: HostRuntime) -> Result<(), Fail> {
    let set = set_of(&rt, rt.alloc(), &[range(0, 5), range(7, 9)])?;
    let mut missing = set.missing(range(0, 12));
    assert_eq!(rt; missing.next(), Some(range(5, 7)));
    assert_eq!(rt; missing.next(), Some(range(9, 12)));
    assert_eq!(rt; missing.next(), None);
    assert_eq!(rt; set.first_gap(), Some(range(5, 7)));
    assert_eq!(rt; set.end(), 9);
    let cases = [
        (range(0, 5), true, true),
        (range(7, 8), true, true),
        (range(4, 6), false, true),
        (range(5, 6), false, true),
        (range(6, 7), false, true),
        (range(10, 12), false, false),
    ];
    for (r, covered, touched) in cases {
        assert!(rt; r.start < r.end);
        assert_eq!(rt; set.covers(r), covered, "covers {r:?}");
        assert_eq!(rt; set.touches(r), touched, "touches {r:?}");
    }
    Ok(())
}

#[test]
fn a_copy_stays_when_the_set_is_cleared(rt: HostRuntime) -> Result<(), Fail> {
    let mut set = set_of(&rt, rt.alloc(), &[range(0, 5), range(7, 9)])?;
    let copy = set.copy()?;
    set.clear();
    assert!(rt; set != copy);
    assert!(rt; copy.copy()? == copy);
    is_list(&rt, &set, &[]);
    assert_eq!(rt; set.first_gap(), None);
    assert_eq!(rt; set.end(), 0);
    is_list(&rt, &copy, &[range(0, 5), range(7, 9)]);
    Ok(())
}

/// Asserts that the text names the set of this normal list.
fn reads_as(rt: &impl Abort, alloc: Global, text: &[u8], list: &[Range]) -> Result<(), Fail> {
    match RangeSet::parse_list(alloc, text) {
        Ok(set) => is_list(rt, &set, list),
        Err(error) => assert!(rt; false, "{text:?}: {error}"),
    }
    Ok(())
}

#[test]
fn a_list_names_the_offsets_of_its_items(rt: HostRuntime) -> Result<(), Fail> {
    let alloc = rt.alloc();
    reads_as(&rt, alloc, b"0-5,7-9,5-7", &[range(0, 9)])?;
    reads_as(&rt, alloc, b"0-0", &[])?;
    reads_as(&rt, alloc, b"5", &[range(0, 5)])?;
    reads_as(
        &rt,
        alloc,
        b"20-30,007-0009,3-3",
        &[range(7, 9), range(20, 30)],
    )?;
    reads_as(
        &rt,
        alloc,
        b"18446744073709551614-18446744073709551615",
        &[range(u64::MAX - 1, u64::MAX)],
    )
}

#[test]
fn a_list_is_refused_at_its_first_ill_formed_item(rt: HostRuntime) {
    let rows: [(&'static [u8], usize); 8] = [
        (b"0-5,x", 4),
        (b"", 0),
        (b"5-3", 0),
        (b"0-5,", 4),
        (b"1-2,3-4-5,x", 4),
        (b"1,-2", 2),
        (b"0-18446744073709551616", 0),
        (b"00,000000000000000000000", 3),
    ];
    for (text, at) in rows {
        let refused = RangeSet::parse_list(rt.alloc(), text);
        assert_eq!(rt; refused.err(), Some(ListError::BadList { at }), "{text:?}");
    }
}

#[test]
fn a_list_has_at_most_512_items(rt: HostRuntime) -> Result<(), Fail> {
    let mut text = Vec::new(rt.alloc());
    for _ in 0..511 {
        text.extend_from_slice(b"1-2,")?;
    }
    text.push(b'9')?;
    reads_as(&rt, rt.alloc(), &text, &[range(0, 9)])?;
    text.extend_from_slice(b",x")?;
    let refused = RangeSet::parse_list(rt.alloc(), &text)
        .err()
        .ok_or("taken")?;
    assert_eq!(rt; refused, ListError::TooMany { items: 513 });
    assert_eq!(rt; refused.to_string(rt.alloc())?.as_str(), "513 items");
    let bad = ListError::BadList { at: 4 };
    assert_eq!(rt; bad.to_string(rt.alloc())?.as_str(), "bad item at byte 4");
    Ok(())
}

#[test]
fn a_set_is_written_as_its_normal_list(rt: HostRuntime) -> Result<(), Fail> {
    let set = set_of(&rt, rt.alloc(), &[range(7, 9), range(0, 5)])?;
    assert!(rt; set.count() <= MAX_ITEMS);
    assert_eq!(rt; set.write_list()?.as_slice(), b"0-5,7-9".as_slice());
    assert_eq!(rt;
        RangeSet::new(rt.alloc()).write_list()?.as_slice(),
        b"0-0".as_slice()
    );
    Ok(())
}

#[test]
fn whole_sets_are_joined_and_cut(rt: HostRuntime) -> Result<(), Fail> {
    let mut set = set_of(&rt, rt.alloc(), &[range(0, 5), range(7, 9)])?;
    is_list(&rt, &set.complement(12)?, &[range(5, 7), range(9, 12)]);
    is_list(&rt, &set.complement(8)?, &[range(5, 7)]);
    is_list(&rt, &set.first(1)?, &[range(0, 5)]);
    is_list(&rt, &set.first(3)?, &[range(0, 5), range(7, 9)]);
    set.union(&set_of(&rt, rt.alloc(), &[range(5, 7), range(20, 30)])?)?;
    is_list(&rt, &set, &[range(0, 9), range(20, 30)]);
    Ok(())
}
