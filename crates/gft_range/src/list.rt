ghost use Rattle.std.specs.Prelude.{◌≡◌, ◌<◌, ◌≤◌, ◌^◌, ℕ, ◌++◌, List, length, IfOk, IfErr, OnOk};
ghost use Rattle.std.specs.Prelude.{MatchOption, ◌+◌, ◌↔◌, ◌⊎◌};
ghost use Rattle.std.specs.String.{string_bytes};
ghost use Rattle.gft_range.specs.Range.{InRange, HasOffset};
ghost use Rattle.gft_range.specs.Normal.{IsNormal};
ghost use Rattle.gft_range.specs.ListText.{IsItem, IsList, HasNoList, FirstBadAt, RefusesList};
ghost use Rattle.gft_range.specs.ListText.{FitRanges, items_of, item_text, list_text};
ghost use Rattle.gft_range.specs.Adding.{AddsItems};
ghost use Rattle.gft_range.specs.declared.range.Range.{Range};

use crate::MAX_ITEMS;
use crate::range::Range;
use crate::set::RangeSet;
use gft_base::{OutOfMemory, count_parts, read_decimal, split_first};
use std::alloc::Global;
use thiserror::Error;

/// Why a text is no list of ranges.
#[derive(Clone, Copy, Debug, PartialEq, Eq, Error)]
pub enum ListError {
    /// The first item that is ill-formed begins at this byte.
    #[error("bad item at byte {at}")]
    BadList { at: usize },
    /// There are more than `MAX_ITEMS` items, the ill-formed ones counted too.
    #[error("{items} items")]
    TooMany { items: usize },
    #[error("out of memory")]
    OutOfMemory,
}

impl From<OutOfMemory> for ListError {
    ghost use Rattle.std.specs.Prelude.{◌≡◌};
    ghost use Rattle.gft_range.specs.declared.list.ListError.TheVariants as errors;

    ghost from_gives = { λ _ e. e ≡ errors.OutOfMemory };

    fn from(_refused: OutOfMemory) -> ListError {
        ListError::OutOfMemory
    }
}

impl RangeSet {
    /// Reads a list of ranges: items `a-b`, or `b` for `0-b`, in any order and with commas between
    /// them. Ends are exclusive and have 64 bits, a is at most b, and there are at most
    /// `MAX_ITEMS` items.
    ///
    /// `TooMany` if there are more items, else `BadList` if one is ill-formed; a text without a byte
    /// is one ill-formed item. `OutOfMemory` if there is no room for a set of that many ranges; a
    /// text of more items never gives it.
    pub fn parse_list(alloc: Global, text: &[u8]) -> Result<RangeSet, ListError>
        ensures list { IfOk result (λ set. IsList text.now set.ranges) }
        ensures refused { IfErr result (RefusesList text.now) }
        ensures none { IfErr result (HasNoList text.now) }
        ensures normal { IfOk result (λ set. IsNormal set.ranges) }
    {
        let items = count_parts(text, b',');
        if items > MAX_ITEMS {
            return Err(ListError::TooMany { items });
        }
        let mut set = RangeSet::new(alloc);
        set.reserve(items)?;
        match add_items(&mut set, text) {
            Ok(()) => Ok(set),
            Err(at) => Err(ListError::BadList { at }),
        }
    }

    /// The text of the set's normal list, which has at most `MAX_ITEMS` ranges: items `a-b`, ascending, or
    /// `0-0` for the set without offsets. `OutOfMemory` if the text can't be allocated.
    pub fn write_list(&self) -> Result<Vec<u8>, OutOfMemory>
        requires few { length self.now.ranges ≤ MAX_ITEMS }
        ensures text { IfOk result (λ text. text.items ≡ list_text self.now.ranges) }
        ensures read { IfOk result (λ text. IsList text.items self.now.ranges) }
        ensures normal { IsNormal self.now.ranges }
    {
        write_ranges(*self.ranges.allocator(), &self.ranges)
    }
}

/// Adds the items of the text, or gives the place of the first that is ill-formed.
fn add_items(set: &mut RangeSet, text: &[u8]) -> Result<(), usize>
    requires room { length (items_of text.now) ≤ set.old.spare }
    requires normal { IsNormal set.old.ranges }
    ensures ok { OnOk result (AddsItems set.old.ranges text.now set.new.ranges) }
    ensures err { IfErr result (FirstBadAt text.now) }
{
    let mut rest = Some(text);
    while let Some(left) = rest {
        let (item, after) = split_first(left, b',');
        let Some(range) = read_item(item) else {
            return Err(text.len() - left.len());
        };
        add(set, range);
        rest = after;
    }
    Ok(())
}

/// Adds the offsets of a range that may have none.
fn add(set: &mut RangeSet, range: Range)
    requires room { 1 ≤ set.old.spare }
    requires normal { IsNormal set.old.ranges }
    ensures normal { IsNormal set.new.ranges }
    ensures union { (x : ℕ) →
        HasOffset set.new.ranges x ↔ (HasOffset set.old.ranges x ⊎ InRange range x) }
    ensures spare { set.old.spare ≤ set.new.spare + 1 }
{
    if range.start < range.end {
        set.insert(range);
    }
}

fn read_item(text: &[u8]) -> Option<Range>
    ensures { MatchOption result ((r : Range) → ¬ IsItem text.now r) (IsItem text.now) }
{
    let (first, after) = split_first(text, b'-');
    let first = read_decimal(first)?;
    match after {
        None => Some(Range {
            start: 0,
            end: first,
        }),
        Some(rest) => {
            let end = read_decimal(rest)?;
            if first > end {
                return None;
            }
            Some(Range { start: first, end })
        }
    }
}

/// The text of these ranges, or `0-0` if there is none.
fn write_ranges(alloc: Global, ranges: &[Range]) -> Result<Vec<u8>, OutOfMemory>
    ensures text { IfOk result (λ text. text.items ≡ list_text ranges.now) }
    ensures fit { OnOk result (FitRanges ranges.now) }
{
    let Some((first, others)) = ranges.split_first() else {
        return Ok(Vec::from_slice(alloc, b"0-0")?);
    };
    let mut text = String::new(alloc);
    write_range(&mut text, *first)?;
    for range in others {
        text.push(',')?;
        write_range(&mut text, *range)?;
    }
    Ok(text.into_bytes())
}

/// Adds the range `a-b` to the text.
fn write_range(text: &mut String, range: Range) -> Result<(), OutOfMemory>
    ensures text { OnOk result (string_bytes text.new ≡ string_bytes text.old ++ item_text range) }
    ensures fit { (range.start < 2 ^ 64) × (range.end < 2 ^ 64) }
{
    write!(text, "{}-{}", range.start, range.end)?;
    Ok(())
}
