ghost use Rattle.std.specs.Prelude.{◌≡◌};
ghost use Rattle.std.specs.List.{flat_map};
ghost use Rattle.gft_layout.specs.Blocks.{left_in};

use crate::blocks::LayoutBlocks;
use gft_range::{Missing, Range, RangeSet};
use std::marker::Model;

/// The blocks that one channel sends, in ascending order (`plan`). Contracts see the list of those
/// still to come.
#[derive(Drop)]
pub struct Plan<'a> {
    done: &'a RangeSet,
    /// what is left of the layout block that is at hand
    missing: Missing<'a>,
    /// the layout blocks behind it
    blocks: LayoutBlocks,
}

impl<'a> Model for Plan<'a> {
    ghost use Rattle.std.specs.Prelude.{List, ◌++◌};
    ghost use Rattle.std.specs.List.{flat_map};
    ghost use Rattle.gft_range.specs.declared.range.Range.{Range};
    ghost use Rattle.gft_layout.specs.Blocks.{left_in};

    ghost Value = { List Range };

    ghost view = { λ p. p.missing ++ flat_map (left_in p.done.now.ranges) p.blocks };
}

impl<'a> Plan<'a> {
    pub(crate) fn new(done: &'a RangeSet, blocks: LayoutBlocks) -> Self
        ensures { result ≡ flat_map (left_in done.now.ranges) blocks }
    {
        Plan {
            done,
            missing: done.missing(Range { start: 0, end: 0 }),
            blocks,
        }
    }
}

impl<'a> Iterator for Plan<'a> {
    type Item = Range;

    ghost use Rattle.std.specs.Iterator.{YieldsFirst, item_count};

    ghost next_gives = { YieldsFirst (λ p. p) };

    ghost remaining = { item_count (λ p. p) };

    fn next(&mut self) -> Option<Range> {
        loop {
            if let Some(block) = self.missing.next() {
                return Some(block);
            }
            let block = self.blocks.next()?;
            self.missing = self.done.missing(block);
        }
    }
}
