ghost use Rattle.std.specs.Prelude.{◌≡◌, ◌<◌};
ghost use Rattle.gft_layout.specs.Owner.{IsLayout, IsShape};
ghost use Rattle.gft_layout.specs.Blocks.{channel_blocks};

use crate::{Layout, PARTITION_BLOCK, Shape};
use gft_range::Range;
use std::marker::Model;

/// The layout blocks of one channel, in ascending order. Contracts see those still to come.
#[derive(Drop)]
pub(crate) struct LayoutBlocks {
    /// where the next one begins, or an offset from `end` on
    at: u64,
    /// the bytes of a block, but of the last
    len: u64,
    /// the bytes from the start of one to the start of the next
    step: u64,
    /// where the last one is cut
    end: u64,
}

impl Model for LayoutBlocks {
    ghost use Rattle.std.specs.Prelude.{◌<◌, List};
    ghost use Rattle.gft_range.specs.declared.range.Range.{Range};
    ghost use Rattle.gft_layout.specs.Blocks.{ranges_every};

    ghost Value = { List Range };

    ghost view = { λ b. ranges_every b.at b.len b.step b.end };

    ghost invariant = { λ b. 0 < b.step };
}

impl LayoutBlocks {
    pub(crate) fn new(
        region: Range,
        layout: Layout,
        shape: Shape,
        stripe: u16,
        channel: u16,
    ) -> Self
        requires shape { IsShape shape }
        requires block { IsLayout layout }
        requires channel { channel < shape.parallel }
        ensures { result ≡ channel_blocks region layout shape stripe channel }
    {
        match layout {
            Layout::Partitioned => LayoutBlocks::partitioned(region, shape, stripe, channel),
            Layout::Blocked { block } => {
                LayoutBlocks::blocked(region, block, shape, stripe, channel)
            }
        }
    }

    fn partitioned(region: Range, shape: Shape, stripe: u16, channel: u16) -> Self
        requires shape { IsShape shape }
        requires channel { channel < shape.parallel }
        ensures { result ≡ channel_blocks region Layout.Partitioned shape stripe channel }
    {
        let len = region.end.saturating_sub(region.start);
        let width = len.div_ceil(u64::from(shape.stripes));
        let before = u64::from(stripe).saturating_mul(width);
        let start = region.start.saturating_add(before);
        LayoutBlocks {
            at: start.saturating_add(u64::from(channel) * PARTITION_BLOCK),
            len: PARTITION_BLOCK,
            step: u64::from(shape.parallel) * PARTITION_BLOCK,
            end: start.saturating_add(width).min(region.end),
        }
    }

    fn blocked(region: Range, block: u64, shape: Shape, stripe: u16, channel: u16) -> Self
        requires shape { IsShape shape }
        requires block { 0 < block }
        requires channel { channel < shape.parallel }
        ensures { result ≡ channel_blocks region (Layout.Blocked block) shape stripe channel }
    {
        let stripes = u64::from(shape.stripes);
        let first = u64::from(channel) * stripes + u64::from(stripe);
        let cycle = stripes * u64::from(shape.parallel);
        LayoutBlocks {
            at: region.start.saturating_add(first.saturating_mul(block)),
            len: block,
            step: cycle.saturating_mul(block),
            end: region.end,
        }
    }
}

impl Iterator for LayoutBlocks {
    type Item = Range;

    ghost use Rattle.std.specs.Iterator.{YieldsFirst, item_count};

    ghost next_gives = { YieldsFirst (λ b. b) };

    ghost remaining = { item_count (λ b. b) };

    fn next(&mut self) -> Option<Range> {
        if self.at >= self.end {
            return None;
        }
        let block = Range {
            start: self.at,
            end: self.at.saturating_add(self.len).min(self.end),
        };
        self.at = self.at.saturating_add(self.step);
        Some(block)
    }
}
