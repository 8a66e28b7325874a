ghost use Rattle.std.specs.Prelude.{◌≡◌};
ghost use Rattle.gft_layout.specs.Owner.{IsLayout, IsOwner, IsShape};
ghost use Rattle.gft_layout.specs.Plan.{plan_of};

use crate::blocks::LayoutBlocks;
use crate::planned::Plan;
use crate::{Layout, Shape};
use gft_range::{Range, RangeSet};

/// What one data connection sends of a region: the offsets that it owns and that aren't done, each
/// longest run inside one layout block as a block of its own, in ascending order (GFD.20, striped
/// data transfer). A region whose start isn't below its end has none.
pub fn plan<'a>(
    region: Range,
    done: &'a RangeSet,
    layout: Layout,
    shape: Shape,
    stripe: u16,
    channel: u16,
) -> Plan<'a>
    requires shape { IsShape shape }
    requires block { IsLayout layout }
    requires owner { IsOwner shape (record { stripe = stripe; channel = channel }) }
    ensures { result ≡ plan_of region done.now.ranges layout shape stripe channel }
{
    let blocks = LayoutBlocks::new(region, layout, shape, stripe, channel);
    Plan::new(done, blocks)
}
