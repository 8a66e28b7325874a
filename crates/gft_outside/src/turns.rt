ghost use Rattle.std.specs.Prelude.{◌≡◌, ◌≤◌, length, take};
ghost use Rattle.gft_outside.specs.LaneInputs.{is_live, no_channels};
ghost use Rattle.gft_outside.specs.LaneScripts.{can_come, channels_of, front_in_turn, live_by, opened_by};

use crate::lane_item::LaneItem;

/// How many of the items can come, one after another.
pub(crate) fn count_in_turn(items: &[LaneItem]) -> usize
    ensures within { result ≤ length items.now }
    ensures front { take result items.now ≡ front_in_turn no_channels items.now }
{
    for (i, item) in items.iter().enumerate() {
        if !is_next(&items[..i], item) {
            return i;
        }
    }
    items.len()
}

// Whether the item can come behind these.
fn is_next(before: &[LaneItem], item: &LaneItem) -> bool
    ensures { result ≡ can_come (channels_of before.now) item.now }
{
    match item {
        LaneItem::Opened(channel) => count_opened(before) == u64::from(*channel),
        LaneItem::Bytes { channel, .. } => is_live_behind(before, *channel),
        LaneItem::Ended(channel) => is_live_behind(before, *channel),
        LaneItem::Quiet => true,
    }
}

// How many channels the items open.
fn count_opened(items: &[LaneItem]) -> u64
    ensures { result ≡ (channels_of items.now).opened }
{
    let mut opened = 0;
    for item in items {
        opened += opens(item);
    }
    opened
}

// How many channels the item opens.
fn opens(item: &LaneItem) -> u64
    ensures { result ≡ opened_by item.now }
{
    match item {
        LaneItem::Opened(_) => 1,
        LaneItem::Bytes { .. } | LaneItem::Ended(_) | LaneItem::Quiet => 0,
    }
}

// Whether the items open the channel, and don't end it.
fn is_live_behind(items: &[LaneItem], channel: u32) -> bool
    ensures { result ≡ is_live channel (channels_of items.now).live }
{
    let mut was_live = false;
    for item in items {
        was_live = leaves_live(item, channel, was_live);
    }
    was_live
}

// Whether the channel is live behind the item, if it was or wasn't before.
fn leaves_live(item: &LaneItem, channel: u32, was_live: bool) -> bool
    ensures { result ≡ live_by channel item.now was_live }
{
    match item {
        LaneItem::Opened(number) => *number == channel || was_live,
        LaneItem::Ended(number) => *number != channel && was_live,
        LaneItem::Bytes { .. } | LaneItem::Quiet => was_live,
    }
}
