ghost use Rattle.std.specs.Prelude.{◌≡◌, ◌+◌, ◌<◌, ◌≤◌, length, take, drop, reverse, Ok};
ghost use Rattle.gft_base.specs.declared.errors.Failed.{Failed};
ghost use Rattle.gft_outside.specs.LaneStates.{given_by, EventFits, IsNotDone};
ghost use Rattle.gft_outside.specs.LaneScripts.{lane_inputs};

use crate::lane::LaneEvent;
use crate::piece::copy_piece;
use gft_core::Octets;

/// What comes on a [`MemoryLane`](crate::MemoryLane), with the bytes themselves.
#[derive(Drop)]
pub enum LaneItem {
    Opened(u32),
    Bytes { channel: u32, bytes: Octets },
    Ended(u32),
    Quiet,
}

impl LaneItem {
    /// How much it tells: a byte counts 1, and anything else.
    pub(crate) fn len(&self) -> usize
        ensures { result ≡ length (lane_inputs self.now) }
    {
        match self {
            LaneItem::Bytes { bytes, .. } => bytes.bytes().len(),
            LaneItem::Opened(_) | LaneItem::Ended(_) | LaneItem::Quiet => 1,
        }
    }

    /// Gives it from this place on, as far as the buffer has room, and says how much that was.
    pub(crate) fn give(&self, from: usize, buf: &mut [u8]) -> (LaneEvent, usize)
        requires inside { from < length (lane_inputs self.now) }
        requires room { 0 < length buf.old }
        ensures some { 1 ≤ result.1 }
        ensures within { from + result.1 ≤ length (lane_inputs self.now) }
        ensures fits { EventFits result.0 (length buf.new) }
        ensures given { given_by {E = Failed} (Ok result.0) buf.new
            ≡ reverse (take result.1 (drop from (lane_inputs self.now))) }
        ensures more { IsNotDone result.0 }
    {
        match self {
            LaneItem::Opened(channel) => (LaneEvent::Opened(*channel), 1),
            LaneItem::Bytes { channel, bytes } => {
                let count = copy_piece(bytes.bytes(), from, buf);
                let channel = *channel;
                (LaneEvent::Bytes { channel, count }, count)
            }
            LaneItem::Ended(channel) => (LaneEvent::Ended(*channel), 1),
            LaneItem::Quiet => (LaneEvent::Quiet, 1),
        }
    }
}
