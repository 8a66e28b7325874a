//! The outside of a transfer: a peer's control connection, the data connections of a stripe, and the
//! time. Each trait counts its faults, and tells what comes or doesn't: the memory forms tell theirs.
//!
//! Begin with [`Lane`]. What its bytes mean to a transfer, and when the lanes of a transfer are honest and
//! whole, stands in specs/. [`Origin`] names what a file is sent from.
#![tactic(auto)]

mod absent;
mod caller;
mod clock;
mod control;
mod control_item;
mod control_script;
mod failing;
mod gate_lane;
mod lane;
mod lane_item;
mod lane_script;
pub mod laws;
mod link;
mod list_clock;
mod memory_control;
mod memory_lane;
mod memory_link;
mod memory_out_lane;
mod memory_shelf;
mod out_lane;
mod piece;
mod shelf;
#[cfg(test)]
mod tests;
mod turns;

pub use absent::{NoClock, NoControl, NoSink};
pub use caller::Caller;
pub use clock::Clock;
pub use control::{Control, Heard};
pub use control_item::ControlItem;
pub use gate_lane::GateLane;
pub use gft_drive::{Origin, Unknown};
pub use lane::{Lane, LaneEvent};
pub use lane_item::LaneItem;
pub use link::{Dial, Link, LinkError, Listening};
pub use list_clock::ListClock;
pub use memory_control::MemoryControl;
pub use memory_lane::MemoryLane;
pub use memory_link::MemoryLink;
pub use memory_out_lane::MemoryOutLane;
pub use memory_shelf::{MemoryShelf, NamedDrive};
pub use out_lane::OutLane;
pub use shelf::{Shelf, ShelfError};

/// The most live channels of one lane.
pub const MAX_LIVE: usize = 64;

/// The most channels that are opened on one lane in one transfer.
pub const MAX_OPENED: u32 = 65_536;

// The definitions of all crates cite the names: their numbers are pinned here.
const _: () = prove!(MAX_LIVE == 64);

const _: () = prove!(MAX_OPENED == 65_536);
