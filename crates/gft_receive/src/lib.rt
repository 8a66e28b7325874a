//! Movers: what the lanes of a transfer bring is booked, side by side.
//!
//! [`receive`] runs one mover for each lane, each a [`receive_lane`], and settles the Book when all have
//! ended. What a mover may leave as a cause stands in `specs/Moved.antt`, its table in `specs/Causes.antt`.
#![tactic(auto)]

mod channels;
mod feeding;
mod halt;
mod limits;
mod mover;
mod outcome;
mod patience;
mod teller;
mod telling;
#[cfg(test)]
mod telling_tests;
#[cfg(test)]
mod tests;
mod transfer;

pub use limits::Limits;
pub use mover::receive_lane;
pub use outcome::{Outcome, Received};
pub use transfer::receive;
