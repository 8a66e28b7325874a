//! The bytes that came on each stripe of a transfer, counted by many threads without a lock.
//!
//! Begin with [`Meter`]: `new` makes one with its first seat, `split` deals a seat to each thread, `add`
//! counts on a stripe and `read` looks at it, and `join` takes a seat back. No call waits. A seat takes no
//! memory: what was added through it is told by the proofs alone.
#![tactic(auto)]

mod meter;
mod seat;
#[cfg(test)]
mod tests;
mod view;

pub use meter::Meter;
pub use seat::MeterSeat;
