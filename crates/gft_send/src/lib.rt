//! Sends the bytes of a region that a peer lacks, each once, on the data connection that owns it (GFD.20,
//! extended block mode and striped data transfer).
//!
//! Begin with [`send`]; [`send_lane`] sends one stripe. What each data connection carries is `sent_stream` of
//! specs/Streams.antt. Sending locks nothing, and closes no data connection.
#![tactic(auto)]

mod block;
mod channel;
mod lane;
mod piece;
mod plan;
#[cfg(test)]
mod tests;
mod transfer;

pub use lane::send_lane;
pub use plan::SendPlan;
pub use transfer::{Stripe, send};
