//! The data connections of a sender: they are opened to the places that a peer named, paired with the drives
//! that are sent, and given back (RFC 959, PORT; GFD.20, SPOR and OPTS RETR Parallelism).
//!
//! Begin with [`dial_stripes`], whose stripes `gft_send::send` takes, and [`hang_up`], which gives back what
//! they hold. `specs/Dials.antt` says what a link does in either. Nothing is put here.
#![tactic(auto)]

mod dialling;
mod error;
mod hanging_up;
mod region;
#[cfg(test)]
mod tests;

pub use dialling::dial_stripes;
pub use error::DialError;
pub use hanging_up::hang_up;
pub use region::{FilePart, region_of};
