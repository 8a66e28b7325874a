//! A file that nobody has to keep: each of its bytes follows from a seed and its place.
//!
//! Begin with [`byte_at`]. [`GeneratedDrive`] takes the place of the file's drive and compares what is written with
//! it; [`generated_lanes`] are the lanes on which a sender of the file comes in. Neither holds a byte of it.
#![tactic(auto)]

mod drive;
mod generator;
mod lane;
mod lanes;
mod segment;
mod stream;
#[cfg(test)]
mod tests;

pub use drive::GeneratedDrive;
pub use generator::{byte_at, generate, is_generated};
pub use lane::GeneratedLane;
pub use lanes::{Cut, Generated, generated_lanes};

/// The stripes of a generated transfer.
pub const STRIPES: u16 = 4;

/// The data connections of each stripe.
pub const CHANNELS: u16 = 4;

/// The most bytes of a generated file: 2^30.
pub const MAX_SIZE: u64 = 1_073_741_824;

// The definitions of all crates cite the names: their numbers are pinned here.
const _: () = prove!(STRIPES == 4);

const _: () = prove!(CHANNELS == 4);

const _: () = prove!(MAX_SIZE == 1_073_741_824);
