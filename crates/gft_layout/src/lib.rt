//! How the bytes of a file are laid out over the stripes of a transfer, and over the data
//! connections of each stripe (GFD.20, striped data transfer), and what each connection sends.
//!
//! Begin with [`plan`]. A layout cuts a region into layout blocks, each of one stripe, and the data
//! connections of a stripe take its blocks in turn. So each place of a region has one owner. Nothing
//! here allocates.
#![tactic(auto)]

mod blocks;
mod laws;
mod planned;
mod planning;
#[cfg(test)]
mod tests;

pub use laws::{plans_are_longest_runs, plans_name_each_place_once};
pub use planned::Plan;
pub use planning::plan;

/// The most bytes of a layout block of `Partitioned`.
pub const PARTITION_BLOCK: u64 = 1_048_576;

// Definitions cite the name: its number is pinned here.
const _: () = prove!(PARTITION_BLOCK == 1_048_576);

/// Which stripe a byte goes to (GFD.20, OPTS RETR, StripeLayout).
#[derive(Clone, Copy, Debug, PartialEq, Eq)]
pub enum Layout {
    /// Each stripe has one run of the region, all of the same length but the last ones. Its data
    /// connections take blocks of `PARTITION_BLOCK` bytes of it in turn.
    Partitioned,
    /// Blocks of `block` bytes go to the stripes in turn. `block` is from 1 to 2^48 - 1.
    Blocked { block: u64 },
}

/// Over how many data connections a transfer is spread.
#[derive(Clone, Copy, Debug, PartialEq, Eq)]
pub struct Shape {
    /// The stripes, from 1 to 16.
    pub stripes: u16,
    /// The data connections of each stripe, from 1 to 64.
    pub parallel: u16,
}
