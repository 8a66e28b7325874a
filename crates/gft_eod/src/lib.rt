//! The count of EODs and the total that an EOF announces, for one transfer in extended block mode
//! (GFD.20): as many EODs come, over all data connections, as the total says.
//!
//! Begin with [`EodCount`]. No call takes memory.
#![tactic(auto)]

mod count;
mod error;
#[cfg(test)]
mod tests;

pub use count::EodCount;
pub use error::EodError;

/// The greatest total that an EOF may announce, and so the most EODs of a transfer.
pub const MAX_EODS: u64 = 1024;

// The definitions of all crates cite the name: its number is pinned here.
const _: () = prove!(MAX_EODS == 1024);
