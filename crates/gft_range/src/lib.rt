//! Finite sets of byte offsets, kept as their normal lists of ranges: each range has an offset,
//! and ends before the next begins. A set of offsets has one such list.
//!
//! Begin with [`RangeSet::insert`] and [`RangeSet::missing`]. A set as text, `0-5,7-9`, is read by
//! [`RangeSet::parse_list`] and written by [`RangeSet::write_list`]. What answers want of memory
//! allocates, and nothing else; no range is taken out of a set but by [`RangeSet::clear`].
#![tactic(auto)]

mod gaps;
mod laws;
mod list;
mod range;
mod set;
#[cfg(test)]
mod tests;
mod whole;

pub use gaps::Missing;
pub use laws::{lists_have_one_value, one_normal_list};
pub use list::ListError;
pub use range::Range;
pub use set::RangeSet;

/// The most items of a list that is read, and the most ranges of one that is written.
pub const MAX_ITEMS: usize = 512;

// The definitions of all crates cite the name: its number is pinned here.
const _: () = prove!(MAX_ITEMS == 512);
