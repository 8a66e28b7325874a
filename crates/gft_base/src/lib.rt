//! What several crates share: errors of the outside and of memory, counts of faults, the limit of
//! offsets, and what all grammars of text are made of: numbers, and the parts of a text between
//! separators.
#![tactic(auto)]

ghost use Rattle.std.specs.Prelude.{◌≡◌};

mod errors;
mod faults;
mod number;
mod parts;
#[cfg(test)]
mod tests;

pub use errors::{Failed, OutOfMemory};
pub use faults::Faults;
pub use number::read_decimal;
pub use parts::{count_parts, find_byte, split_first, split_word, strip_front};

/// The greatest end of a range of offsets, in bytes: 2^48 - 1.
pub const LIMIT: u64 = 0xffff_ffff_ffff;

/// The definitions of all crates cite the limit by its name: here is its number.
pub fn limit_is_as_promised()
    ensures { LIMIT ≡ 281474976710655 }
{}
