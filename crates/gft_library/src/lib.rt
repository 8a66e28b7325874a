//! The files of a server, each under its name with its Book, round a shelf; and the answers that they give.
//!
//! Begin with [`Library`], one lock round the [`Names`]. `store` hands a Book out for one transfer, and
//! `done_storing` takes it back; `retrieve` lends drives of a file, and `done_reading` ends that; `size` and
//! `remove` answer at once. Each [`Answer`] is made here alone, and a [`Tally`] keeps those that a session
//! gave.
#![tactic(auto)]

mod answer;
mod book_calls;
mod error;
mod holding;
mod library;
mod list;
mod names;
mod opening;
mod seeking;
mod serving;
mod tally;
#[cfg(test)]
mod tests;

pub use answer::{Answer, Word};
pub use error::LibraryError;
pub use library::Library;
pub use names::{Names, Storing};
pub use tally::{MemoryTally, NoTally, Tally};

/// The most names that a library keeps at once.
pub const MAX_NAMES: usize = 65_536;

// The definitions cite the name: its number is pinned here.
const _: () = prove!(MAX_NAMES == 65_536);
