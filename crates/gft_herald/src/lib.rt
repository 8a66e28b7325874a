//! Marks on their way from a Book, which is under a lock, to the teller, who takes no lock for them.
//!
//! [`line`](line()) gives the two ends of a line: a [`Pusher`], which stands with the Book, and a [`Taker`].
//! A mark is the set of ranges that it names. A `Taker` knows what it took, and beside its `Pusher` that this is
//! the front of what was pushed.
#![tactic(auto)]

mod bell;
mod ends;
#[cfg(test)]
mod tests;

pub use ends::{Next, Pusher, Taker, line};
