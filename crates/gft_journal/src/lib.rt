//! The journal of a drive: which ranges it keeps, in a bank of slots that is changed one slot or one
//! bank at a time, so that every image of a stopped machine names the ranges that were acknowledged.
#![tactic(auto)]

mod bank;
mod damage;
mod journal;
mod opening;
mod scan;
mod slot;
#[cfg(test)]
mod tests;

pub use damage::{AttachError, Damage};
pub use journal::Journal;
pub use opening::{Found, attach};
