//! A transfer that anyone can run: a generated file goes over four stripes of four data connections each to a
//! drive that holds no byte of it, in three attempts, of which two lose a data connection.
//!
//! Begin with [`make`]. The file, its drive and its lanes are those of [`gft_generated`].
#![tactic(auto)]

mod code;
mod error;
mod making;
mod marker;
mod summary;
#[cfg(test)]
mod tests;
mod transfer;

pub use error::MakeError;
pub use making::make;
