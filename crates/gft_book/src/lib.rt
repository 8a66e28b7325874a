//! The state of one file under its lock: its keep, what it is used for, the transfer that runs with the
//! numbers of its passes, and the marks.
//!
//! Begin with [`Book`]: `begin_store`, then `store`, `eof`, `eod`, `fail` and `mark` with the passes, then
//! `settle`. What is true of every Book stands in `specs/Facts.antt`, and what each call is as an event in
//! `specs/Fits.antt`. Movers reach a Book through the lock of its transfer, [`Shared`].
#![tactic(auto)]

mod begin;
mod book;
mod cause;
mod ending;
mod live;
mod mark;
mod marking;
mod readers;
mod taking;
#[cfg(test)]
mod tests;
mod transfer;
mod usage;

pub use begin::BeginError;
pub use book::Book;
pub use cause::Stop;
pub use ending::Finished;
pub use gft_pass::{Cause, Numbers, Pass};
pub use live::{Live, Run, Shared};
pub use mark::Mark;
pub use readers::Reading;
pub use usage::{How, Use};
