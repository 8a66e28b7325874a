//! A file that is sent arrives: what a sender puts on its data connections is what a receiver takes, with
//! the equal file at the end.
#![tactic(auto)]

mod delivering;
mod laws;

pub use delivering::deliver;
pub use laws::sent_streams_are_honest;

#[cfg(test)]
mod tests;
