//! The plain machine over the events of one name: which bytes a list of events leaves kept, and when
//! its transfer is done, with no file, no lock and no thread.
//!
//! Begin with [`CoreEvent`] and [`Core::step`]. [`laws::honest_law`] says what a transfer that is done
//! has kept of what was sent, and [`laws::crash_law`] what stays over crashes and restarts. Blocks, EOFs
//! and EODs are those of extended block mode (GFD.20).
#![tactic(auto)]

mod event;
mod image;
pub mod laws;
mod machine;
mod octets;
mod progress;
mod taken;
#[cfg(test)]
mod tests;

pub use event::CoreEvent;
pub use image::Image;
pub use machine::Core;
pub use octets::Octets;
