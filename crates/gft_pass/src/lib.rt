//! The passes of one transfer: a pass is the right to count for one lane, and the roster lists what each
//! pass has had. A pass's numbers change only together with the roster's, so the two always agree.
//!
//! Begin with [`Roster`]: `begin` deals a pass for each lane, `change` gives a pass other numbers, and
//! `settle` takes all passes back. The list is kept by the proofs alone: at run time a pass holds its own
//! numbers, and the roster none. Why a transfer failed is a [`Cause`].
#![tactic(auto)]

mod cause;
mod numbers;
mod pass;
mod roster;
mod settled;
#[cfg(test)]
mod tests;
mod view;

pub use cause::Cause;
pub use numbers::Numbers;
pub use pass::Pass;
pub use roster::Roster;
pub use settled::{Ended, Settled};
