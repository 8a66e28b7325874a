//! The parameters of commands that have a grammar of their own: the options of RETR, the targets of
//! SPOR, and the parts that ERET and ESTO name (GFD.20).
//!
//! Begin with [`read_retr`], and with `specs/Retr.antt`. Each reader answers a value exactly where
//! the grammar in `specs/` relates the text to it, and each writer gives the one text that is
//! written for a value; what is written is read again. The laws have empty bodies and serve proofs
//! alone.
#![tactic(auto)]

mod error;
mod host_ports;
mod laws;
mod part;
mod retr;
mod setting;
mod settings;
mod targets;
#[cfg(test)]
mod tests;

pub use error::OptsError;
pub use host_ports::HostPorts;
pub use laws::{
    eret_has_one_value, esto_has_one_value, host_port_fits, retr_has_one_value,
    targets_have_one_value,
};
pub use part::{Eret, Esto, read_eret, read_esto, write_eret, write_esto};
pub use retr::{RetrOptions, read_retr, write_retr};
pub use targets::{read_targets, write_targets};

/// The most data connections of one stripe.
pub const MAX_PARALLEL: u16 = 64;

/// The most targets that one command names: as many as a transfer has stripes.
pub const MAX_TARGETS: usize = 16;

// The definitions of all crates cite the names: their numbers are pinned here.
const _: () = prove!(MAX_PARALLEL == 64);

const _: () = prove!(MAX_TARGETS == 16);
