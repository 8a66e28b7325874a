//! The words of both programs: what `gridftpd` and `gridftp` are asked for on their command lines.
//!
//! Begin with [`read_server_words`], and with `specs/Serve.antt`. Each reader answers a value exactly
//! where the grammar in `specs/` relates the words to it. The words are read by hand; clap writes the
//! usage texts alone. Nothing here prints.
#![tactic(auto)]

mod arguments;
mod client;
mod error;
mod laws;
mod options;
mod server;
#[cfg(test)]
mod tests;
mod usage;

pub use client::{ClientWords, MAX_MADE, read_client_words};
pub use error::WordsError;
pub use laws::{client_words_have_one_value, server_words_have_one_value};
pub use server::{ServerWords, drain_name, read_server_words};
pub use usage::{client_usage, server_usage};

// The definitions cite the name: here is its number.
const _: () = prove!(MAX_MADE == 1_073_741_824);
