//! The commands of the control conversation (RFC 959, sections 4.1 and 5.3; RFC 3659; GFD.20): a line
//! is a command, a command is a line, and nothing else is.
//!
//! Begin with [`parse`], and with `specs/Commands.antt`, which says which lines are which command.
//! [`Command::write`] gives the one text of a command, and [`Command::fits`] says whether it has one.
//! Each command that was read has one, unless its own line has an LF or is too long.
//! The verbs stand in one place, `with_verbs!` in `command.rt`. Nothing here reads a socket or looks
//! at a file: a name of a file is any bytes.
#![tactic(auto)]

mod command;
mod error;
mod forms;
mod laws;
mod line;
mod telnet;
#[cfg(test)]
mod tests;

pub use command::{Command, parse};
pub use error::CommandError;
pub use laws::commands_have_one_value;
