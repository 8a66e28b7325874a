//! The text below every command and reply: lines of a stream, numbers, names of files, addresses,
//! and tables of words. A text is bytes; only what its grammar names is taken.
//!
//! Begin with [`Lines::feed`], and with `specs/LineStream.antt`, which says what a stream tells. Each
//! reader answers a value exactly if the grammar in `specs/` relates the text to it; no text has
//! two values. The laws have empty bodies and serve proofs alone. Nothing here reads a socket.
#![tactic(auto)]

mod host_port;
mod laws;
mod lines;
mod name;
mod number;
mod table;
#[cfg(test)]
mod tests;
mod words;

pub use host_port::{HostPort, read_host_port, write_host_port};
pub use laws::{
    an_overlong_line, host_ports_have_one_value, names_have_one_value, no_line_yet,
    numbers_have_one_value, one_line,
};
pub use lines::{Fed, LineError, Lines};
pub use name::{Name, NameError, is_name, read_name};
pub use number::{BadNumber, read_number};
pub use table::{Entry, Table};
pub use words::Words;

/// The most bytes that are taken since a line's end: as many without an LF are too long a line.
pub const LINE_LIMIT: usize = 65536;

/// The most bytes of a file's name.
pub const MAX_NAME_LEN: usize = 200;

// The definitions of all crates cite the names: their numbers are pinned here.
const _: () = prove!(LINE_LIMIT == 65_536);

const _: () = prove!(MAX_NAME_LEN == 200);
