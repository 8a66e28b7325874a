//! Extended block mode (GFD.20): the header of a block, and a reader of one data connection, which
//! takes its bytes in any pieces and tells what they bring.
//!
//! A block is a header of 17 bytes and `count` bytes of data. All numbers are in network byte order.
//!
//! | Bytes | Field |
//! |---|---|
//! | 0 | flags: 64 EOF, 32 suspect data, 16 restart marker, 8 EOD, 4 the sender will close |
//! | 1 to 8 | count, in bytes |
//! | 9 to 16 | offset of the data, in bytes; under EOF the number of EODs over all connections |
//!
//! Begin with `Channel::feed`, and with `specs/Arrivals.antt`, which says what a stream tells. A writer
//! sends `encode` of a header with flags 0 and the data behind it, 64 for its EOF, 12 for its EOD.
//! No call takes memory, and nothing here reads a socket.
#![tactic(auto)]

mod bad_block;
mod channel;
mod event;
mod flags;
mod header;
mod laws;
#[cfg(test)]
mod tests;

pub use bad_block::BadBlock;
pub use channel::Channel;
pub use event::{Event, Step};
pub use header::{Header, encode};
pub use laws::{early, grows, nothing_after, one_block};

/// How many bytes a header has.
pub const HEADER_LEN: usize = 17;

/// The most bytes that one channel takes.
pub const MAX_BYTES: u64 = 1 << 58;

// The definitions of all crates cite the names: their numbers are pinned here.
const _: () = prove!(HEADER_LEN == 17);

const _: () = prove!(MAX_BYTES == 288_230_376_151_711_744);
