//! Replies of the control conversation (RFC 959, section 4.2): one line, or a first line, inner lines
//! and a last line of the same code.
//!
//! Begin with [`Replies::feed`], and with `specs/ReplyStream.antt`, which says what a stream's lines
//! tell; `specs/Grammar.antt` says which lines make one reply. Nothing here reads a socket.
#![tactic(auto)]

mod laws;
mod part;
mod replies;
mod reply;
mod reply_lines;
mod taking;
#[cfg(test)]
mod tests;
mod written;

pub use laws::replies_are_of_lines;
pub use replies::{Got, Replies, ReplyError};
pub use reply::Reply;
pub use reply_lines::ReplyLines;

/// So many lines are too many for one reply.
pub const LINE_COUNT_LIMIT: usize = 1024;

// The definitions of all crates cite the name: its number is pinned here.
const _: () = prove!(LINE_COUNT_LIMIT == 1024);
