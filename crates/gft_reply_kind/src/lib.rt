//! Every reply of a server to its peer, and its text (RFC 959, section 4.2; RFC 2389; RFC 3659; GFD.20).
//!
//! Begin with [`ReplyKind`], which names the replies, and with `specs/Replies.antt`, which has the code and
//! the lines of each: no other crate has a text. A reply is made whole in memory, and nothing here puts it.
#![tactic(auto)]

mod causes;
mod lines;
mod refusals;
mod reply_kind;
#[cfg(test)]
mod tests;
mod values;

pub use reply_kind::ReplyKind;
