//! The control conversation of a GridFTP server (RFC 959; RFC 2389; GFD.20): a greeting, and for each line
//! that the peer sends the replies of one table.
//!
//! Begin with [`run_session`], and with `specs/Table.antt`, which is the table; `specs/Conversation.antt`
//! says what a whole session is, and gft_reply_kind has the text of every reply. A line goes from bytes to
//! a command, to a step that changes the settings and names a reply, to that reply's bytes.
//!
//! SIZE and DELE ask the library, STOR and ESTO store what the lanes that wait bring. Sending isn't built in
//! yet: RETR and ERET are answered `504 Not built.` Nothing here reads a socket; listening is the link's.
#![tactic(auto)]

mod answering;
mod asking;
mod choices;
mod config;
mod hearing;
mod jobs;
mod next;
mod ports;
mod response;
mod session;
mod session_end;
mod settings;
mod stepping;
mod storing;
#[cfg(test)]
mod tests;

pub use config::Config;
pub use session::run_session;
pub use session_end::SessionEnd;
