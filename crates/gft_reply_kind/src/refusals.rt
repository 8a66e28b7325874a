//! The replies to a line that is no command, and to a call that the library refuses.

ghost use Rattle.std.specs.Prelude.{◌≡◌, ◌++◌, IfOk, codes, decimal};
ghost use Rattle.gft_reply.specs.Words.{FitsReply};
ghost use Rattle.gft_reply_kind.specs.Replies.{busy_reply, library_reply, line, unread_reply};

use crate::lines::one_line;
use gft_base::OutOfMemory;
use gft_book::Use;
use gft_command::CommandError;
use gft_library::LibraryError;
use gft_reply::Reply;
use std::alloc::Global;

/// A line that is no command.
#[tactic(auto, unfolding(crate::specs::Replies::unread_reply))]
pub(crate) fn unread(alloc: Global, why: CommandError) -> Result<Reply, OutOfMemory>
    ensures reply { IfOk result (λ reply. reply ≡ unread_reply why) }
    ensures fits { IfOk result FitsReply }
{
    match why {
        CommandError::UnknownVerb => one_line(alloc, 500, b"Unknown command."),
        CommandError::MissingParameter => one_line(alloc, 501, b"Parameter missing."),
        CommandError::BadParameter => one_line(alloc, 501, b"Bad parameter."),
        CommandError::OutOfMemory => one_line(alloc, 455, b"Out of memory."),
    }
}

/// The library refuses.
#[tactic(auto, unfolding(crate::specs::Replies::library_reply))]
pub(crate) fn refused(alloc: Global, why: LibraryError) -> Result<Reply, OutOfMemory>
    ensures reply { IfOk result (λ reply. reply ≡ library_reply why) }
    ensures fits { IfOk result FitsReply }
{
    match why {
        LibraryError::Busy { found } => busy(alloc, found),
        LibraryError::Damaged(_) => one_line(alloc, 451, b"Journal damaged."),
        LibraryError::CompleteAlready { len: _ } => one_line(alloc, 550, b"Complete already."),
        LibraryError::NotInJournal { missing } => missing_in(alloc, missing.start, missing.end),
        LibraryError::NoSuch => one_line(alloc, 550, b"No such file."),
        LibraryError::Incomplete => one_line(alloc, 550, b"Not complete."),
        LibraryError::TooManyNames => one_line(alloc, 452, b"Too many names: 65536."),
        LibraryError::ShelfFailed => one_line(alloc, 451, b"Drive failed."),
        LibraryError::OutOfMemory => one_line(alloc, 455, b"Out of memory."),
        LibraryError::DriveFailed => one_line(alloc, 451, b"Drive failed."),
    }
}

/// The file is in use.
#[tactic(auto, unfolding(crate::specs::Replies::busy_reply))]
fn busy(alloc: Global, found: Use) -> Result<Reply, OutOfMemory>
    ensures reply { IfOk result (λ reply. reply ≡ busy_reply found) }
    ensures fits { IfOk result FitsReply }
{
    match found {
        Use::Storing => one_line(alloc, 450, b"Busy: storing."),
        Use::Rest | Use::Reading(_) => one_line(alloc, 450, b"Busy: reading."),
    }
}

/// The list names these offsets, which aren't stored.
fn missing_in(alloc: Global, start: u64, end: u64) -> Result<Reply, OutOfMemory>
    ensures reply { IfOk result (λ reply. reply ≡ line 554 (codes "REST names " ++ (decimal start
        ++ (codes "-" ++ (decimal end ++ codes ", which is not stored."))))) }
    ensures fits { IfOk result FitsReply }
{
    let text = format!(in alloc; "REST names {start}-{end}, which is not stored.")?;
    one_line(alloc, 554, text.as_bytes())
}
