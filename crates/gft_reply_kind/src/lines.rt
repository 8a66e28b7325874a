//! A reply is made of its lines.

ghost use Rattle.std.specs.Prelude.{◌≡◌, ◌≤◌, ◌<◌, IfOk, IsTrue, length};
ghost use Rattle.std.specs.List.{list_all};
ghost use Rattle.gft_reply.specs.Words.{FitsReply};
ghost use Rattle.gft_reply_kind.specs.Replies.{is_line, line};

use gft_base::OutOfMemory;
use gft_reply::{LINE_COUNT_LIMIT, Reply, ReplyLines};
use std::alloc::Global;

/// A reply of one line.
pub(crate) fn one_line(alloc: Global, code: u16, text: &[u8]) -> Result<Reply, OutOfMemory>
    requires code { (100 ≤ code) × (code ≤ 599) }
    requires text { IsTrue (is_line text.now) }
    ensures reply { IfOk result (λ reply. reply ≡ line code text.now) }
    ensures fits { IfOk result FitsReply }
{
    let mut lines = ReplyLines::new(alloc);
    lines.push(text)?;
    Ok(of_lines(code, lines))
}

/// A reply of lines that have room. It has a text.
pub(crate) fn of_lines(code: u16, lines: ReplyLines) -> Reply
    requires code { (100 ≤ code) × (code ≤ 599) }
    requires count { (0 < length lines) × (length lines < LINE_COUNT_LIMIT) }
    requires lines { IsTrue (list_all is_line lines) }
    ensures reply { result ≡ record { code = code; lines = lines } }
    ensures fits { FitsReply result }
{
    Reply { code, lines }
}
