//! The replies that name numbers, addresses or extensions.

ghost use Rattle.std.specs.Prelude.{◌≡◌, ◌≤◌, ◌++◌, IfOk, codes, decimal, length, map};
ghost use Rattle.gft_text.specs.Words.{host_port_text};
ghost use Rattle.gft_reply.specs.Words.{FitsReply};
ghost use Rattle.gft_reply_kind.specs.Replies.{features, line, lines_from};

use crate::lines::{of_lines, one_line};
use gft_base::OutOfMemory;
use gft_opts::MAX_TARGETS;
use gft_reply::{Reply, ReplyLines};
use gft_text::{HostPort, write_host_port};
use std::alloc::Global;

/// The extensions (RFC 2389, section 3.2).
pub(crate) fn feature_lines(alloc: Global) -> Result<Reply, OutOfMemory>
    ensures reply { IfOk result (λ reply.
        reply ≡ lines_from 211 (codes "Extensions supported:") features (codes "End")) }
    ensures fits { IfOk result FitsReply }
{
    let mut lines = ReplyLines::new(alloc);
    lines.push(b"Extensions supported:")?;
    lines.push(b"DCAU")?;
    lines.push(b"ERET")?;
    lines.push(b"ESTO")?;
    lines.push(b"PARALLEL")?;
    lines.push(b"SBUF")?;
    lines.push(b"SIZE")?;
    lines.push(b"SPAS")?;
    lines.push(b"SPOR")?;
    lines.push(b"End")?;
    Ok(of_lines(211, lines))
}

/// Where the one lane listens (RFC 959, section 4.1.2).
pub(crate) fn passive(alloc: Global, at: &HostPort) -> Result<Reply, OutOfMemory>
    ensures reply { IfOk result (λ reply.
        reply ≡ line 227 (codes "Entering Passive Mode (" ++ host_port_text at.now ++ codes ")")) }
    ensures fits { IfOk result FitsReply }
{
    let place = write_host_port(alloc, at)?;
    let mut text = Vec::from_slice(alloc, b"Entering Passive Mode (")?;
    text.extend_from_slice(&place)?;
    text.extend_from_slice(b")")?;
    one_line(alloc, 227, &text)
}

/// Where the lanes listen, an inner line each (GFD.20, SPAS).
pub(crate) fn striped(alloc: Global, places: &[HostPort]) -> Result<Reply, OutOfMemory>
    requires { length places.now ≤ MAX_TARGETS }
    ensures reply { IfOk result (λ reply. reply ≡ lines_from 229 (codes "Entering Striped Passive Mode.")
        (map host_port_text places.now) (codes "End")) }
    ensures fits { IfOk result FitsReply }
{
    let mut lines = ReplyLines::new(alloc);
    lines.push(b"Entering Striped Passive Mode.")?;
    'places: for at in places {
        lines.push(&write_host_port(alloc, at)?)?;
    }
    lines.push(b"End")?;
    Ok(of_lines(229, lines))
}

pub(crate) fn targets_set(alloc: Global, count: usize) -> Result<Reply, OutOfMemory>
    ensures reply { IfOk result (λ reply. reply ≡ line 200 (decimal count ++ codes " targets set.")) }
    ensures fits { IfOk result FitsReply }
{
    let text = format!(in alloc; "{count} targets set.")?;
    one_line(alloc, 200, text.as_bytes())
}

/// The length of a file in bytes (RFC 3659, section 4).
pub(crate) fn length_of(alloc: Global, len: u64) -> Result<Reply, OutOfMemory>
    ensures reply { IfOk result (λ reply. reply ≡ line 213 (decimal len)) }
    ensures fits { IfOk result FitsReply }
{
    let text = format!(in alloc; "{len}")?;
    one_line(alloc, 213, text.as_bytes())
}
