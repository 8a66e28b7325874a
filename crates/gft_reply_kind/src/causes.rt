//! The reply to a transfer that ended without its file, by its cause.

ghost use Rattle.std.specs.Prelude.{◌≡◌, ◌++◌, IfOk, codes, decimal};
ghost use Rattle.gft_reply.specs.Words.{FitsReply};
ghost use Rattle.gft_reply_kind.specs.Replies.{IsPiece, bad_block_text, cause_reply, hole_text, idle_text};
ghost use Rattle.gft_reply_kind.specs.Replies.{line, lost_text, number_text, range_text};
ghost use Rattle.gft_reply_kind.specs.Replies.{too_many_channels_text, two_totals_text};

use crate::lines::one_line;
use gft_base::OutOfMemory;
use gft_pass::Cause;
use gft_range::Range;
use gft_reply::Reply;
use std::alloc::Global;

#[tactic(auto, unfolding(crate::specs::Replies::cause_reply))]
pub(crate) fn failed(alloc: Global, cause: Cause) -> Result<Reply, OutOfMemory>
    ensures reply { IfOk result (λ reply. reply ≡ cause_reply cause) }
    ensures fits { IfOk result FitsReply }
{
    match cause {
        Cause::Lost {
            lane,
            channel,
            taken,
        } => lost(alloc, lane, channel, taken),
        Cause::BadBlock {
            lane: _,
            channel: _,
            bad,
        } => bad_block(alloc, bad.place, bad.flags, bad.count, bad.offset),
        Cause::TwoTotals { kept, new } => two_totals(alloc, kept, new),
        Cause::BadTotal { total } => bad_total(alloc, total),
        Cause::TooManyEods { total } => too_many_eods(alloc, total),
        Cause::Idle { lane, turns } => idle(alloc, lane, turns),
        Cause::Hole {
            total,
            eods,
            missing,
        } => hole(alloc, total, eods, missing),
        Cause::StreamTooLong { lane } => stream_too_long(alloc, lane),
        Cause::TooManyChannels { lane, opened, live } => {
            too_many_channels(alloc, lane, opened, live)
        }
        Cause::Aborted => one_line(alloc, 426, b"Aborted."),
        Cause::ControlGone => one_line(alloc, 426, b"Control lost."),
        Cause::LinkFailed => one_line(alloc, 425, b"Data connection failed."),
        Cause::DriveFailed => one_line(alloc, 451, b"Drive failed."),
        Cause::RangesFull { kept: _ } => one_line(alloc, 452, b"Too many ranges: 16384."),
        Cause::Memory => one_line(alloc, 455, b"Out of memory."),
    }
}

fn lost(alloc: Global, lane: u16, channel: u32, taken: u64) -> Result<Reply, OutOfMemory>
    ensures reply { IfOk result (λ reply. reply ≡ line 426 (lost_text lane channel taken)) }
    ensures fits { IfOk result FitsReply }
{
    let text = format!(in alloc;
        "Channel lost: lane {lane}, channel {channel}, {taken} bytes taken."
    )?;
    one_line(alloc, 426, text.as_bytes())
}

fn bad_block(
    alloc: Global,
    place: u64,
    flags: u8,
    count: u64,
    offset: u64,
) -> Result<Reply, OutOfMemory>
    ensures reply { IfOk result (λ reply. reply ≡ line 426 (bad_block_text place flags count offset)) }
    ensures fits { IfOk result FitsReply }
{
    let text = format!(in alloc;
        "Bad block at {place}: flags {flags}, count {count}, offset {offset}."
    )?;
    one_line(alloc, 426, text.as_bytes())
}

fn two_totals(alloc: Global, kept: u64, new: u64) -> Result<Reply, OutOfMemory>
    ensures reply { IfOk result (λ reply. reply ≡ line 426 (two_totals_text kept new)) }
    ensures fits { IfOk result FitsReply }
{
    let text = format!(in alloc; "Two totals: {kept} and {new}.")?;
    one_line(alloc, 426, text.as_bytes())
}

fn bad_total(alloc: Global, total: u64) -> Result<Reply, OutOfMemory>
    ensures reply { IfOk result (λ reply.
        reply ≡ line 426 (codes "Bad total: " ++ (decimal total ++ codes "."))) }
    ensures fits { IfOk result FitsReply }
{
    let text = format!(in alloc; "Bad total: {total}.")?;
    one_line(alloc, 426, text.as_bytes())
}

fn too_many_eods(alloc: Global, total: u64) -> Result<Reply, OutOfMemory>
    ensures reply { IfOk result (λ reply.
        reply ≡ line 426 (codes "Too many EODs: total " ++ (decimal total ++ codes "."))) }
    ensures fits { IfOk result FitsReply }
{
    let text = format!(in alloc; "Too many EODs: total {total}.")?;
    one_line(alloc, 426, text.as_bytes())
}

fn stream_too_long(alloc: Global, lane: u16) -> Result<Reply, OutOfMemory>
    ensures reply { IfOk result (λ reply.
        reply ≡ line 426 (codes "Stream too long: lane " ++ (decimal lane ++ codes "."))) }
    ensures fits { IfOk result FitsReply }
{
    let text = format!(in alloc; "Stream too long: lane {lane}.")?;
    one_line(alloc, 426, text.as_bytes())
}

fn idle(alloc: Global, lane: u16, turns: u64) -> Result<Reply, OutOfMemory>
    ensures reply { IfOk result (λ reply. reply ≡ line 426 (idle_text lane turns)) }
    ensures fits { IfOk result FitsReply }
{
    let text = format!(in alloc; "Idle: lane {lane}, turn {turns}.")?;
    one_line(alloc, 426, text.as_bytes())
}

fn too_many_channels(alloc: Global, lane: u16, opened: u32, live: u16) -> Result<Reply, OutOfMemory>
    ensures reply { IfOk result (λ reply. reply ≡ line 426 (too_many_channels_text lane opened live)) }
    ensures fits { IfOk result FitsReply }
{
    let text = format!(in alloc; "Too many channels: lane {lane}, opened {opened}, live {live}.")?;
    one_line(alloc, 426, text.as_bytes())
}

fn hole(
    alloc: Global,
    total: Option<u64>,
    eods: u64,
    missing: Option<Range>,
) -> Result<Reply, OutOfMemory>
    ensures reply { IfOk result (λ reply. reply ≡ line 426 (hole_text total eods missing)) }
    ensures fits { IfOk result FitsReply }
{
    let total = number_or_none(alloc, total)?;
    let eods = digits(alloc, eods)?;
    let missing = range_or_none(alloc, missing)?;
    let mut text = Vec::from_slice(alloc, b"Hole: total ")?;
    text.extend_from_slice(&total)?;
    text.extend_from_slice(b", EODs ")?;
    text.extend_from_slice(&eods)?;
    text.extend_from_slice(b", first missing ")?;
    text.extend_from_slice(&missing)?;
    text.extend_from_slice(b".")?;
    one_line(alloc, 426, &text)
}

fn number_or_none(alloc: Global, number: Option<u64>) -> Result<Vec<u8>, OutOfMemory>
    ensures text { IfOk result (λ text. text.items ≡ number_text number) }
    ensures piece { IfOk result (λ text. IsPiece text.items 20) }
{
    match number {
        Some(number) => digits(alloc, number),
        None => Ok(Vec::from_slice(alloc, b"none")?),
    }
}

fn range_or_none(alloc: Global, range: Option<Range>) -> Result<Vec<u8>, OutOfMemory>
    ensures text { IfOk result (λ text. text.items ≡ range_text range) }
    ensures piece { IfOk result (λ text. IsPiece text.items 41) }
{
    match range {
        Some(range) => ends(alloc, range.start, range.end),
        None => Ok(Vec::from_slice(alloc, b"none")?),
    }
}

fn digits(alloc: Global, number: u64) -> Result<Vec<u8>, OutOfMemory>
    ensures text { IfOk result (λ text. text.items ≡ decimal number) }
    ensures piece { IfOk result (λ text. IsPiece text.items 20) }
{
    let text = format!(in alloc; "{number}")?;
    Ok(text.into_bytes())
}

fn ends(alloc: Global, start: u64, end: u64) -> Result<Vec<u8>, OutOfMemory>
    ensures text { IfOk result (λ text. text.items ≡ decimal start ++ (codes "-" ++ decimal end)) }
    ensures piece { IfOk result (λ text. IsPiece text.items 41) }
{
    let text = format!(in alloc; "{start}-{end}")?;
    Ok(text.into_bytes())
}
