ghost use Rattle.std.specs.Prelude.{◌≡◌, ◌++◌, List, length, take, IfOk, OnOk, OnErr};
ghost use Rattle.gft_base.specs.Words.{Lacks, line_feed};
ghost use Rattle.gft_reply.specs.declared.reply.Reply.{Reply};
ghost use Rattle.gft_reply.specs.ReplyStream.{Heard, part_behind, part_then};
ghost use Rattle.gft_reply.specs.Taking.{Grows, Stops, TakesPiece, heard_behind};

use crate::LINE_COUNT_LIMIT;
use crate::part::{part_of, without_return};
use crate::reply::Reply;
use gft_base::{OutOfMemory, split_first};
use gft_text::LINE_LIMIT;
use std::alloc::AllocError;

/// What a line did to the reply that has begun.
#[derive(Clone, Copy)]
pub(crate) enum Taken {
    /// It can't stand there.
    Refused,
    /// The reply goes on.
    Open,
    /// The reply ended.
    Ended,
}

/// Where the lines of some bytes stopped.
#[derive(Clone, Copy)]
pub(crate) enum Stop {
    /// At a line that can't stand there.
    Refused,
    /// At the last LF; `left` bytes stand behind it.
    Open { left: usize },
    /// At the end of the reply; `left` bytes stand behind it.
    Ended { left: usize },
}

/// Takes the lines of the bytes that are held, which are part of one line, and of the piece behind
/// them, up to one that ends the reply. If none does, the bytes of the line that has begun are
/// held. Nothing behind the end of the reply is copied. `OutOfMemory` leaves the lines that were
/// taken before, and what was held at the front of what is.
pub(crate) fn take_piece(
    begun: &mut Reply,
    held: &mut Vec<u8>,
    piece: &[u8],
) -> Result<Stop, OutOfMemory>
    requires { Lacks line_feed held.old.items }
    ensures takes { IfOk result (λ stop.
        TakesPiece begun.old (held.old.items ++ piece.now) stop begun.new held.new.items) }
    ensures grows { Grows begun.old begun.new }
    ensures err { OnErr result (take (length held.old.items) held.new.items ≡ held.old.items) }
{
    if held.is_empty() {
        return take_rest(begun, held, piece);
    }
    let (front, behind) = split_first(piece, b'\n');
    if held.len().saturating_add(front.len()) >= LINE_LIMIT {
        return Ok(Stop::Refused);
    }
    held.extend_from_slice(front)?;
    let Some(behind) = behind else {
        return Ok(Stop::Open { left: held.len() });
    };
    match take_line(begun, without_return(held))? {
        Taken::Refused => Ok(Stop::Refused),
        Taken::Ended => Ok(Stop::Ended { left: behind.len() }),
        Taken::Open => take_rest(begun, held, behind),
    }
}

/// Takes the lines of the piece, up to one that ends the reply, and holds what is left if none
/// does. `OutOfMemory` leaves the lines that were taken before, and what was held.
fn take_rest(begun: &mut Reply, held: &mut Vec<u8>, piece: &[u8]) -> Result<Stop, OutOfMemory>
    ensures takes { IfOk result (λ stop. TakesPiece begun.old piece.now stop begun.new held.new.items) }
    ensures grows { Grows begun.old begun.new }
    ensures err { OnErr result (held.new.items ≡ held.old.items) }
{
    match take_lines(begun, piece)? {
        Stop::Refused => Ok(Stop::Refused),
        Stop::Ended { left } => Ok(Stop::Ended { left }),
        Stop::Open { left } => {
            hold(held, &piece[piece.len() - left..])?;
            Ok(Stop::Open { left })
        }
    }
}

/// Holds these bytes in place of all.
fn hold(held: &mut Vec<u8>, bytes: &[u8]) -> Result<(), AllocError>
    ensures ok { OnOk result (held.new.items ≡ bytes.now) }
    ensures err { OnErr result (held.new.items ≡ held.old.items) }
{
    // The room comes first, so that a refusal changes nothing.
    held.reserve(bytes.len())?;
    held.clear();
    held.extend_from_slice(bytes)
}

/// Takes the lines of these bytes, up to one that ends the reply. `OutOfMemory` leaves the lines
/// that were taken before.
fn take_lines(begun: &mut Reply, bytes: &[u8]) -> Result<Stop, OutOfMemory>
    ensures stops { IfOk result (λ stop. Stops begun.old bytes.now stop begun.new) }
    ensures grows { Grows begun.old begun.new }
{
    let mut rest = bytes;
    loop {
        let (line, behind) = split_first(rest, b'\n');
        if line.len() >= LINE_LIMIT {
            return Ok(Stop::Refused);
        }
        let Some(behind) = behind else {
            return Ok(Stop::Open { left: rest.len() });
        };
        match take_line(begun, without_return(line))? {
            Taken::Refused => return Ok(Stop::Refused),
            Taken::Ended => return Ok(Stop::Ended { left: behind.len() }),
            Taken::Open => rest = behind,
        }
    }
}

/// Takes one line. `OutOfMemory` leaves the reply as it was.
fn take_line(begun: &mut Reply, line: &[u8]) -> Result<Taken, OutOfMemory>
    ensures heard { IfOk result (λ taken. (next : Reply → List Heard) →
        part_then begun.old (part_behind begun.old.lines begun.old.code line.now) next
        ≡ heard_behind taken begun.new next) }
    ensures grows { Grows begun.old begun.new }
    ensures err { OnErr result (begun.new ≡ begun.old) }
{
    let Some(part) = part_of(begun, line) else {
        return Ok(Taken::Refused);
    };
    if begun.lines.count() >= LINE_COUNT_LIMIT - 1 {
        return Ok(Taken::Refused);
    }
    begun.lines.push(part.text)?;
    begun.code = part.code;
    Ok(if part.ends { Taken::Ended } else { Taken::Open })
}
