ghost use Rattle.std.specs.Prelude.{◌≡◌, ◌≤◌, ◌<◌, ◌+◌, ◌++◌, ◌∷◌, ◌↔◌, [], ℕ, List, length};
ghost use Rattle.std.specs.Prelude.{IsTrue, IfOk, OnOk};
ghost use Rattle.std.specs.List.{AllByRecursion};
ghost use Rattle.gft_base.specs.Words.{Lacks};
ghost use Rattle.gft_reply.specs.ReplyStream.{Replied, replies};
ghost use Rattle.gft_reply.specs.Written.{FitsReply, IsReplyLine, code_text, front_of, place_before};
ghost use Rattle.gft_reply.specs.Written.{reply_text, spelled, written_line, written_lines};

use crate::LINE_COUNT_LIMIT;
use crate::reply::Reply;
use gft_base::{OutOfMemory, split_first};
use gft_text::{LINE_LIMIT, Words};
use std::alloc::Global;

/// Where a line stands among those of its reply. A reply's only line is its last.
#[derive(Clone, Copy)]
pub(crate) enum Place {
    First,
    Inner,
    Last,
}

impl Reply {
    /// Whether the reply has a text: a code from 100 to 599, and 1 to 1,023 lines without an LF, each
    /// of which, with its code or space and its CR, is shorter than `LINE_LIMIT`.
    pub fn fits(&self) -> bool
        ensures { IsTrue result ↔ FitsReply self.now }
    {
        let count = self.lines.count();
        if self.code < 100 || self.code > 599 {
            return false;
        }
        if count == 0 || count >= LINE_COUNT_LIMIT {
            return false;
        }
        lines_fit(self.code, self.lines.as_slice())
    }

    /// The text of a reply that fits (RFC 959, section 4.2). Each inner line begins with a space.
    /// `OutOfMemory` if it can't be allocated.
    pub fn write(&self, alloc: Global) -> Result<Vec<u8>, OutOfMemory>
        requires { FitsReply self.now }
        ensures text { IfOk result (λ text. text.items ≡ reply_text self.now) }
        ensures read_again { IfOk result (λ text. (later : List ℕ) →
            replies (text.items ++ later) ≡ Replied self.now ∷ replies later) }
    {
        let mut text = Vec::new(alloc);
        write_lines(&mut text, self.code, self.lines.as_slice())?;
        Ok(text)
    }
}

/// The place of a line that stands here, with these behind it: the last if there are none.
fn place_before(at: Place, behind: &[Words]) -> Place
    ensures { result ≡ place_before at behind.now }
{
    if behind.is_empty() { Place::Last } else { at }
}

fn lines_fit(code: u16, lines: &[Words]) -> bool
    ensures { IsTrue result ↔ AllByRecursion IsReplyLine (written_lines Place.First code lines.now) }
{
    let mut rest = lines;
    let mut at = Place::First;
    while let [line, behind @ ..] = rest {
        if !line_fits(code, place_before(at, behind), line.bytes()) {
            return false;
        }
        at = Place::Inner;
        rest = behind;
    }
    true
}

fn line_fits(code: u16, at: Place, line: &[u8]) -> bool
    ensures { IsTrue result ↔ IsReplyLine (written_line at code line.now) }
{
    let (_, behind) = split_first(line, b'\n');
    if behind.is_some() {
        return false;
    }
    line.len() < LINE_LIMIT - 1 - front_len(at)
}

fn front_len(at: Place) -> usize
    ensures len { (code : ℕ) → result ≡ length (front_of at code) }
    ensures bound { result ≤ 4 }
{
    match at {
        Place::First | Place::Last => 4,
        Place::Inner => 1,
    }
}

fn write_lines(text: &mut Vec<u8>, code: u16, lines: &[Words]) -> Result<(), OutOfMemory>
    requires { code ≤ 599 }
    ensures { OnOk result (text.new.items
        ≡ text.old.items ++ spelled (written_lines Place.First code lines.now)) }
{
    let mut rest = lines;
    let mut at = Place::First;
    while let [line, behind @ ..] = rest {
        write_front(text, code, place_before(at, behind))?;
        text.extend_from_slice(line.bytes())?;
        text.extend_from_slice(b"\r\n")?;
        at = Place::Inner;
        rest = behind;
    }
    Ok(())
}

/// Writes what stands before a line's text.
fn write_front(text: &mut Vec<u8>, code: u16, at: Place) -> Result<(), OutOfMemory>
    requires { code ≤ 599 }
    ensures { OnOk result (text.new.items ≡ text.old.items ++ front_of at code) }
{
    match at {
        Place::First => text.extend_from_slice(&head(code, b'-'))?,
        Place::Inner => text.push(b' ')?,
        Place::Last => text.extend_from_slice(&head(code, b' '))?,
    }
    Ok(())
}

/// The digits of a code, and its mark.
fn head(code: u16, mark: u8) -> [u8; 4]
    requires { code ≤ 599 }
    ensures { result ≡ code_text code ++ mark ∷ [] }
{
    let tens = code % 100;
    [
        b'0' + (code / 100) as u8,
        b'0' + (tens / 10) as u8,
        b'0' + (tens % 10) as u8,
        mark,
    ]
}
