ghost use Rattle.std.specs.Prelude.{◌≡◌, ◌≤◌, ℕ, List, Bool, MatchOption, IfSome, Some, None};
ghost use Rattle.std.specs.Str.Lines.{strip_carriage_return};
ghost use Rattle.gft_reply.specs.Line.{digit_of, mark_of, head_of, inner_part, later_part, without_space};
ghost use Rattle.gft_reply.specs.ReplyStream.{part_behind};

use crate::reply::Reply;

/// What a line gives a reply: the code, its text, and whether it ends the reply.
#[derive(Clone, Copy)]
pub(crate) struct Part<'a> {
    pub(crate) code: u16,
    pub(crate) text: &'a [u8],
    pub(crate) ends: bool,
}

/// The line without a CR at its end.
pub(crate) fn without_return(line: &[u8]) -> &[u8]
    ensures { result.now ≡ strip_carriage_return line.now }
{
    match line {
        [line @ .., b'\r'] => line,
        line => line,
    }
}

/// What the line gives a reply that has these lines.
pub(crate) fn part_of<'a>(begun: &Reply, line: &'a [u8]) -> Option<Part<'a>>
    ensures { MatchOption result (part_behind begun.now.lines begun.now.code line.now ≡ None)
        (λ p. part_behind begun.now.lines begun.now.code line.now
        ≡ Some (record { code = p.code; text = p.text.now; ends = p.ends })) }
{
    if begun.lines.count() == 0 {
        read_head(line)
    } else {
        Some(read_later(begun.code, line))
    }
}

/// A code, a space or a dash, and the text behind it.
fn read_head(line: &[u8]) -> Option<Part<'_>>
    ensures { MatchOption result (head_of line.now ≡ None)
        (λ p. head_of line.now ≡ Some (record { code = p.code; text = p.text.now; ends = p.ends })) }
{
    let [a, b, c, mark, text @ ..] = line else {
        return None;
    };
    let hundreds = read_digit(*a, 1, 5)?;
    let tens = read_digit(*b, 0, 9)?;
    let ones = read_digit(*c, 0, 9)?;
    let ends = read_mark(*mark)?;
    Some(Part {
        code: 100 * hundreds + 10 * tens + ones,
        text,
        ends,
    })
}

fn read_digit(byte: u8, first: u8, last: u8) -> Option<u16>
    requires { (first ≤ 9) × (last ≤ 9) }
    ensures value { result ≡ digit_of first last byte }
    ensures bound { IfSome result (λ d. d ≤ 9) }
{
    if byte < b'0' + first {
        return None;
    }
    if byte > b'0' + last {
        return None;
    }
    Some(u16::from(byte - b'0'))
}

fn read_mark(byte: u8) -> Option<bool>
    ensures { result ≡ mark_of byte }
{
    if byte == b' ' {
        Some(true)
    } else if byte == b'-' {
        Some(false)
    } else {
        None
    }
}

/// The last line of a reply of this code, or else an inner line.
fn read_later(code: u16, line: &[u8]) -> Part<'_>
    ensures code { result.code ≡ (later_part code (head_of line.now) line.now).code }
    ensures text { result.text.now ≡ (later_part code (head_of line.now) line.now).text }
    ensures ends { result.ends ≡ (later_part code (head_of line.now) line.now).ends }
{
    match read_head(line) {
        Some(head) if head.ends && head.code == code => head,
        _ => Part {
            code,
            text: without_space(line),
            ends: false,
        },
    }
}

/// The line without one leading space.
fn without_space(line: &[u8]) -> &[u8]
    ensures { result.now ≡ without_space line.now }
{
    match line {
        [b' ', text @ ..] => text,
        whole => whole,
    }
}
