//! The line of a command, as it is sent.

ghost use Rattle.std.specs.Prelude.{◌≡◌, ◌≤◌, ◌^◌, ◌++◌, ◌<◌, ◌∷◌, [], ◌↔◌, decimal, length, IsTrue};
ghost use Rattle.std.specs.Prelude.{IfOk};
ghost use Rattle.gft_base.specs.Words.{Lacks, carriage_return, line_feed};
ghost use Rattle.gft_command.specs.Parameters.{FitsBehind};
ghost use Rattle.gft_command.specs.Table.{is_verb};
ghost use Rattle.gft_command.specs.Telnet.{doubled};

use crate::telnet::{double, doubled_len};
use gft_base::{OutOfMemory, find_byte};
use gft_text::LINE_LIMIT;

/// Whether a line of this verb is one line and, with a space and its CR, not too long, where its
/// parameter is so many bytes without an LF and these behind them.
pub(crate) fn fits_behind(verb: &str, front: usize, bytes: &[u8]) -> bool
    requires verb { IsTrue (is_verb verb.now) }
    requires front { front < 50 }
    ensures { IsTrue result ↔ FitsBehind verb.now front bytes.now }
{
    lacks_line_feed(bytes) && doubled_len(bytes) < LINE_LIMIT - 2 - verb.len() - front
}

fn lacks_line_feed(text: &[u8]) -> bool
    ensures { IsTrue result ↔ Lacks line_feed text.now }
{
    find_byte(text, b'\n').is_none()
}

/// How many decimal digits a number has.
pub(crate) fn digit_count(number: u64) -> usize
    ensures digits { result ≡ length (decimal number) }
    ensures few { result ≤ 20 }
    ensures range { number < 2 ^ 64 }
{
    let mut count = 1;
    let mut left = number;
    while left >= 10 {
        left /= 10;
        count += 1;
    }
    count
}

/// The line as it is sent: each byte 255 doubled, with its end.
pub(crate) fn end(text: Vec<u8>) -> Result<Vec<u8>, OutOfMemory>
    ensures { IfOk result (λ line. line.items ≡ doubled text.items ++ carriage_return ∷ line_feed ∷ []) }
{
    let mut line = double(text)?;
    line.extend_from_slice(b"\r\n")?;
    Ok(line)
}
