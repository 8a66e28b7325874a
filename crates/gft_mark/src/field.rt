ghost use Rattle.std.specs.Prelude.{◌≡◌, ◌<◌, ℕ, List, [], length, slice_index_or, MatchOption};
ghost use Rattle.gft_base.specs.Words.{IsNumber};
ghost use Rattle.gft_mark.specs.Fields.{IsField, IsShortNumber, IsTimestamp, Skips, States};

use crate::value::{read_short, read_tenths};
use gft_base::{read_decimal, strip_front};
use gft_reply::ReplyLines;

/// The text of the line at this place.
pub(crate) fn line_at(lines: &ReplyLines, at: usize) -> &[u8]
    requires { at < length lines.now }
    ensures { result.now ≡ slice_index_or lines.now at [] }
{
    lines.nth(at).unwrap()
}

/// The tenths of a second that the line states under this name.
pub(crate) fn stated_tenths(line: &[u8], name: &[u8]) -> Option<u64>
    ensures { MatchOption result ((n : ℕ) → ¬ States name.now IsTimestamp line.now n)
        (States name.now IsTimestamp line.now) }
{
    read_tenths(field_value(line, name)?)
}

/// The number that the line states under this name.
pub(crate) fn stated_number(line: &[u8], name: &[u8]) -> Option<u64>
    ensures { MatchOption result ((n : ℕ) → ¬ States name.now IsNumber line.now n)
        (States name.now IsNumber line.now) }
{
    read_decimal(field_value(line, name)?)
}

/// The number of 16 bits that the line states under this name.
pub(crate) fn stated_short(line: &[u8], name: &[u8]) -> Option<u16>
    ensures { MatchOption result ((n : ℕ) → ¬ States name.now IsShortNumber line.now n)
        (States name.now IsShortNumber line.now) }
{
    read_short(field_value(line, name)?)
}

/// What stands behind this name, with any spaces before the name and the value.
fn field_value<'a>(line: &'a [u8], name: &[u8]) -> Option<&'a [u8]>
    ensures { MatchOption result ((value : List ℕ) → ¬ IsField name.now line.now value)
        (λ value. IsField name.now line.now value.now) }
{
    let behind = strip_front(without_spaces(line), name)?;
    Some(without_spaces(behind))
}

/// The text without the spaces at its beginning.
fn without_spaces(text: &[u8]) -> &[u8]
    ensures { Skips text.now result.now }
{
    let mut left = text;
    while let [first, rest @ ..] = left {
        if *first != b' ' {
            return left;
        }
        left = rest;
    }
    left
}
