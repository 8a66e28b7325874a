ghost use Rattle.std.specs.Prelude.{◌≡◌, ℕ, ◌<◌, MatchOption, ◌↔◌, IsTrue};
ghost use Rattle.gft_base.specs.Words.{AreDigits, dot, parts_left};
ghost use Rattle.std.specs.Option.{option_copied};
ghost use Rattle.gft_mark.specs.Fields.{AreTenths, IsFraction, IsShortNumber, IsTimestamp};

use gft_base::{read_decimal, split_first};

/// The tenths of a second of a timestamp.
pub(crate) fn read_tenths(text: &[u8]) -> Option<u64>
    ensures { MatchOption result ((n : ℕ) → ¬ IsTimestamp text.now n) (IsTimestamp text.now) }
{
    let (whole, fraction) = split_first(text, b'.');
    let seconds = read_decimal(whole)?;
    let tenth = read_tenth(fraction)?;
    seconds.checked_mul(10)?.checked_add(tenth)
}

/// The tenth that the fraction of a second begins with, or 0 if there is no fraction.
fn read_tenth(fraction: Option<&[u8]>) -> Option<u64>
    ensures { MatchOption result ((n : ℕ) → ¬ AreTenths (parts_left dot (option_copied fraction.entry)) n)
        (λ n. AreTenths (parts_left dot (option_copied fraction.entry)) n × (n < 10)) }
{
    match fraction {
        Some(digits) => first_digit(digits),
        None => Some(0),
    }
}

/// The first digit, if there are digits alone.
fn first_digit(digits: &[u8]) -> Option<u64>
    ensures { MatchOption result ((n : ℕ) → ¬ IsFraction digits.now n)
        (λ n. IsFraction digits.now n × (n < 10)) }
{
    let (first, _) = digits.split_first()?;
    if !are_digits(digits) {
        return None;
    }
    Some(u64::from(*first - b'0'))
}

fn are_digits(text: &[u8]) -> bool
    ensures { IsTrue result ↔ AreDigits text.now }
{
    let mut left = text;
    while let [byte, rest @ ..] = left {
        if !byte.is_ascii_digit() {
            return false;
        }
        left = rest;
    }
    true
}

/// A number of 16 bits.
pub(crate) fn read_short(text: &[u8]) -> Option<u16>
    ensures { MatchOption result ((n : ℕ) → ¬ IsShortNumber text.now n) (IsShortNumber text.now) }
{
    match read_decimal(text) {
        Some(n) if n <= 0xffff => Some(n as u16),
        _ => None,
    }
}
