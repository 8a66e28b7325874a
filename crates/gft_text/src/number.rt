ghost use Rattle.std.specs.Prelude.{ℕ, IfOk, OnErr};
ghost use Rattle.gft_base.specs.Words.{IsNumber};

use gft_base::read_decimal;
use thiserror::Error;

/// The text is no number, or no address of six numbers.
#[derive(Clone, Copy, Debug, PartialEq, Eq, Error)]
#[error("bad number")]
pub struct BadNumber;

/// Reads a number: 1 to 20 decimal digits, of a value up to 2^64 - 1. Leading zeros are taken.
/// `BadNumber` if the text is none.
pub fn read_number(text: &[u8]) -> Result<u64, BadNumber>
    ensures number { IfOk result (IsNumber text.now) }
    ensures none { OnErr result ((n : ℕ) → ¬ IsNumber text.now n) }
{
    match read_decimal(text) {
        Some(number) => Ok(number),
        None => Err(BadNumber),
    }
}
