use crate::forms::Form;
use crate::forms::number::Number;
use gft_base::{OutOfMemory, split_word};
use gft_opts::OptsError;
use std::alloc::Global;

/// A number; then the end, or a space and anything.
pub(crate) struct LeadingNumber;

impl Form for LeadingNumber {
    ghost use Rattle.std.specs.Prelude.{refl};
    ghost use Rattle.gft_command.specs.Parameters.{LeadingNumber};

    type Value = u64;

    ghost value_in = { LeadingNumber };

    ghost sample = { LeadingNumber 0 };

    fn blank(_alloc: Global) -> u64 {
        0
    }

    fn read(alloc: Global, text: &[u8]) -> Result<u64, OptsError> {
        let (first, _) = split_word(text, b' ');
        Number::read(alloc, first)
    }

    fn append(line: &mut Vec<u8>, value: &u64) -> Result<(), OutOfMemory> {
        Number::append(line, value)?;
        Ok(())
    }

    fn fits(_verb: &str, _value: &u64) -> bool {
        true
    }

    ghost is_spaced = { λ _. refl };
}
