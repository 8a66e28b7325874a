use crate::forms::Form;
use gft_base::{OutOfMemory, read_decimal};
use gft_opts::OptsError;
use std::alloc::Global;

/// A number.
pub(crate) struct Number;

impl Form for Number {
    ghost use Rattle.std.specs.Prelude.{refl};
    ghost use Rattle.gft_command.specs.Parameters.{Number};

    type Value = u64;

    ghost value_in = { Number };

    ghost sample = { Number 0 };

    fn blank(_alloc: Global) -> u64 {
        0
    }

    fn read(_alloc: Global, text: &[u8]) -> Result<u64, OptsError> {
        match read_decimal(text) {
            Some(number) => Ok(number),
            None => Err(OptsError::BadParameter),
        }
    }

    fn append(line: &mut Vec<u8>, value: &u64) -> Result<(), OutOfMemory> {
        let number = *value;
        let digits = format!(in *line.allocator(); "{number}")?;
        line.extend_from_slice(digits.as_bytes())?;
        Ok(())
    }

    fn fits(_verb: &str, _value: &u64) -> bool {
        true
    }

    ghost is_spaced = { λ _. refl };
}
