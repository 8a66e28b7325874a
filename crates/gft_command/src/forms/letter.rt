use crate::forms::Form;
use gft_base::OutOfMemory;
use gft_opts::OptsError;
use std::alloc::Global;

/// One letter, as a capital; then the end, or a space and anything.
pub(crate) struct Letter;

impl Form for Letter {
    ghost use Rattle.std.specs.Prelude.{refl};
    ghost use Rattle.gft_command.specs.Parameters.{Letter};

    type Value = u8;

    ghost value_in = { Letter };

    ghost sample = { Letter 0 };

    fn blank(_alloc: Global) -> u8 {
        b'A'
    }

    fn read(_alloc: Global, text: &[u8]) -> Result<u8, OptsError> {
        match text {
            [first] | [first, b' ', ..] if first.is_ascii_alphabetic() => {
                Ok(first.to_ascii_uppercase())
            }
            _ => Err(OptsError::BadParameter),
        }
    }

    fn append(line: &mut Vec<u8>, value: &u8) -> Result<(), OutOfMemory> {
        line.push(*value)?;
        Ok(())
    }

    fn fits(_verb: &str, value: &u8) -> bool {
        value.is_ascii_uppercase()
    }

    ghost is_spaced = { λ _. refl };
}
