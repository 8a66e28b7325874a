use crate::forms::Form;
use crate::line::fits_behind;
use gft_base::OutOfMemory;
use gft_opts::OptsError;
use gft_text::Words;
use std::alloc::Global;

/// One byte or more, kept as they are.
pub(crate) struct Text;

impl Form for Text {
    ghost use Rattle.std.specs.Prelude.{[], refl};
    ghost use Rattle.gft_command.specs.Parameters.{Text};

    type Value = Words;

    ghost value_in = { Text };

    ghost sample = { Text [] };

    fn blank(alloc: Global) -> Words {
        Words::new(alloc)
    }

    fn read(alloc: Global, text: &[u8]) -> Result<Words, OptsError> {
        if text.is_empty() {
            return Err(OptsError::BadParameter);
        }
        Ok(Words::from_bytes(alloc, text)?)
    }

    fn append(line: &mut Vec<u8>, value: &Words) -> Result<(), OutOfMemory> {
        line.extend_from_slice(value.bytes())?;
        Ok(())
    }

    fn fits(verb: &str, value: &Words) -> bool {
        value.count() > 0 && fits_behind(verb, 0, value.bytes())
    }

    ghost is_spaced = { λ _. refl };
}
