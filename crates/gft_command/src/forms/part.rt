use crate::forms::Form;
use crate::line::{digit_count, fits_behind};
use gft_base::OutOfMemory;
use gft_opts::{Eret, OptsError, read_eret, write_eret};
use gft_text::Words;
use std::alloc::Global;

/// `P offset size name` (GFD.20, ERET).
pub(crate) struct Part;

impl Form for Part {
    ghost use Rattle.std.specs.Prelude.{[], refl};
    ghost use Rattle.gft_command.specs.Parameters.{Part};

    type Value = Eret;

    ghost value_in = { Part };

    ghost sample = { Part (record { offset = 0; size = 0; path = [] }) };

    fn blank(alloc: Global) -> Eret {
        Eret {
            offset: 0,
            size: 0,
            path: Words::new(alloc),
        }
    }

    fn read(alloc: Global, text: &[u8]) -> Result<Eret, OptsError> {
        read_eret(alloc, text)
    }

    fn append(line: &mut Vec<u8>, value: &Eret) -> Result<(), OutOfMemory> {
        let text = write_eret(*line.allocator(), value)?;
        line.extend_from_slice(&text)?;
        Ok(())
    }

    fn fits(verb: &str, value: &Eret) -> bool {
        // `P`, two numbers, and a space behind each.
        let front = 4 + digit_count(value.offset) + digit_count(value.size);
        value.fits() && fits_behind(verb, front, value.path.bytes())
    }

    ghost is_spaced = { λ _. refl };
}
