use crate::forms::Form;
use crate::line::{digit_count, fits_behind};
use gft_base::OutOfMemory;
use gft_opts::{Esto, OptsError, read_esto, write_esto};
use gft_text::Words;
use std::alloc::Global;

/// `A offset name` (GFD.20, ESTO).
pub(crate) struct Place;

impl Form for Place {
    ghost use Rattle.std.specs.Prelude.{[], refl};
    ghost use Rattle.gft_command.specs.Parameters.{Place};

    type Value = Esto;

    ghost value_in = { Place };

    ghost sample = { Place (record { offset = 0; path = [] }) };

    fn blank(alloc: Global) -> Esto {
        Esto {
            offset: 0,
            path: Words::new(alloc),
        }
    }

    fn read(alloc: Global, text: &[u8]) -> Result<Esto, OptsError> {
        read_esto(alloc, text)
    }

    fn append(line: &mut Vec<u8>, value: &Esto) -> Result<(), OutOfMemory> {
        let text = write_esto(*line.allocator(), value)?;
        line.extend_from_slice(&text)?;
        Ok(())
    }

    fn fits(verb: &str, value: &Esto) -> bool {
        // `A` and a number, and a space behind each.
        let front = 3 + digit_count(value.offset);
        value.fits() && fits_behind(verb, front, value.path.bytes())
    }

    ghost is_spaced = { λ _. refl };
}
