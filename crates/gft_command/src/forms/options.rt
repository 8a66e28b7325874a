use crate::forms::Form;
use gft_base::{OutOfMemory, split_word};
use gft_opts::{OptsError, RetrOptions, read_retr, write_retr};
use std::alloc::Global;

/// `RETR` in any letter case, a space, and options (GFD.20, OPTS RETR).
pub(crate) struct Options;

impl Form for Options {
    ghost use Rattle.std.specs.Prelude.{None, refl};
    ghost use Rattle.gft_command.specs.Parameters.{Options};

    type Value = RetrOptions;

    ghost value_in = { Options };

    ghost sample = { Options (record { layout = None; parallel = None }) };

    fn blank(_alloc: Global) -> RetrOptions {
        RetrOptions {
            layout: None,
            parallel: None,
        }
    }

    fn read(_alloc: Global, text: &[u8]) -> Result<RetrOptions, OptsError> {
        let (word, options) = split_word(text, b' ');
        if word.len() == text.len() || !word.eq_ignore_ascii_case(b"RETR") {
            return Err(OptsError::BadParameter);
        }
        match read_retr(options) {
            Ok(options) => Ok(options),
            Err(_) => Err(OptsError::BadParameter),
        }
    }

    fn append(line: &mut Vec<u8>, value: &RetrOptions) -> Result<(), OutOfMemory> {
        let text = write_retr(*line.allocator(), value)?;
        line.extend_from_slice(b"RETR ")?;
        line.extend_from_slice(&text)?;
        Ok(())
    }

    fn fits(_verb: &str, value: &RetrOptions) -> bool {
        value.fits()
    }

    ghost is_spaced = { λ _. refl };
}
