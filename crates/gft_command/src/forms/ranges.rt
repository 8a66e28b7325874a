use crate::forms::Form;
use gft_base::OutOfMemory;
use gft_opts::OptsError;
use gft_range::{ListError, MAX_ITEMS, RangeSet};
use std::alloc::Global;

/// A list of ranges, of at most 512 items (GFD.20, REST in extended block mode).
pub(crate) struct Ranges;

impl Form for Ranges {
    ghost use Rattle.std.specs.Prelude.{[], refl};
    ghost use Rattle.gft_command.specs.Parameters.{Ranges};

    type Value = RangeSet;

    ghost value_in = { λ set. Ranges set.ranges };

    ghost sample = { Ranges [] };

    fn blank(alloc: Global) -> RangeSet {
        RangeSet::new(alloc)
    }

    fn read(alloc: Global, text: &[u8]) -> Result<RangeSet, OptsError> {
        match RangeSet::parse_list(alloc, text) {
            Ok(set) => Ok(set),
            Err(ListError::OutOfMemory) => Err(OptsError::OutOfMemory),
            Err(ListError::BadList { .. }) => Err(OptsError::BadParameter),
            Err(ListError::TooMany { .. }) => Err(OptsError::BadParameter),
        }
    }

    fn append(line: &mut Vec<u8>, value: &RangeSet) -> Result<(), OutOfMemory> {
        let text = value.write_list()?;
        line.extend_from_slice(&text)?;
        Ok(())
    }

    fn fits(_verb: &str, value: &RangeSet) -> bool {
        value.count() <= MAX_ITEMS
    }

    ghost is_spaced = { λ _. refl };
}
