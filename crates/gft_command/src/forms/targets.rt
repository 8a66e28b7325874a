use crate::forms::Form;
use gft_base::OutOfMemory;
use gft_opts::{HostPorts, OptsError, read_targets, write_targets};
use std::alloc::Global;

/// 1 to 16 addresses with one space between them (GFD.20, SPOR).
pub(crate) struct Targets;

impl Form for Targets {
    ghost use Rattle.std.specs.Prelude.{[], refl};
    ghost use Rattle.gft_command.specs.Parameters.{Targets};

    type Value = HostPorts;

    ghost value_in = { Targets };

    ghost sample = { Targets [] };

    fn blank(alloc: Global) -> HostPorts {
        HostPorts::new(alloc)
    }

    fn read(alloc: Global, text: &[u8]) -> Result<HostPorts, OptsError> {
        read_targets(alloc, text)
    }

    fn append(line: &mut Vec<u8>, value: &HostPorts) -> Result<(), OutOfMemory> {
        let text = write_targets(*line.allocator(), value)?;
        line.extend_from_slice(&text)?;
        Ok(())
    }

    fn fits(_verb: &str, value: &HostPorts) -> bool {
        value.fits()
    }

    ghost is_spaced = { λ _. refl };
}
