use crate::forms::Form;
use gft_base::OutOfMemory;
use gft_opts::OptsError;
use gft_text::{HostPort, read_host_port, write_host_port};
use std::alloc::Global;

/// An address of six numbers.
pub(crate) struct Address;

impl Form for Address {
    ghost use Rattle.std.specs.Prelude.{[], refl};
    ghost use Rattle.gft_command.specs.Parameters.{Address};

    type Value = HostPort;

    ghost value_in = { Address };

    ghost sample = { Address (record { host = []; port = 0 }) };

    fn blank(_alloc: Global) -> HostPort {
        HostPort {
            host: [0; 4],
            port: 0,
        }
    }

    fn read(_alloc: Global, text: &[u8]) -> Result<HostPort, OptsError> {
        match read_host_port(text) {
            Ok(at) => Ok(at),
            Err(_) => Err(OptsError::BadParameter),
        }
    }

    fn append(line: &mut Vec<u8>, value: &HostPort) -> Result<(), OutOfMemory> {
        let text = write_host_port(*line.allocator(), value)?;
        line.extend_from_slice(&text)?;
        Ok(())
    }

    fn fits(_verb: &str, _value: &HostPort) -> bool {
        true
    }

    ghost is_spaced = { λ _. refl };
}
