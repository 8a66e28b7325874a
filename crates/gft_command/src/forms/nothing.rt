ghost use Rattle.std.specs.Prelude.{IsTrue, IfOk, MatchResult};
ghost use Rattle.gft_command.specs.Parameters.{IsParameter, RefusesForm, Nothing};
ghost use Rattle.gft_command.specs.Table.{is_verb, row};
ghost use Rattle.gft_command.specs.Written.{IsTextOf};

use gft_base::OutOfMemory;
use gft_opts::OptsError;
use std::alloc::Global;

/// No parameter: spaces at most.
pub(crate) fn read(text: &[u8]) -> Result<(), OptsError>
    ensures { MatchResult result (λ _. IsParameter text.now Nothing) (RefusesForm text.now Nothing) }
{
    for byte in text {
        if *byte != b' ' {
            return Err(OptsError::BadParameter);
        }
    }
    Ok(())
}

/// The text of a verb alone.
pub(crate) fn written(alloc: Global, verb: &str) -> Result<Vec<u8>, OutOfMemory>
    requires { IsTrue (is_verb verb.now) }
    ensures { IfOk result (λ text. IsTextOf text.items (row verb.now Nothing)) }
{
    Ok(Vec::from_slice(alloc, verb.as_bytes())?)
}
