use gft_base::OutOfMemory;
use thiserror::Error;

/// Why a line is no command. The first three come in this order.
#[derive(Clone, Copy, Debug, PartialEq, Eq, Error)]
pub enum CommandError {
    /// The verb is none of the table.
    #[error("unknown verb")]
    UnknownVerb,
    /// A verb that needs a parameter has none, or one of no byte.
    #[error("missing parameter")]
    MissingParameter,
    /// The parameter isn't in its verb's grammar.
    #[error("bad parameter")]
    BadParameter,
    /// Memory was refused.
    #[error("out of memory")]
    OutOfMemory,
}

impl From<OutOfMemory> for CommandError {
    ghost use Rattle.std.specs.Prelude.{◌≡◌};
    ghost use Rattle.gft_command.specs.declared.error.CommandError.TheVariants as errors;

    ghost from_gives = { λ _ e. e ≡ errors.OutOfMemory };

    fn from(_refused: OutOfMemory) -> CommandError {
        CommandError::OutOfMemory
    }
}
