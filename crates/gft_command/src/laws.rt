//! What holds of every line. A law is a function with an empty body; whoever calls it knows it.

ghost use Rattle.std.specs.Prelude.{◌≡◌, ◌≢◌, ℕ, List};
ghost use Rattle.gft_command.specs.Commands.{IsCommand, IsSame, RefusesLine};
ghost use Rattle.gft_command.specs.Parameters.{IsSendable};
ghost use Rattle.gft_command.specs.Telnet.{doubled};
ghost use Rattle.gft_command.specs.Written.{FitsCommand, text_for};
ghost use Rattle.gft_command.specs.declared.command.Command.{Command};
ghost use Rattle.gft_command.specs.declared.error.CommandError.{CommandError};
ghost use Rattle.gft_command.specs.declared.error.CommandError.TheVariants as errors;

/// No line is two commands. A line that is a command is refused for want of memory alone, and a line
/// has one refusal beside that. A command that some line is fits, unless its own line has an LF or,
/// with its CR, is too long.
pub fn commands_have_one_value()
    ensures one { (line : List ℕ) (a b : Command) →
        IsCommand line a → IsCommand line b → IsSame a b }
    ensures taken { (line : List ℕ) (command : Command) (e : CommandError) →
        IsCommand line command → RefusesLine line e → e ≡ errors.OutOfMemory }
    ensures refused { (line : List ℕ) (a b : CommandError) → RefusesLine line a → RefusesLine line b →
        a ≢ errors.OutOfMemory → b ≢ errors.OutOfMemory → a ≡ b }
    ensures fits { (line : List ℕ) (command : Command) →
        IsCommand line command → IsSendable (doubled (text_for command)) → FitsCommand command }
{}
