//! The forms of a verb's parameter, a type for each: how a value is read from a parameter, added to a
//! line, and whether it has a text.

ghost use Rattle.std.specs.Prelude.{◌≡◌, ◌∷◌, ◌++◌, ◌↔◌, IsTrue, IfOk, MatchResult, OnOk};
ghost use Rattle.gft_base.specs.Words.{space};
ghost use Rattle.gft_command.specs.Parameters.{FitsForm, FitsParameter, IsParameter, Parameter};
ghost use Rattle.gft_command.specs.Parameters.{RefusesForm, behind_verb, parameter_text};
ghost use Rattle.gft_command.specs.Table.{is_verb, row};
ghost use Rattle.gft_command.specs.Written.{IsTextOf};

use gft_base::OutOfMemory;
use gft_opts::OptsError;
use std::alloc::Global;

pub(crate) mod address;
pub(crate) mod leading_number;
pub(crate) mod letter;
pub(crate) mod nothing;
pub(crate) mod number;
pub(crate) mod options;
pub(crate) mod part;
pub(crate) mod place;
pub(crate) mod ranges;
pub(crate) mod targets;
pub(crate) mod text;

/// A form of parameters that have a value.
pub(crate) trait Form {
    type Value;

    /// The value, as a row of the table has it.
    ghost value_in: { Self.Value → Parameter };

    /// Some parameter of this form.
    ghost sample: { Parameter };

    /// A value that says nothing. It allocates nothing.
    fn blank(alloc: Global) -> Self::Value;

    fn read(alloc: Global, text: &[u8]) -> Result<Self::Value, OptsError>
        ensures { MatchResult result (λ value. IsParameter text.now (value_in value))
            (RefusesForm text.now sample) };

    /// Adds the value's text to a line.
    fn append(line: &mut Vec<u8>, value: &Self::Value) -> Result<(), OutOfMemory>
        requires { FitsForm (value_in value.now) }
        ensures added { OnOk result
            (line.new.items ≡ line.old.items ++ parameter_text (value_in value.now)) }
        ensures read { OnOk result
            (IsParameter (parameter_text (value_in value.now)) (value_in value.now)) };

    /// Whether the value has a line behind this verb.
    fn fits(verb: &str, value: &Self::Value) -> bool
        requires { IsTrue (is_verb verb.now) }
        ensures { IsTrue result ↔ FitsParameter verb.now (value_in value.now) };

    ghost is_spaced: { (value : Self.Value) →
        behind_verb (value_in value) ≡ space ∷ parameter_text (value_in value) };
}

/// The text of a verb and a value.
pub(crate) fn written<F: Form>(
    alloc: Global,
    verb: &str,
    value: &F::Value,
) -> Result<Vec<u8>, OutOfMemory>
    requires verb { IsTrue (is_verb verb.now) }
    requires fits { FitsParameter verb.now (F.value_in value.now) }
    ensures { IfOk result (λ text. IsTextOf text.items (row verb.now (F.value_in value.now))) }
{
    let mut line = Vec::from_slice(alloc, verb.as_bytes())?;
    line.push(b' ')?;
    F::append(&mut line, value)?;
    Ok(line)
}
