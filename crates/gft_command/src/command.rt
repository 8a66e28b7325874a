ghost use Rattle.std.specs.Prelude.{◌≡◌, ◌<◌, ◌↔◌, length, slice_get, IsTrue, IfSome, IfOk, IfErr};
ghost use Rattle.std.specs.Prelude.{MatchOption, MatchResult, Ok};
ghost use Rattle.gft_command.specs.Commands.{IsCommand, IsRead, IsVerbOf, RefusesLine, RefusesText};
ghost use Rattle.gft_command.specs.Commands.{SaysCommand};
ghost use Rattle.gft_command.specs.Parameters.{RefusesForm};
ghost use Rattle.gft_command.specs.Table.{AreOthers, IsPlaceOf, row_of, parameter_of, verb_of};
ghost use Rattle.gft_command.specs.Written.{FitsCommand, IsSentAs, IsTextOf, command_text};

use crate::error::CommandError;
use crate::forms::address::Address;
use crate::forms::leading_number::LeadingNumber;
use crate::forms::letter::Letter;
use crate::forms::number::Number;
use crate::forms::options::Options;
use crate::forms::part::Part;
use crate::forms::place::Place;
use crate::forms::ranges::Ranges;
use crate::forms::targets::Targets;
use crate::forms::text::Text;
use crate::forms::{Form, nothing, written};
use crate::line::end;
use crate::telnet::{is_plain, past_signals, undouble};
use gft_base::{OutOfMemory, split_word};
use gft_opts::{Eret, Esto, HostPorts, OptsError, RetrOptions};
use gft_range::RangeSet;
use gft_text::{HostPort, Words};
use std::alloc::Global;

/// A command of the control conversation, and what it carries.
#[derive(Drop, PartialEq)]
pub enum Command {
    User(Words),
    Pass(Words),
    Quit,
    Noop,
    Feat,
    Pwd,
    Cwd(Words),
    /// The type's letter, a capital; so are the letters below.
    SetType(u8),
    SetMode(u8),
    SetStru(u8),
    Dcau(u8),
    /// A size of a buffer, in bytes.
    Sbuf(u64),
    /// The length of the file to come, in bytes.
    Allo(u64),
    Opts(RetrOptions),
    Pasv,
    Spas,
    Port(HostPort),
    Spor(HostPorts),
    /// The ranges that are stored already.
    Rest(RangeSet),
    Stor(Words),
    Retr(Words),
    Eret(Eret),
    Esto(Esto),
    Size(Words),
    Dele(Words),
    Abor,
}

/// Hands the verbs to another macro: those without a parameter, and those with one by its form. A
/// form is a type of `forms`.
macro_rules! with_verbs {
    ($then:ident ($($args:tt)*)) => {
        $then! {
            ($($args)*)
            {
                Quit 0 "QUIT",
                Noop 1 "NOOP",
                Feat 2 "FEAT",
                Pwd 3 "PWD",
                Pasv 4 "PASV",
                Spas 5 "SPAS",
                Abor 6 "ABOR",
            }
            {
                User 7 "USER" Text,
                Pass 8 "PASS" Text,
                Cwd 9 "CWD" Text,
                Stor 10 "STOR" Text,
                Retr 11 "RETR" Text,
                Size 12 "SIZE" Text,
                Dele 13 "DELE" Text,
                SetType 14 "TYPE" Letter,
                SetMode 15 "MODE" Letter,
                SetStru 16 "STRU" Letter,
                Dcau 17 "DCAU" Letter,
                Sbuf 18 "SBUF" Number,
                Allo 19 "ALLO" LeadingNumber,
                Opts 20 "OPTS" Options,
                Port 21 "PORT" Address,
                Spor 22 "SPOR" Targets,
                Rest 23 "REST" Ranges,
                Eret 24 "ERET" Part,
                Esto 25 "ESTO" Place,
            }
        }
    };
}

/// The verbs, each at its place.
macro_rules! verbs {
    (
        ()
        { $($bare:ident $bare_place:literal $bare_text:literal,)* }
        { $($variant:ident $place:literal $text:literal $form:ident,)* }
    ) => {
        &[$($bare_text,)* $($text,)*]
    };
}

/// An arm for each place, with a command of its verb.
macro_rules! blanks {
    (
        ($alloc:expr, $at:expr)
        { $($bare:ident $bare_place:literal $bare_text:literal,)* }
        { $($variant:ident $place:literal $text:literal $form:ident,)* }
    ) => {
        match $at {
            $($bare_place => Command::$bare,)*
            $($place => Command::$variant($form::blank($alloc)),)*
            _ => unreachable!(),
        }
    };
}

/// An arm for each verb, which reads its parameter.
macro_rules! parsed {
    (
        ($alloc:expr, $blank:expr, $parameter:expr)
        { $($bare:ident $bare_place:literal $bare_text:literal,)* }
        { $($variant:ident $place:literal $text:literal $form:ident,)* }
    ) => {
        match $blank {
            $(Command::$bare => match nothing::read($parameter) {
                Ok(()) => Ok(Command::$bare),
                Err(error) => Err(error),
            },)*
            $(Command::$variant(_) => match $form::read($alloc, $parameter) {
                Ok(value) => Ok(Command::$variant(value)),
                Err(error) => Err(error),
            },)*
        }
    };
}

/// An arm for each verb, which writes its text.
macro_rules! texts {
    (
        ($alloc:expr, $command:expr)
        { $($bare:ident $bare_place:literal $bare_text:literal,)* }
        { $($variant:ident $place:literal $text:literal $form:ident,)* }
    ) => {
        match $command {
            $(Command::$bare => nothing::written($alloc, $bare_text),)*
            $(Command::$variant(value) => written::<$form>($alloc, $text, value),)*
        }
    };
}

/// An arm for each verb, which says whether what it carries has a text.
macro_rules! fitting {
    (
        ($command:expr)
        { $($bare:ident $bare_place:literal $bare_text:literal,)* }
        { $($variant:ident $place:literal $text:literal $form:ident,)* }
    ) => {
        match $command {
            $(Command::$bare => true,)*
            $(Command::$variant(value) => $form::fits($text, value),)*
        }
    };
}

const VERBS: &[&str] = with_verbs!(verbs());

/// Reads a line, without its end, as a command.
///
/// Telnet's signals in front are skipped, and 255 255 is one byte 255. `UnknownVerb` if the verb is
/// none of the table, else `MissingParameter` if it needs a parameter and has none, else
/// `BadParameter` if the parameter isn't in the verb's grammar. `OutOfMemory` only if the line could
/// be a command that takes memory, or has a byte 255 behind the signals; never if it is QUIT.
pub fn parse(alloc: Global, line: &[u8]) -> Result<Command, CommandError>
    ensures command { IfOk result (IsCommand line.now) }
    ensures refused { IfErr result (RefusesLine line.now) }
    ensures quit { IsCommand line.now Command.Quit → result ≡ Ok Command.Quit }
{
    let line = past_signals(line);
    if is_plain(line) {
        return parse_text(alloc, line);
    }
    let text = undouble(alloc, line)?;
    parse_text(alloc, &text)
}

fn parse_text(alloc: Global, text: &[u8]) -> Result<Command, CommandError>
    ensures { MatchResult result (SaysCommand text.now) (RefusesText text.now) }
{
    let (verb, parameter) = split_word(text, b' ');
    let Some(blank) = blank_of(alloc, verb) else {
        return Err(CommandError::UnknownVerb);
    };
    match blank.read(alloc, parameter) {
        Ok(command) => Ok(command),
        Err(OptsError::OutOfMemory) => Err(CommandError::OutOfMemory),
        Err(OptsError::BadParameter) if parameter.is_empty() => Err(CommandError::MissingParameter),
        Err(OptsError::BadParameter) => Err(CommandError::BadParameter),
    }
}

/// A command of this verb, in any case of its letters, that carries nothing yet.
fn blank_of(alloc: Global, verb: &[u8]) -> Option<Command>
    ensures { MatchOption result ((command : Command) → ¬ IsVerbOf verb.now command)
        (IsVerbOf verb.now) }
{
    match place_of(VERBS, verb) {
        Some(place) => Some(blank(alloc, place)),
        None => None,
    }
}

/// The place of this verb among the words, in any case of its letters.
fn place_of(words: &[&str], verb: &[u8]) -> Option<usize>
    ensures { MatchOption result (AreOthers words.now verb.now) (IsPlaceOf words.now verb.now) }
{
    for (place, word) in words.iter().enumerate() {
        if word.as_bytes().eq_ignore_ascii_case(verb) {
            return Some(place);
        }
    }
    None
}

/// A command of the verb at this place, that carries nothing yet.
fn blank(alloc: Global, place: usize) -> Command
    requires { place < length VERBS.now }
    ensures { IfSome (slice_get VERBS.now place) (λ word. word.now ≡ verb_of result) }
{
    with_verbs!(blanks(alloc, place))
}

impl Command {
    /// The command of the same verb that carries what this parameter says.
    fn read(&self, alloc: Global, parameter: &[u8]) -> Result<Command, OptsError>
        ensures { MatchResult result (IsRead self.now parameter.now)
            (RefusesForm parameter.now (parameter_of self.now)) }
    {
        with_verbs!(parsed(alloc, self, parameter))
    }

    /// Whether the command has a line: what it carries is in the grammar of its verb, and bytes of its
    /// own have no LF and make no line that is too long.
    pub fn fits(&self) -> bool
        ensures { IsTrue result ↔ FitsCommand self.now }
    {
        with_verbs!(fitting(self))
    }

    /// The line of a command that fits: the verb in capitals, a space and the parameter, each byte 255
    /// twice, and CR and LF. `OutOfMemory` when it can't be allocated.
    pub fn write(&self, alloc: Global) -> Result<Vec<u8>, OutOfMemory>
        requires { FitsCommand self.now }
        ensures text { IfOk result (λ text. text.items ≡ command_text self.now) }
        ensures read_again { IfOk result (λ text. IsSentAs text.items self.now) }
    {
        let text = self.text(alloc)?;
        let line = end(text)?;
        Ok(line)
    }

    fn text(&self, alloc: Global) -> Result<Vec<u8>, OutOfMemory>
        requires { FitsCommand self.now }
        ensures { IfOk result (λ text. IsTextOf text.items (row_of self.now)) }
    {
        with_verbs!(texts(alloc, self))
    }
}
