ghost use Rattle.std.specs.Prelude.{◌≡◌, ℕ, List, map, IfOk, IfErr, IsTrue, ◌↔◌, MatchOption};
ghost use Rattle.std.specs.List.{AllPass};
ghost use Rattle.gft_words.specs.Arguments.{given_by, texts};
ghost use Rattle.gft_words.specs.Drain.{AreDrainWords};
ghost use Rattle.gft_words.specs.Refusal.{RefusesWords};
ghost use Rattle.gft_words.specs.Serve.{AreInRange, AreServeWords, SaysServe, is_serve_key, is_serve_option};
ghost use Rattle.gft_words.specs.declared.server.ServerWords.{ServerWords};

use crate::arguments::{Argument, read_arguments};
use crate::error::WordsError;
use crate::options::{NumberOption, address_or_loopback, number_or};
use gft_session::Config;
use gft_text::{HostPort, is_name};
use std::alloc::Global;

/// What `gridftpd serve` is asked for.
#[derive(Clone, Copy, Debug)]
pub struct ServerWords {
    /// Where it listens: an address, 127.0.0.1 if none is given, and a port from 1 on, 2811 if none is.
    pub at: HostPort,
    /// How many callers are served at once, from 1 to 64; 8 if none is given.
    pub workers: u16,
    /// The bounds of each session: 4 stripes, a marker every 67,108,864 bytes, and 600 silences if
    /// none are given.
    pub config: Config,
}

const PORT: NumberOption = NumberOption {
    key: "port",
    least: 1,
    most: 65_535,
    default: 2811,
};

const WORKERS: NumberOption = NumberOption {
    key: "workers",
    least: 1,
    most: 64,
    default: 8,
};

const STRIPES: NumberOption = NumberOption {
    key: "stripes",
    least: 1,
    most: 16,
    default: 4,
};

const MARKER_BYTES: NumberOption = NumberOption {
    key: "marker-bytes",
    least: 1,
    most: 1_099_511_627_776,
    default: 67_108_864,
};

const IDLE: NumberOption = NumberOption {
    key: "idle",
    least: 1,
    most: 1_000_000,
    default: 600,
};

/// Reads `serve` and its options, each `--key value` or `--key=value`, in any order, each key at most
/// once. `Usage` where the words are others: an unknown or repeated key, a value that is empty or out
/// of its range, a word that is no option, `--help`. `OutOfMemory` where memory was refused.
pub fn read_server_words(alloc: Global, words: &[String]) -> Result<ServerWords, WordsError>
    ensures value { IfOk result (AreServeWords (texts words.now)) }
    ensures ranges { IfOk result AreInRange }
    ensures none { IfErr result
        (RefusesWords ((value : ServerWords) → ¬ AreServeWords (texts words.now) value)) }
{
    let Some((command, options)) = words.split_first() else {
        return Err(WordsError::Usage);
    };
    if command.as_str() != "serve" {
        return Err(WordsError::Usage);
    }
    let arguments = read_arguments(alloc, options)?;
    match serve_words(arguments.as_slice()) {
        Some(value) => Ok(value),
        None => Err(WordsError::Usage),
    }
}

/// What the options say.
fn serve_words(options: &[Argument<'_>]) -> Option<ServerWords>
    ensures { MatchOption result
        ((value : ServerWords) → ¬ SaysServe (map given_by options.now) value)
        (SaysServe (map given_by options.now)) }
{
    if !are_serve_options(options) {
        return None;
    }
    let at = HostPort {
        host: address_or_loopback(options)?,
        port: number_or(options, &PORT)? as u16,
    };
    let workers = number_or(options, &WORKERS)? as u16;
    let config = Config {
        stripes: number_or(options, &STRIPES)? as u16,
        marker_bytes: number_or(options, &MARKER_BYTES)?,
        idle: number_or(options, &IDLE)? as u32,
    };
    Some(ServerWords {
        at,
        workers,
        config,
    })
}

/// Whether each argument is an option of `serve`.
fn are_serve_options(arguments: &[Argument<'_>]) -> bool
    ensures { IsTrue result ↔ AllPass (λ argument. is_serve_option (given_by argument)) arguments.now }
{
    arguments.iter().all(|argument| is_serve_option(argument))
}

fn is_serve_option(argument: &Argument<'_>) -> bool
    ensures { result ≡ is_serve_option (given_by argument.now) }
{
    match *argument {
        Argument::Positional(_) => false,
        Argument::Keyed { key, .. } => is_serve_key(key),
    }
}

fn is_serve_key(key: &[u8]) -> bool
    ensures { result ≡ is_serve_key key.now }
{
    key == b"address".as_slice()
        || key == b"port".as_slice()
        || key == b"workers".as_slice()
        || key == b"stripes".as_slice()
        || key == b"marker-bytes".as_slice()
        || key == b"idle".as_slice()
}

/// The name in the words `drain NAME`, as the second word has it; `None` where the words are others.
/// It takes no memory.
pub fn drain_name(words: &[String]) -> Option<&[u8]>
    ensures { MatchOption result
        ((name : List ℕ) → ¬ AreDrainWords (texts words.now) name)
        (λ name. AreDrainWords (texts words.now) name.now) }
{
    let [command, name] = words else {
        return None;
    };
    let name = name.as_str().as_bytes();
    if command.as_str() != "drain" || !is_name(name) {
        return None;
    }
    Some(name)
}
