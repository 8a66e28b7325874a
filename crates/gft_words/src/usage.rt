//! The usage texts, as clap writes them. What they say is tested.

use clap::{Arg, Command};
use gft_base::OutOfMemory;
use std::alloc::{AllocError, Global};

const SERVER_USAGE: &str = "gridftpd serve [OPTIONS]\n       gridftpd drain NAME";

const SERVER_COMMANDS: &str =
    "An option is written --key value or --key=value, and each at most once.

Commands:
  serve       Serves callers until it is stopped
  drain NAME  Stores one recorded data connection, read from standard input, as the file NAME

Examples:
  gridftpd serve --address 0.0.0.0 --workers=16
  gridftpd drain run-7.dat < recording";

const CLIENT_COMMANDS: &str = "Example:
  gridftp make 7 268435456";

/// What the usage text says of an option.
#[derive(Clone, Copy)]
struct OptionText {
    key: &'static str,
    value: &'static str,
    default: &'static str,
    help: &'static str,
}

const SERVE_OPTIONS: [OptionText; 6] = [
    OptionText {
        key: "address",
        value: "ADDRESS",
        default: "127.0.0.1",
        help: "IPv4 address to listen on",
    },
    OptionText {
        key: "port",
        value: "PORT",
        default: "2811",
        help: "Port to listen on, 1 to 65535",
    },
    OptionText {
        key: "workers",
        value: "COUNT",
        default: "8",
        help: "Callers served at once, 1 to 64",
    },
    OptionText {
        key: "stripes",
        value: "COUNT",
        default: "4",
        help: "Data listeners of one transfer, 1 to 16",
    },
    OptionText {
        key: "marker-bytes",
        value: "BYTES",
        default: "67108864",
        help: "Stored bytes from marker to marker, 1 to 1099511627776",
    },
    OptionText {
        key: "idle",
        value: "QUIETS",
        default: "600",
        help: "Quiets, of one second each, that end a session, 1 to 1000000",
    },
];

/// How `gridftpd` is called: its commands, each with an example, and the options of `serve`, each
/// with its range and its default. `OutOfMemory` where it can't be allocated.
pub fn server_usage(alloc: Global) -> Result<String, OutOfMemory> {
    let mut command = serve_command(alloc)?;
    Ok(command.render_help()?)
}

/// How `gridftp` is called: its command, with an example. `OutOfMemory` where it can't be allocated.
pub fn client_usage(alloc: Global) -> Result<String, OutOfMemory> {
    let mut command = make_command(alloc)?;
    Ok(command.render_help()?)
}

/// `serve` and its options, as clap has them.
pub(crate) fn serve_command(alloc: Global) -> Result<Command<'static>, AllocError> {
    let mut command = Command::new(alloc, "gridftpd")
        .about("Stores and serves the files of this folder by GridFTP, in the clear")
        .override_usage(SERVER_USAGE)
        .after_help(SERVER_COMMANDS)
        .disable_help_flag(true)
        .no_binary_name(true)
        .next_help_heading("Options of serve");
    for option in SERVE_OPTIONS {
        let argument = Arg::new(alloc, option.key)
            .long(option.key)
            .value_name(option.value)
            .default_value(option.default)
            .help(option.help);
        command = command.arg(argument)?;
    }
    Ok(command)
}

/// `make` and its words, as clap has them.
fn make_command(alloc: Global) -> Result<Command<'static>, AllocError> {
    let seed = Arg::new(alloc, "SEED").required(true);
    let size = Arg::new(alloc, "SIZE").required(true);
    Command::new(alloc, "gridftp")
        .about("Transfers a generated file with itself: three attempts, two cuts")
        .override_usage("gridftp make SEED SIZE")
        .after_help(CLIENT_COMMANDS)
        .disable_help_flag(true)
        .no_binary_name(true)
        .arg(seed.help("Which file is generated, 0 to 18446744073709551615"))?
        .arg(size.help("Its size in bytes, 0 to 1073741824"))
}
