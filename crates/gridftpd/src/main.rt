//! `gridftpd drain NAME` stores one recorded data connection, read from standard input, as the file
//! NAME in the current folder, and prints one line.
//!
//! Beside NAME it keeps the journal `NAME.gfr`, which says what of NAME is stored. Delete the two together;
//! a journal whose data is gone, or that is damaged, is refused with status 7 until it is deleted.
#![tactic(auto)]

ghost use Rattle.std.specs.Prelude.{◌≡◌, IfOk, string_bytes};
ghost use Rattle.gridftpd.specs.DrainWords.{AreDrainWords, name_in};

mod draining;
mod intake;
mod line;
mod outcome;
mod reading;
mod status;
#[cfg(test)]
mod tests;
mod words;

use crate::draining::{drain, tell};
use crate::outcome::Outcome;
use gft_drive::{FileDrive, ReadSource, Sink, Unknown, WriteSink};
use std::alloc::Global;
use std::io::ErrorKind;
use std::process::ExitCode;
use std::rt::Env;
use std::{env, io};

fn main(rt: HostRuntime) -> ExitCode {
    let alloc = rt.alloc();
    let mut input = ReadSource::new(rt.stdin());
    let mut out = WriteSink::new(rt.stdout());
    let (words, path) = match words_and_path(&rt) {
        Ok(both) => both,
        Err(error) if error.kind() == ErrorKind::OutOfMemory => return refuse(alloc, &mut out),
        // A word that isn't UTF-8 is none of `drain`'s.
        Err(_) => (Vec::new(alloc), String::new(alloc)),
    };
    let Ok(drive) = FileDrive::at(rt, path) else {
        return refuse(alloc, &mut out);
    };
    let (status, _drive) = drain::<_, _, _, Unknown>(
        alloc,
        words.as_slice(),
        &mut input,
        &mut out,
        drive,
    );
    ExitCode::from(status)
}

/// Tells that memory was refused before the drive was made.
fn refuse<W: Sink>(alloc: Global, out: &mut W) -> ExitCode
    requires { W.is_open out.old }
{
    ExitCode::from(tell(alloc, out, &Outcome::OutOfMemory).number())
}

/// The words behind the program's name, and the last of them, which names the file; no file is
/// touched where `drain` refuses the words.
fn words_and_path(rt: &(impl Env + AllocGlobal)) -> io::Result<(Vec<String>, String)>
    ensures { IfOk result (λ both. AreDrainWords both.0.items → string_bytes both.1 ≡ name_in both.0.items) }
{
    let mut words = env::args(rt)?.skip(1).collect::<Vec<String>>(rt.alloc())?;
    let path = match words.last() {
        Some(name) => name.clone()?,
        None => String::new(rt.alloc()),
    };
    Ok((words, path))
}
