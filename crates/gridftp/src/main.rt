//! `gridftp make SEED SIZE` transfers a generated file with itself, in three attempts of which two lose a data
//! connection, and prints seven lines that tell of it.
#![tactic(auto)]

mod line;
mod running;
mod status;
#[cfg(test)]
mod tests;

use crate::running::{refuse_memory, run_client};
use gft_drive::WriteSink;
use std::env;
use std::io::ErrorKind;
use std::process::ExitCode;

fn main(rt: HostRuntime) -> ExitCode {
    let alloc = rt.alloc();
    let mut out = WriteSink::new(rt.stdout());
    let words = env::args(&rt).and_then(|words| Ok(words.skip(1).collect::<Vec<String>>(alloc)?));
    let status = match words {
        Ok(words) => run_client(&rt, alloc, words.as_slice(), &mut out),
        Err(error) if error.kind() == ErrorKind::OutOfMemory => refuse_memory(&mut out).number(),
        // A word that isn't UTF-8 is in no grammar.
        Err(_) => run_client(&rt, alloc, &[], &mut out),
    };
    ExitCode::from(status)
}
