ghost use Rattle.std.specs.Prelude.{◌≡◌, ◌≤◌, ℕ, List};
ghost use Rattle.gft_words.specs.Words.{AreMakeWords, texts};
ghost use Rattle.gft_words.specs.declared.ClientWords.{ClientWords};
ghost use Rattle.gridftp.specs.Client.{Ends, EndsMake, IsPut};
ghost use Rattle.gridftp.specs.Line.{out_of_memory_text};
ghost use Rattle.gridftp.specs.Status.{number_of};
ghost use Rattle.gridftp.specs.declared.status.Status.{Status};

use crate::line::out_of_memory_line;
use crate::status::Status;
use gft_base::{Failed, OutOfMemory};
use gft_drive::Sink;
use gft_gen::{MakeError, make};
use gft_words::{ClientWords, WordsError, client_usage, read_client_words};
use std::alloc::Global;
use std::sync::Wait;
use std::thread::Threads;

/// Does what the words ask for, prints what it came to, and gives the exit status.
///
/// | Status | What is printed |
/// |---|---|
/// | 0 | the seven lines of a generated transfer, whose third attempt finished its file |
/// | 1 | the same where it didn't |
/// | 2 | the usage text: other words |
/// | 4 | maybe a part of it: a put failed |
/// | 6 | `455 Out of memory.` |
pub fn run_client<W: Sink, R: Threads + Wait + Sync>(
    rt: &R,
    alloc: Global,
    words: &[String],
    out: &mut W,
) -> u8
    requires open { W.is_open out.old }
    ensures { (status : Status) × (result ≡ number_of status) × Ends status (texts words.now)
        (W.written out.old) (W.written out.new) (W.faults out.old) (W.faults out.new) }
{
    run_words(rt, alloc, words, out).number()
}

/// Does what the words ask for.
fn run_words<W: Sink, R: Threads + Wait + Sync>(
    rt: &R,
    alloc: Global,
    words: &[String],
    out: &mut W,
) -> Status
    requires open { W.is_open out.old }
    ensures { Ends result (texts words.now) (W.written out.old) (W.written out.new) (W.faults out.old)
        (W.faults out.new) }
{
    match read_client_words(alloc, words) {
        Ok(ClientWords::Make { seed, size }) => run_make(rt, alloc, seed, size, out),
        Err(WordsError::Usage) => refuse_words(alloc, out),
        Err(WordsError::OutOfMemory) => refuse_memory(out),
    }
}

/// Makes a generated transfer.
fn run_make<W: Sink, R: Threads + Wait + Sync>(
    rt: &R,
    alloc: Global,
    seed: u64,
    size: u64,
    out: &mut W,
) -> Status
    requires size { size ≤ 1073741824 }
    requires open { W.is_open out.old }
    ensures { EndsMake result seed size (W.written out.old) (W.written out.new) (W.faults out.old)
        (W.faults out.new) }
{
    match make(rt, alloc, seed, size, out) {
        Ok(Some(_)) => Status::Done,
        Ok(None) => Status::Refused,
        Err(MakeError::OutFault) => Status::PutFailed,
        Err(MakeError::OutOfMemory) => refuse_memory(out),
    }
}

/// Prints how the program is called.
fn refuse_words<W: Sink>(alloc: Global, out: &mut W) -> Status
    requires open { W.is_open out.old }
    ensures { (words : List (List ℕ)) → ((value : ClientWords) → ¬ AreMakeWords words value)
        → Ends result words (W.written out.old) (W.written out.new) (W.faults out.old) (W.faults out.new) }
{
    match client_usage(alloc) {
        Ok(text) => put(out, text.as_bytes(), Status::Usage),
        Err(OutOfMemory) => refuse_memory(out),
    }
}

/// Tells that memory was refused.
pub(crate) fn refuse_memory<W: Sink>(out: &mut W) -> Status
    requires open { W.is_open out.old }
    ensures { IsPut Status.OutOfMemory out_of_memory_text result (W.written out.old) (W.written out.new)
        (W.faults out.old) (W.faults out.new) }
{
    put(out, out_of_memory_line(), Status::OutOfMemory)
}

/// Puts a text, and gives the status that it stands for, or that of a put that failed.
fn put<W: Sink>(out: &mut W, text: &[u8], status: Status) -> Status
    requires open { W.is_open out.old }
    ensures { IsPut status text.now result (W.written out.old) (W.written out.new)
        (W.faults out.old) (W.faults out.new) }
{
    match out.put(text) {
        Ok(()) => status,
        Err(Failed) => Status::PutFailed,
    }
}
