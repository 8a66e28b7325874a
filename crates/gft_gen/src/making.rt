ghost use Rattle.std.specs.Prelude.{◌≡◌, ◌≢◌, ◌≤◌, ℕ, IfErr, IfOk, OnOk};
ghost use Rattle.gft_generated.specs.declared.TheConstants.{MAX_SIZE};
ghost use Rattle.gft_gen.specs.Attempts.{HasEnded, Tells, complete_code};
ghost use Rattle.gft_gen.specs.Making.{PutsSummary, RefusesMake};

use crate::error::MakeError;
use crate::marker::LastLine;
use crate::summary::{Answers, summary};
use crate::transfer::{Attempt, new_book, run_attempt};
use gft_base::{Failed, OutOfMemory};
use gft_book::Finished;
use gft_drive::Sink;
use gft_generated::{Cut, Generated};
use std::alloc::Global;
use std::sync::Wait;
use std::thread::Threads;

/// The data connection that the first attempt loses.
const FIRST_CUT: Cut = Cut {
    stripe: 1,
    channel: 2,
    most: 1_048_594,
};

/// The data connection that the second attempt loses, one byte before its end.
const SECOND_CUT: Cut = Cut {
    stripe: 2,
    channel: 1,
    most: u64::MAX,
};

/// The code of a reply that tells a finished transfer (RFC 959, section 4.2).
const COMPLETE: u16 = 226;

/// What the attempts were answered, and the file, if the third one finished it.
#[derive(Drop)]
pub(crate) struct Made {
    pub(crate) answers: Answers,
    pub(crate) finished: Option<Finished>,
}

/// Transfers the generated file of this seed and this size, in bytes, in three attempts, of which two lose a
/// data connection, and puts seven lines that tell of it. The answer is the file as the third attempt finished
/// it, if it did.
///
/// `OutFault` where the lines couldn't be put: then a part of them may have been. `OutOfMemory` where memory
/// was refused: then nothing was put.
pub fn make<W: Sink, R: Threads + Wait + Sync>(
    rt: &R,
    alloc: Global,
    seed: u64,
    size: u64,
    out: &mut W,
) -> Result<Option<Finished>, MakeError>
    requires size { size ≤ MAX_SIZE }
    requires open { W.is_open out.old }
    ensures made { IfOk result (λ finished. PutsSummary seed size finished (W.written out.old)
        (W.written out.new)) }
    ensures open { OnOk result (W.is_open out.new) }
    ensures counted { OnOk result (W.faults out.new ≡ W.faults out.old) }
    ensures refused { IfErr result (λ error. RefusesMake error (out.new ≡ out.old) (W.faults out.old)
        (W.faults out.new)) }
{
    let file = Generated { seed, size };
    let Made { answers, finished } = match run_attempts(rt, alloc, file) {
        Ok(made) => made,
        Err(OutOfMemory) => return Err(MakeError::OutOfMemory),
    };
    let Ok(text) = summary(alloc, file, answers) else {
        return Err(MakeError::OutOfMemory);
    };
    match out.put(text.as_bytes()) {
        Ok(()) => Ok(finished),
        Err(Failed) => Err(MakeError::OutFault),
    }
}

/// Makes two attempts that lose a data connection, and one that loses none.
fn run_attempts<R: Threads + Wait + Sync>(
    rt: &R,
    alloc: Global,
    file: Generated,
) -> Result<Made, OutOfMemory>
    ensures { IfOk result (λ made. Tells file.size made.answers made.finished) }
{
    let mut last = LastLine::new(alloc)?;
    let book = match new_book(alloc, file.seed)? {
        Ok(book) => book,
        Err(code) => return Ok(unfinished(code, code, code)),
    };
    let Attempt { end: first, book } = run_attempt(
        rt,
        alloc,
        file,
        book,
        &mut last,
        Some(FIRST_CUT),
    )?;
    let Attempt { end: second, book } = run_attempt(
        rt,
        alloc,
        file,
        book,
        &mut last,
        Some(SECOND_CUT),
    )?;
    let third = run_attempt(rt, alloc, file, book, &mut last, None)?;
    Ok(finish(code_of(&first), code_of(&second), file.size, third))
}

/// The code of the reply that tells how an attempt ended.
fn code_of(end: &Result<Finished, u16>) -> u16 {
    match end {
        Ok(_) => COMPLETE,
        Err(code) => *code,
    }
}

/// What is made where the third attempt finished no file.
fn unfinished(first: u16, second: u16, third: u16) -> Made
    requires { third ≢ complete_code }
    ensures { (size : ℕ) → Tells size result.answers result.finished }
{
    Made {
        answers: Answers {
            first,
            second,
            third,
            is_equal: false,
        },
        finished: None,
    }
}

/// What is made by the third attempt. The file is equal if that finished it with its whole size, and no attempt
/// wrote a byte that isn't the file's.
fn finish(first: u16, second: u16, size: u64, third: Attempt) -> Made
    requires { HasEnded third }
    ensures { Tells size result.answers result.finished }
{
    let Attempt { end, book } = third;
    match end {
        Ok(file) => {
            let drive = book.into_keep().into_drive();
            let answers = Answers {
                first,
                second,
                third: COMPLETE,
                is_equal: file.len() == size && !drive.differs(),
            };
            Made {
                answers,
                finished: Some(file),
            }
        }
        Err(code) => unfinished(first, second, code),
    }
}
