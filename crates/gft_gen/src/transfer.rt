ghost use Rattle.std.specs.Prelude.{◌≡◌, ◌≢◌, All, IfErr, IfOk, vec_len};
ghost use Rattle.gft_outside.specs.Words.{no_channels};
ghost use Rattle.gft_book.specs.declared.transfer.Stage.TheVariants.{Rest};
ghost use Rattle.gft_book.specs.Words.{NamesSome};
ghost use Rattle.gft_generated.specs.declared.TheConstants.{STRIPES};
ghost use Rattle.gft_generated.specs.Words.{generated_lane_state};
ghost use Rattle.gft_gen.specs.Attempts.{HasEnded, complete_code};

use crate::code::{code_of_cause, code_of_refusal};
use crate::marker::LastLine;
use gft_base::OutOfMemory;
use gft_book::{BeginError, Book, Finished, How};
use gft_drive::Unknown;
use gft_generated::{Cut, Generated, GeneratedDrive, GeneratedLane, STRIPES, generated_lanes};
use gft_keep::{AttachError, Keep};
use gft_outside::{NoClock, NoControl};
use gft_pass::Cause;
use gft_range::RangeSet;
use gft_receive::{Limits, Received, receive};
use gft_text::Lines;
use std::alloc::Global;
use std::sync::Wait;
use std::thread::Threads;

pub(crate) type GeneratedBook = Book<GeneratedDrive, Unknown>;

/// A mark is due once so many bytes were booked since the last one; a lane is never silent.
const LIMITS: Limits = Limits {
    marker_bytes: 16_777_216,
    idle: 1,
    shift: 0,
};

/// The code of a reply that tells that the local drive can't be used.
const DRIVE_CODE: u16 = 451;

/// How an attempt ended: with the finished file, or with the code of its last reply.
#[derive(Drop)]
pub(crate) struct Attempt {
    pub(crate) end: Result<Finished, u16>,
    pub(crate) book: GeneratedBook,
}

/// A Book over a new drive for the file of this seed; or the code of the reply that tells why there is none.
pub(crate) fn new_book(alloc: Global, seed: u64) -> Result<Result<GeneratedBook, u16>, OutOfMemory>
    ensures { IfOk result (λ made. IfErr made (λ code. code ≢ complete_code)) }
{
    let drive = GeneratedDrive::new(alloc, seed)?;
    match Keep::attach(alloc, drive) {
        Ok(keep) => Ok(Ok(Book::new(alloc, keep))),
        Err((AttachError::OutOfMemory, _drive)) => Err(OutOfMemory),
        Err((AttachError::Damaged(_), _drive)) => Ok(Err(DRIVE_CODE)),
        Err((AttachError::Failed, _drive)) => Ok(Err(DRIVE_CODE)),
    }
}

/// Transfers what the last marker doesn't name, or the whole file afresh where there is none; one data
/// connection may be lost.
pub(crate) fn run_attempt<R: Threads + Wait + Sync>(
    rt: &R,
    alloc: Global,
    file: Generated,
    book: GeneratedBook,
    last: &mut LastLine,
    cut: Option<Cut>,
) -> Result<Attempt, OutOfMemory>
    ensures { IfOk result HasEnded }
{
    let list = last.ranges(alloc)?;
    let lanes = generated_lanes(alloc, file, &list, cut)?;
    run_transfer(rt, alloc, book, resume_from(list), lanes, last)
}

/// A restart that leaves these ranges out; afresh where there are none.
fn resume_from(list: RangeSet) -> How
    ensures { NamesSome result }
{
    if list.count() == 0 {
        How::Fresh
    } else {
        How::Resume(list)
    }
}

/// Receives these lanes into the Book.
fn run_transfer<R: Threads + Wait + Sync>(
    rt: &R,
    alloc: Global,
    book: GeneratedBook,
    how: How,
    lanes: Vec<GeneratedLane>,
    last: &mut LastLine,
) -> Result<Attempt, OutOfMemory>
    requires list { NamesSome how }
    requires stripes { vec_len lanes ≡ STRIPES }
    requires unopened { All (λ lane. (generated_lane_state lane).channels ≡ no_channels) lanes.items }
    ensures { IfOk result HasEnded }
{
    let mut book = book;
    let passes = match book.begin_store(how, STRIPES) {
        Ok(passes) => passes,
        Err(refusal) => return refuse(refusal, book),
    };
    let Received {
        outcome,
        book,
        put_failed: _,
        lanes: _,
    } = receive(
        rt,
        alloc,
        lanes,
        book,
        passes,
        &mut NoControl,
        &mut Lines::new(alloc),
        last,
        &mut NoClock,
        &LIMITS,
    );
    end_attempt(outcome.end, book)
}

/// Ends an attempt that didn't begin.
#[tactic(auto, using(crate::proofs::CodeLemmas::never_begun))]
fn refuse(refusal: BeginError, book: GeneratedBook) -> Result<Attempt, OutOfMemory>
    ensures { IfOk result HasEnded }
{
    match refusal {
        BeginError::OutOfMemory => Err(OutOfMemory),
        other => Ok(Attempt {
            end: Err(code_of_refusal(&other)),
            book,
        }),
    }
}

/// Ends an attempt whose transfer was settled so.
#[tactic(auto, using(crate::proofs::CodeLemmas::never_complete))]
fn end_attempt(end: Result<Finished, Cause>, book: GeneratedBook) -> Result<Attempt, OutOfMemory>
    requires { book.stage ≡ Rest }
    ensures { IfOk result HasEnded }
{
    match end {
        Ok(file) => Ok(Attempt {
            end: Ok(file),
            book,
        }),
        Err(Cause::Memory) => Err(OutOfMemory),
        Err(cause) => Ok(Attempt {
            end: Err(code_of_cause(&cause)),
            book,
        }),
    }
}
