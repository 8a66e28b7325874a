ghost use Rattle.std.specs.Prelude.{◌≡◌, ◌≢◌, ◌⊎◌, ℕ, List, Some, IsSomeAnd, IfOk, OnErr, string_bytes};
ghost use Rattle.std.specs.Io.KnownBytes.{Appends};
ghost use Rattle.gft_drive.specs.Words.{Goes};
ghost use Rattle.gridftpd.specs.DrainWords.{AreDrainWords, name_in};
ghost use Rattle.gridftpd.specs.Cause.{IsCause, told_by};
ghost use Rattle.gridftpd.specs.Drain.{Answers, EndsAs, FaultCounts, FillsRanges, NoneRose, IsPut, IsTold};
ghost use Rattle.gridftpd.specs.Drain.{DriveIsBlamed, InputIsBlamed, IsFile, IsGoodInput, IsHonest};
ghost use Rattle.gridftpd.specs.Images.{FindsDamage, HoldsAtEnd, IsStored, OfEach};
ghost use Rattle.gridftpd.specs.Turn.{outcome_of};
ghost use Rattle.gridftpd.specs.Drain.{IsTaken};
ghost use Rattle.gridftpd.specs.Line.{usage_text, out_of_memory_text};
ghost use Rattle.gridftpd.specs.Status.{number_of};
ghost use Rattle.gridftpd.specs.declared.status.Status.{Status};

use crate::intake::Intake;
use crate::line::{
    bad_block_line, complete_line, count_refused_line, damaged_line, drive_failed_line, hole_line,
    lost_line, out_of_memory_line, ranges_full_line, read_failed_line, too_long_line, usage_line,
};
use crate::outcome::Outcome;
use crate::reading::READ_LEN;
use crate::status::Status;
use crate::words::are_drain_words;
use gft_base::Failed;
use gft_drive::{Drive, Origin, Sink, Source};
use gft_keep::{AttachError, Keep};
use std::alloc::{AllocError, Global};

/// Stores one recorded data connection (GFD.20, extended block mode) as a file, prints one line, and
/// gives the exit status with the drive. It reads up to the EOD, and leaves what follows unread.
///
/// | Status | Line |
/// |---|---|
/// | 0 | `226 Transfer complete.`: the total is announced, its EODs came, and the data covers the file |
/// | 1 | a 426 or 452 line: the input was lost, has a hole, a bad block, a count that is refused,
/// too many bytes or too many ranges |
/// | 2 | `usage: gridftpd drain NAME`: other words |
/// | 3 | `451 Read failed.`: a read of the input failed |
/// | 4 | a part of the line: a put failed |
/// | 5 | `451 Drive failed.`: a call of the drive failed |
/// | 6 | `455 Out of memory.` |
/// | 7 | `451 Journal damaged.`: what the drive keeps of its ranges can't be read, or its data is
/// shorter than they are; nothing was changed |
///
/// Each of 3, 4 and 5 comes only where a count of faults rose in this call, and no other status but
/// 4 where one of the input or of the drive did: want of memory hides no fault. The drive comes back
/// at every status; other words leave it and the input untouched. Whatever the status, what is kept is
/// held by every image that a crash may leave.
pub fn drain<I: Source, W: Sink, D: Drive + Drop, O: Origin>(
    alloc: Global,
    words: &[String],
    input: &mut I,
    out: &mut W,
    drive: D,
) -> (u8, Option<D>)
    requires open { W.is_open out.old }
    // The drive is the file that the words name.
    requires label { AreDrainWords words.now → (D.state drive).label ≡ name_in words.now }

    // Status 0 only where the arrivals up to the EOD are done; then the file is the kept bytes, complete.
    ensures complete { result.0 ≡ 0 → (stream : List ℕ)
        × IsTaken (I.left input.old) (I.left input.new) stream
        × IsSomeAnd result.1 (λ back. IsStored stream (D.state back)) }

    // Each status has its line, and its faults: none is passed over.
    ensures told { (status : Status) × (result.0 ≡ number_of status)
        × IsSomeAnd result.1 (λ back. Answers status
        (record { input = I.faults input.old; output = W.faults out.old; drive = (D.state drive).faults })
        (record { input = I.faults input.new; output = W.faults out.new; drive = (D.state back).faults })
        (W.written out.old) (W.written out.new)) }

    // Other words touch nothing but the line.
    ensures other_words { ¬ AreDrainWords words.now
        → ((result.0 ≡ 2) ⊎ (result.0 ≡ 4)) × (result.1 ≡ Some drive) × (input.new ≡ input.old) }
    // Right words end as the first cause that is met says; what follows it is unread, and what is kept stays
    // over a crash.
    ensures right_words { AreDrainWords words.now → (result.0 ≢ 2)
        × IsSomeAnd result.1 (λ back. EndsAs result.0 (I.left input.old) (I.left input.new)
        (W.written out.old) (W.written out.new) (W.faults out.old) (W.faults out.new)
        (D.state drive) (D.state back)) }

    // A good input is stored where no fault was counted and the journal isn't damaged, unless memory was
    // refused or the ranges were full.
    ensures certain { AreDrainWords words.now
        → (bytes : List ℕ) → I.left input.old ≡ Some bytes → IsGoodInput bytes
        → IsSomeAnd result.1 (λ back. NoneRose
        (record { input = I.faults input.old; output = W.faults out.old; drive = (D.state drive).faults })
        (record { input = I.faults input.new; output = W.faults out.new; drive = (D.state back).faults }))
        → result.0 ≢ 7 → (result.0 ≡ 0) ⊎ (result.0 ≡ 6) ⊎ ((result.0 ≡ 1)
        × FillsRanges (I.left input.old) (I.left input.new) (W.written out.old) (W.written out.new)) }

    // From an honest sender of a named source, status 0 comes only with the equal file.
    ensures equal { (source bytes : List ℕ) → O.source (D.state drive).label ≡ Some source
        → I.left input.old ≡ Some bytes → IsHonest source (told_by bytes)
        → result.0 ≡ 0
        → IsSomeAnd result.1 (λ back. OfEach (D.state back) (IsFile source)) }
{
    if !are_drain_words(words) {
        return (refuse_words(out).number(), Some(drive));
    }
    let (outcome, drive) = store_input(alloc, input, drive);
    (tell(alloc, out, &outcome).number(), Some(drive))
}

/// Stores what comes from the input as the drive's file, and gives the drive back.
fn store_input<I: Source, D: Drive + Drop>(alloc: Global, input: &mut I, drive: D) -> (Outcome, D)
    ensures caused { (stream : List ℕ) × IsTaken (I.left input.old) (I.left input.new) stream
        × IsCause result.0 stream (I.left input.new)
        × HoldsAtEnd result.0 stream (D.state drive) (D.state result.1)
        × (result.0 ≡ Outcome.Complete → IsStored stream (D.state result.1)) }
    ensures damage { FindsDamage result.0 (D.state drive) }
    ensures input { InputIsBlamed result.0 (I.faults input.old) (I.faults input.new) }
    ensures drive { DriveIsBlamed result.0 (D.state drive).faults (D.state result.1).faults }
    ensures goes { Goes (D.state drive) (D.state result.1) }
{
    let Ok(mut buf) = vec![in alloc; 0u8; READ_LEN] else {
        return (Outcome::OutOfMemory, drive);
    };
    let mut keep = match Keep::attach(alloc, drive) {
        Ok(keep) => keep,
        Err((error, drive)) => return (not_attached(error), drive),
    };
    if let Err(Failed) = keep.fresh() {
        return (Outcome::DriveFailed, keep.into_drive());
    }
    let mut intake = Intake::new(keep);
    let outcome = intake.run(input, &mut buf);
    (outcome, intake.into_drive())
}

/// The outcome where the drive is no keep.
fn not_attached(error: AttachError) -> Outcome
    ensures { result ≡ outcome_of error }
{
    match error {
        AttachError::Failed => Outcome::DriveFailed,
        AttachError::OutOfMemory => Outcome::OutOfMemory,
        AttachError::Damaged(_) => Outcome::Damaged,
    }
}

/// Prints the line of an outcome, and gives its status.
pub(crate) fn tell<W: Sink>(alloc: Global, out: &mut W, outcome: &Outcome) -> Status
    requires open { W.is_open out.old }
    ensures { IsTold outcome.now result (W.written out.old) (W.written out.new)
        (W.faults out.old) (W.faults out.new) }
{
    match *outcome {
        Outcome::Complete => put(out, complete_line(), Status::Complete),
        Outcome::Lost { taken } => put_made(out, lost_line(alloc, taken)),
        Outcome::Hole {
            total,
            eods,
            missing,
        } => put_made(out, hole_line(alloc, total, eods, missing)),
        Outcome::BadBlock(bad) => put_made(out, bad_block_line(alloc, &bad)),
        Outcome::CountRefused(error) => put_made(out, count_refused_line(alloc, error)),
        Outcome::TooLong => put(out, too_long_line(), Status::Refused),
        Outcome::RangesFull { kept } => put_made(out, ranges_full_line(alloc, kept)),
        Outcome::Damaged => put(out, damaged_line(), Status::Damaged),
        Outcome::ReadFailed => put(out, read_failed_line(), Status::ReadFailed),
        Outcome::DriveFailed => put(out, drive_failed_line(), Status::DriveFailed),
        Outcome::OutOfMemory => refuse_memory(out),
    }
}

fn refuse_words<W: Sink>(out: &mut W) -> Status
    requires open { W.is_open out.old }
    ensures { IsPut Status.Usage usage_text result (W.written out.old) (W.written out.new)
        (W.faults out.old) (W.faults out.new) }
{
    put(out, usage_line(), Status::Usage)
}

fn refuse_memory<W: Sink>(out: &mut W) -> Status
    requires open { W.is_open out.old }
    ensures { IsPut Status.OutOfMemory out_of_memory_text result (W.written out.old) (W.written out.new)
        (W.faults out.old) (W.faults out.new) }
{
    put(out, out_of_memory_line(), Status::OutOfMemory)
}

/// Puts the line of a refusal, or where memory for it was refused the line of that.
fn put_made<W: Sink>(out: &mut W, made: Result<String, AllocError>) -> Status
    requires open { W.is_open out.old }
    ensures made { IfOk made (λ line. IsPut Status.Refused (string_bytes line) result
        (W.written out.old) (W.written out.new) (W.faults out.old) (W.faults out.new)) }
    ensures refused { OnErr made (IsPut Status.OutOfMemory out_of_memory_text result
        (W.written out.old) (W.written out.new) (W.faults out.old) (W.faults out.new)) }
{
    match made {
        Ok(line) => put(out, line.as_bytes(), Status::Refused),
        Err(_) => refuse_memory(out),
    }
}

/// Puts a line, and gives the status that it stands for, or that of a put that failed.
fn put<W: Sink>(out: &mut W, line: &[u8], status: Status) -> Status
    requires open { W.is_open out.old }
    ensures { IsPut status line.now result (W.written out.old) (W.written out.new)
        (W.faults out.old) (W.faults out.new) }
{
    match out.put(line) {
        Ok(()) => status,
        Err(Failed) => Status::PutFailed,
    }
}
