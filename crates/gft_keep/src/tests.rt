ghost use Rattle.std.specs.Prelude.{◌≡◌, IfOk, OnOk};
ghost use Rattle.gft_keep.specs.Keep.{IsKeep, IsOpen, IsUnbroken};
ghost use Rattle.gft_keep.specs.Of.{keep_of};
ghost use Rattle.gft_keep.specs.State.{IsWhole};

use super::*;
use gft_base::{Failed, LIMIT};
use gft_drive::{CallKind, CrashChoice, Drive, DriveCall, FailAt, MAX_RANGES, MemoryDrive, Part};
use gft_range::{Range, RangeSet};
use std::alloc::Global;
use std::process::Abort;
use std::test::Fail;

/// Attaches a drive; if it fails it comes back.
fn opened<D: Drive + Drop>(alloc: Global, drive: D) -> Result<Keep<D>, D>
    ensures { IfOk result (λ keep. IsUnbroken (keep_of D.state keep)) }
{
    match Keep::attach(alloc, drive) {
        Ok(keep) => Ok(keep),
        Err((_error, drive)) => Err(drive),
    }
}

/// Begins a file afresh on a drive.
fn begun<D: Drive + Drop>(alloc: Global, drive: D) -> Result<Keep<D>, D>
    ensures { IfOk result (λ keep. IsOpen (keep_of D.state keep)) }
{
    let mut keep = opened(alloc, drive)?;
    match keep.fresh() {
        Ok(()) => Ok(keep),
        Err(Failed) => Err(keep.into_drive()),
    }
}

/// Attaches a drive, and goes on with the file that it has.
fn resumed<D: Drive + Drop>(alloc: Global, drive: D) -> Result<Keep<D>, D>
    ensures { IfOk result (λ keep. IsOpen (keep_of D.state keep)) }
{
    let mut keep = opened(alloc, drive)?;
    match keep.resume() {
        Ok(()) => Ok(keep),
        Err(Failed) => Err(keep.into_drive()),
    }
}

/// Stores a block that is one.
fn put<D: Drive + Drop>(keep: &mut Keep<D>, offset: u64, bytes: &[u8]) -> Result<u64, KeepError>
    requires { IsOpen (keep_of D.state keep.old) }
    ensures open { OnOk result (IsOpen (keep_of D.state keep.new)) }
    ensures keep { IsKeep (keep_of D.state keep.new) }
{
    if bytes.is_empty() || offset > LIMIT || bytes.len() as u64 > LIMIT - offset {
        return Err(KeepError::OutOfMemory);
    }
    keep.store(offset, bytes)
}

/// Finishes a file that has no gap.
fn end<D: Drive + Drop>(keep: &mut Keep<D>) -> Result<(), Failed>
    requires { IsOpen (keep_of D.state keep.old) }
    ensures { OnOk result (IsUnbroken (keep_of D.state keep.new)) }
{
    if keep.ranges().first_gap().is_some() {
        return Err(Failed);
    }
    let len = keep.ranges().end();
    keep.finish(len)
}

/// Stores `hello` on a drive, counts the calls that are Ok, and gives the drive back.
fn hello<D: Drive + Drop>(alloc: Global, drive: D, done: &mut u8) -> D {
    let mut keep = match begun(alloc, drive) {
        Ok(keep) => keep,
        Err(drive) => return drive,
    };
    *done = 1;
    let Ok(_count) = put(&mut keep, 0, b"hello") else {
        return keep.into_drive();
    };
    *done = 2;
    if end(&mut keep).is_ok() {
        *done = 3;
    }
    keep.into_drive()
}

fn range(start: u64, end: u64) -> Range {
    Range { start, end }
}

fn made(alloc: Global, calls: u32, failing: &[FailAt]) -> Result<MemoryDrive, Fail> {
    Ok(MemoryDrive::new(alloc, b"name", 40_000, calls, failing)?)
}

fn write<D: Drive>(drive: &mut D, part: Part, at: u64, bytes: &[u8]) -> Result<(), Failed> {
    if bytes.is_empty() {
        return Ok(());
    }
    drive.write_at(part, at, bytes)?;
    drive.sync(part)
}

/// The open slot of a range.
fn slot(start: u8, end: u8) -> [u8; 16] {
    [1, 1, 0, 0, 0, 0, 0, start, 0, 0, 0, 0, 0, 0, 0, end]
}

fn part_of(part: &[u8], from: usize, to: usize) -> &[u8] {
    part.get(from..to).unwrap_or(&[])
}

/// What a crash may leave of what isn't synced.
const CHOICES: [CrashChoice; 5] = [
    CrashChoice::Old,
    CrashChoice::New,
    CrashChoice::Half,
    CrashChoice::Fill(0xff),
    CrashChoice::Fill(1),
];

/// Asserts that the drive was called so from this call on.
fn are_calls(rt: &impl Abort, drive: &MemoryDrive, from: usize, calls: &[DriveCall]) {
    for (i, call) in calls.iter().enumerate() {
        assert_eq!(rt; drive.call(from.saturating_add(i)), Some(*call), "at {i}");
    }
}

fn call(call: CallKind, part: Part, at: u64, len: u64) -> DriveCall {
    DriveCall {
        call,
        part,
        at,
        len,
    }
}

/// The calls by which the slot at this place is opened: its body and its gate, each with its sync.
fn opens(at: u64) -> [DriveCall; 4] {
    use CallKind::{Sync, Write};
    [
        call(Write, Part::Ranges, at.saturating_add(1), 15),
        call(Sync, Part::Ranges, 0, 0),
        call(Write, Part::Ranges, at, 1),
        call(Sync, Part::Ranges, 0, 0),
    ]
}

// 262 calls attach, and 263 begin afresh: 2 of the birth, 259 of the rebase, the cut and its sync.
#[test]
fn calls_come_in_their_order(rt: HostRuntime) -> Result<(), Fail> {
    use CallKind::{Cut, Len, Sync, Write};
    use Part::{Bytes, Ranges};
    let mut done = 0;
    let drive = hello(rt.alloc(), made(rt.alloc(), u32::MAX, &[])?, &mut done);
    assert_eq!(rt; done, 3);
    let attaches = [
        call(Sync, Bytes, 0, 0),
        call(Sync, Ranges, 0, 0),
        call(Len, Ranges, 0, 0),
    ];
    are_calls(&rt, &drive, 0, &attaches);
    let begins = [
        call(Len, Bytes, 0, 0),
        call(Write, Ranges, 1, 1),
        call(Sync, Ranges, 0, 0),
        call(Write, Ranges, 1_048_640, 4_096),
    ];
    are_calls(&rt, &drive, 261, &begins);
    let empties = [
        call(Write, Ranges, 0, 1),
        call(Sync, Ranges, 0, 0),
        call(Cut, Bytes, 0, 0),
        call(Sync, Bytes, 0, 0),
    ];
    are_calls(&rt, &drive, 521, &empties);
    let stores = [call(Write, Bytes, 0, 5), call(Sync, Bytes, 0, 0)];
    are_calls(&rt, &drive, 525, &stores);
    are_calls(&rt, &drive, 527, &opens(1_048_672));
    let finishes = [call(Cut, Bytes, 0, 5), call(Sync, Bytes, 0, 0)];
    are_calls(&rt, &drive, 531, &finishes);
    are_calls(&rt, &drive, 533, &opens(1_048_688));
    assert_eq!(rt; drive.count(), 537);
    assert_eq!(rt; drive.bytes(), b"hello".as_slice());
    let part = drive.ranges_part();
    assert_eq!(rt; part_of(part, 0, 2), [1, 1].as_slice());
    assert_eq!(rt; part_of(part, 1_048_672, 1_048_688), slot(0, 5).as_slice());
    let whole = [1, 2, 0, 0, 0, 0, 0, 0, 0, 0, 0, 0, 0, 0, 0, 5];
    assert_eq!(rt; part_of(part, 1_048_688, 1_048_704), whole.as_slice());
    Ok(())
}

/// Asserts that the drive has what was acknowledged of `hello`: nothing, the range, or the whole file.
fn has_hello(rt: &impl Abort, alloc: Global, left: MemoryDrive, done: u8) -> Result<(), Fail> {
    let mut keep = match Keep::attach(alloc, left) {
        Ok(keep) => keep,
        Err((error, _left)) => return Err(Fail::from(error)),
    };
    let whole = [range(0, 5)];
    let ranges = keep.ranges().as_slice();
    assert!(rt;
        ranges.is_empty() || ranges == whole.as_slice(),
        "{ranges:?}"
    );
    assert!(rt; done < 2 || ranges == whole.as_slice(), "{ranges:?}");
    let is_kept = !ranges.is_empty();
    assert!(rt; keep.completed().is_none() || keep.completed() == Some(5));
    assert!(rt; done < 3 || keep.completed() == Some(5));
    let mut buf = [b'.'; 8];
    let count = keep.read(0, &mut buf)?;
    if is_kept {
        assert_eq!(rt; part_of(&buf, 0, 5), b"hello".as_slice());
    }
    assert!(rt; keep.completed().is_none() || count == 5, "{count}");
    Ok(())
}

/// Stops the storing of `hello` behind this many calls, and attaches what is left, in each way.
fn stop(rt: &(impl Abort + Copy), alloc: Global, calls: u32) -> Result<(), Fail> {
    for choice in CHOICES {
        let mut done = 0;
        let drive = hello(alloc, made(alloc, calls, &[])?, &mut done);
        has_hello(rt, alloc, drive.crash(choice), done)?;
    }
    Ok(())
}

#[test]
fn a_stopped_beginning_has_what_was_acknowledged(rt: HostRuntime) -> Result<(), Fail> {
    for calls in [0, 2, 262, 263, 264, 400, 522, 524] {
        stop(&rt, rt.alloc(), calls)?;
    }
    Ok(())
}

#[test]
fn a_stopped_store_has_what_was_acknowledged(rt: HostRuntime) -> Result<(), Fail> {
    for calls in 525..532 {
        stop(&rt, rt.alloc(), calls)?;
    }
    Ok(())
}

#[test]
fn a_stopped_end_has_what_was_acknowledged(rt: HostRuntime) -> Result<(), Fail> {
    for calls in 532..538 {
        stop(&rt, rt.alloc(), calls)?;
    }
    Ok(())
}

#[test]
fn only_what_is_missing_is_written(rt: HostRuntime) -> Result<(), Fail> {
    let Ok(mut keep) = begun(rt.alloc(), made(rt.alloc(), u32::MAX, &[])?) else {
        panic!(rt; "nothing fails");
    };
    let first = put(&mut keep, 0, b"HELLO")?;
    let second = put(&mut keep, 0, b"helloX")?;
    let third = put(&mut keep, 0, b"HEL")?;
    assert_eq!(rt; [first, second, third], [5, 1, 0]);
    let drive = keep.into_drive();
    assert_eq!(rt; drive.bytes(), b"HELLOX".as_slice());
    // a write and a sync for each, four calls of the journal, and none for the last
    assert_eq!(rt; drive.count(), 525 + 2 * 6);
    Ok(())
}

/// Asserts that the keep has these ranges, and that its bytes are these.
fn has<D: Drive + Drop>(
    rt: &impl Abort,
    keep: &mut Keep<D>,
    ranges: &[Range],
    bytes: &[u8],
) -> Result<(), Fail>
    requires { IsWhole (keep_of D.state keep.old) }
{
    assert_eq!(rt; keep.ranges().as_slice(), ranges);
    let mut buf = [b'.'; 32];
    let count = keep.read(0, &mut buf)?;
    assert_eq!(rt; part_of(&buf, 0, count), bytes);
    Ok(())
}

const TWENTY: &[u8] = b"0123456789abcdefghij";

/// Stores a complete file of 20 bytes on a drive.
fn twenty<D: Drive + Drop>(alloc: Global, drive: D) -> D {
    let mut keep = match begun(alloc, drive) {
        Ok(keep) => keep,
        Err(drive) => return drive,
    };
    let Ok(_count) = put(&mut keep, 0, TWENTY) else {
        return keep.into_drive();
    };
    let _ = end(&mut keep);
    keep.into_drive()
}

/// Begins a file afresh on a drive, which comes back.
fn emptied<D: Drive + Drop>(alloc: Global, drive: D) -> D {
    match begun(alloc, drive) {
        Ok(keep) => keep.into_drive(),
        Err(drive) => drive,
    }
}

// 537 calls store the file and 262 attach it; then come the 259 of the rebase to no range, the last of
// which is the sync of the flip.
#[test]
fn a_file_is_let_go_before_its_data_is_cut(rt: HostRuntime) -> Result<(), Fail> {
    for choice in CHOICES {
        let drive = twenty(rt.alloc(), made(rt.alloc(), 1_058, &[])?);
        let left = emptied(rt.alloc(), drive).crash(choice);
        let Ok(mut keep) = opened(rt.alloc(), left) else {
            panic!(rt; "what is left is attached");
        };
        has(&rt, &mut keep, &[], TWENTY)?;
        assert!(rt; keep.born() && keep.completed().is_none());
    }
    Ok(())
}

#[test]
fn older_longer_data_is_gone(rt: HostRuntime) -> Result<(), Fail> {
    let old = twenty(rt.alloc(), made(rt.alloc(), u32::MAX, &[])?);
    let Ok(mut keep) = resumed(rt.alloc(), old) else {
        panic!(rt; "nothing fails");
    };
    assert_eq!(rt; keep.ranges().as_slice(), [range(0, 20)].as_slice());
    assert!(rt; keep.completed().is_none() && keep.born() && !keep.broken());
    assert_eq!(rt; put(&mut keep, 18, b"IJKL"), Ok(2));
    let mut done = 0;
    let drive = hello(rt.alloc(), keep.into_drive(), &mut done);
    assert_eq!(rt; done, 3);
    let Ok(mut keep) = opened(rt.alloc(), drive) else {
        panic!(rt; "nothing fails");
    };
    assert_eq!(rt; keep.completed(), Some(5));
    has(&rt, &mut keep, &[range(0, 5)], b"hello")?;
    Ok(())
}

#[test]
fn a_twin_is_attached_beside_the_keep(rt: HostRuntime) -> Result<(), Fail> {
    let Ok(mut keep) = begun(rt.alloc(), made(rt.alloc(), u32::MAX, &[])?) else {
        panic!(rt; "nothing fails");
    };
    let _new = put(&mut keep, 0, b"hello")?;
    let twin = keep.twin()?;
    has(&rt, &mut keep, &[range(0, 5)], b"hello")?;
    let Ok(mut second) = opened(rt.alloc(), twin) else {
        panic!(rt; "nothing fails");
    };
    has(&rt, &mut second, &[range(0, 5)], b"hello")?;
    Ok(())
}

/// What a drive is attached to, with its bytes.
type Answer = (Option<AttachError>, usize);

fn answer_of(alloc: Global, drive: MemoryDrive) -> Answer {
    match Keep::attach(alloc, drive) {
        Ok(keep) => (None, keep.into_drive().bytes().len()),
        Err((error, drive)) => (Some(error), drive.bytes().len()),
    }
}

#[test]
fn data_that_is_too_short_is_told(rt: HostRuntime) -> Result<(), Fail> {
    let short = |end, len| Some(AttachError::Damaged(Damage::Short { end, len }));
    let complete = [1, 2, 0, 0, 0, 0, 0, 0, 0, 0, 0, 0, 0, 0, 0, 7];
    let cases: [(&[u8], &[u8; 16], Option<AttachError>); 5] = [
        (b"", &slot(0, 5), short(5, 0)),
        (b"hell", &slot(0, 5), short(5, 4)),
        (b"hello", &slot(0, 5), None),
        (b"hello", &complete, short(7, 5)),
        (
            b"",
            &[1; 16],
            Some(AttachError::Damaged(Damage::Slot { slot: 0 })),
        ),
    ];
    for (bytes, slot, want) in cases {
        let mut drive = made(rt.alloc(), u32::MAX, &[])?;
        write(&mut drive, Part::Bytes, 0, bytes)?;
        write(&mut drive, Part::Ranges, 96, slot)?;
        assert_eq!(rt; answer_of(rt.alloc(), drive), (want, bytes.len()));
    }
    let number = 1;
    for (call, part) in [(CallKind::Sync, Part::Ranges), (CallKind::Len, Part::Bytes)] {
        let failing = [FailAt { call, part, number }];
        let mut drive = made(rt.alloc(), u32::MAX, &failing)?;
        drive.write_at(Part::Bytes, 0, b"old")?;
        assert_eq!(rt;
            answer_of(rt.alloc(), drive),
            (Some(AttachError::Failed), 3)
        );
    }
    Ok(())
}

/// Data of 20 bytes, born, with the open slots 0 of 0-5 and 65,531 of 10-15 in bank 0. It takes 8 calls.
fn nearly_full<D: Drive>(drive: &mut D) -> Result<(), Failed> {
    write(drive, Part::Bytes, 0, TWENTY)?;
    write(drive, Part::Ranges, 1, &[1])?;
    write(drive, Part::Ranges, 96, &slot(0, 5))?;
    write(drive, Part::Ranges, 96 + 16 * 65_531, &slot(10, 15))
}

/// Stores 20 bytes on a drive that is nearly full, and gives it back.
fn fill<D: Drive + Drop>(alloc: Global, drive: D, left: &mut Option<u32>, stored: &mut bool) -> D {
    let mut drive = drive;
    if nearly_full(&mut drive).is_err() {
        return drive;
    }
    let mut keep = match resumed(alloc, drive) {
        Ok(keep) => keep,
        Err(drive) => return drive,
    };
    let before = keep.journal.slots_left();
    if put(&mut keep, 0, b"KLMNOPQRSTUVWXYZ----") == Ok(10) {
        *stored = true;
    }
    *left = Some(before);
    keep.into_drive()
}

// What stays of the older bytes, and what is new.
const FILLED: &[u8] = b"01234PQRSTabcdeZ----";

#[test]
fn a_full_bank_changes_over_to_the_union(rt: HostRuntime) -> Result<(), Fail> {
    let mut left = None;
    let mut stored = false;
    let drive = fill(
        rt.alloc(),
        made(rt.alloc(), u32::MAX, &[])?,
        &mut left,
        &mut stored,
    );
    assert!(rt; stored && left == Some(1), "{left:?}");
    let part = drive.ranges_part();
    assert_eq!(rt; part_of(part, 0, 2), [1, 1].as_slice());
    assert_eq!(rt; part_of(part, 1_048_672, 1_048_688), slot(0, 20).as_slice());
    let Ok(mut keep) = opened(rt.alloc(), drive) else {
        panic!(rt; "nothing fails");
    };
    assert_eq!(rt; keep.journal.slots_left(), 65_532);
    assert_eq!(rt; keep.size(), Ok(20));
    Ok(())
}

#[test]
fn what_was_kept_stays_over_a_change_of_banks(rt: HostRuntime) -> Result<(), Fail> {
    let (mut left, mut stored) = (None, false);
    let drive = made(rt.alloc(), u32::MAX, &[])?;
    let drive = fill(rt.alloc(), drive, &mut left, &mut stored);
    let Ok(mut keep) = opened(rt.alloc(), drive) else {
        panic!(rt; "nothing fails");
    };
    has(&rt, &mut keep, &[range(0, 20)], FILLED)?;
    Ok(())
}

/// Stops a change of banks behind this many calls, and attaches what is left, in each way.
fn stop_change(rt: &(impl Abort + Copy), alloc: Global, calls: u32) -> Result<(), Fail> {
    let both = [range(0, 5), range(10, 15)];
    for choice in CHOICES {
        let (mut slots, mut stored) = (None, false);
        let drive = made(alloc, calls, &[])?;
        let left = fill(alloc, drive, &mut slots, &mut stored).crash(choice);
        let Ok(mut keep) = opened(alloc, left) else {
            panic!(rt; "what is left is attached");
        };
        let ranges = keep.ranges().as_slice();
        let is_union = ranges == [range(0, 20)].as_slice();
        assert!(rt;
            is_union || !stored && ranges == both.as_slice(),
            "{ranges:?}"
        );
        let mut buf = [0; 32];
        assert_eq!(rt; keep.read(0, &mut buf)?, 20);
        let held: &[(usize, usize)] = if is_union {
            &[(0, 20)]
        } else {
            &[(0, 5), (10, 15)]
        };
        for &(from, to) in held {
            assert_eq!(rt;
                part_of(&buf, from, to),
                part_of(FILLED, from, to),
                "at {calls}"
            );
        }
    }
    Ok(())
}

// 8 calls make the drive, and 262 attach it, which changes nothing; then come 2 writes, a sync, and 259 of
// the rebase.
#[test]
fn a_change_of_banks_that_is_stopped_early_has_the_old_ranges(rt: HostRuntime) -> Result<(), Fail> {
    for calls in 269..401 {
        stop_change(&rt, rt.alloc(), calls)?;
    }
    Ok(())
}

#[test]
fn a_change_of_banks_that_is_stopped_late_has_the_old_or_the_union(
    rt: HostRuntime,
) -> Result<(), Fail> {
    for calls in 401..534 {
        stop_change(&rt, rt.alloc(), calls)?;
    }
    Ok(())
}

/// Stores two blocks on a drive whose calls fail, and attaches it again once it is broken.
fn mended<D: Drive + Drop>(alloc: Global, drive: D, breaks: &mut u8) -> Result<Keep<D>, D>
    ensures { IfOk result (λ keep. IsUnbroken (keep_of D.state keep)) }
{
    let mut keep = begun(alloc, drive)?;
    if put(&mut keep, 0, b"abc").is_err() {
        return Err(keep.into_drive());
    }
    match put(&mut keep, 7, b"de") {
        Ok(_count) => return Err(keep.into_drive()),
        Err(KeepError::Failed) => {}
        Err(_other) => return Err(keep.into_drive()),
    }
    if keep.broken() && keep.ranges().as_slice() == [range(0, 3)].as_slice() {
        *breaks = 1;
    }
    match keep.reattach() {
        Ok(()) => Ok(keep),
        Err(_error) => Err(keep.into_drive()),
    }
}

#[test]
fn a_broken_keep_is_mended_by_attaching_again(rt: HostRuntime) -> Result<(), Fail> {
    let at = |call, part, number| FailAt { call, part, number };
    let whole = [range(0, 3), range(7, 9)];
    // attach syncs each part once and the birth, the rebase and two blocks the ranges 3 + 4 times; the
    // fresh begin and two blocks the data once each
    let cases = [
        (at(CallKind::Sync, Part::Bytes, 4), &whole[..1]),
        (at(CallKind::Write, Part::Ranges, 261), &whole[..1]),
        (at(CallKind::Sync, Part::Ranges, 7), &whole[..1]),
        (at(CallKind::Sync, Part::Ranges, 8), &whole[..]),
    ];
    for (failing, want) in cases {
        let mut breaks = 0;
        let drive = made(rt.alloc(), u32::MAX, &[failing])?;
        let Ok(keep) = mended(rt.alloc(), drive, &mut breaks) else {
            panic!(rt; "{failing:?} breaks the keep once");
        };
        assert_eq!(rt; breaks, 1, "{failing:?}");
        assert!(rt; !keep.broken());
        assert_eq!(rt; keep.ranges().as_slice(), want, "{failing:?}");
    }
    Ok(())
}

/// A drive that is born, with 16,384 ranges from 2i to 2i + 1 and their data.
fn many(alloc: Global) -> Result<MemoryDrive, Fail> {
    let mut drive = made(alloc, u32::MAX, &[])?;
    let mut slots = Vec::new(alloc);
    for i in 0..16_384u16 {
        slots.extend_from_slice(&[1, 1, 0, 0])?;
        slots.extend_from_slice(&(2 * u32::from(i)).to_be_bytes())?;
        slots.extend_from_slice(&[0; 4])?;
        slots.extend_from_slice(&(2 * u32::from(i) + 1).to_be_bytes())?;
    }
    write(&mut drive, Part::Bytes, 32_767, b"x")?;
    write(&mut drive, Part::Ranges, 1, &[1])?;
    write(&mut drive, Part::Ranges, 96, &slots)?;
    Ok(drive)
}

#[test]
fn as_many_ranges_are_kept_as_may_be(rt: HostRuntime) -> Result<(), Fail> {
    let Ok(mut keep) = resumed(rt.alloc(), many(rt.alloc())?) else {
        panic!(rt; "nothing fails");
    };
    assert_eq!(rt; keep.ranges().count(), MAX_RANGES);
    let Err(KeepError::RangesFull { kept }) = put(&mut keep, 32_768, b"x") else {
        panic!(rt; "one range more is kept");
    };
    assert_eq!(rt; kept, 16_384);
    let Ok(mut keep) = resumed(rt.alloc(), keep.into_drive()) else {
        panic!(rt; "nothing fails");
    };
    assert_eq!(rt; keep.ranges().count(), MAX_RANGES);
    assert_eq!(rt; put(&mut keep, 1, b"x"), Ok(1));
    assert_eq!(rt; keep.ranges().count(), MAX_RANGES - 1);
    Ok(())
}

#[test]
fn errors_have_their_texts(rt: HostRuntime) -> Result<(), Fail> {
    let kept = 16_384;
    let rows = [
        (
            KeepError::RangesFull { kept },
            "16384 ranges are kept, and no more can be",
        ),
        (KeepError::OutOfMemory, "out of memory"),
        (KeepError::Failed, "the drive failed"),
    ];
    for (error, text) in rows {
        assert_eq!(rt; error.to_string(rt.alloc())?.as_str(), text);
    }
    Ok(())
}
