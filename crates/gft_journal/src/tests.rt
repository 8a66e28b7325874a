ghost use Rattle.std.specs.Prelude.{◌<◌, ◌≤◌, ℕ, length, IfOk, OnOk};
ghost use Rattle.gft_range.specs.Words.{HasOffset};
ghost use Rattle.gft_journal.specs.Journal.{IsJournalOf};

use super::*;
use gft_base::{Failed, LIMIT};
use gft_drive::{CallKind, CrashChoice, Drive, DriveCall, MAX_RANGES, MemoryDrive, Part};
use gft_range::{Range, RangeSet};
use std::alloc::Global;
use std::process::Abort;
use std::test::Fail;

/// Appends a range where there is a slot left.
fn add<D: Drive>(journal: &mut Journal, drive: &mut D, start: u64, end: u64) -> Result<(), Failed>
    requires stands { IsJournalOf journal.old (D.state drive.old) }
    requires some { start < end }
    requires below { end ≤ LIMIT }
    ensures { OnOk result (IsJournalOf journal.new (D.state drive.new)) }
{
    if journal.slots_left() == 0 {
        return Err(Failed);
    }
    journal.append(drive, Range { start, end })
}

/// Completes a file whose ranges are whole, and gives its journal.
fn complete_whole<D: Drive>(alloc: Global, drive: &mut D) -> Result<Journal, AttachError>
    ensures { IfOk result (λ journal. IsJournalOf journal (D.state drive.new)) }
{
    let mut found = attach(alloc, drive)?;
    let len = found.set.end();
    let is_whole = found.set.covers(Range { start: 0, end: len });
    if len > LIMIT || !is_whole {
        return Err(AttachError::Failed);
    }
    let Ok(()) = found.journal.complete(drive, len) else {
        return Err(AttachError::Failed);
    };
    Ok(found.journal)
}

/// Appends three ranges, and counts those that were acknowledged.
fn add_three<D: Drive>(journal: &mut Journal, drive: &mut D, done: &mut u8) -> Result<(), Failed>
    requires { IsJournalOf journal.old (D.state drive.old) }
    ensures { OnOk result (IsJournalOf journal.new (D.state drive.new)) }
{
    journal.birth(drive)?;
    add(journal, drive, 0, 5)?;
    *done = 1;
    add(journal, drive, 7, 9)?;
    *done = 2;
    add(journal, drive, 5, 7)?;
    *done = 3;
    Ok(())
}

/// Rebases to these ranges with the complete length 4, and appends one more.
fn begin_again<D: Drive>(
    journal: &mut Journal,
    drive: &mut D,
    set: &RangeSet,
    done: &mut u8,
) -> Result<(), Failed>
    requires stands { IsJournalOf journal.old (D.state drive.old) }
    requires count { length set.now.ranges ≤ MAX_RANGES }
    requires ends { (x : ℕ) → HasOffset set.now.ranges x → x < LIMIT }
{
    journal.rebase(drive, set, Some(4))?;
    *done = 5;
    add(journal, drive, 8, 9)?;
    *done = 6;
    Ok(())
}

fn range(start: u64, end: u64) -> Range {
    Range { start, end }
}

/// Whether this is what stands behind so many changes.
fn is_behind(ranges: &[Range], complete: Option<u64>, done: u8) -> bool {
    match done {
        0 => ranges.is_empty() && complete.is_none(),
        1 => ranges == [range(0, 5)].as_slice() && complete.is_none(),
        2 => ranges == [range(0, 5), range(7, 9)].as_slice() && complete.is_none(),
        3 => ranges == [range(0, 9)].as_slice() && complete.is_none(),
        4 => ranges == [range(0, 9)].as_slice() && complete == Some(9),
        5 => ranges == [range(2, 4)].as_slice() && complete == Some(4),
        _ => ranges == [range(2, 4), range(8, 9)].as_slice() && complete == Some(4),
    }
}

/// A journal's life: a birth, three ranges, complete with 9, a rebase to 2-4 that is complete with 4,
/// and a range more. It counts the changes that were acknowledged.
fn live<D: Drive>(
    alloc: Global,
    drive: &mut D,
    set: &RangeSet,
    done: &mut u8,
) -> Result<(), AttachError> {
    let Found { mut journal, .. } = attach(alloc, drive)?;
    let Ok(()) = add_three(&mut journal, drive, done) else {
        return Err(AttachError::Failed);
    };
    let mut journal = complete_whole(alloc, drive)?;
    *done = 4;
    if set.count() > MAX_RANGES || set.end() > LIMIT {
        return Err(AttachError::OutOfMemory);
    }
    let Ok(()) = begin_again(&mut journal, drive, set, done) else {
        return Err(AttachError::Failed);
    };
    Ok(())
}

fn made(alloc: Global, calls: u32) -> Result<MemoryDrive, Fail> {
    Ok(MemoryDrive::new(alloc, b"name", 16, calls, &[])?)
}

/// What a crash may leave of what isn't synced.
const CHOICES: [CrashChoice; 5] = [
    CrashChoice::Old,
    CrashChoice::New,
    CrashChoice::Half,
    CrashChoice::Fill(0xff),
    CrashChoice::Fill(1),
];

/// Stops a journal's life behind this many calls, in each way, and attaches what is left.
fn stop(rt: &(impl Abort + Copy), alloc: Global, set: &RangeSet, calls: u32) -> Result<(), Fail> {
    for choice in CHOICES {
        let mut drive = made(alloc, calls)?;
        let mut done = 0;
        let _ = live(alloc, &mut drive, set, &mut done);
        let mut left = drive.crash(choice);
        let found = match attach(alloc, &mut left) {
            Ok(found) => found,
            Err(error) => return Err(Fail::from(error)),
        };
        let (ranges, complete) = (found.set.as_slice(), found.complete);
        let is_told = is_behind(ranges, complete, done)
            || is_behind(ranges, complete, done.saturating_add(1));
        assert!(rt;
            is_told,
            "at {calls}, {choice:?}: {ranges:?}, {complete:?} behind {done}"
        );
    }
    Ok(())
}

fn two_to_four(alloc: Global) -> Result<RangeSet, Fail> {
    let mut set = RangeSet::new(alloc);
    set.reserve(1)?;
    set.insert(Range { start: 2, end: 4 });
    Ok(set)
}

// 261 calls attach; then come 14 of the birth and three ranges, 261 and 4 that complete, 259 of the
// rebase, and 4.
#[test]
fn a_stopped_journal_names_what_was_acknowledged(rt: HostRuntime) -> Result<(), Fail> {
    let set = two_to_four(rt.alloc())?;
    for calls in [0, 1, 2, 3, 260] {
        stop(&rt, rt.alloc(), &set, calls)?;
    }
    for calls in 261..278 {
        stop(&rt, rt.alloc(), &set, calls)?;
    }
    Ok(())
}

#[test]
fn a_journal_that_is_stopped_later_names_it_too(rt: HostRuntime) -> Result<(), Fail> {
    let set = two_to_four(rt.alloc())?;
    for calls in 535..670 {
        stop(&rt, rt.alloc(), &set, calls)?;
    }
    Ok(())
}

#[test]
fn a_journal_that_is_stopped_at_the_end_names_it_too(rt: HostRuntime) -> Result<(), Fail> {
    let set = two_to_four(rt.alloc())?;
    for calls in 670..804 {
        stop(&rt, rt.alloc(), &set, calls)?;
    }
    Ok(())
}

/// Completes a bank that is full of slots, stops behind this many calls, and attaches what is left.
fn stop_full(rt: &impl Abort, alloc: Global, slots: &[u8], calls: u32) -> Result<(), Fail> {
    for choice in CHOICES {
        let mut drive = made(alloc, calls)?;
        write(&mut drive, 96, slots)?;
        drive.sync(Part::Ranges)?;
        let is_done = complete_whole(alloc, &mut drive).is_ok();
        let mut left = drive.crash(choice);
        let found = match attach(alloc, &mut left) {
            Ok(found) => found,
            Err(error) => return Err(Fail::from(error)),
        };
        assert_eq!(rt; found.set.as_slice(), [range(0, 5)].as_slice());
        let is_told = found.complete == Some(5) || !is_done && found.complete.is_none();
        assert!(rt; is_told, "at {calls}, {choice:?}: {:?}", found.complete);
    }
    Ok(())
}

// 2 calls fill the bank, and 261 attach; then come 259 of the rebase.
#[test]
fn a_full_bank_is_stopped_while_it_is_completed(rt: HostRuntime) -> Result<(), Fail> {
    let full = slots(rt.alloc(), 65_534, false)?;
    for step in 0..17 {
        stop_full(&rt, rt.alloc(), &full, 2 + 32 * step)?;
    }
    for calls in [263, 264, 519, 520, 521, 522] {
        stop_full(&rt, rt.alloc(), &full, calls)?;
    }
    Ok(())
}

/// Asserts that from this call on the ranges part was called so.
fn are_calls(rt: &impl Abort, drive: &MemoryDrive, from: usize, calls: &[(CallKind, u64, u64)]) {
    for (i, &(call, at, len)) in calls.iter().enumerate() {
        let part = Part::Ranges;
        let want = DriveCall {
            call,
            part,
            at,
            len,
        };
        assert_eq!(rt; drive.call(from.saturating_add(i)), Some(want), "at {i}");
    }
}

/// Asserts that an attach begins with this call: both parts are synced, and then there is nothing but a
/// length and reads.
fn attaches(rt: &impl Abort, drive: &MemoryDrive, from: usize) {
    let first = drive.call(from);
    assert!(rt; first.is_some_and(|call| call.call == CallKind::Sync && call.part == Part::Bytes));
    let behind = [(CallKind::Sync, 0, 0), (CallKind::Len, 0, 0)];
    are_calls(rt, drive, from.saturating_add(1), &behind);
    for i in 3..261 {
        let call = drive.call(from.saturating_add(i));
        assert!(rt;
            call.is_some_and(|call| call.call == CallKind::Read),
            "at {i}"
        );
    }
}

/// The calls by which the slot at this place is opened: its body and its gate, each with its sync.
fn slot_calls(at: u64) -> [(CallKind, u64, u64); 4] {
    use CallKind::{Sync, Write};
    [
        (Write, at.saturating_add(1), 15),
        (Sync, 0, 0),
        (Write, at, 1),
        (Sync, 0, 0),
    ]
}

#[test]
fn calls_come_in_their_order(rt: HostRuntime) -> Result<(), Fail> {
    use CallKind::{Sync, Write};
    let mut drive = made(rt.alloc(), u32::MAX)?;
    let set = two_to_four(rt.alloc())?;
    let mut done = 0;
    assert!(rt; live(rt.alloc(), &mut drive, &set, &mut done).is_ok());
    assert_eq!(rt; done, 6);
    attaches(&rt, &drive, 0);
    let birth = [(Write, 1, 1), (Sync, 0, 0)];
    are_calls(&rt, &drive, 261, &birth);
    for (i, at) in [96, 112, 128].iter().enumerate() {
        are_calls(&rt, &drive, 263 + 4 * i, &slot_calls(*at));
    }
    attaches(&rt, &drive, 275);
    are_calls(&rt, &drive, 536, &slot_calls(144));
    for i in 0..256 {
        let piece = [(Write, 1_048_640 + 4_096 * i, 4_096)];
        are_calls(&rt, &drive, 540 + i as usize, &piece);
    }
    let flip = [(Sync, 0, 0), (Write, 0, 1), (Sync, 0, 0)];
    are_calls(&rt, &drive, 796, &flip);
    are_calls(&rt, &drive, 799, &slot_calls(1_048_704));
    assert_eq!(rt; drive.count(), 803);
    Ok(())
}

fn part_of(part: &[u8], from: usize, to: usize) -> &[u8] {
    part.get(from..to).unwrap_or(&[])
}

#[test]
fn a_range_has_its_bytes(rt: HostRuntime) -> Result<(), Fail> {
    let mut drive = made(rt.alloc(), u32::MAX)?;
    let found = match attach(rt.alloc(), &mut drive) {
        Ok(found) => found,
        Err(error) => return Err(Fail::from(error)),
    };
    assert!(rt; found.set.as_slice().is_empty() && !found.born && found.complete.is_none());
    assert_eq!(rt; drive.count(), 261);
    let mut journal = found.journal;
    journal.birth(&mut drive)?;
    add(&mut journal, &mut drive, 0, 5)?;
    assert_eq!(rt; journal.slots_left(), 65_532);
    let part = drive.ranges_part();
    assert_eq!(rt; part_of(part, 0, 3), [0, 1, 0].as_slice());
    assert_eq!(rt;
        part_of(part, 96, 112),
        [1, 1, 0, 0, 0, 0, 0, 0, 0, 0, 0, 0, 0, 0, 0, 5].as_slice()
    );
    assert_eq!(rt; drive.count(), 267);
    Ok(())
}

fn write<D: Drive>(drive: &mut D, at: u64, bytes: &[u8]) -> Result<(), Failed> {
    if bytes.is_empty() {
        return Ok(());
    }
    drive.write_at(Part::Ranges, at, bytes)
}

/// Slots that are open for ranges: so many, from 2i to 2i + 1, or all from 0 to 5.
fn slots(alloc: Global, count: u32, apart: bool) -> Result<Vec<u8>, Fail> {
    let mut bytes = Vec::new(alloc);
    for i in 0..count {
        let (start, end) = if apart {
            (i.wrapping_mul(2), i.wrapping_mul(2).wrapping_add(1))
        } else {
            (0, 5)
        };
        bytes.extend_from_slice(&[1, 1, 0, 0])?;
        bytes.extend_from_slice(&start.to_be_bytes())?;
        bytes.extend_from_slice(&[0; 4])?;
        bytes.extend_from_slice(&end.to_be_bytes())?;
    }
    Ok(bytes)
}

#[test]
fn the_first_damage_is_told(rt: HostRuntime) -> Result<(), Fail> {
    let many = slots(rt.alloc(), 16_385, true)?;
    let cases: [(u64, &[u8], Option<Damage>); 7] = [
        (1_048_672, &[9], None),
        (96, &[0, 7, 7], None),
        (64, &[3], Some(Damage::Version { bank: 0, found: 3 })),
        (96, &[1, 4], Some(Damage::Slot { slot: 0 })),
        (
            112,
            &[1, 1, 0, 0, 0, 0, 0, 0, 1],
            Some(Damage::Slot { slot: 1 }),
        ),
        (1_048_624, &[1, 2, 9], Some(Damage::Slot { slot: 65_533 })),
        (96, &many, Some(Damage::Ranges { count: 16_385 })),
    ];
    for (at, bytes, want) in cases {
        let mut drive = made(rt.alloc(), u32::MAX)?;
        write(&mut drive, at, bytes)?;
        match (attach(rt.alloc(), &mut drive), want) {
            (Ok(found), None) => assert!(rt; found.set.as_slice().is_empty() && !found.born),
            (Err(error), Some(damage)) => assert_eq!(rt; error, AttachError::Damaged(damage)),
            _ => assert!(rt; false, "at {at}"),
        }
    }
    let mut drive = made(rt.alloc(), u32::MAX)?;
    write(&mut drive, 0, &[7])?;
    write(&mut drive, 1_048_640, &[2])?;
    let other = AttachError::Damaged(Damage::Version { bank: 1, found: 2 });
    assert_eq!(rt; attach(rt.alloc(), &mut drive).err(), Some(other));
    drive.cut(Part::Ranges, 5)?;
    let short = AttachError::Damaged(Damage::Size { len: 5 });
    assert_eq!(rt; attach(rt.alloc(), &mut drive).err(), Some(short));
    Ok(())
}

#[test]
fn a_full_bank_is_completed_in_the_other(rt: HostRuntime) -> Result<(), Fail> {
    let full = slots(rt.alloc(), 65_534, false)?;
    let mut drive = made(rt.alloc(), u32::MAX)?;
    write(&mut drive, 96, &full)?;
    for _ in 0..2 {
        if let Err(error) = complete_whole(rt.alloc(), &mut drive) {
            return Err(Fail::from(error));
        }
    }
    let part = drive.ranges_part();
    assert_eq!(rt; part_of(part, 0, 2), [1, 0].as_slice());
    assert_eq!(rt;
        part_of(part, 1_048_640, 1_048_644),
        [1, 0, 0, 0].as_slice()
    );
    let want = [
        [1, 1, 0, 0, 0, 0, 0, 0, 0, 0, 0, 0, 0, 0, 0, 5],
        [1, 2, 0, 0, 0, 0, 0, 0, 0, 0, 0, 0, 0, 0, 0, 5],
        [1, 2, 0, 0, 0, 0, 0, 0, 0, 0, 0, 0, 0, 0, 0, 5],
        [0; 16],
    ];
    for (i, slot) in want.iter().enumerate() {
        let at = 1_048_672 + 16 * i;
        assert_eq!(rt; part_of(part, at, at + 16), slot.as_slice(), "at {i}");
    }
    Ok(())
}
