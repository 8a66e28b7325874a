ghost use Rattle.std.specs.Prelude.{◌≡◌, ℕ, ◌+◌, ◌≤◌, length, slice_index, IfOk, OnOk};
ghost use Rattle.gft_drive.specs.Words.{Unchanged, bank_at};
ghost use Rattle.gft_journal.specs.Attach.{FoundOn, HasSize, IsBadOf, IsDamageOf, IsFirstBadOf, IsJournalHead};
ghost use Rattle.gft_journal.specs.Attach.{FindsIn, HasBytesAt, HasNoDamage, IsSelected, IsVersionOf};
ghost use Rattle.gft_journal.specs.Attach.{Rests, ScansOn, WhereTold};
ghost use Rattle.gft_journal.specs.Damage.{HasAttachCause};
ghost use Rattle.gft_journal.specs.Scan.{IsInLimit, IsScan};
ghost use Rattle.gft_journal.specs.Slot.{bank_number};

use crate::damage::{AttachError, Damage};
use crate::journal::Journal;
use crate::scan::{Scan, ScanError};
use crate::slot::{self, Bank};
use gft_drive::{Drive, MAX_RANGES, Part, RANGES_LEN};
use gft_range::RangeSet;
use std::alloc::Global;

/// What a drive's journal stands for.
#[derive(Drop)]
pub struct Found {
    pub journal: Journal,
    pub set: RangeSet,
    pub born: bool,
    pub complete: Option<u64>,
}

/// Reads the journal of a drive, once both parts are synced. It writes nothing.
///
/// A drive that doesn't tell its contents and gives fewer bytes than its length is damaged.
pub fn attach<D: Drive>(alloc: Global, drive: &mut D) -> Result<Found, AttachError>
    ensures found { IfOk result (FoundOn (D.state drive.old) (D.state drive.new)) }
    ensures damaged { IsDamageOf (D.state drive.old) result }
    ensures rests { Rests (D.state drive.old) (D.state drive.new) }
    ensures cause { HasAttachCause (D.state drive.old).faults (D.state drive.new).faults result }
{
    let Ok(()) = drive.sync(Part::Bytes) else {
        return Err(AttachError::Failed);
    };
    let Ok(()) = drive.sync(Part::Ranges) else {
        return Err(AttachError::Failed);
    };
    read_journal(alloc, drive)
}

// Reads the journal of a drive whose parts are synced.
fn read_journal<D: Drive>(alloc: Global, drive: &mut D) -> Result<Found, AttachError>
    ensures found { IfOk result (FindsIn (D.state drive.old)) }
    ensures damaged { IsDamageOf (D.state drive.old) result }
    ensures unchanged { Unchanged (D.state drive.old) (D.state drive.new) }
    ensures cause { HasAttachCause (D.state drive.old).faults (D.state drive.new).faults result }
{
    let (bank, born) = match read_head(drive) {
        Ok(head) => head,
        Err(error) => return Err(error),
    };
    let scan = match read_bank(alloc, drive, bank) {
        Ok(scan) => scan,
        Err(error) => return Err(error),
    };
    let count = scan.set.count();
    if count > MAX_RANGES {
        let count = count.min(u32::MAX as usize) as u32;
        return Err(AttachError::Damaged(Damage::Ranges { count }));
    }
    let Scan {
        set,
        complete,
        next,
    } = scan;
    let journal = Journal { bank, born, next };
    Ok(Found {
        journal,
        set,
        born,
        complete,
    })
}

// The selected bank, and whether the drive is born.
fn read_head<D: Drive>(drive: &mut D) -> Result<(Bank, bool), AttachError>
    ensures head { IfOk result (λ head. WhereTold (D.state drive.old) (IsJournalHead (bank_number head.0) head.1)) }
    ensures damaged { IsDamageOf (D.state drive.old) result }
    ensures unchanged { Unchanged (D.state drive.old) (D.state drive.new) }
    ensures cause { HasAttachCause (D.state drive.old).faults (D.state drive.new).faults result }
{
    match read_size(drive) {
        Ok(()) => read_banks(drive),
        Err(error) => Err(error),
    }
}

// Whether the part has its length.
fn read_size<D: Drive>(drive: &mut D) -> Result<(), AttachError>
    ensures size { OnOk result (HasSize (D.state drive.new)) }
    ensures damaged { IsDamageOf (D.state drive.old) result }
    ensures unchanged { Unchanged (D.state drive.old) (D.state drive.new) }
    ensures cause { HasAttachCause (D.state drive.old).faults (D.state drive.new).faults result }
{
    let Ok(len) = drive.len(Part::Ranges) else {
        return Err(AttachError::Failed);
    };
    if len != RANGES_LEN {
        return Err(AttachError::Damaged(Damage::Size { len }));
    }
    Ok(())
}

// The head of a part that has its length.
fn read_banks<D: Drive>(drive: &mut D) -> Result<(Bank, bool), AttachError>
    requires size { HasSize (D.state drive.old) }
    ensures head { IfOk result (λ head. WhereTold (D.state drive.old) (IsJournalHead (bank_number head.0) head.1)) }
    ensures damaged { IsDamageOf (D.state drive.old) result }
    ensures unchanged { Unchanged (D.state drive.old) (D.state drive.new) }
    ensures cause { HasAttachCause (D.state drive.old).faults (D.state drive.new).faults result }
{
    let (bank, born) = match read_selector(drive) {
        Ok(both) => both,
        Err(error) => return Err(error),
    };
    match read_version(drive, bank) {
        Ok(()) => Ok((bank, born)),
        Err(error) => Err(error),
    }
}

// The bank that is selected, and whether the drive is born.
fn read_selector<D: Drive>(drive: &mut D) -> Result<(Bank, bool), AttachError>
    requires size { HasSize (D.state drive.old) }
    ensures selected { IfOk result (λ head. WhereTold (D.state drive.old)
        (IsSelected (bank_number head.0) head.1)) }
    ensures damaged { HasNoDamage (D.state drive.old) result }
    ensures unchanged { Unchanged (D.state drive.old) (D.state drive.new) }
    ensures cause { HasAttachCause (D.state drive.old).faults (D.state drive.new).faults result }
{
    let mut head = [0; 2];
    match read_at(drive, 0, &mut head) {
        Ok(()) => Ok((Bank::selected_by(head[0]), head[1] == 1)),
        Err(error) => Err(error),
    }
}

// Whether a bank's version is known.
fn read_version<D: Drive>(drive: &mut D, bank: Bank) -> Result<(), AttachError>
    requires size { HasSize (D.state drive.old) }
    ensures known { OnOk result (WhereTold (D.state drive.old)
        (λ xs. slice_index xs (bank_at (bank_number bank)) ≤ 1)) }
    ensures damaged { IsVersionOf (D.state drive.old) (bank_number bank) result }
    ensures unchanged { Unchanged (D.state drive.old) (D.state drive.new) }
    ensures cause { HasAttachCause (D.state drive.old).faults (D.state drive.new).faults result }
{
    let mut version = [0; 1];
    match read_at(drive, bank.place(), &mut version) {
        Ok(()) => {}
        Err(error) => return Err(error),
    }
    if version[0] > 1 {
        let bank = bank.number();
        let found = version[0];
        return Err(AttachError::Damaged(Damage::Version { bank, found }));
    }
    Ok(())
}

// Fills the buffer with the bytes of the ranges part from this place on.
fn read_at<D: Drive>(drive: &mut D, at: u64, buf: &mut [u8]) -> Result<(), AttachError>
    requires size { HasSize (D.state drive.old) }
    requires within { at + length buf.old ≤ RANGES_LEN }
    ensures filled { OnOk result (WhereTold (D.state drive.old) (HasBytesAt at buf.new)) }
    ensures damaged { HasNoDamage (D.state drive.old) result }
    ensures unchanged { Unchanged (D.state drive.old) (D.state drive.new) }
    ensures cause { HasAttachCause (D.state drive.old).faults (D.state drive.new).faults result }
{
    let Ok(count) = drive.read(Part::Ranges, at, buf) else {
        return Err(AttachError::Failed);
    };
    if count < buf.len() {
        let len = count as u64;
        return Err(AttachError::Damaged(Damage::Size { len }));
    }
    Ok(())
}

// What the slots of a bank stand for.
fn read_bank<D: Drive>(alloc: Global, drive: &mut D, bank: Bank) -> Result<Scan, AttachError>
    requires size { HasSize (D.state drive.old) }
    ensures in_limit { IfOk result IsInLimit }
    ensures scan { IfOk result (λ scan. WhereTold (D.state drive.old)
        (λ xs. IsScan xs (bank_at (bank_number bank)) 65534 scan)) }
    ensures damaged { IsFirstBadOf (D.state drive.old) (bank_at (bank_number bank)) result }
    ensures unchanged { Unchanged (D.state drive.old) (D.state drive.new) }
    ensures cause { HasAttachCause (D.state drive.old).faults (D.state drive.new).faults result }
{
    let mut scan = Scan::new(alloc);
    for i in 0..255 {
        match read_slots(drive, &mut scan, bank, 256 * i, 256) {
            Ok(()) => {}
            Err(error) => return Err(error),
        }
    }
    match read_slots(drive, &mut scan, bank, 65_280, 254) {
        Ok(()) => Ok(scan),
        Err(error) => Err(error),
    }
}

// Takes the next slots of a bank, at most 256.
fn read_slots<D: Drive>(
    drive: &mut D,
    scan: &mut Scan,
    bank: Bank,
    first: u16,
    count: u16,
) -> Result<(), AttachError>
    requires size { HasSize (D.state drive.old) }
    requires room { first + count ≤ 65534 }
    requires few { count ≤ 256 }
    ensures in_limit { IsInLimit scan.old → IsInLimit scan.new }
    ensures taken { OnOk result (ScansOn (D.state drive.old)
        (bank_at (bank_number bank)) first count scan.old scan.new) }
    ensures damaged { IsBadOf (D.state drive.old) (bank_at (bank_number bank)) first scan.old result }
    ensures unchanged { Unchanged (D.state drive.old) (D.state drive.new) }
    ensures cause { HasAttachCause (D.state drive.old).faults (D.state drive.new).faults result }
{
    let mut buf = [0; 4096];
    let bytes = &mut buf[..16 * count as usize];
    match read_at(drive, slot::place(bank, first), bytes) {
        Ok(()) => {}
        Err(error) => return Err(error),
    }
    match scan.take_all(first, count, bytes) {
        Ok(()) => Ok(()),
        Err(ScanError::OutOfMemory) => Err(AttachError::OutOfMemory),
        Err(ScanError::Bad(slot)) => Err(AttachError::Damaged(Damage::Slot { slot: slot as u32 })),
    }
}
