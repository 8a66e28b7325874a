ghost use Rattle.std.specs.Prelude.{◌≡◌, ℕ, ◌<◌, ◌≤◌, ◌+◌, ◌-◌, ◌*◌, ◌^◌, length, slice_index, OnOk};
ghost use Rattle.gft_drive.specs.declared.Part.TheVariants.{Ranges};
ghost use Rattle.gft_drive.specs.Words.{Elapses, Reads, Leaves, IsSynced};
ghost use Rattle.gft_drive.specs.Words.{Written};
ghost use Rattle.gft_base.specs.Words.{HasCause};
ghost use Rattle.gft_drive.specs.Words.{first_layout, bank_at, slot_at};
ghost use Rattle.gft_journal.specs.Slot.{OpensSlot, IsShut};
ghost use Rattle.gft_journal.specs.Journal.{IsJournalOf, slots_left, IsRange, AddsRange, AddsOrNot, Becomes};
ghost use Rattle.gft_journal.specs.Journal.{BecomesOrNot, AreJustBelow, Completes, CompletesOrNot, Bears};
ghost use Rattle.gft_journal.specs.Journal.{BearsOrNot};
ghost use Rattle.gft_range.specs.Words.{HasOffset};
ghost use Rattle.gft_journal.specs.Bank.{IsSet, IsEnd};

use crate::bank::write_bank;
use crate::slot::{self, Bank, COMPLETE, RANGE};
use gft_base::{Failed, LIMIT};
use gft_drive::{Drive, MAX_RANGES, Part};
use gft_range::{Range, RangeSet};

/// The slots of a bank.
const MAX_SLOTS: u16 = 65_534;

/// The journal of the drive on which it was attached: its selected bank and the next slot of it.
#[derive(Debug, Drop)]
pub struct Journal {
    pub(crate) bank: Bank,
    pub(crate) born: bool,
    pub(crate) next: u16,
}

impl Journal {
    /// Adds a range. At `Ok` every crash from then on leaves it.
    pub fn append<D: Drive>(&mut self, drive: &mut D, range: Range) -> Result<(), Failed>
        requires stands { IsJournalOf self.old (D.state drive.old) }
        requires room { 1 ≤ slots_left self.old }
        requires range { IsRange range }
        ensures stands { OnOk result (IsJournalOf self.new (D.state drive.new)) }
        ensures added { OnOk result (Reads Ranges (AddsRange range) (D.state drive.old) (D.state drive.new)) }
        ensures slots { OnOk result (slots_left self.new + 1 ≡ slots_left self.old) }
        ensures any_moment { Leaves Ranges (AddsOrNot range) (D.state drive.old) (D.state drive.new) }
        ensures time { Elapses (D.state drive.old) (D.state drive.new) }
        ensures cause { HasCause (D.state drive.old).faults (D.state drive.new).faults result }
    {
        let at = slot::place(self.bank, self.next);
        open_slot(drive, at, &slot::encode(RANGE, range.start, range.end))?;
        self.next += 1;
        Ok(())
    }
}

impl Journal {
    // Changes to these ranges and this complete length, in the other bank.
    fn rebase_to<D: Drive>(
        &mut self,
        drive: &mut D,
        set: &[Range],
        complete: Option<u64>,
    ) -> Result<(), Failed>
        requires stands { IsJournalOf self.old (D.state drive.old) }
        requires set { IsSet set.now }
        requires end { IsEnd complete }
        ensures stands { OnOk result (IsJournalOf self.new (D.state drive.new)) }
        ensures based { OnOk result (Reads Ranges (Becomes set.now complete) (D.state drive.old)
            (D.state drive.new)) }
        ensures any_moment { Leaves Ranges (BecomesOrNot set.now complete) (D.state drive.old)
            (D.state drive.new) }
        ensures time { Elapses (D.state drive.old) (D.state drive.new) }
        ensures cause { HasCause (D.state drive.old).faults (D.state drive.new).faults result }
    {
        let bank = self.bank.other();
        write_bank(drive, bank, set, complete)?;
        drive.sync(Part::Ranges)?;
        drive.write_at(Part::Ranges, 0, &[bank.number()])?;
        drive.sync(Part::Ranges)?;
        self.bank = bank;
        self.next = set.len() as u16 + u16::from(complete.is_some());
        Ok(())
    }
}

impl Journal {
    // Keeps the complete length in the next slot.
    fn complete_next<D: Drive>(&mut self, drive: &mut D, len: u64) -> Result<(), Failed>
        requires stands { IsJournalOf self.old (D.state drive.old) }
        requires room { self.old.next < MAX_SLOTS }
        requires len { len ≤ LIMIT }
        requires whole { AreJustBelow len (D.state drive.old) }
        ensures stands { OnOk result (IsJournalOf self.new (D.state drive.new)) }
        ensures completed { OnOk result
            (Reads Ranges (Completes len) (D.state drive.old) (D.state drive.new)) }
        ensures any_moment { Leaves Ranges (CompletesOrNot len) (D.state drive.old) (D.state drive.new) }
        ensures time { Elapses (D.state drive.old) (D.state drive.new) }
        ensures cause { HasCause (D.state drive.old).faults (D.state drive.new).faults result }
    {
        let at = slot::place(self.bank, self.next);
        open_slot(drive, at, &slot::encode(COMPLETE, 0, len))?;
        self.next += 1;
        Ok(())
    }
}

impl Journal {
    /// Notes that this server has stored on the drive.
    pub fn birth<D: Drive>(&mut self, drive: &mut D) -> Result<(), Failed>
        requires stands { IsJournalOf self.old (D.state drive.old) }
        ensures stands { OnOk result (IsJournalOf self.new (D.state drive.new)) }
        ensures born { OnOk result (Reads Ranges Bears (D.state drive.old) (D.state drive.new)) }
        ensures slots { slots_left self.new ≡ slots_left self.old }
        ensures any_moment { Leaves Ranges BearsOrNot (D.state drive.old) (D.state drive.new) }
        ensures time { Elapses (D.state drive.old) (D.state drive.new) }
        ensures cause { HasCause (D.state drive.old).faults (D.state drive.new).faults result }
    {
        if self.born {
            return Ok(());
        }
        drive.write_at(Part::Ranges, 1, &[1])?;
        drive.sync(Part::Ranges)?;
        self.born = true;
        Ok(())
    }

    /// How many ranges may be appended before a rebase: one slot is kept for the complete length.
    pub fn slots_left(&self) -> u32
        ensures { result ≡ slots_left self.now }
    {
        65_533u32.saturating_sub(u32::from(self.next))
    }

    /// Keeps the length of a file whose ranges are exactly its offsets.
    pub fn complete<D: Drive>(&mut self, drive: &mut D, len: u64) -> Result<(), Failed>
        requires stands { IsJournalOf self.old (D.state drive.old) }
        requires len { len ≤ LIMIT }
        requires whole { AreJustBelow len (D.state drive.old) }
        ensures stands { OnOk result (IsJournalOf self.new (D.state drive.new)) }
        ensures completed { OnOk result
            (Reads Ranges (Completes len) (D.state drive.old) (D.state drive.new)) }
        ensures any_moment { Leaves Ranges (CompletesOrNot len) (D.state drive.old) (D.state drive.new) }
        ensures time { Elapses (D.state drive.old) (D.state drive.new) }
        ensures cause { HasCause (D.state drive.old).faults (D.state drive.new).faults result }
    {
        if self.next < MAX_SLOTS {
            return self.complete_next(drive, len);
        }
        if len == 0 {
            return self.rebase_to(drive, &[], Some(0));
        }
        self.rebase_to(drive, &[Range { start: 0, end: len }], Some(len))
    }

    /// Changes to these ranges and this complete length, in the other bank.
    pub fn rebase<D: Drive>(
        &mut self,
        drive: &mut D,
        set: &RangeSet,
        complete: Option<u64>,
    ) -> Result<(), Failed>
        requires stands { IsJournalOf self.old (D.state drive.old) }
        requires count { length set.now.ranges ≤ MAX_RANGES }
        requires ends { (x : ℕ) → HasOffset set.now.ranges x → x < LIMIT }
        requires complete { IsEnd complete }
        ensures stands { OnOk result (IsJournalOf self.new (D.state drive.new)) }
        ensures based { OnOk result (Reads Ranges (Becomes set.now.ranges complete) (D.state drive.old)
            (D.state drive.new)) }
        ensures any_moment { Leaves Ranges (BecomesOrNot set.now.ranges complete) (D.state drive.old)
            (D.state drive.new) }
        ensures time { Elapses (D.state drive.old) (D.state drive.new) }
        ensures cause { HasCause (D.state drive.old).faults (D.state drive.new).faults result }
    {
        self.rebase_to(drive, set.as_slice(), complete)
    }
}

/// Writes the slot's body, and then its gate: the slot opens with what was synced before.
fn open_slot<D: Drive>(drive: &mut D, at: u64, slot: &[u8]) -> Result<(), Failed>
    requires synced { IsSynced Ranges (D.state drive.old) }
    requires shut { IsShut at (D.state drive.old) }
    requires size { length slot.now ≡ 16 }
    requires open { slice_index slot.now 0 ≡ 1 }
    ensures synced { OnOk result (IsSynced Ranges (D.state drive.new)) }
    ensures written { OnOk result (Reads Ranges (Written at slot.now) (D.state drive.old)
        (D.state drive.new)) }
    ensures any_moment { Leaves Ranges (OpensSlot at slot.now) (D.state drive.old) (D.state drive.new) }
    ensures time { Elapses (D.state drive.old) (D.state drive.new) }
    ensures cause { HasCause (D.state drive.old).faults (D.state drive.new).faults result }
{
    drive.write_at(Part::Ranges, at + 1, &slot[1..])?;
    drive.sync(Part::Ranges)?;
    drive.write_at(Part::Ranges, at, &[1])?;
    drive.sync(Part::Ranges)
}
