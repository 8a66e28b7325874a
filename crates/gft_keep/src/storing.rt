ghost use Rattle.std.specs.Prelude.{◌≡◌, ◌<◌, ℕ, IfOk, IfErr};
ghost use Rattle.gft_base.specs.Words.{HasCause};
ghost use Rattle.gft_drive.specs.declared.TheConstants.{MAX_RANGES};
ghost use Rattle.gft_journal.specs.Words.{slots_left};
ghost use Rattle.gft_range.specs.Words.{HasOffset, InRange, IsUnion};
ghost use Rattle.gft_keep.specs.Appending.{MissAtMost};
ghost use Rattle.gft_keep.specs.Keep.{IsOpen, MovesBy};
ghost use Rattle.gft_keep.specs.Of.{keep_of};
ghost use Rattle.gft_keep.specs.Steps.{StoresSome, block_of};
ghost use Rattle.gft_keep.specs.Store.{IsBlock, IsFull, Refused, Stored};
ghost use Rattle.gft_keep.specs.Tearing.{EachSince, HasFitUnion, StoresBlock, TornOpen, open_keep};
ghost use Rattle.gft_keep.specs.Writing.{FillsBlock};

use crate::error::KeepError;
use crate::keep::Keep;
use crate::standing::Standing;
use crate::writing::{append_missing, has_room, write_missing};
use gft_base::{Failed, OutOfMemory};
use gft_drive::{Drive, MAX_RANGES};
use gft_journal::Journal;
use gft_range::{Range, RangeSet};

impl<D: Drive + Drop> Keep<D> {
    /// Keeps the bytes of a block at this offset, and tells how many of them are new. A byte that was
    /// kept before stays; if all were, no call of the drive is made. What is missing is written and
    /// synced before the journal names it.
    ///
    /// Refusals, in this order: `RangesFull` if [`MAX_RANGES`] ranges are kept and the block would make
    /// one more; `OutOfMemory`; `Failed`, which breaks the keep. The first two change nothing. A bank
    /// with too few slots is no refusal: the journal changes over to the union of ranges and block.
    pub fn store(&mut self, offset: u64, bytes: &[u8]) -> Result<u64, KeepError>
        requires open { IsOpen (keep_of D.state self.old) }
        requires block { IsBlock offset bytes.now }
        ensures any_moment { MovesBy (StoresSome offset bytes.now) (keep_of D.state self.old)
            (keep_of D.state self.new) }
        ensures stored { IfOk result
            (Stored (keep_of D.state self.old) (keep_of D.state self.new) offset bytes.now) }
        ensures refused { IfErr result (Refused (self.new ≡ self.old) (keep_of D.state self.old)
            (keep_of D.state self.new) (block_of offset bytes.now)) }
        ensures silent { ((x : ℕ) → InRange (block_of offset bytes.now) x
            → HasOffset (keep_of D.state self.old).ranges x) → (result ≡ Ok 0) × (self.new ≡ self.old) }
        ensures full { IsFull (keep_of D.state self.old).ranges (block_of offset bytes.now)
            → result ≡ Err (KeepError.RangesFull MAX_RANGES) }
    {
        let end = offset + bytes.len() as u64;
        let block = Range { start: offset, end };
        if self.set.covers(block) {
            return Ok(0);
        }
        if self.set.count() == MAX_RANGES && !self.set.touches(block) {
            let kept = MAX_RANGES as u64;
            return Err(KeepError::RangesFull { kept });
        }
        if has_room(&self.set, block, self.journal.slots_left()) {
            self.append(block, bytes)
        } else {
            self.change_over(block, bytes)
        }
    }

    // Stores the block, and names what was missing in slots that are left.
    fn append(&mut self, block: Range, bytes: &[u8]) -> Result<u64, KeepError>
        requires open { IsOpen (keep_of D.state self.old) }
        requires block { FillsBlock block bytes.now }
        requires fits { HasFitUnion self.old.set.ranges block }
        requires room { MissAtMost self.old.set.ranges block (slots_left self.old.journal) }
        requires some { block.start < block.end }
        ensures any_moment { MovesBy (StoresSome block.start bytes.now) (keep_of D.state self.old)
            (keep_of D.state self.new) }
        ensures stored { IfOk result
            (Stored (keep_of D.state self.old) (keep_of D.state self.new) block.start bytes.now) }
        ensures refused { IfErr result (Refused (self.new ≡ self.old) (keep_of D.state self.old)
            (keep_of D.state self.new) block) }
    {
        if self.set.reserve(1).is_err() {
            return Err(KeepError::OutOfMemory);
        }
        match store_appended(&mut self.journal, &mut self.drive, &self.set, block, bytes) {
            Ok(written) => {
                self.set.insert(block);
                Ok(written)
            }
            Err(Failed) => {
                self.standing = Standing::Torn;
                Err(KeepError::Failed)
            }
        }
    }

    // Stores the block, and changes the journal over to the union.
    fn change_over(&mut self, block: Range, bytes: &[u8]) -> Result<u64, KeepError>
        requires open { IsOpen (keep_of D.state self.old) }
        requires block { FillsBlock block bytes.now }
        requires fits { HasFitUnion self.old.set.ranges block }
        requires some { block.start < block.end }
        ensures any_moment { MovesBy (StoresSome block.start bytes.now) (keep_of D.state self.old)
            (keep_of D.state self.new) }
        ensures stored { IfOk result
            (Stored (keep_of D.state self.old) (keep_of D.state self.new) block.start bytes.now) }
        ensures refused { IfErr result (Refused (self.new ≡ self.old) (keep_of D.state self.old)
            (keep_of D.state self.new) block) }
    {
        let Ok(union) = union_with(&self.set, block) else {
            return Err(KeepError::OutOfMemory);
        };
        match store_union(
            &mut self.journal,
            &mut self.drive,
            &self.set,
            &union,
            block,
            bytes,
        ) {
            Ok(written) => {
                self.set = union;
                Ok(written)
            }
            Err(Failed) => {
                self.standing = Standing::Torn;
                Err(KeepError::Failed)
            }
        }
    }
}

// The set with the offsets of the block.
fn union_with(set: &RangeSet, block: Range) -> Result<RangeSet, OutOfMemory>
    requires some { block.start < block.end }
    ensures union { IfOk result (λ union. IsUnion set.now.ranges block union.ranges) }
{
    let mut union = set.copy()?;
    union.reserve(1)?;
    union.insert(block);
    Ok(union)
}

// Writes what is missing of the block, and names it in the journal once it is synced.
fn store_appended<D: Drive>(
    journal: &mut Journal,
    drive: &mut D,
    set: &RangeSet,
    block: Range,
    bytes: &[u8],
) -> Result<u64, Failed>
    requires open { IsOpen (open_keep (D.state drive.old) set.now.ranges journal.old) }
    requires block { FillsBlock block bytes.now }
    requires fits { HasFitUnion set.now.ranges block }
    requires some { block.start < block.end }
    requires room { MissAtMost set.now.ranges block (slots_left journal.old) }
    ensures torn { EachSince (TornOpen set.now.ranges block.start bytes.now) (D.state drive.old)
        (D.state drive.new) }
    ensures stored { IfOk result (StoresBlock set.now.ranges block bytes.now journal.new
        (D.state drive.old) (D.state drive.new)) }
    ensures cause { HasCause (D.state drive.old).faults (D.state drive.new).faults result }
{
    let written = write_missing(drive, set, block, bytes)?;
    append_missing(journal, drive, set, block)?;
    Ok(written)
}

// Writes what is missing of the block, and changes the journal over to the union once it is synced.
fn store_union<D: Drive>(
    journal: &mut Journal,
    drive: &mut D,
    set: &RangeSet,
    union: &RangeSet,
    block: Range,
    bytes: &[u8],
) -> Result<u64, Failed>
    requires open { IsOpen (open_keep (D.state drive.old) set.now.ranges journal.old) }
    requires block { FillsBlock block bytes.now }
    requires fits { HasFitUnion set.now.ranges block }
    requires some { block.start < block.end }
    requires union { IsUnion set.now.ranges block union.now.ranges }
    ensures torn { EachSince (TornOpen set.now.ranges block.start bytes.now) (D.state drive.old)
        (D.state drive.new) }
    ensures stored { IfOk result (StoresBlock set.now.ranges block bytes.now journal.new
        (D.state drive.old) (D.state drive.new)) }
    ensures cause { HasCause (D.state drive.old).faults (D.state drive.new).faults result }
{
    let written = write_missing(drive, set, block, bytes)?;
    journal.rebase(drive, union, None)?;
    Ok(written)
}
