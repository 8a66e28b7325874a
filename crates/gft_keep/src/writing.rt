ghost use Rattle.std.specs.Prelude.{◌≡◌, ◌+◌, ◌≤◌, length, IfOk, OnOk, IsTrue};
ghost use Rattle.gft_drive.specs.Words.{ChangesOnly, IsSynced, Leaves, Reads};
ghost use Rattle.gft_drive.specs.declared.Part.TheVariants.{Bytes, Ranges};
ghost use Rattle.gft_journal.specs.Words.{IsJournalOf, slots_left};
ghost use Rattle.gft_keep.specs.Appending.{AddsFront, AddsMissing, MissAtMost, Passes};
ghost use Rattle.gft_keep.specs.Store.{IsNewCount};
ghost use Rattle.gft_keep.specs.Writing.{AreThere, Fills, FillsBlock, KeepsBytes};

use gft_base::{Failed, LIMIT};
use gft_drive::{Drive, Part};
use gft_journal::Journal;
use gft_range::{Range, RangeSet};

/// Writes those bytes of the block that are not kept, and syncs them. Tells how many they are.
pub(crate) fn write_missing<D: Drive>(
    drive: &mut D,
    set: &RangeSet,
    block: Range,
    bytes: &[u8],
) -> Result<u64, Failed>
    requires there { AreThere set.now.ranges (D.state drive.old) }
    requires block { FillsBlock block bytes.now }
    ensures filled { OnOk result
        (Reads Bytes (Fills set.now.ranges block bytes.now) (D.state drive.old) (D.state drive.new)) }
    ensures synced { OnOk result (IsSynced Bytes (D.state drive.new)) }
    ensures count { IfOk result (IsNewCount set.now.ranges block) }
    ensures any_moment { Leaves Bytes (KeepsBytes set.now.ranges) (D.state drive.old) (D.state drive.new) }
    ensures only { ChangesOnly Bytes (D.state drive.old) (D.state drive.new) result }
{
    let mut written = 0;
    for gap in set.missing(block) {
        let from = (gap.start - block.start) as usize;
        let to = (gap.end - block.start) as usize;
        drive.write_at(Part::Bytes, gap.start, &bytes[from..to])?;
        written += gap.end - gap.start;
    }
    drive.sync(Part::Bytes)?;
    Ok(written)
}

/// Names those ranges of the block in the journal that are not kept.
pub(crate) fn append_missing<D: Drive>(
    journal: &mut Journal,
    drive: &mut D,
    set: &RangeSet,
    block: Range,
) -> Result<(), Failed>
    requires stands { IsJournalOf journal.old (D.state drive.old) }
    requires room { MissAtMost set.now.ranges block (slots_left journal.old) }
    requires in_limit { block.end ≤ LIMIT }
    ensures stands { OnOk result (IsJournalOf journal.new (D.state drive.new)) }
    ensures added { OnOk result
        (Reads Ranges (AddsMissing set.now.ranges block) (D.state drive.old) (D.state drive.new)) }
    ensures any_moment { Leaves Ranges (AddsFront set.now.ranges block) (D.state drive.old)
        (D.state drive.new) }
    ensures passes { Passes (D.state drive.old) (D.state drive.new) result }
{
    for gap in set.missing(block) {
        journal.append(drive, gap)?;
    }
    Ok(())
}

/// Whether at most so many ranges of the block are not kept.
pub(crate) fn has_room(set: &RangeSet, block: Range, slots: u32) -> bool
    ensures { IsTrue result → MissAtMost set.now.ranges block slots }
{
    let mut left = slots;
    for _gap in set.missing(block) {
        if left == 0 {
            return false;
        }
        left -= 1;
    }
    true
}
