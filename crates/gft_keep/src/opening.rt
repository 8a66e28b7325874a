ghost use Rattle.std.specs.Prelude.{IfOk, IfErr};
ghost use Rattle.gft_journal.specs.Words.{HasAttachCause, Rests};
ghost use Rattle.gft_keep.specs.Opening.{IsReach, Opens, ShowsDamage};

use gft_drive::{Drive, Part};
use gft_journal::{AttachError, Damage, Found, attach};
use gft_range::RangeSet;
use std::alloc::Global;

/// Attaches the journal of a drive, and looks whether the data is as long as what is kept of it.
pub(crate) fn open<D: Drive>(alloc: Global, drive: &mut D) -> Result<Found, AttachError>
    ensures found { IfOk result (Opens (D.state drive.old) (D.state drive.new)) }
    ensures damaged { IfErr result (ShowsDamage (D.state drive.old)) }
    ensures rests { Rests (D.state drive.old) (D.state drive.new) }
    ensures cause { HasAttachCause (D.state drive.old).faults (D.state drive.new).faults result }
{
    let found = match attach(alloc, drive) {
        Ok(found) => found,
        Err(error) => return Err(error),
    };
    let Ok(len) = drive.len(Part::Bytes) else {
        return Err(AttachError::Failed);
    };
    let end = reach(&found.set, found.complete);
    if len < end {
        return Err(AttachError::Damaged(Damage::Short { end, len }));
    }
    Ok(found)
}

// How long the data has to be.
fn reach(set: &RangeSet, complete: Option<u64>) -> u64
    ensures { IsReach set.now.ranges complete result }
{
    match complete {
        Some(len) => len.max(set.end()),
        None => set.end(),
    }
}
