ghost use Rattle.std.specs.Prelude.{◌≡◌, ◌≤◌, ℕ, reverse, length, take, cond, IfOk, OnOk};
ghost use Rattle.gft_drive.specs.Drive.{Image, part_of};
ghost use Rattle.gft_drive.specs.Write.{Torn, TornCut};
ghost use Rattle.gft_drive.specs.Replay.{overwritten, stepped, content_after, LeftAfter, Tears};

use crate::disk::{NoRoom, Step, overwrite};
use crate::drive::Part;
use std::alloc::Global;

/// What a crash leaves of each write and cut that isn't synced.
#[derive(Clone, Copy, Debug, PartialEq, Eq)]
pub enum CrashChoice {
    /// Nothing of it.
    Old,
    /// All of it, where it was done.
    New,
    /// The first half of a write's bytes, rounded down, and half of what a cut takes away.
    Half,
    /// This byte in each place that a write was for, and nothing of a cut.
    Fill(u8),
}

/// What a crash leaves of a part that held these bytes first.
pub(crate) fn crashed(
    alloc: Global,
    first: &[u8],
    log: &[Step],
    part: Part,
    choice: CrashChoice,
) -> Result<Vec<u8>, NoRoom>
    ensures left { IfOk result (λ left. (image : Image) → part_of part image ≡ first.now
        → LeftAfter image (reverse log.now) part left.items) }
    ensures newest { IfOk result (λ left. choice ≡ CrashChoice.New → (image : Image)
        → part_of part image ≡ first.now → left.items ≡ content_after image (reverse log.now) part) }
{
    let mut current = Vec::from_slice(alloc, first)?;
    let mut left = Vec::from_slice(alloc, first)?;
    for step in log {
        apply(alloc, &mut current, step, part, CrashChoice::New)?;
        if step.syncs(part) {
            left.clear();
            left.extend_from_slice(&current)?;
        } else {
            apply(alloc, &mut left, step, part, choice)?;
        }
    }
    Ok(left)
}

// What the choice leaves of a step.
fn apply(
    alloc: Global,
    bytes: &mut Vec<u8>,
    step: &Step,
    part: Part,
    choice: CrashChoice,
) -> Result<(), NoRoom>
    ensures torn { OnOk result (Tears step.now part bytes.old.items bytes.new.items) }
    ensures newest { choice ≡ CrashChoice.New
        → OnOk result (bytes.new.items ≡ stepped step.now part bytes.old.items) }
{
    match step {
        Step::Write {
            part: on,
            at,
            bytes: new,
            is_done,
        } if *on == part => write_torn(alloc, bytes, *at, new, *is_done, choice),
        Step::Cut { part: on, len } if *on == part => {
            cut_torn(bytes, *len, choice);
            Ok(())
        }
        _ => Ok(()),
    }
}

#[tactic(auto, using(crate::proofs::Written::torn_overwritten))]
fn write_torn(
    alloc: Global,
    bytes: &mut Vec<u8>,
    at: u64,
    new: &[u8],
    is_done: bool,
    choice: CrashChoice,
) -> Result<(), NoRoom>
    ensures torn { OnOk result (Torn at (length new.now) bytes.old.items bytes.new.items) }
    ensures newest { choice ≡ CrashChoice.New → OnOk result (bytes.new.items
        ≡ cond is_done (overwritten at new.now bytes.old.items) bytes.old.items) }
{
    match choice {
        CrashChoice::New if is_done => overwrite(bytes, u64::MAX, at, new),
        CrashChoice::Half => overwrite(bytes, u64::MAX, at, &new[..new.len() / 2]),
        CrashChoice::Fill(byte) => {
            let fill = vec![in alloc; byte; new.len()]?;
            overwrite(bytes, u64::MAX, at, &fill)
        }
        _ => Ok(()),
    }
}

#[tactic(auto, using(crate::specs::Replaying::torn_cut, crate::specs::Replaying::torn_cut_refl))]
fn cut_torn(bytes: &mut Vec<u8>, len: u64, choice: CrashChoice)
    ensures torn { TornCut len bytes.old.items bytes.new.items }
    ensures newest { choice ≡ CrashChoice.New → bytes.new.items ≡ take len bytes.old.items }
{
    let len = len as usize;
    match choice {
        CrashChoice::New => bytes.truncate(len),
        CrashChoice::Half => bytes.truncate(len.midpoint(bytes.len().max(len))),
        _ => {}
    }
}
