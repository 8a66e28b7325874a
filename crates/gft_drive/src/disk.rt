ghost use Rattle.std.specs.Prelude.{◌≡◌, ◌⊎◌, true, false, ℕ, ◌∷◌, ◌++◌, [], ◌+◌, ◌≤◌, ◌<◌, ◌^◌, max, length};
ghost use Rattle.std.specs.Prelude.{slice_index, take, reverse, vec_capacity, IfOk, OnOk, OnErr, IsOk};
ghost use Rattle.gft_drive.specs.Write.{Written};
ghost use Rattle.gft_drive.specs.Drive.{Image, part_of};
ghost use Rattle.gft_drive.specs.Memory.{IsNew};
ghost use Rattle.gft_drive.specs.Replay.{overwritten, image_after, ImagesAfter, syncs};
ghost use Rattle.gft_drive.specs.declared.disk.Step.TheVariants.{Write, Cut, Sync};

use crate::RANGES_LEN;
use crate::crash::{CrashChoice, crashed};
use crate::drive::Part;
use gft_base::OutOfMemory;
use std::alloc::{AllocError, AllocFailed, Global};
use std::marker::Model;

/// What was done to a part.
#[derive(Drop)]
pub(crate) enum Step {
    Write {
        part: Part,
        at: u64,
        bytes: Vec<u8>,
        is_done: bool,
    },
    Cut {
        part: Part,
        len: u64,
    },
    Sync {
        part: Part,
    },
}

impl Step {
    /// Whether it is a sync of this part.
    pub fn syncs(&self, part: Part) -> bool
        ensures { result ≡ syncs self.now part }
    {
        match self {
            Step::Sync { part: on } => *on == part,
            _ => false,
        }
    }
}

/// The bytes of both parts.
#[derive(Drop)]
pub(crate) struct Contents {
    pub bytes: Vec<u8>,
    pub ranges: Vec<u8>,
}

/// Both parts in memory, with all that was done to them.
#[derive(Drop)]
pub(crate) struct Disk {
    first: Contents,
    current: Contents,
    log: Vec<Step>,
}

impl Model for Disk {
    ghost use Rattle.std.specs.Prelude.{◌≡◌, reverse};
    ghost use Rattle.gft_drive.specs.declared.drive.Part.TheVariants.{Bytes, Ranges};
    ghost use Rattle.gft_drive.specs.Drive.{Image};
    ghost use Rattle.gft_drive.specs.Replay.{Recorded, content_after};

    ghost Value = { Recorded };

    ghost view = { λ d. record {
      first = record { bytes = d.first.bytes.items; ranges = d.first.ranges.items };
      steps = reverse d.log.items;
    } };

    ghost invariant = { λ d.
        let first : Image = record { bytes = d.first.bytes.items; ranges = d.first.ranges.items } in
        (d.current.bytes.items ≡ content_after first (reverse d.log.items) Bytes)
        × (d.current.ranges.items ≡ content_after first (reverse d.log.items) Ranges) };
}

// A write doesn't fit.
pub(crate) struct NoRoom;

impl From<AllocError> for NoRoom {
    fn from(_: AllocError) -> Self {
        NoRoom
    }
}

impl<T: Drop> From<AllocFailed<T>> for NoRoom {
    fn from(_: AllocFailed<T>) -> Self {
        NoRoom
    }
}

impl Disk {
    /// No bytes, with room for `capacity`, and [`RANGES_LEN`] zeros.
    pub fn new(alloc: Global, capacity: u64) -> Result<Disk, OutOfMemory>
        ensures { IfOk result (IsNew RANGES_LEN) }
    {
        let first = Contents {
            bytes: Vec::with_capacity(alloc, capacity as usize)?,
            ranges: zeros(alloc, RANGES_LEN as usize)?,
        };
        let current = Contents {
            bytes: Vec::with_capacity(alloc, capacity as usize)?,
            ranges: first.ranges.clone()?,
        };
        let log = Vec::new(alloc);
        Ok(Disk {
            first,
            current,
            log,
        })
    }

    /// The bytes of a part.
    pub fn content(&self, part: Part) -> &[u8]
        ensures { result.now ≡ part_of part (image_after self.now.first self.now.steps) }
    {
        match part {
            Part::Bytes => &self.current.bytes,
            Part::Ranges => &self.current.ranges,
        }
    }

    /// What a crash leaves, by the choice. Where memory is refused for it, nothing is lost.
    pub fn crash(self, alloc: Global, choice: CrashChoice) -> Disk
        ensures images { (image : Image) → ImagesAfter result.first result.steps image
            → ImagesAfter self.first self.steps image }
        ensures newest { choice ≡ CrashChoice.New
            → image_after result.first result.steps ≡ image_after self.first self.steps }
    {
        match self.left(alloc, choice) {
            Ok(disk) => disk,
            Err(NoRoom) => self,
        }
    }

    // A disk whose first contents are what a crash leaves.
    fn left(&self, alloc: Global, choice: CrashChoice) -> Result<Disk, NoRoom>
        ensures untouched { IfOk result (λ disk. disk.steps ≡ []) }
        ensures image { IfOk result (λ disk. ImagesAfter self.now.first self.now.steps disk.first) }
        ensures newest { IfOk result (λ disk. choice ≡ CrashChoice.New
            → disk.first ≡ image_after self.now.first self.now.steps) }
    {
        let bytes = crashed(alloc, &self.first.bytes, &self.log, Part::Bytes, choice)?;
        let ranges = crashed(alloc, &self.first.ranges, &self.log, Part::Ranges, choice)?;
        Ok(Disk::with(alloc, bytes, ranges)?)
    }

    /// What a read of this one gives, with nothing done to it.
    pub fn twin(&self, alloc: Global) -> Result<Disk, AllocError>
        ensures { IfOk result (λ twin. twin
            ≡ record { first = image_after self.now.first self.now.steps; steps = [] }) }
    {
        let bytes = self.current.bytes.clone()?;
        let ranges = self.current.ranges.clone()?;
        Disk::with(alloc, bytes, ranges)
    }

    // These contents, with nothing done to them.
    fn with(alloc: Global, bytes: Vec<u8>, ranges: Vec<u8>) -> Result<Disk, AllocError>
        ensures { IfOk result (λ disk. disk
            ≡ record { first = record { bytes = bytes.items; ranges = ranges.items }; steps = [] }) }
    {
        let current = Contents {
            bytes: bytes.clone()?,
            ranges: ranges.clone()?,
        };
        let first = Contents { bytes, ranges };
        let log = Vec::new(alloc);
        Ok(Disk {
            first,
            current,
            log,
        })
    }

    /// Writes within the room of the part, with zeros between its end and the place.
    pub fn write(&mut self, room: u64, part: Part, at: u64, bytes: Vec<u8>) -> Result<(), NoRoom>
        ensures done { OnOk result (self.new
            ≡ record { first = self.old.first; steps = Write part at bytes true ∷ self.old.steps }) }
        ensures failed { OnErr result (self.new ≡ self.old) }
    {
        self.log.reserve(1)?;
        match part {
            Part::Bytes => overwrite(&mut self.current.bytes, room, at, &bytes)?,
            Part::Ranges => overwrite(&mut self.current.ranges, room, at, &bytes)?,
        }
        let _ = self.log.push(Step::Write {
            part,
            at,
            bytes,
            is_done: true,
        });
        Ok(())
    }

    /// Notes a write that failed: a crash may leave it, or a part of it.
    pub fn lose(&mut self, part: Part, at: u64, bytes: Vec<u8>)
        ensures { (self.new
            ≡ record { first = self.old.first; steps = Write part at bytes false ∷ self.old.steps })
            ⊎ (self.new ≡ self.old) }
    {
        let _ = self.log.push(Step::Write {
            part,
            at,
            bytes,
            is_done: false,
        });
    }

    /// Shortens a part.
    pub fn cut(&mut self, part: Part, len: u64) -> Result<(), NoRoom>
        ensures done { OnOk result (self.new
            ≡ record { first = self.old.first; steps = Cut part len ∷ self.old.steps }) }
        ensures failed { OnErr result (self.new ≡ self.old) }
    {
        self.log.push(Step::Cut { part, len })?;
        match part {
            Part::Bytes => self.current.bytes.truncate(len as usize),
            Part::Ranges => self.current.ranges.truncate(len as usize),
        }
        Ok(())
    }

    /// Notes that a part is synced.
    pub fn sync(&mut self, part: Part) -> Result<(), NoRoom>
        ensures done { OnOk result (self.new
            ≡ record { first = self.old.first; steps = Sync part ∷ self.old.steps }) }
        ensures failed { OnErr result (self.new ≡ self.old) }
    {
        self.log.push(Step::Sync { part })?;
        Ok(())
    }
}

// Writes within the room, as the contents are told.
#[tactic(auto, using(crate::proofs::Written::is_overwritten))]
pub(crate) fn overwrite(bytes: &mut Vec<u8>, room: u64, at: u64, new: &[u8]) -> Result<(), NoRoom>
    ensures written { OnOk result (bytes.new.items ≡ overwritten at new.now bytes.old.items) }
    ensures failed { OnErr result (bytes.new.items ≡ bytes.old.items) }
{
    write_over(bytes, room, at, new)
}

// Writes within the room, with zeros between an earlier end and the place. It takes no memory where
// the room is reserved.
fn write_over(bytes: &mut Vec<u8>, room: u64, at: u64, new: &[u8]) -> Result<(), NoRoom>
    ensures written { OnOk result (Written at new.now bytes.old.items bytes.new.items) }
    ensures failed { OnErr result (bytes.new.items ≡ bytes.old.items) }
    ensures room { OnOk result (at + length new.now ≤ room) }
    ensures reserved { at + length new.now ≤ room → room ≤ vec_capacity bytes.old → room < 2 ^ 64
        → IsOk result }
{
    let Some(end) = at.checked_add(new.len() as u64) else {
        return Err(NoRoom);
    };
    if end > room {
        return Err(NoRoom);
    }
    grow(bytes, end as usize)?;
    place(bytes, at as usize, new);
    Ok(())
}

// Fills up with zeros to this length, where the bytes aren't longer.
fn grow(bytes: &mut Vec<u8>, len: usize) -> Result<(), NoRoom>
    ensures size { OnOk result (length bytes.new.items ≡ max (length bytes.old.items) len) }
    ensures zeros { (x : ℕ) → slice_index bytes.new.items x ≡ slice_index bytes.old.items x }
    ensures failed { OnErr result (bytes.new.items ≡ bytes.old.items) }
    ensures reserved { len ≤ vec_capacity bytes.old → IsOk result }
{
    if bytes.len() < len && bytes.resize(len, 0).is_err() {
        return Err(NoRoom);
    }
    Ok(())
}

fn place(bytes: &mut [u8], at: usize, new: &[u8])
    requires { at + length new.now ≤ length bytes.old }
    ensures { Written at new.now bytes.old bytes.new }
{
    bytes[at..at + new.len()].copy_from_slice(new);
}

fn zeros(alloc: Global, count: usize) -> Result<Vec<u8>, OutOfMemory>
    ensures size { IfOk result (λ bytes. length bytes.items ≡ count) }
    ensures zeros { IfOk result (λ bytes. (x : ℕ) → slice_index bytes.items x ≡ 0) }
{
    Ok(vec![in alloc; 0; count]?)
}
