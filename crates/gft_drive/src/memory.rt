ghost use Rattle.std.specs.Prelude.{◌≡◌, ◌+◌, ◌-◌, ◌<◌, ◌≤◌, ◌^◌, ◌↔◌, ℕ, min, max};
ghost use Rattle.std.specs.Prelude.{[], ◌∷◌, ◌++◌, length, take, drop, slice_get, slice_index, vec_capacity};
ghost use Rattle.std.specs.Prelude.{IfOk, IfErr, OnOk, OnErr, IsOk};
ghost use Rattle.gft_base.specs.Words.{HasCause};
ghost use Rattle.gft_drive.specs.Drive.{Image};
ghost use Rattle.gft_drive.specs.Memory.{IsNew, image_of, twin_of};
ghost use Rattle.gft_drive.specs.Replay.{ImagesAfter};

use crate::RANGES_LEN;
use crate::crash::CrashChoice;
use crate::disk::{Disk, NoRoom};
use crate::drive::{Drive, Part};
use crate::error::TwinError;
use crate::failures::{CallKind, DriveCall, FailAt};
use gft_base::{Failed, Faults, OutOfMemory};
use std::alloc::Global;
use std::marker::Model;

/// The most calls that are kept.
const MAX_KEPT_CALLS: u32 = 65_536;

/// A drive in memory, which tells its contents, and keeps what was done to it: so it has the images
/// that a crash may leave. A write that is refused memory for that fails.
#[derive(Drop)]
pub struct MemoryDrive {
    alloc: Global,
    label: Vec<u8>,
    disk: Disk,
    capacity: u64,
    calls_left: u32,
    failing: Vec<FailAt>,
    calls: Vec<DriveCall>,
    faults: Faults,
}

impl Model for MemoryDrive {
    ghost use Rattle.gft_drive.specs.Memory.{Memory};

    ghost Value = { Memory };

    ghost view = { λ d. record {
      label = d.label.items;
      disk = d.disk;
      calls = d.calls.items;
      faults = d.faults;
      capacity = d.capacity;
      calls_left = d.calls_left;
      failing = d.failing.items;
    } };
}

impl MemoryDrive {
    /// A drive whose `Bytes` part is empty and has room for `capacity` bytes, and whose `Ranges`
    /// part is [`RANGES_LEN`] zeros and doesn't grow. A write past a part's room fails, as do the
    /// calls in `failing`, and each call behind the first `calls`: such a call reaches nothing. A
    /// call that fails changes no byte. Of the calls that reach it the first 65,536 are kept.
    pub fn new(
        alloc: Global,
        label: &[u8],
        capacity: u64,
        calls: u32,
        failing: &[FailAt],
    ) -> Result<MemoryDrive, OutOfMemory>
        ensures label { IfOk result (λ drive. drive.label ≡ label.now) }
        ensures image { IfOk result (λ drive. IsNew RANGES_LEN drive.disk) }
        ensures calls { IfOk result (λ drive. drive.calls ≡ []) }
        ensures faults { IfOk result (λ drive. drive.faults ≡ 0) }
        ensures capacity { IfOk result (λ drive. drive.capacity ≡ capacity) }
        ensures calls_left { IfOk result (λ drive. drive.calls_left ≡ calls) }
        ensures failing { IfOk result (λ drive. drive.failing ≡ failing.now) }
    {
        Ok(MemoryDrive {
            alloc,
            label: Vec::from_slice(alloc, label)?,
            disk: Disk::new(alloc, capacity)?,
            capacity,
            calls_left: calls,
            failing: Vec::from_slice(alloc, failing)?,
            calls: Vec::with_capacity(alloc, calls.min(MAX_KEPT_CALLS) as usize)?,
            faults: Faults::new(),
        })
    }

    /// The bytes of the `Bytes` part.
    pub fn bytes(&self) -> &[u8]
        ensures { result.now ≡ (image_of self.now).bytes }
    {
        self.disk.content(Part::Bytes)
    }

    /// The bytes of the `Ranges` part.
    pub fn ranges_part(&self) -> &[u8]
        ensures { result.now ≡ (image_of self.now).ranges }
    {
        self.disk.content(Part::Ranges)
    }

    /// How many calls were kept.
    pub fn count(&self) -> usize
        ensures { result ≡ length self.now.calls }
    {
        self.calls.len()
    }

    /// The `i`th call that was kept, counted from 0, or `None` past the last.
    pub fn call(&self, i: usize) -> Option<DriveCall>
        ensures { result ≡ slice_get self.now.calls i }
    {
        self.calls.get(i).copied()
    }

    /// The drive that a crash leaves, by the choice: with the same label and room, and no call of it
    /// fails. Where memory is refused for it, nothing is lost.
    pub fn crash(self, choice: CrashChoice) -> MemoryDrive
        ensures label { result.label ≡ self.label }
        ensures images { (image : Image) → ImagesAfter result.disk.first result.disk.steps image
            → ImagesAfter self.disk.first self.disk.steps image }
        ensures newest { choice ≡ CrashChoice.New → image_of result ≡ image_of self }
        ensures capacity { result.capacity ≡ self.capacity }
        ensures calls_left { result.calls_left ≡ u32.MAX }
        ensures fails { (result.failing ≡ []) × (result.faults ≡ 0) }
        ensures calls { result.calls ≡ [] }
    {
        let alloc = self.alloc;
        let capacity = self.capacity;
        let MemoryDrive { label, disk, .. } = self;
        MemoryDrive {
            alloc,
            label,
            disk: disk.crash(alloc, choice),
            capacity,
            calls_left: u32::MAX,
            failing: Vec::new(alloc),
            calls: Vec::new(alloc),
            faults: Faults::new(),
        }
    }

    // The most bytes of a part.
    fn room(&self, part: Part) -> u64 {
        match part {
            Part::Bytes => self.capacity,
            Part::Ranges => RANGES_LEN,
        }
    }

    // Counts a call and keeps it, and fails if it is to fail.
    fn begin(&mut self, kind: CallKind, part: Part, at: u64, len: u64) -> Result<(), Failed>
        ensures label { self.new.label ≡ self.old.label }
        ensures disk { self.new.disk ≡ self.old.disk }
        ensures left { OnOk result (self.old.calls_left ≡ self.new.calls_left + 1) }
        ensures kept { OnOk result (length self.old.calls < MAX_KEPT_CALLS
            → self.new.calls
            ≡ self.old.calls ++ record { call = kind; part = part; at = at; len = len } ∷ []) }
        ensures unkept { MAX_KEPT_CALLS ≤ length self.old.calls → self.new.calls ≡ self.old.calls }
        ensures cause { HasCause self.old.faults self.new.faults result }
    {
        if self.calls_left == 0 {
            return Err(self.faults.rise());
        }
        self.calls_left -= 1;
        let call = DriveCall {
            call: kind,
            part,
            at,
            len,
        };
        let is_kept = self.calls.len() >= MAX_KEPT_CALLS as usize || self.calls.push(call).is_ok();
        if count_down(&mut self.failing, kind, part) || !is_kept {
            return Err(self.faults.rise());
        }
        Ok(())
    }

    // What the caller of a write is told.
    fn told(&mut self, done: Result<(), NoRoom>) -> Result<(), Failed>
        ensures label { self.new.label ≡ self.old.label }
        ensures disk { self.new.disk ≡ self.old.disk }
        ensures variant { IsOk result ↔ IsOk done }
        ensures cause { HasCause self.old.faults self.new.faults result }
    {
        match done {
            Ok(()) => Ok(()),
            Err(NoRoom) => Err(self.faults.rise()),
        }
    }
}

impl Drive for MemoryDrive {
    ghost use Rattle.gft_drive.specs.Replay.{state_after};
    ghost use Rattle.gft_drive.specs.Replaying.{lawful};

    ghost state = { λ drive. state_after drive.label drive.disk drive.faults };

    ghost lawful = { λ drive. lawful drive.label drive.disk drive.faults };

    fn len(&mut self, part: Part) -> Result<u64, Failed> {
        self.begin(CallKind::Len, part, 0, 0)?;
        Ok(self.disk.content(part).len() as u64)
    }

    fn read(&mut self, part: Part, at: u64, buf: &mut [u8]) -> Result<usize, Failed> {
        self.begin(CallKind::Read, part, at, buf.len() as u64)?;
        Ok(copy_out(self.disk.content(part), at, buf))
    }

    fn write_at(&mut self, part: Part, at: u64, bytes: &[u8]) -> Result<(), Failed> {
        let reaches = self.calls_left > 0;
        let Ok(kept) = Vec::from_slice(self.alloc, bytes) else {
            return Err(self.faults.rise());
        };
        if let Err(failed) = self.begin(CallKind::Write, part, at, bytes.len() as u64) {
            if reaches {
                self.disk.lose(part, at, kept);
            }
            return Err(failed);
        }
        let room = self.room(part);
        let done = self.disk.write(room, part, at, kept);
        self.told(done)
    }

    fn cut(&mut self, part: Part, len: u64) -> Result<(), Failed> {
        self.begin(CallKind::Cut, part, 0, len)?;
        let done = self.disk.cut(part, len);
        self.told(done)
    }

    fn sync(&mut self, part: Part) -> Result<(), Failed> {
        self.begin(CallKind::Sync, part, 0, 0)?;
        let done = self.disk.sync(part);
        self.told(done)
    }

    /// A copy with nothing unsynced: it counts the calls that this one had, and the same are to fail.
    /// It is no call that this drive counts, and never `Failed`.
    fn twin(&mut self, alloc: Global) -> Result<MemoryDrive, TwinError>
        ensures copy { IfOk result (λ twin. twin ≡ twin_of self.old) }
        ensures same { self.new ≡ self.old }
        ensures refused { IfErr result (λ error. error ≡ TwinError.OutOfMemory) }
    {
        Ok(MemoryDrive {
            alloc,
            label: Vec::from_slice(alloc, &self.label)?,
            disk: self.disk.twin(alloc)?,
            capacity: self.capacity,
            calls_left: self.calls_left,
            failing: Vec::from_slice(alloc, &self.failing)?,
            calls: Vec::from_slice(alloc, &self.calls)?,
            faults: Faults::new(),
        })
    }
}

// Counts down each entry of this call, and says whether one came to 0.
fn count_down(failing: &mut [FailAt], kind: CallKind, part: Part) -> bool {
    let mut fails = false;
    for entry in failing {
        if entry.call == kind && entry.part == part {
            fails = fails || entry.number == 1;
            entry.number = entry.number.saturating_sub(1);
        }
    }
    fails
}

// Copies the bytes from this place on into the front of the buffer.
fn copy_out(bytes: &[u8], at: u64, buf: &mut [u8]) -> usize
    ensures count { result ≡ min (length buf.new) (length bytes.now - at) }
    ensures bytes { take result buf.new ≡ take result (drop at bytes.now) }
{
    let from = bytes.len().min(at as usize);
    let count = buf.len().min(bytes.len() - from);
    buf[..count].copy_from_slice(&bytes[from..from + count]);
    count
}
