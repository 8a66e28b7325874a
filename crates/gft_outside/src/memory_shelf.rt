ghost use Rattle.std.specs.Prelude.{◌≡◌, IfErr, IfOk, is_some, position};
ghost use Rattle.gft_outside.specs.MemoryShelves.{FindsIn, IsMadeOn, MakesIn, RemovesIn, drive_under};
ghost use Rattle.gft_outside.specs.MemoryShelves.{is_under, new_shelf, shelf_state, without_name};

use crate::failing::Failing;
use crate::shelf::{Shelf, ShelfError};
use gft_base::{Failed, Faults};
use gft_drive::{FailAt, MemoryDrive};
use gft_text::Name;
use std::alloc::Global;
use std::marker::Model;

/// A drive in memory whose label is a name. Contracts see the drive.
#[derive(Drop)]
pub struct NamedDrive {
    name: Name,
    drive: MemoryDrive,
}

impl Model for NamedDrive {
    ghost use Rattle.std.specs.Prelude.{◌≡◌};
    ghost use Rattle.gft_drive.specs.Memory.{Memory};

    ghost Value = { Memory };

    ghost view = { λ n. n.drive };

    ghost invariant = { λ n. n.drive.label ≡ n.name };
}

impl NamedDrive {
    /// The drive under its label.
    pub fn new(name: Name, drive: MemoryDrive) -> Self
        requires { drive.label ≡ name }
        ensures { result ≡ drive }
    {
        NamedDrive { name, drive }
    }

    // Whether its label is this name.
    fn is_under(&self, name: &Name) -> bool
        ensures { result ≡ is_under name.now self.now }
    {
        self.name == *name
    }

    fn into_drive(self) -> MemoryDrive
        ensures { result ≡ self }
    {
        self.drive
    }
}

// What a drive that is made has: the room of its bytes, how many calls may reach it, and the calls of it that
// are to fail.
#[derive(Drop)]
struct DriveMaker {
    capacity: u64,
    calls: u32,
    failing: Vec<FailAt>,
}

impl Model for DriveMaker {
    ghost use Rattle.gft_outside.specs.MemoryShelves.{Making};

    ghost Value = { Making };

    ghost view = { λ m. record { capacity = m.capacity; calls = m.calls; failing = m.failing.items } };
}

impl DriveMaker {
    // A new drive under the name.
    fn make(&self, alloc: Global, name: &Name) -> Result<MemoryDrive, ShelfError>
        ensures made { IfOk result (IsMadeOn self.now name.now) }
        ensures refused { IfErr result (λ error. error ≡ ShelfError.OutOfMemory) }
    {
        match MemoryDrive::new(
            alloc,
            name.as_bytes(),
            self.capacity,
            self.calls,
            &self.failing,
        ) {
            Ok(drive) => Ok(drive),
            Err(_) => Err(ShelfError::OutOfMemory),
        }
    }
}

/// A shelf in memory, which tells its drives.
#[derive(Drop)]
pub struct MemoryShelf {
    drives: Vec<NamedDrive>,
    maker: DriveMaker,
    failing: Failing,
    faults: Faults,
}

impl Model for MemoryShelf {
    ghost use Rattle.gft_outside.specs.MemoryShelves.{ShelfList};

    ghost Value = { ShelfList };

    ghost view = { λ s. record {
      drives = s.drives.items;
      making = s.maker;
      failing = s.failing;
      faults = s.faults;
    } };
}

impl MemoryShelf {
    /// A shelf with these drives, each under its label: of those under one label the first counts. The drives
    /// that it makes have room for `capacity` bytes, take `calls` calls, and fail those in `drive_failing`.
    /// The calls of the shelf whose number, counted from 1 over all three, is in `failing` fail, and change
    /// nothing.
    pub fn new(
        drives: Vec<NamedDrive>,
        capacity: u64,
        calls: u32,
        drive_failing: Vec<FailAt>,
        failing: Vec<u32>,
    ) -> MemoryShelf
        ensures { result ≡ new_shelf drives.items (record {
          capacity = capacity;
          calls = calls;
          failing = drive_failing.items;
        }) failing.items }
    {
        MemoryShelf {
            drives,
            maker: DriveMaker {
                capacity,
                calls,
                failing: drive_failing,
            },
            failing: Failing::new(failing),
            faults: Faults::new(),
        }
    }

    /// Whether there is a drive under the name.
    pub fn has(&self, name: &Name) -> bool
        ensures { result ≡ is_some (drive_under self.now.drives name.now) }
    {
        place_of(&self.drives, name).is_some()
    }

    /// How often a call failed.
    pub fn faults(&self) -> u64
        ensures { result ≡ self.now.faults }
    {
        self.faults.count()
    }
}

impl Shelf for MemoryShelf {
    type D = MemoryDrive;

    ghost state = { shelf_state };

    /// It is never refused memory.
    fn find(&mut self, _alloc: Global, name: &Name) -> Result<Option<MemoryDrive>, ShelfError>
        ensures { FindsIn name.now result self.old self.new }
    {
        if self.failing.begin() {
            let _ = self.faults.rise();
            return Err(ShelfError::Failed);
        }
        Ok(take_named(&mut self.drives, name))
    }

    /// What was under the name is dropped. If it refuses, nothing changes.
    fn make(&mut self, alloc: Global, name: &Name) -> Result<MemoryDrive, ShelfError>
        ensures { MakesIn name.now result self.old self.new }
    {
        if self.failing.begin() {
            let _ = self.faults.rise();
            return Err(ShelfError::Failed);
        }
        let made = self.maker.make(alloc, name);
        if made.is_ok() {
            drop_named(&mut self.drives, name);
        }
        made
    }

    /// If it fails, nothing changes.
    fn remove(&mut self, name: &Name) -> Result<(), Failed>
        ensures { RemovesIn name.now result self.old self.new }
    {
        if self.failing.begin() {
            return Err(self.faults.rise());
        }
        drop_named(&mut self.drives, name);
        Ok(())
    }
}

// Takes the first drive under the name, and drops all others under it.
fn take_named(drives: &mut Vec<NamedDrive>, name: &Name) -> Option<MemoryDrive>
    ensures taken { result ≡ drive_under drives.old.items name.now }
    ensures left { drives.new.items ≡ without_name name.now drives.old.items }
{
    match place_of(drives, name) {
        Some(at) => {
            let found = drives.remove(at);
            drop_named(drives, name);
            Some(found.into_drive())
        }
        None => None,
    }
}

// The place of the first drive under the name.
fn place_of(drives: &[NamedDrive], name: &Name) -> Option<usize>
    ensures { result ≡ position (is_under name.now) drives.now }
{
    drives.iter().position(|named| named.is_under(name))
}

// Drops the drives under the name.
fn drop_named(drives: &mut Vec<NamedDrive>, name: &Name)
    ensures { drives.new.items ≡ without_name name.now drives.old.items }
{
    drives.retain(|named| !named.is_under(name));
}
