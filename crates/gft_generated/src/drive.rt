ghost use Rattle.std.specs.Prelude.{◌≡◌, ◌-◌, ◌<◌, ◌≤◌, length, min, take, drop, false, IfOk, OnOk};
ghost use Rattle.gft_base.specs.Words.{HasCause};
ghost use Rattle.gft_drive.specs.Words.{ChangesOnly, HasRead, Leaves, Reads, Torn, Unchanged, Written};
ghost use Rattle.gft_generated.specs.Drive.{Compares, generated_state};
ghost use Rattle.gft_generated.specs.Generator.{generated};

use crate::generator::{generate, is_generated};
use gft_base::{Failed, OutOfMemory};
use gft_drive::{Drive, Part, RANGES_LEN, TwinError};
use std::alloc::Global;
use std::marker::Model;

/// A drive for the file of a seed, which holds no byte of it: it knows how long it is, and whether a byte
/// was written that isn't the file's. A read gives the file's bytes. Its `Ranges` part is held, and doesn't
/// grow: what is written past its end is lost. No call of it fails, and it tells contracts no content.
#[derive(Drop)]
pub struct GeneratedDrive {
    seed: u64,
    len: u64,
    ranges: Vec<u8>,
    differs: bool,
}

impl Model for GeneratedDrive {
    ghost use Rattle.gft_generated.specs.Drive.{OnGenerator};

    ghost Value = { OnGenerator };

    ghost view = { λ d. record {
      seed = d.seed;
      len = d.len;
      ranges = d.ranges.items;
      differs = d.differs;
    } };
}

impl GeneratedDrive {
    /// A new drive: the file has no byte yet, and the `Ranges` part is [`RANGES_LEN`] zeros.
    pub fn new(alloc: Global, seed: u64) -> Result<GeneratedDrive, OutOfMemory>
        ensures { IfOk result (λ drive. (drive.seed ≡ seed) × (drive.len ≡ 0) × (drive.differs ≡ false)) }
    {
        Ok(GeneratedDrive {
            seed,
            len: 0,
            ranges: vec![in alloc; 0u8; RANGES_LEN as usize]?,
            differs: false,
        })
    }

    /// Whether a byte was written that isn't the file's at its place.
    pub fn differs(&self) -> bool
        ensures { result ≡ self.now.differs }
    {
        self.differs
    }

    /// Compares what is written with the file.
    fn write_bytes(&mut self, at: u64, bytes: &[u8])
        ensures { Compares at bytes.now self.old self.new }
    {
        if !is_generated(self.seed, at, bytes) {
            self.differs = true;
        }
        self.len = self.len.max(at.saturating_add(bytes.len() as u64));
    }

    /// Reads bytes of the file, as far as it goes.
    fn read_bytes(&self, at: u64, buf: &mut [u8]) -> usize
        ensures count { result ≡ min (length buf.new) (self.now.len - at) }
        ensures bytes { take result buf.new ≡ generated self.now.seed at result }
    {
        let left = self.len.saturating_sub(at);
        let count = left.min(buf.len() as u64) as usize;
        generate(self.seed, at, &mut buf[..count]);
        count
    }
}

impl Drive for GeneratedDrive {
    ghost use Rattle.gft_generated.specs.Drive.{generated_lawful, generated_state};

    ghost state = { λ drive. generated_state drive };

    ghost lawful = { λ drive. generated_lawful drive };

    fn len(&mut self, part: Part) -> Result<u64, Failed> {
        match part {
            Part::Bytes => Ok(self.len),
            Part::Ranges => Ok(self.ranges.len() as u64),
        }
    }

    fn read(&mut self, part: Part, at: u64, buf: &mut [u8]) -> Result<usize, Failed>
        ensures bound { IfOk result (λ n. n ≤ length buf.new) }
        ensures bytes { IfOk result (HasRead part at buf.new (generated_state self.old)) }
        ensures unchanged { Unchanged (generated_state self.old) (generated_state self.new) }
        ensures cause { HasCause (generated_state self.old).faults (generated_state self.new).faults result }
        ensures generated { part ≡ Part.Bytes
            → IfOk result (λ n. take n buf.new ≡ generated self.old.seed at n) }
        ensures same { self.new ≡ self.old }
    {
        match part {
            Part::Bytes => Ok(self.read_bytes(at, buf)),
            Part::Ranges => Ok(copy_out(&self.ranges, at, buf)),
        }
    }

    fn write_at(&mut self, part: Part, at: u64, bytes: &[u8]) -> Result<(), Failed>
        requires { 0 < length bytes.now }
        ensures written { OnOk result (Reads part (Written at bytes.now) (generated_state self.old)
            (generated_state self.new)) }
        ensures crash { Leaves part (Torn at (length bytes.now)) (generated_state self.old)
            (generated_state self.new) }
        ensures only { ChangesOnly part (generated_state self.old) (generated_state self.new) result }
        ensures compares { part ≡ Part.Bytes → Compares at bytes.now self.old self.new }
        ensures apart { part ≡ Part.Ranges → self.new.differs ≡ self.old.differs }
    {
        match part {
            Part::Bytes => self.write_bytes(at, bytes),
            Part::Ranges => copy_in(&mut self.ranges, at, bytes),
        }
        Ok(())
    }

    fn cut(&mut self, part: Part, len: u64) -> Result<(), Failed> {
        match part {
            Part::Bytes => self.len = self.len.min(len),
            Part::Ranges => self.ranges.truncate(len as usize),
        }
        Ok(())
    }

    /// Nothing is held back, so it does nothing.
    fn sync(&mut self, _part: Part) -> Result<(), Failed> {
        Ok(())
    }

    fn twin(&mut self, alloc: Global) -> Result<GeneratedDrive, TwinError> {
        Ok(GeneratedDrive {
            seed: self.seed,
            len: self.len,
            ranges: Vec::from_slice(alloc, &self.ranges)?,
            differs: self.differs,
        })
    }
}

/// Copies the bytes from this place on into the front of the buffer, and tells how many there were.
fn copy_out(bytes: &[u8], at: u64, buf: &mut [u8]) -> usize
    ensures count { result ≡ min (length buf.new) (length bytes.now - at) }
    ensures bytes { take result buf.new ≡ take result (drop at bytes.now) }
{
    let from = bytes.len().min(at as usize);
    let count = buf.len().min(bytes.len() - from);
    buf[..count].copy_from_slice(&bytes[from..from + count]);
    count
}

/// Copies bytes to this place, as far as there is room.
fn copy_in(room: &mut [u8], at: u64, bytes: &[u8]) {
    let from = room.len().min(at as usize);
    let count = bytes.len().min(room.len() - from);
    room[from..from + count].copy_from_slice(&bytes[..count]);
}
