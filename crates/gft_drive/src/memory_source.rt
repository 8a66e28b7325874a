ghost use Rattle.std.specs.Prelude.{◌≡◌, ◌+◌, ◌-◌, ◌^◌, ◌<◌, min};

use crate::source::Source;
use gft_base::{Failed, Faults};
use std::marker::Model;

/// Bytes in memory, of which each read gives at most `most`. It tells them.
#[derive(Drop)]
pub struct MemorySource {
    bytes: Vec<u8>,
    at: usize,
    most: usize,
    failing: Vec<u32>,
    reads: u64,
    faults: Faults,
}

impl Model for MemorySource {
    ghost use Rattle.std.specs.Prelude.{◌<◌, ◌≤◌, length, drop};
    ghost use Rattle.gft_drive.specs.Memory.{Given};

    ghost Value = { Given };

    ghost view = { λ s. record {
      left = drop s.at s.bytes.items;
      most = s.most;
      failing = s.failing.items;
      reads = s.reads;
      faults = s.faults;
    } };

    ghost invariant = { λ s. (s.at ≤ length s.bytes.items) × (0 < s.most) };
}

impl MemorySource {
    /// A source of these bytes. The reads whose number, counted from 1, is in `failing` fail.
    pub fn new(bytes: Vec<u8>, most: usize, failing: Vec<u32>) -> Self
        requires { 0 < most }
        ensures { result ≡
            record { left = bytes.items; most = most; failing = failing.items; reads = 0; faults = 0 } }
    {
        MemorySource {
            bytes,
            at: 0,
            most,
            failing,
            reads: 0,
            faults: Faults::new(),
        }
    }

    /// How many reads there were, those that failed among them.
    pub fn reads(&self) -> u64
        ensures { result ≡ self.now.reads }
    {
        self.reads
    }

    /// The bytes that are left.
    pub fn rest(&self) -> &[u8]
        ensures { result.now ≡ self.now.left }
    {
        &self.bytes[self.at..]
    }

    // Counts a read, and says whether it fails.
    fn begin(&mut self) -> bool
        ensures { self.new ≡ record self.old { reads = min (self.old.reads + 1) (2 ^ 64 - 1) } }
    {
        self.reads = self.reads.saturating_add(1);
        let number = self.reads;
        self.failing.iter().any(|&failing| failing as u64 == number)
    }
}

impl Source for MemorySource {
    ghost use Rattle.std.specs.Prelude.{Some};

    ghost left = { λ source. Some source.left };

    ghost faults = { λ source. source.faults };

    fn read(&mut self, buf: &mut [u8]) -> Result<usize, Failed> {
        if self.begin() {
            return Err(self.faults.rise());
        }
        let left = self.bytes.len() - self.at;
        let count = left.min(buf.len()).min(self.most);
        buf[..count].copy_from_slice(&self.bytes[self.at..self.at + count]);
        self.at += count;
        Ok(count)
    }
}
