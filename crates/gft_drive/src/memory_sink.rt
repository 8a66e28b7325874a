ghost use Rattle.std.specs.Prelude.{◌≡◌, [], true, IfOk};

use crate::sink::Sink;
use gft_base::{Failed, Faults, OutOfMemory};
use std::alloc::Global;
use std::marker::Model;

/// Keeps what is put, up to its room, and tells it. It takes its memory when it is made.
#[derive(Drop)]
pub struct MemorySink {
    bytes: Vec<u8>,
    room: usize,
    failing: Vec<u32>,
    puts: u64,
    is_open: bool,
    faults: Faults,
}

impl Model for MemorySink {
    ghost use Rattle.gft_drive.specs.Memory.{Taken};

    ghost Value = { Taken };

    ghost view = { λ s. record {
      written = s.bytes.items;
      room = s.room;
      failing = s.failing.items;
      is_open = s.is_open;
      faults = s.faults;
    } };
}

impl MemorySink {
    /// An empty sink with room for this many bytes. A put past the room fails, as do the puts
    /// whose number, counted from 1, is in `failing`: a put that fails puts nothing.
    pub fn new(alloc: Global, room: usize, failing: Vec<u32>) -> Result<MemorySink, OutOfMemory>
        ensures { IfOk result (λ sink. sink ≡
            record { written = []; room = room; failing = failing.items; is_open = true; faults = 0 }) }
    {
        Ok(MemorySink {
            bytes: Vec::with_capacity(alloc, room)?,
            room,
            failing,
            puts: 0,
            is_open: true,
            faults: Faults::new(),
        })
    }

    /// The bytes that were put.
    pub fn bytes(&self) -> &[u8]
        ensures { result.now ≡ self.now.written }
    {
        &self.bytes
    }

    // Counts a put, and says whether it fails.
    fn begin(&mut self) -> bool
        ensures { self.new ≡ self.old }
    {
        self.puts = self.puts.saturating_add(1);
        let number = self.puts;
        self.failing.iter().any(|&failing| failing as u64 == number)
    }
}

impl Sink for MemorySink {
    ghost use Rattle.std.specs.Prelude.{Some, true};

    ghost written = { λ sink. Some sink.written };

    ghost is_open = { λ sink. sink.is_open ≡ true };

    ghost faults = { λ sink. sink.faults };

    fn put(&mut self, bytes: &[u8]) -> Result<(), Failed> {
        let fails = self.begin();
        let left = self.room.saturating_sub(self.bytes.len());
        if !fails && bytes.len() <= left && self.bytes.extend_from_slice(bytes).is_ok() {
            return Ok(());
        }
        self.is_open = false;
        Err(self.faults.rise())
    }
}
