ghost use Rattle.std.specs.Prelude.{◌≡◌, ◌==◌, ◌&&◌, true, false, IfOk};
ghost use Rattle.gft_base.specs.Words.{HasCause};
ghost use Rattle.gft_outside.specs.Links.{IsNewOutLane};
ghost use Rattle.gft_outside.specs.OutLanes.{PutsBy, PutsOut, new_out_lane, out_lane_state};

use crate::failing::Failing;
use crate::out_lane::OutLane;
use gft_base::{Failed, Faults, OutOfMemory};
use std::alloc::Global;
use std::marker::Model;

/// Keeps what is put, up to its room, and tells it. It takes its memory when it is made.
#[derive(Drop)]
pub struct MemoryOutLane {
    bytes: Vec<u8>,
    room: usize,
    failing: Failing,
    is_open: bool,
    faults: Faults,
}

impl Model for MemoryOutLane {
    ghost use Rattle.std.specs.Prelude.{◌≡◌, ◌≤◌, [], vec_capacity, vec_len};
    ghost use Rattle.gft_outside.specs.OutLanes.{OutLaneList};

    ghost Value = { OutLaneList };

    ghost view = { λ o. record {
      written = o.bytes.items;
      room = o.room;
      failing = o.failing;
      is_open = o.is_open;
      faults = o.faults;
    } };

    ghost invariant = { λ o. (vec_len o.bytes ≤ o.room) × (o.room ≤ vec_capacity o.bytes)
        × (o.failing.calls ≡ 0 → (o.bytes.items ≡ []) × (o.faults ≡ 0)) };
}

impl MemoryOutLane {
    /// An out lane with room for this many bytes. A put past the room takes what there is room for, and
    /// fails. The puts whose number, counted from 1, is in `failing` fail, and take nothing.
    pub fn new(alloc: Global, room: usize, failing: Vec<u32>) -> Result<MemoryOutLane, OutOfMemory>
        ensures { IfOk result (λ out. out ≡ new_out_lane room failing.items) }
    {
        Ok(MemoryOutLane {
            bytes: Vec::with_capacity(alloc, room)?,
            room,
            failing: Failing::new(failing),
            is_open: true,
            faults: Faults::new(),
        })
    }

    /// The bytes that were put.
    pub fn bytes(&self) -> &[u8]
        ensures { result.now ≡ self.now.written }
    {
        &self.bytes
    }

    /// Whether more may be put.
    pub fn is_open(&self) -> bool
        ensures { result ≡ self.now.is_open }
    {
        self.is_open
    }

    /// Whether no put was made yet, and it wasn't closed.
    pub(crate) fn is_unused(&self) -> bool
        ensures unused { result ≡ ((self.now.failing.calls == 0) && self.now.is_open) }
        ensures new { result ≡ true → IsNewOutLane (out_lane_state self.now) }
    {
        self.failing.calls() == 0 && self.is_open
    }

    /// How often a put failed.
    pub(crate) fn faults(&self) -> u64
        ensures { result ≡ self.now.faults }
    {
        self.faults.count()
    }
}

impl OutLane for MemoryOutLane {
    ghost state = { out_lane_state };

    fn put(&mut self, bytes: &[u8]) -> Result<(), Failed>
        requires open { self.old.is_open ≡ true }
        ensures puts { PutsOut result bytes.now (out_lane_state self.old) (out_lane_state self.new) }
        ensures cause { HasCause self.old.faults self.new.faults result }
        ensures fails { PutsBy result bytes.now self.old self.new }
    {
        let left = self.room - self.bytes.len();
        if self.failing.begin() {
            self.is_open = false;
            return Err(self.faults.rise());
        }
        let count = bytes.len().min(left);
        let _ = self.bytes.extend_from_slice(&bytes[..count]);
        if left < bytes.len() {
            self.is_open = false;
            return Err(self.faults.rise());
        }
        Ok(())
    }

    fn close(&mut self)
        ensures closed { out_lane_state self.new ≡ record (out_lane_state self.old) { is_open = false } }
        ensures alone { self.new ≡ record self.old { is_open = false } }
    {
        self.is_open = false;
    }
}
