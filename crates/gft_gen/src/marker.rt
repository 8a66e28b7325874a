ghost use Rattle.std.specs.Prelude.{◌≡◌, ◌≤◌, [], IfOk, vec_capacity};

use gft_base::{Failed, OutOfMemory};
use gft_drive::Sink;
use gft_mark::{Marker, MarkerError, read_marker};
use gft_range::RangeSet;
use gft_reply::{Replies, ReplyError};
use std::alloc::Global;
use std::marker::Model;

/// Room for a range marker: 512 ranges of two numbers below 2^64, and what stands around them.
const LINE_ROOM: usize = 32_768;

/// A control connection that keeps the last line that was put, and loses the others and what is longer than a
/// marker. No put of it fails, and it tells contracts nothing.
#[derive(Drop)]
pub(crate) struct LastLine {
    bytes: Vec<u8>,
}

impl Model for LastLine {
    ghost use Rattle.std.specs.Prelude.{ℕ, List, ◌≤◌, vec_capacity};

    ghost Value = { List ℕ };

    ghost view = { λ l. l.bytes.items };

    ghost invariant = { λ l. 32768 ≤ vec_capacity l.bytes };
}

impl LastLine {
    /// No line yet.
    pub(crate) fn new(alloc: Global) -> Result<LastLine, OutOfMemory>
        ensures { IfOk result (λ last. last ≡ []) }
    {
        Ok(LastLine {
            bytes: Vec::with_capacity(alloc, LINE_ROOM)?,
        })
    }

    /// The ranges that the last line names, if it is a range marker (GFD.20); else none.
    pub(crate) fn ranges(&self, alloc: Global) -> Result<RangeSet, OutOfMemory> {
        let mut replies = Replies::new(alloc);
        match replies.feed(self.bytes.as_slice()) {
            Ok(got) => match got.reply {
                Some(reply) => named_by(alloc, read_marker(alloc, &reply)),
                None => Ok(RangeSet::new(alloc)),
            },
            Err(ReplyError::BadReply) => Ok(RangeSet::new(alloc)),
            Err(ReplyError::OutOfMemory) => Err(OutOfMemory),
        }
    }
}

/// The ranges of a range marker; none of what isn't one.
fn named_by(alloc: Global, marker: Result<Marker, MarkerError>) -> Result<RangeSet, OutOfMemory> {
    match marker {
        Ok(Marker::Ranges(ranges)) => Ok(ranges),
        Ok(Marker::Perf(_)) | Err(MarkerError::NotAMarker) => Ok(RangeSet::new(alloc)),
        Err(MarkerError::OutOfMemory) => Err(OutOfMemory),
    }
}

impl Sink for LastLine {
    ghost use Rattle.std.specs.Prelude.{None};

    ghost written = { λ _. None };

    ghost is_open = { λ _. Unit {0} };

    ghost faults = { λ _. 0 };

    fn put(&mut self, bytes: &[u8]) -> Result<(), Failed> {
        if self.bytes.last() == Some(&b'\n') {
            self.bytes.clear();
        }
        add_bytes(&mut self.bytes, bytes);
        Ok(())
    }
}

/// Adds bytes to a line, as far as there is room.
fn add_bytes(line: &mut Vec<u8>, bytes: &[u8])
    requires room { LINE_ROOM ≤ vec_capacity line.old }
    ensures room { LINE_ROOM ≤ vec_capacity line.new }
{
    let count = bytes.len().min(LINE_ROOM.saturating_sub(line.len()));
    for &byte in &bytes[..count] {
        line.push_reserved(byte);
    }
}
