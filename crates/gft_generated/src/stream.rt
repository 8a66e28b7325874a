ghost use Rattle.std.specs.Prelude.{◌≡◌, ◌<◌, ◌≤◌, ◌++◌, ℕ, IfOk, IfSome, OnOk, flat_map, length};
ghost use Rattle.std.specs.Prelude.{option_to_list, take, vec_capacity, vec_len};
ghost use Rattle.gft_eblock.specs.Words.{spelling};
ghost use Rattle.gft_generated.specs.Carried.{IsCut};
ghost use Rattle.gft_generated.specs.Streams.{ending, fewer, generated_blocks, segment_bytes};

use crate::segment::Segment;
use gft_base::OutOfMemory;
use gft_eblock::{Header, encode};
use gft_layout::Plan;
use std::alloc::Global;
use std::marker::Model;

/// The flags of a block that has data alone.
const DATA: u8 = 0;

/// The flags of the header that tells how many EODs are to be expected.
const EOF: u8 = 64;

/// The flags of a connection's last header: its data ends, and the sender closes it.
const EOD_AND_CLOSE: u8 = 12;

/// What is left of what a data connection carries. Contracts see the list of these bytes.
#[derive(Drop)]
pub(crate) struct Stream {
    seed: u64,
    /// the stretches, the next one last
    segments: Vec<Segment>,
    /// how many bytes may still come, where the stream is cut
    left: Option<u64>,
}

impl Model for Stream {
    ghost use Rattle.std.specs.Prelude.{ℕ, List, flat_map, reverse};
    ghost use Rattle.gft_generated.specs.Streams.{front_of, segment_bytes};

    ghost Value = { List ℕ };

    ghost view = { λ s. front_of s.left (flat_map (segment_bytes s.seed) (reverse s.segments.items)) };
}

impl Stream {
    /// The blocks of this plan, with the bytes of the file of this seed; then, where a total is given, the EOF
    /// that tells it; then the EOD.
    pub(crate) fn new(
        alloc: Global,
        seed: u64,
        ranges: Plan,
        total: Option<u64>,
    ) -> Result<Stream, OutOfMemory>
        ensures { IfOk result (λ stream. stream ≡ generated_blocks seed ranges.entry ++ ending total) }
    {
        let mut segments = blocks(alloc, ranges)?;
        end_blocks(&mut segments, total)?;
        segments.reverse();
        Ok(Stream {
            seed,
            segments,
            left: None,
        })
    }

    /// Cuts the stream behind so many bytes, or one byte before its end, whichever is less.
    pub(crate) fn cut(&mut self, most: u64)
        ensures { IsCut most self.old self.new }
    {
        let whole = total_len(self.segments.as_slice());
        let most = whole.saturating_sub(1).min(most);
        self.left = match self.left {
            Some(left) => Some(left.min(most)),
            None => Some(most),
        };
    }

    /// Gives what comes next, as many bytes as the buffer takes, and tells how many.
    pub(crate) fn give(&mut self, buf: &mut [u8]) -> usize
        ensures count { result ≤ length buf.old }
        ensures given { self.old ≡ take result buf.new ++ self.new }
    {
        let mut given = 0;
        'stretches: for _ in 0..buf.len() {
            let count = self.give_some(&mut buf[given..]);
            if count == 0 {
                break;
            }
            given += count;
        }
        given
    }

    /// Gives bytes of the stretch that is at hand.
    fn give_some(&mut self, buf: &mut [u8]) -> usize
        ensures count { result ≤ length buf.old }
        ensures given { self.old ≡ take result buf.new ++ self.new }
    {
        let Some(segment) = self.segments.pop() else {
            return 0;
        };
        let most = room_for(self.left, buf.len());
        let (count, rest) = segment.give(self.seed, &mut buf[..most]);
        put_back(&mut self.segments, rest);
        self.left = left_behind(self.left, count);
        count
    }
}

/// How many bytes may come into a buffer of this length.
fn room_for(left: Option<u64>, len: usize) -> usize
    ensures within { result ≤ len }
    ensures few { IfSome left (λ left. result ≤ left) }
{
    match left {
        Some(left) => left.min(len as u64) as usize,
        None => len,
    }
}

/// How many may come behind these.
fn left_behind(left: Option<u64>, count: usize) -> Option<u64>
    requires { IfSome left (λ left. count ≤ left) }
    ensures { result ≡ fewer left count }
{
    match left {
        Some(left) => Some(left - count as u64),
        None => None,
    }
}

/// Puts what is left of a stretch back as the next one.
fn put_back(segments: &mut Vec<Segment>, rest: Option<Segment>)
    requires { vec_len segments.old < vec_capacity segments.old }
    ensures { segments.new.items ≡ segments.old.items ++ option_to_list rest }
{
    if let Some(rest) = rest {
        segments.push_reserved(rest);
    }
}

/// The blocks of a plan.
fn blocks(alloc: Global, ranges: Plan) -> Result<Vec<Segment>, OutOfMemory>
    ensures { IfOk result (λ segments. (seed : ℕ)
        → flat_map (segment_bytes seed) segments.items ≡ generated_blocks seed ranges.entry) }
{
    let mut segments = Vec::new(alloc);
    for range in ranges {
        segments.push(header(DATA, range.end.saturating_sub(range.start), range.start))?;
        segments.push(Segment::Data(range))?;
    }
    Ok(segments)
}

/// Adds what stands behind the blocks.
fn end_blocks(segments: &mut Vec<Segment>, total: Option<u64>) -> Result<(), OutOfMemory>
    ensures { OnOk result ((seed : ℕ) → flat_map (segment_bytes seed) segments.new.items
        ≡ flat_map (segment_bytes seed) segments.old.items ++ ending total) }
{
    if let Some(total) = total {
        segments.push(header(EOF, 0, total))?;
    }
    segments.push(header(EOD_AND_CLOSE, 0, 0))?;
    Ok(())
}

/// A header as it is carried.
fn header(flags: u8, count: u64, offset: u64) -> Segment
    ensures { (seed : ℕ) → segment_bytes seed result
        ≡ spelling (record { flags = flags; count = count; offset = offset }) }
{
    let bytes = encode(&Header {
        flags,
        count,
        offset,
    });
    Segment::Header { bytes, from: 0 }
}

/// How many bytes these have together, as far as that can be told.
fn total_len(segments: &[Segment]) -> u64 {
    let mut total: u64 = 0;
    for segment in segments {
        total = total.saturating_add(segment.len());
    }
    total
}
