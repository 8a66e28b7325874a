ghost use Rattle.std.specs.Prelude.{◌≡◌, ◌≤◌, ◌-◌, ℕ, ◌++◌, drop, length, take};
ghost use Rattle.gft_generated.specs.Generator.{generated};
ghost use Rattle.gft_generated.specs.Streams.{left_of, segment_bytes};

use crate::generator::generate;
use gft_eblock::HEADER_LEN;
use gft_range::Range;

/// What is left of one stretch of what a data connection carries: of a header, or of bytes of the file.
#[derive(Drop)]
pub(crate) enum Segment {
    Header {
        bytes: [u8; HEADER_LEN],
        /// how many of them were given
        from: usize,
    },
    Data(Range),
}

impl Segment {
    /// How many bytes are left.
    pub(crate) fn len(&self) -> u64 {
        match self {
            Segment::Header { bytes, from } => bytes.len().saturating_sub(*from) as u64,
            Segment::Data(range) => range.end.saturating_sub(range.start),
        }
    }

    /// Gives as many bytes as the buffer takes, tells how many, and what is left then.
    pub(crate) fn give(self, seed: u64, buf: &mut [u8]) -> (usize, Option<Segment>)
        ensures count { result.0 ≤ length buf.old }
        ensures given { segment_bytes seed self ≡ take result.0 buf.new ++ left_of seed result.1 }
    {
        match self {
            Segment::Header { bytes, from } => give_header(bytes, from, buf),
            Segment::Data(range) => give_data(seed, range, buf),
        }
    }
}

/// Gives bytes of a header of which so many were given.
fn give_header(bytes: [u8; HEADER_LEN], from: usize, buf: &mut [u8]) -> (usize, Option<Segment>)
    ensures count { result.0 ≤ length buf.old }
    ensures given { (seed : ℕ) → drop from bytes ≡ take result.0 buf.new ++ left_of seed result.1 }
{
    let from = from.min(HEADER_LEN);
    let count = buf.len().min(HEADER_LEN - from);
    let to = from + count;
    buf[..count].copy_from_slice(&bytes[from..to]);
    if to == HEADER_LEN {
        return (count, None);
    }
    (count, Some(Segment::Header { bytes, from: to }))
}

/// Gives bytes of the file of this seed.
fn give_data(seed: u64, range: Range, buf: &mut [u8]) -> (usize, Option<Segment>)
    ensures count { result.0 ≤ length buf.old }
    ensures given { generated seed range.start (range.end - range.start)
        ≡ take result.0 buf.new ++ left_of seed result.1 }
{
    let left = range.end.saturating_sub(range.start);
    let count = left.min(buf.len() as u64) as usize;
    generate(seed, range.start, &mut buf[..count]);
    let start = range.start + count as u64;
    if start >= range.end {
        return (count, None);
    }
    let rest = Range {
        start,
        end: range.end,
    };
    (count, Some(Segment::Data(rest)))
}
