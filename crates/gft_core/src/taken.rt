ghost use Rattle.std.specs.Prelude.{◌≡◌, IfOk};
ghost use Rattle.gft_core.specs.declared.taken.Taken.TheVariants as taken;
ghost use Rattle.gft_core.specs.Kept.{byte_at};
ghost use Rattle.gft_core.specs.Machine.{found_after};

use crate::image::has;
use crate::octets::Octets;
use gft_base::OutOfMemory;
use gft_range::RangeSet;

/// The bytes at one offset.
#[derive(Clone, Copy)]
pub struct Found {
    /// That of the earliest block which has one, open ones too.
    pub earliest: Option<u8>,
    /// The kept one.
    pub kept: Option<u8>,
}

/// What the machine keeps of an event.
#[derive(Drop)]
pub enum Taken {
    /// A block's bytes lie at this offset and onwards.
    Block {
        offset: u64,
        bytes: Octets,
        unanswered: bool,
    },
    /// A crash left an image with these ranges.
    Crash {
        ranges: RangeSet,
    },
}

/// The byte at an offset of bytes that lie from `start` on, if there is one.
fn byte_at(start: u64, bytes: &Octets, offset: u64) -> Option<u8>
    ensures { result ≡ byte_at start bytes.now offset }
{
    if offset < start {
        return None;
    }
    bytes.nth(offset - start)
}

impl Taken {
    /// A block with a copy of these bytes. `OutOfMemory` if it can't be allocated.
    pub fn block(offset: u64, bytes: &Octets, unanswered: bool) -> Result<Taken, OutOfMemory>
        ensures { IfOk result (λ entry. entry ≡ taken.Block offset bytes.now unanswered) }
    {
        let bytes = bytes.copy()?;
        Ok(Taken::Block {
            offset,
            bytes,
            unanswered,
        })
    }

    /// What is found at an offset behind this one, after what was found before it.
    pub fn found_after(&self, found: Found, offset: u64) -> Found
        ensures { result ≡ found_after found self.now offset }
    {
        match self {
            Taken::Block {
                offset: start,
                bytes,
                unanswered,
            } => {
                let byte = byte_at(*start, bytes, offset);
                let earliest = found.earliest.or(byte);
                if *unanswered {
                    return Found {
                        earliest,
                        kept: found.kept,
                    };
                }
                Found {
                    earliest,
                    kept: found.kept.or(byte),
                }
            }
            Taken::Crash { ranges } => {
                if has(ranges, offset) {
                    return Found {
                        earliest: found.earliest,
                        kept: found.earliest,
                    };
                }
                Found {
                    earliest: None,
                    kept: None,
                }
            }
        }
    }
}
