ghost use Rattle.std.specs.Prelude.{◌≡◌};
ghost use Rattle.gft_eblock.specs.Arrivals.{refusal};
ghost use Rattle.gft_eblock.specs.Channel.{refusal_of};

use crate::header::Header;
use thiserror::Error;

/// A block is refused: it is a restart marker or suspect data, an EOF with data, or its data passes
/// the limit. `place` is how many bytes of the connection stand before its header, and the others
/// are what the header says.
#[derive(Clone, Copy, Debug, PartialEq, Eq, Error)]
#[error("bad block at byte {place}: flags {flags}, count {count}, offset {offset}")]
pub struct BadBlock {
    pub place: u64,
    pub flags: u8,
    pub count: u64,
    pub offset: u64,
}

impl BadBlock {
    pub(crate) fn new(place: u64, header: &Header) -> BadBlock
        ensures { refusal_of result ≡ refusal place header.now }
    {
        BadBlock {
            place,
            flags: header.flags,
            count: header.count,
            offset: header.offset,
        }
    }
}
