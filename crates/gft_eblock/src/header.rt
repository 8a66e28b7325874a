ghost use Rattle.std.specs.Prelude.{◌≡◌, length};
ghost use Rattle.gft_eblock.specs.Header.{is_bad};
ghost use Rattle.gft_eblock.specs.Spelling.{header_of, spelling};

use crate::HEADER_LEN;
use crate::flags::Flags;
use gft_base::LIMIT;

/// What stands before the data of a block: its flags, how many bytes of data follow, and the offset
/// of the first (under EOF the number of EODs to expect; GFD.20, extended block mode).
#[derive(Clone, Copy, Debug, PartialEq, Eq)]
pub struct Header {
    pub flags: u8,
    pub count: u64,
    pub offset: u64,
}

impl Header {
    /// Whether the block is refused on a connection whose offsets have `shift` added.
    #[tactic(auto, unfolding(crate::specs::Header::is_bad))]
    pub(crate) fn is_bad(&self, shift: u64) -> bool
        ensures { result ≡ is_bad shift self.now }
    {
        let flags = Flags(self.flags);
        let end = u128::from(shift) + u128::from(self.offset) + u128::from(self.count);
        flags.is_refused()
            || flags.is_eof() && self.count > 0
            || self.count > 0 && end > u128::from(LIMIT)
    }
}

/// The bytes of a header: its flags, then its count and its offset in network byte order.
pub fn encode(header: &Header) -> [u8; HEADER_LEN]
    ensures spelled { result ≡ spelling header.now }
    ensures again { header_of result ≡ header.now }
{
    let Header {
        flags,
        count,
        offset,
    } = *header;
    let mut bytes = [0; HEADER_LEN];
    bytes[0] = flags;
    bytes[1..9].copy_from_slice(&count.to_be_bytes());
    bytes[9..].copy_from_slice(&offset.to_be_bytes());
    bytes
}

/// The header that these bytes spell.
#[tactic(auto, unfolding(crate::specs::Spelling::header_of))]
pub(crate) fn decode(bytes: &[u8]) -> Header
    requires { length bytes.now ≡ HEADER_LEN }
    ensures { result ≡ header_of bytes.now }
{
    let mut count = [0; 8];
    count.copy_from_slice(&bytes[1..9]);
    let mut offset = [0; 8];
    offset.copy_from_slice(&bytes[9..]);
    Header {
        flags: bytes[0],
        count: u64::from_be_bytes(count),
        offset: u64::from_be_bytes(offset),
    }
}
