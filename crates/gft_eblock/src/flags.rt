ghost use Rattle.std.specs.Prelude.{◌≡◌};
ghost use Rattle.gft_eblock.specs.Header.{has_flag, is_eod, is_eof, is_refused};

/// The offset is the number of EODs to expect over all connections.
const EOF: u8 = 64;
/// The data may have an error.
const SUSPECT: u8 = 32;
/// A restart marker, which is no data.
const RESTART: u8 = 16;
/// The connection's data ends with this block.
const EOD: u8 = 8;

/// The flags of a block (GFD.20, extended block mode). Those without a method here are ignored.
#[derive(Clone, Copy, Debug)]
pub(crate) struct Flags(pub(crate) u8);

impl Flags {
    pub(crate) fn is_eof(self) -> bool
        ensures { result ≡ is_eof self.0 }
    {
        self.has(EOF)
    }

    pub(crate) fn is_eod(self) -> bool
        ensures { result ≡ is_eod self.0 }
    {
        self.has(EOD)
    }

    pub(crate) fn is_refused(self) -> bool
        ensures { result ≡ is_refused self.0 }
    {
        self.has(SUSPECT) || self.has(RESTART)
    }

    #[tactic(auto, unfolding(crate::specs::Header::has_flag))]
    fn has(self, flag: u8) -> bool
        ensures { result ≡ has_flag self.0 flag }
    {
        self.0 & flag != 0
    }
}
