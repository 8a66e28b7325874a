use crate::image::Image;
use crate::octets::Octets;
use gft_range::RangeSet;

/// What happens to one name.
#[derive(Drop)]
pub enum CoreEvent {
    /// A block came on a data connection of a lane: bytes for this offset and onwards. It is
    /// unanswered if it was begun, and no answer says that it was stored.
    Block {
        lane: u16,
        channel: u32,
        offset: u64,
        bytes: Octets,
        unanswered: bool,
    },
    /// The data of one connection ends.
    Eod {
        lane: u16,
    },
    /// So many EODs are to be expected over all connections.
    Eof {
        total: u64,
    },
    /// A data connection was lost before its EOD, or what it brought was refused.
    Lost,
    /// A call to the outside failed.
    Fault,
    /// The transfer was ended from outside.
    Abort,
    /// A range marker was made.
    Mark,
    /// The server stopped, and began again with what the drive then had.
    Crash {
        image: Image,
    },
    /// A transfer begins, and what was kept is forgotten.
    Fresh,
    /// A transfer begins that goes on with what is kept; the sender leaves these ranges out.
    Resume {
        list: RangeSet,
    },
}
