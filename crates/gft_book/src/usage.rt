ghost use Rattle.std.specs.Prelude.{◌↔◌, IsTrue, IsSome};
ghost use Rattle.gft_book.specs.Book.{left_out};

use gft_range::RangeSet;

/// What a file is used for.
#[derive(Clone, Copy, Debug, PartialEq, Eq)]
pub enum Use {
    Rest,
    /// So many readers.
    Reading(u32),
    Storing,
}

/// How a transfer begins.
#[derive(Debug, Drop)]
pub enum How {
    /// A STOR: nothing of the old file stays.
    Fresh,
    /// A STOR with a REST list: what is kept stays, and the sender leaves these ranges out.
    Resume(RangeSet),
    /// An ESTO: what is kept stays, and the transfer completes nothing.
    Esto,
}

impl How {
    /// Whether the transfer completes the file.
    pub(crate) fn is_stor(&self) -> bool
        ensures { IsTrue result ↔ IsSome (left_out self.now) }
    {
        match self {
            How::Fresh | How::Resume(_) => true,
            How::Esto => false,
        }
    }
}
