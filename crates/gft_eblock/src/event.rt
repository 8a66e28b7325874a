/// What the bytes of a data connection bring. Offsets are in bytes of the file, with the channel's
/// shift added.
#[derive(Clone, Copy, Debug, PartialEq, Eq)]
pub enum Event<'a> {
    /// These bytes, at least one, arrive at `offset` and onwards. They are the front of the piece that
    /// was fed, or a part of it.
    Piece { offset: u64, bytes: &'a [u8] },
    /// So many EODs are to be expected over all connections.
    Eof { total: u64 },
    /// This connection's data ends here.
    Eod,
}

/// How many bytes of the piece were taken, and what they brought.
#[derive(Clone, Copy, Debug, PartialEq, Eq)]
pub struct Step<'a> {
    pub used: usize,
    pub event: Option<Event<'a>>,
}
