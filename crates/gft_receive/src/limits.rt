/// The bounds of a transfer.
#[derive(Clone, Copy, Debug, PartialEq, Eq)]
pub struct Limits {
    /// A mark is due once so many bytes were booked since the last.
    pub marker_bytes: u64,
    /// So many silences in a row of a lane, while nothing is booked, end the transfer.
    pub idle: u32,
    /// What is added to the offsets of blocks, in bytes, at most [`gft_base::LIMIT`].
    pub shift: u64,
}
