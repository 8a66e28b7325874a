use gft_book::{Book, Finished};
use gft_drive::{Drive, Origin};
use gft_pass::Cause;

/// How a transfer ended.
#[derive(Drop)]
pub struct Outcome {
    /// The finished file, or why there is none.
    pub end: Result<Finished, Cause>,
    /// How many marks were told on the control connection.
    pub told: u64,
}

/// What a transfer hands back: its outcome, whether a put of it failed, the Book, at rest, and the lanes in
/// their order. Behind a put that failed nothing more may be put.
#[derive(Drop)]
pub struct Received<L: Drop, D: Drive + Drop, O: Origin> {
    pub outcome: Outcome,
    pub put_failed: bool,
    pub book: Book<D, O>,
    pub lanes: Vec<L>,
}
