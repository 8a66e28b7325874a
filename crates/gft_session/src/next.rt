//! How a command goes on.

use crate::response::Response;
use gft_drive::{Drive, Origin};
use gft_library::Storing;
use gft_text::Name;

/// A STOR or ESTO that nobody refused: the name's Book with its transfer, and the lanes that waited.
#[derive(Drop)]
pub(crate) struct Begun<D: Drive + Drop, O: Origin, L: Drop> {
    pub(crate) name: Name,
    /// The offset of an ESTO.
    pub(crate) part: Option<u64>,
    pub(crate) storing: Storing<D, O>,
    pub(crate) lanes: Vec<L>,
}

/// A reply, or a transfer.
#[derive(Drop)]
pub(crate) enum Next<S, D: Drive + Drop, O: Origin, L: Drop> {
    Say(Response<S>),
    Store(Begun<D, O, L>),
}
