use gft_layout::{Layout, Shape};
use gft_range::Range;

/// What is sent of a file, and how it is spread over stripes and their data connections.
#[derive(Clone, Copy, Debug, PartialEq, Eq)]
pub struct SendPlan {
    /// The offsets that are sent, but for those that the peer has.
    pub region: Range,
    /// Which stripe has which of them.
    pub layout: Layout,
    /// How many stripes there are, and data connections of each.
    pub shape: Shape,
}
