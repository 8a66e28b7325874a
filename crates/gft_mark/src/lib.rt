//! Markers of a transfer (GFD.20): restart markers, which name the ranges of the file that are
//! stored, and performance markers, which say how far each stripe has come.
//!
//! Begin with [`read_marker`], and with `specs/Markers.antt`, which says which replies are markers.
//! A marker is a reply of `gft_reply`, which reads and writes its lines. Nothing here asks a clock.
#![tactic(auto)]

mod field;
mod laws;
mod marker;
mod perf;
mod range;
#[cfg(test)]
mod tests;
mod value;

pub use laws::markers_have_one_value;
pub use marker::{Marker, MarkerError, read_marker};
pub use perf::{Perf, perf_marker};
pub use range::range_marker;

/// The code of a restart marker.
pub const RANGE_CODE: u16 = 111;

/// The code of a performance marker.
pub const PERF_CODE: u16 = 112;

// The definitions cite the names: their numbers are pinned here.
const _: () = prove!(RANGE_CODE == 111);

const _: () = prove!(PERF_CODE == 112);
