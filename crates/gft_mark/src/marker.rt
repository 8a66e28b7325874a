ghost use Rattle.std.specs.Prelude.{◌≡◌, ℕ, Err, IfOk};
ghost use Rattle.gft_mark.specs.Markers.{HasFewItems, IsMarker};
ghost use Rattle.gft_mark.specs.declared.marker.Marker.{Marker};

use crate::perf::{Perf, read_perf};
use crate::range::read_ranges;
use gft_range::RangeSet;
use gft_reply::Reply;
use std::alloc::Global;
use thiserror::Error;

/// What a marker tells.
#[derive(Drop)]
pub enum Marker {
    /// The ranges of the file that are stored, at least one.
    Ranges(RangeSet),
    /// How far a stripe has come.
    Perf(Perf),
}

/// Why a reply gave no marker.
#[derive(Clone, Copy, Debug, PartialEq, Eq, Error)]
pub enum MarkerError {
    /// The reply is neither a restart marker nor a performance marker.
    #[error("not a marker")]
    NotAMarker,
    #[error("out of memory")]
    OutOfMemory,
}

/// Reads a marker (GFD.20): a restart marker, of code 111 and one line, or a performance marker, of
/// code 112 and six lines. A restart marker has at most `MAX_ITEMS` items, and names an
/// offset.
///
/// In a performance marker any number of spaces may stand at the beginning of the four inner lines
/// and behind their colons, and any text behind the `End` of the last line. Its timestamp is a number
/// alone, or has a point and one digit or more; what follows the first of them is left out.
///
/// `NotAMarker` if the reply is neither, or a value is too great for its field; `OutOfMemory`, which
/// one line of a restart marker's name and at most `MAX_ITEMS` items alone can give, if the set can't
/// be allocated.
pub fn read_marker(alloc: Global, reply: &Reply) -> Result<Marker, MarkerError>
    ensures marker { IfOk result (IsMarker reply.now) }
    ensures none { result ≡ Err MarkerError.NotAMarker →
        (marker : Marker) → ¬ IsMarker reply.now marker }
    ensures memory { result ≡ Err MarkerError.OutOfMemory → HasFewItems reply.now }
{
    if let Some(perf) = read_perf(reply) {
        return Ok(Marker::Perf(perf));
    }
    match read_ranges(alloc, reply) {
        Ok(set) => Ok(Marker::Ranges(set)),
        Err(error) => Err(error),
    }
}
