ghost use Rattle.std.specs.Prelude.{◌≡◌, ◌≢◌, ◌<◌, ℕ, List, [], ◌∷◌, Err, IfOk, length, take};
ghost use Rattle.gft_range.specs.declared.Range.{Range};
ghost use Rattle.gft_mark.specs.Markers.{HasFewItems, IsRangeMarker, range_marker_text};
ghost use Rattle.gft_reply.specs.Words.{FitsReply};

use crate::RANGE_CODE;
use crate::field::line_at;
use crate::marker::MarkerError;
use gft_base::{OutOfMemory, strip_front};
use gft_range::{ListError, MAX_ITEMS, RangeSet};
use gft_reply::{Reply, ReplyLines};
use std::alloc::Global;

/// The restart marker of the first `MAX_ITEMS` ranges of a set that isn't empty (GFD.20): a reply of
/// code 111 and one line. It fits. `OutOfMemory` if it can't be allocated.
pub fn range_marker(alloc: Global, set: &RangeSet) -> Result<Reply, OutOfMemory>
    requires { 0 < length set.now.ranges }
    ensures code { IfOk result (λ reply. reply.code ≡ RANGE_CODE) }
    ensures lines { IfOk result (λ reply.
        reply.lines ≡ range_marker_text (take MAX_ITEMS set.now.ranges) ∷ []) }
    ensures read_again { IfOk result (λ reply. IsRangeMarker reply (take MAX_ITEMS set.now.ranges)) }
    ensures fits { IfOk result FitsReply }
{
    let named = set.first(MAX_ITEMS)?;
    let list = named.write_list()?;
    let mut text = Vec::from_slice(alloc, b"Range Marker ")?;
    text.extend_from_slice(&list)?;
    let mut lines = ReplyLines::new(alloc);
    lines.push(&text)?;
    Ok(Reply {
        code: RANGE_CODE,
        lines,
    })
}

/// The ranges of a restart marker.
pub(crate) fn read_ranges(alloc: Global, reply: &Reply) -> Result<RangeSet, MarkerError>
    ensures ranges { IfOk result (λ set. IsRangeMarker reply.now set.ranges) }
    ensures none { result ≡ Err MarkerError.NotAMarker →
        (ranges : List Range) → ¬ IsRangeMarker reply.now ranges }
    ensures memory { result ≡ Err MarkerError.OutOfMemory → HasFewItems reply.now }
{
    if reply.code != RANGE_CODE || reply.lines.count() != 1 {
        return Err(MarkerError::NotAMarker);
    }
    let Some(list) = strip_front(line_at(&reply.lines, 0), b"Range Marker ") else {
        return Err(MarkerError::NotAMarker);
    };
    match RangeSet::parse_list(alloc, list) {
        Ok(set) => some_ranges(set),
        Err(ListError::BadList { .. }) => Err(MarkerError::NotAMarker),
        Err(ListError::TooMany { .. }) => Err(MarkerError::NotAMarker),
        Err(ListError::OutOfMemory) => Err(MarkerError::OutOfMemory),
    }
}

/// The set, if it isn't empty.
fn some_ranges(set: RangeSet) -> Result<RangeSet, MarkerError>
    ensures same { IfOk result (λ same. (same.ranges ≡ set.ranges) × (0 < length set.ranges)) }
    ensures none { result ≡ Err MarkerError.NotAMarker → length set.ranges ≡ 0 }
    ensures memory { result ≢ Err MarkerError.OutOfMemory }
{
    if set.count() == 0 {
        return Err(MarkerError::NotAMarker);
    }
    Ok(set)
}
