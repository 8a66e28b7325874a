ghost use Rattle.std.specs.Prelude.{◌≡◌, IfOk, MatchOption};
ghost use Rattle.gft_mark.specs.Markers.{IsPerfMarker, perf_lines};
ghost use Rattle.gft_mark.specs.declared.perf.Perf.{Perf};
ghost use Rattle.gft_reply.specs.Words.{FitsReply};

use crate::PERF_CODE;
use crate::field::{line_at, stated_number, stated_short, stated_tenths};
use gft_base::{OutOfMemory, strip_front};
use gft_reply::{Reply, ReplyLines};
use std::alloc::Global;

/// How far one stripe of a transfer has come.
#[derive(Clone, Copy, Debug, PartialEq, Eq)]
pub struct Perf {
    /// When this was so, in tenths of a second.
    pub tenths: u64,
    /// The stripe's number, from 0 on.
    pub stripe: u16,
    /// How many bytes the stripe has transferred.
    pub bytes: u64,
    /// How many stripes the transfer has.
    pub stripes: u16,
}

/// The performance marker of these values (GFD.20): a reply of code 112 and six lines. It fits.
/// `OutOfMemory` if it can't be allocated.
pub fn perf_marker(alloc: Global, perf: &Perf) -> Result<Reply, OutOfMemory>
    ensures code { IfOk result (λ reply. reply.code ≡ PERF_CODE) }
    ensures lines { IfOk result (λ reply. reply.lines ≡ perf_lines perf.now) }
    ensures read_again { IfOk result (λ reply. IsPerfMarker reply perf.now) }
    ensures fits { IfOk result FitsReply }
{
    let Perf {
        tenths,
        stripe,
        bytes,
        stripes,
    } = *perf;
    let (seconds, tenth) = (tenths / 10, tenths % 10);
    let timestamp = format!(in alloc; "Timestamp: {seconds}.{tenth}")?;
    let index = format!(in alloc; "Stripe Index: {stripe}")?;
    let transferred = format!(in alloc; "Stripe Bytes Transferred: {bytes}")?;
    let count = format!(in alloc; "Total Stripe Count: {stripes}")?;
    let mut lines = ReplyLines::new(alloc);
    lines.push(b"Perf Marker")?;
    lines.push(timestamp.as_bytes())?;
    lines.push(index.as_bytes())?;
    lines.push(transferred.as_bytes())?;
    lines.push(count.as_bytes())?;
    lines.push(b"End")?;
    Ok(Reply {
        code: PERF_CODE,
        lines,
    })
}

/// The values of a performance marker.
pub(crate) fn read_perf(reply: &Reply) -> Option<Perf>
    ensures { MatchOption result ((perf : Perf) → ¬ IsPerfMarker reply.now perf)
        (IsPerfMarker reply.now) }
{
    let lines = &reply.lines;
    if reply.code != PERF_CODE || lines.count() != 6 {
        return None;
    }
    if line_at(lines, 0) != b"Perf Marker".as_slice() {
        return None;
    }
    strip_front(line_at(lines, 5), b"End")?;
    Some(Perf {
        tenths: stated_tenths(line_at(lines, 1), b"Timestamp:")?,
        stripe: stated_short(line_at(lines, 2), b"Stripe Index:")?,
        bytes: stated_number(line_at(lines, 3), b"Stripe Bytes Transferred:")?,
        stripes: stated_short(line_at(lines, 4), b"Total Stripe Count:")?,
    })
}
