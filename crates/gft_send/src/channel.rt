ghost use Rattle.std.specs.Prelude.{◌≡◌, ◌++◌, ◌<◌, true, IfOk, OnOk, length};
ghost use Rattle.gft_base.specs.Words.{HasCause};
ghost use Rattle.gft_range.specs.Words.{HasOffset, InRange};
ghost use Rattle.gft_eblock.specs.Words.{spelling};
ghost use Rattle.gft_eblock.specs.declared.TheConstants.{HEADER_LEN};
ghost use Rattle.gft_layout.specs.Words.{IsOwner};
ghost use Rattle.gft_send.specs.Sending.{GoesOut, HasRest, MustHave, Sends};
ghost use Rattle.gft_send.specs.Streams.{ending_of, sent_stream};
ghost use Rattle.gft_send.specs.Stripes.{IsSendPlan, bytes_in, channel_plan};

use crate::block::send_blocks;
use crate::plan::SendPlan;
use gft_base::Failed;
use gft_drive::Drive;
use gft_eblock::{Header, encode};
use gft_layout::Shape;
use gft_outside::OutLane;
use gft_pass::Cause;
use gft_range::RangeSet;

/// The flags of the header that tells how many EODs are to be expected.
const EOF: u8 = 64;

/// The flags of a connection's last header: its data ends, and the sender closes it.
const EOD_AND_CLOSE: u8 = 12;

/// Puts a header that has no data.
fn put_header<X: OutLane>(out: &mut X, flags: u8, offset: u64) -> Result<(), Failed>
    requires is_open { (X.state out.old).is_open ≡ true }
    ensures goes { GoesOut result (spelling (record { flags = flags; count = 0; offset = offset }))
        (X.state out.old) (X.state out.new) }
    ensures is_open { OnOk result ((X.state out.new).is_open ≡ true) }
    ensures cause { HasCause (X.state out.old).faults (X.state out.new).faults result }
{
    out.put(&encode(&Header {
        flags,
        count: 0,
        offset,
    }))
}

/// Puts what stands behind a connection's blocks: its EOD, and on the first one before that the EOF of the
/// transfer.
fn send_ending<X: OutLane>(
    out: &mut X,
    shape: Shape,
    stripe: u16,
    channel: u16,
) -> Result<(), Failed>
    requires is_open { (X.state out.old).is_open ≡ true }
    ensures goes { GoesOut result (ending_of shape stripe channel) (X.state out.old) (X.state out.new) }
    ensures is_open { OnOk result ((X.state out.new).is_open ≡ true) }
    ensures cause { HasCause (X.state out.old).faults (X.state out.new).faults result }
{
    if stripe > 0 || channel > 0 {
        return put_header(out, EOD_AND_CLOSE, 0);
    }
    let total = u64::from(shape.stripes) * u64::from(shape.parallel);
    match put_header(out, EOF, total) {
        Ok(()) => put_header(out, EOD_AND_CLOSE, 0),
        Err(Failed) => Err(Failed),
    }
}

/// Puts on one data connection of a stripe what it carries, and tells how many bytes of data that has.
pub(crate) fn send_channel<D: Drive, X: OutLane>(
    drive: &mut D,
    out: &mut X,
    buf: &mut [u8],
    stripe: u16,
    channel: u16,
    plan: SendPlan,
    done: &RangeSet,
) -> Result<u64, Cause>
    requires room { HEADER_LEN < length buf.old }
    requires plan { IsSendPlan plan }
    requires owner { IsOwner plan.shape (record { stripe = stripe; channel = channel }) }
    requires there { MustHave (D.state drive.old).contents (InRange plan.region) }
    requires is_open { (X.state out.old).is_open ≡ true }
    ensures count { IfOk result (λ n. n ≡ bytes_in (channel_plan plan done.now.ranges stripe channel)) }
    ensures sends { Sends (HasOffset (channel_plan plan done.now.ranges stripe channel))
        (HasRest (channel_plan plan done.now.ranges stripe channel))
        (λ file. sent_stream file plan done.now.ranges stripe channel) result
        (D.state drive.old) (D.state drive.new) (X.state out.old) (X.state out.new) }
{
    let ranges = gft_layout::plan(plan.region, done, plan.layout, plan.shape, stripe, channel);
    let sent = match send_blocks(drive, out, buf, ranges) {
        Ok(sent) => sent,
        Err(cause) => return Err(cause),
    };
    match send_ending(out, plan.shape, stripe, channel) {
        Ok(()) => Ok(sent),
        Err(Failed) => Err(Cause::LinkFailed),
    }
}
