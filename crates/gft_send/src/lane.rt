ghost use Rattle.std.specs.Prelude.{◌≡◌, ◌<◌, true, All, length};
ghost use Rattle.gft_range.specs.Words.{InRange};
ghost use Rattle.gft_eblock.specs.declared.TheConstants.{HEADER_LEN};
ghost use Rattle.gft_send.specs.Sending.{MustHave};
ghost use Rattle.gft_send.specs.Stripes.{IsSendPlan, SendsLane};

use crate::channel::send_channel;
use crate::plan::SendPlan;
use gft_drive::Drive;
use gft_eblock::HEADER_LEN;
use gft_outside::OutLane;
use gft_pass::Cause;
use gft_range::RangeSet;
use std::alloc::Global;

/// How many bytes of data are read and put at once at most.
const PIECE_LEN: usize = 262_144;

/// Puts on each data connection of a stripe what it carries, one after another.
fn send_channels<D: Drive, X: OutLane>(
    drive: &mut D,
    channels: &mut [X],
    buf: &mut [u8],
    stripe: u16,
    plan: SendPlan,
    done: &RangeSet,
) -> Result<u64, Cause>
    requires room { HEADER_LEN < length buf.old }
    requires plan { IsSendPlan plan }
    requires stripe { stripe < plan.shape.stripes }
    requires channels { length channels.old ≡ plan.shape.parallel }
    requires is_open { All (λ out. (X.state out).is_open ≡ true) channels.old }
    requires there { MustHave (D.state drive.old).contents (InRange plan.region) }
    ensures { SendsLane X.state plan done.now.ranges stripe result (D.state drive.old)
        (D.state drive.new) channels.old channels.new }
{
    let mut sent = 0;
    for channel in 0..plan.shape.parallel {
        let out = &mut channels[usize::from(channel)];
        match send_channel(drive, out, buf, stripe, channel, plan, done) {
            Ok(count) => sent += count,
            Err(cause) => return Err(cause),
        }
    }
    Ok(sent)
}

/// Sends one stripe: each of its data connections carries the ranges of its plan (`gft_layout::plan`) as
/// blocks, and then its EOD. The first one of stripe 0 also carries the EOF of the transfer, whose total is
/// all data connections, just before its EOD (GFD.20, extended block mode).
///
/// The answer is how many bytes of data were sent. Else it is `LinkFailed` where a put failed, `DriveFailed`
/// where a read did, `Memory` where memory for one piece was refused, or `Hole`, without a total, where a
/// read gave no byte that the plan names: then `missing` is what is left of the planned range. The data
/// connections had a front of their streams by then. None is closed.
pub fn send_lane<D: Drive, X: OutLane>(
    alloc: Global,
    drive: &mut D,
    channels: &mut [X],
    stripe: u16,
    plan: &SendPlan,
    done: &RangeSet,
) -> Result<u64, Cause>
    requires plan { IsSendPlan plan.now }
    requires stripe { stripe < plan.now.shape.stripes }
    requires channels { length channels.old ≡ plan.now.shape.parallel }
    requires is_open { All (λ out. (X.state out).is_open ≡ true) channels.old }
    requires there { MustHave (D.state drive.old).contents (InRange plan.now.region) }
    ensures { SendsLane X.state plan.now done.now.ranges stripe result (D.state drive.old)
        (D.state drive.new) channels.old channels.new }
{
    let mut buf = match vec![in alloc; 0u8; HEADER_LEN + PIECE_LEN] {
        Ok(buf) => buf,
        Err(_) => return Err(Cause::Memory),
    };
    send_channels(drive, channels, buf.as_mut_slice(), stripe, *plan, done)
}
