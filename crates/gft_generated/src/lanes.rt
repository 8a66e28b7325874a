ghost use Rattle.std.specs.Prelude.{◌≡◌, ◌<◌, ℕ, All, IfOk, Some, slice_get, vec_len};
ghost use Rattle.gft_outside.specs.Words.{no_channels};
ghost use Rattle.gft_send.specs.Words.{ending_of};
ghost use Rattle.gft_generated.specs.Carried.{CarriesFile, IsCarried, lost_behind};
ghost use Rattle.gft_generated.specs.Lanes.{OnLane, generated_lane_state};
ghost use Rattle.gft_generated.specs.Streams.{ending, generated_stream};

use crate::lane::{Connection, GeneratedLane};
use crate::stream::Stream;
use crate::{CHANNELS, STRIPES};
use gft_base::OutOfMemory;
use gft_layout::{Layout, Shape, plan};
use gft_range::{Range, RangeSet};
use std::alloc::Global;

/// How many bytes of the file go to a stripe in turn.
const BLOCK: u64 = 1_048_576;

/// The generated file.
#[derive(Clone, Copy, Debug)]
pub struct Generated {
    pub seed: u64,
    /// Its bytes.
    pub size: u64,
}

/// The data connection that is lost, and where.
#[derive(Clone, Copy, Debug)]
pub struct Cut {
    pub stripe: u16,
    pub channel: u16,
    /// It is lost behind so many bytes, or one byte before its end, whichever is less.
    pub most: u64,
}

/// One lane a stripe, on which the file comes but for what is done. On none of them a data connection was
/// opened. `OutOfMemory` where memory was refused.
pub fn generated_lanes(
    alloc: Global,
    file: Generated,
    done: &RangeSet,
    cut: Option<Cut>,
) -> Result<Vec<GeneratedLane>, OutOfMemory>
    ensures stripes { IfOk result (λ lanes. vec_len lanes ≡ STRIPES) }
    ensures unopened { IfOk result (λ lanes. All (λ lane.
        (generated_lane_state lane).channels ≡ no_channels) lanes.items) }
    ensures carries { IfOk result (λ lanes. (stripe : ℕ) (lane : OnLane)
        → slice_get lanes.items stripe ≡ Some lane → CarriesFile file done.now.ranges cut stripe lane) }
{
    let mut lanes = Vec::with_capacity(alloc, usize::from(STRIPES))?;
    for stripe in 0..STRIPES {
        lanes.push(generated_lane(alloc, file, done, stripe, cut)?)?;
    }
    Ok(lanes)
}

/// The lane of a stripe.
fn generated_lane(
    alloc: Global,
    file: Generated,
    done: &RangeSet,
    stripe: u16,
    cut: Option<Cut>,
) -> Result<GeneratedLane, OutOfMemory>
    requires { stripe < STRIPES }
    ensures { IfOk result (CarriesFile file done.now.ranges cut stripe) }
{
    let mut streams = Vec::with_capacity(alloc, usize::from(CHANNELS))?;
    for number in 0..CHANNELS {
        let channel = CHANNELS - 1 - number;
        streams.push(carried_stream(alloc, file, done, stripe, channel, cut)?)?;
    }
    let room = Vec::with_capacity(alloc, usize::from(CHANNELS))?;
    Ok(GeneratedLane::new(streams, room))
}

/// What a data connection carries, up to where it is lost.
fn carried_stream(
    alloc: Global,
    file: Generated,
    done: &RangeSet,
    stripe: u16,
    channel: u16,
    cut: Option<Cut>,
) -> Result<Stream, OutOfMemory>
    requires stripe { stripe < STRIPES }
    requires channel { channel < CHANNELS }
    ensures { IfOk result (IsCarried file done.now.ranges cut stripe channel) }
{
    let mut stream = generated_stream(alloc, file, done, stripe, channel)?;
    match lost_behind(cut, stripe, channel) {
        Some(most) => {
            stream.cut(most);
            Ok(stream)
        }
        None => Ok(stream),
    }
}

/// Behind how many bytes a data connection is lost at the latest, if it is.
fn lost_behind(cut: Option<Cut>, stripe: u16, channel: u16) -> Option<u64>
    ensures { result ≡ lost_behind cut stripe channel }
{
    let Some(cut) = cut else {
        return None;
    };
    if cut.stripe == stripe && cut.channel == channel {
        return Some(cut.most);
    }
    None
}

/// What a data connection carries.
fn generated_stream(
    alloc: Global,
    file: Generated,
    done: &RangeSet,
    stripe: u16,
    channel: u16,
) -> Result<Stream, OutOfMemory>
    requires stripe { stripe < STRIPES }
    requires channel { channel < CHANNELS }
    ensures { IfOk result (λ stream. stream ≡ generated_stream file done.now.ranges stripe channel) }
{
    let region = Range {
        start: 0,
        end: file.size,
    };
    let shape = Shape {
        stripes: STRIPES,
        parallel: CHANNELS,
    };
    let ranges = plan(
        region,
        done,
        Layout::Blocked { block: BLOCK },
        shape,
        stripe,
        channel,
    );
    Stream::new(alloc, file.seed, ranges, total_told(stripe, channel))
}

/// The total that a data connection tells: that of all EODs, on the first one.
fn total_told(stripe: u16, channel: u16) -> Option<u64>
    ensures { ending result ≡ ending_of (record { stripes = 4; parallel = 4 }) stripe channel }
{
    if stripe == 0 && channel == 0 {
        Some(u64::from(STRIPES) * u64::from(CHANNELS))
    } else {
        None
    }
}
