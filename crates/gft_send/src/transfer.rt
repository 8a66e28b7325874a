ghost use Rattle.std.specs.Prelude.{◌≡◌, ◌^◌, ◌<◌, ℕ, All, IfOk, length, slice_index_or, sum_by};
ghost use Rattle.gft_drive.specs.Words.{sum_below};
ghost use Rattle.gft_send.specs.Stripes.{IsSendPlan, stripe_bytes};
ghost use Rattle.gft_send.specs.Transfers.{CarriesFile, IsReadyStripe, SendsStripe, all_sent, bytes_told};

use crate::lane::send_lane;
use crate::plan::SendPlan;
use gft_drive::Drive;
use gft_outside::OutLane;
use gft_pass::Cause;
use gft_range::RangeSet;
use std::alloc::Global;
use std::sync::Wait;
use std::thread;
use std::thread::Threads;

/// The most stripes that send side by side: as many as a transfer has.
const MAX_STRIPES: usize = 16;

/// One stripe of a transfer.
#[derive(Drop)]
pub struct Stripe<D: Drop, X: Drop> {
    /// What it reads.
    pub drive: D,
    /// Its data connections, in their order.
    pub channels: Vec<X>,
    /// How many bytes of data it sent, or why it ended.
    pub sent: Result<u64, Cause>,
}

// Sends one stripe, and keeps how that ended.
fn send_stripe<D: Drive + Drop, X: OutLane + Drop>(
    alloc: Global,
    stripe: &mut Stripe<D, X>,
    number: usize,
    plan: &SendPlan,
    done: &RangeSet,
)
    requires plan { IsSendPlan plan.now }
    requires number { number < plan.now.shape.stripes }
    requires ready { IsReadyStripe D.state X.state plan.now stripe.old }
    ensures { SendsStripe D.state X.state plan.now done.now.ranges number stripe.old stripe.new }
{
    let channels = stripe.channels.as_mut_slice();
    let sent = send_lane(
        alloc,
        &mut stripe.drive,
        channels,
        number as u16,
        plan,
        done,
    );
    stripe.sent = sent;
}

// The sum of what the stripes sent, or the first one's cause.
fn total_sent<D: Drive + Drop, X: OutLane + Drop>(stripes: &[Stripe<D, X>]) -> Result<u64, Cause>
    requires fits { sum_by (λ s. bytes_told s.sent) stripes.now < 2 ^ 64 }
    ensures { result ≡ all_sent stripes.now }
{
    let mut total = 0;
    for stripe in stripes {
        match stripe.sent {
            Ok(count) => total += count,
            Err(cause) => return Err(cause),
        }
    }
    Ok(total)
}

// Sends each stripe, in a thread of its own where one can be made.
fn send_stripes<D: Drive + Drop, X: OutLane + Drop, R: Threads + Wait + Sync>(
    rt: &R,
    alloc: Global,
    stripes: &mut [Stripe<D, X>],
    plan: SendPlan,
    done: &RangeSet,
)
    requires plan { IsSendPlan plan }
    requires stripes { length stripes.old ≡ plan.shape.stripes }
    requires ready { All (IsReadyStripe D.state X.state plan) stripes.old }
    ensures sent { (i : ℕ) (d : _) → i < length stripes.old → SendsStripe D.state X.state plan
        done.now.ranges i (slice_index_or stripes.old i d) (slice_index_or stripes.new i d) }
    ensures fits { sum_below (stripe_bytes plan done.now.ranges) plan.shape.stripes < 2 ^ 64 }
{
    thread::for_each_mut(
        rt,
        stripes,
        MAX_STRIPES,
        &|number, stripe: &mut Stripe<D, X>|
            requires { IsSendPlan plan × (number < plan.shape.stripes)
                × IsReadyStripe D.state X.state plan stripe.old }
            ensures { SendsStripe D.state X.state plan done.entry.now.ranges number stripe.old stripe.new }
        { send_stripe(alloc, stripe, number, &plan, done) },
    );
}

/// Sends the region, each stripe in a thread of its own where one can be made: `send_lane` on each, whose
/// answer the stripe keeps in `sent`. The answer is how many bytes of data all have sent, or the first cause
/// in the order of the stripes. Nothing is locked, since each stripe has a drive of its own; where they are
/// drives of one file, the streams are of that file. The data connections stay open.
pub fn send<D: Drive + Drop, X: OutLane + Drop, R: Threads + Wait + Sync>(
    rt: &R,
    alloc: Global,
    stripes: &mut [Stripe<D, X>],
    plan: &SendPlan,
    done: &RangeSet,
) -> Result<u64, Cause>
    requires plan { IsSendPlan plan.now }
    requires stripes { length stripes.old ≡ plan.now.shape.stripes }
    requires ready { All (IsReadyStripe D.state X.state plan.now) stripes.old }
    ensures stripes { (i : ℕ) (d : _) → i < length stripes.old → SendsStripe D.state X.state plan.now
        done.now.ranges i (slice_index_or stripes.old i d) (slice_index_or stripes.new i d) }
    ensures one_file { CarriesFile D.state X.state plan.now done.now.ranges stripes.old stripes.new }
    ensures answer { result ≡ all_sent stripes.new }
    ensures count { IfOk result (λ n. n ≡ sum_below (stripe_bytes plan.now done.now.ranges)
        plan.now.shape.stripes) }
{
    send_stripes(rt, alloc, stripes, *plan, done);
    total_sent(stripes)
}
