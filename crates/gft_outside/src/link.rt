ghost use Rattle.std.specs.Prelude.{◌≡◌, ◌≤◌, vec_len, All, IfErr, IfOk};
ghost use Rattle.gft_outside.specs.Links.{Dialled, HandsOut, IsNewLane, IsNewOutLane, LinkState, NotDialled};
ghost use Rattle.gft_outside.specs.Links.{NotHandedOut, TakesBack, TakesBackOut};

use crate::lane::Lane;
use crate::out_lane::OutLane;
use gft_base::Failed;
use gft_text::HostPort;
use std::alloc::Global;
use thiserror::Error;

/// A lane that waits for data connections, and the address at which it does.
#[derive(Drop)]
pub struct Listening<L> {
    pub at: HostPort,
    pub lane: L,
}

/// A data connection that is opened to an address.
#[derive(Drop)]
pub struct Dial<X> {
    pub at: HostPort,
    pub out: X,
}

/// Why a link hands out no lanes.
#[derive(Clone, Copy, Debug, PartialEq, Eq, Error)]
pub enum LinkError {
    /// The call failed, and the count of faults rose.
    #[error("the link failed")]
    Failed,
    /// Memory was refused.
    #[error("out of memory")]
    OutOfMemory,
}

/// Hands out the lanes and out lanes of one peer's transfers, and takes them back. What is handed out is
/// counted, and so are the faults: of the link's own calls, and of what was given back.
pub trait Link: Sized + Send {
    type In: Lane + Drop;

    type Out: OutLane + Drop;

    /// What is to come and what was given back, if the link tells it, how many are handed out, and the count
    /// of faults.
    ghost state: { Self → LinkState Self.In Self.Out };

    /// Listens at so many addresses, and hands out a lane for each, on which no channel was opened yet. If
    /// it refuses, it hands out none.
    fn listen(&mut self, alloc: Global, stripes: u16) -> Result<Vec<Listening<Self::In>>, LinkError>
        requires { 1 ≤ stripes }
        ensures out { IfOk result (λ lanes. HandsOut (state self.old) (state self.new) lanes.items) }
        ensures count { IfOk result (λ lanes. vec_len lanes ≡ stripes) }
        ensures new { IfOk result (λ lanes. All (λ listening. IsNewLane (Self.In.state listening.lane))
            lanes.items) }
        ensures refused { IfErr result (NotHandedOut (state self.old) (state self.new)) };

    /// Opens a data connection to the address, and hands it out. If it fails, it hands out none.
    fn dial(&mut self, at: &HostPort) -> Result<Self::Out, Failed>
        ensures out { IfOk result (λ out. Dialled (state self.old) (state self.new) (record {
          at = at.now;
          out = out;
        })) }
        ensures new { IfOk result (λ out. IsNewOutLane (Self.Out.state out)) }
        ensures refused { IfErr result (λ _. NotDialled (state self.old) (state self.new)) };

    /// Takes a lane back. The count of faults rises by the lane's own, and by no other.
    fn back_in(&mut self, lane: Self::In)
        requires { 1 ≤ (state self.old).handed_out }
        ensures { TakesBack (state self.old) (state self.new) lane (Self.In.state lane).faults };

    /// Takes an out lane back. The count of faults rises by the out lane's own, and by no other.
    fn back_out(&mut self, out: Self::Out)
        requires { 1 ≤ (state self.old).handed_out }
        ensures { TakesBackOut (state self.old) (state self.new) out (Self.Out.state out).faults };
}
