ghost use Rattle.std.specs.Prelude.{◌<◌, length, IfOk};
ghost use Rattle.gft_base.specs.Words.{HasCause};
ghost use Rattle.gft_outside.specs.LaneStates.{LaneState, Gives, LaneEnds, given_by, EventFits};

use gft_base::Failed;

/// What came on a lane.
#[derive(Clone, Copy, Debug, PartialEq, Eq)]
pub enum LaneEvent {
    /// A data connection was opened. Its channel's number is how many were opened before.
    Opened(u32),
    /// So many bytes came on a live channel. They stand at the front of the buffer.
    Bytes { channel: u32, count: usize },
    /// A live channel ended: nothing more comes on it.
    Ended(u32),
    /// Nothing came for a while.
    Quiet,
    /// Nothing more comes on any channel.
    Done,
}

/// One stripe's listener, with the data connections that were opened to it. A channel is live from its
/// `Opened` to its `Ended`.
pub trait Lane: Sized + Send {
    /// What came and what is left to come, if the lane tells it, its channels, and the count of faults.
    ghost state: { Self → LaneState };

    /// Takes what comes next; of a channel's bytes 1 to the buffer's length. After `Done` it answers
    /// `Done` again. A call that fails takes nothing.
    fn next(&mut self, buf: &mut [u8]) -> Result<LaneEvent, Failed>
        requires { 0 < length buf.old }
        ensures fits { IfOk result (λ event. EventFits event (length buf.new)) }
        ensures gives { Gives (given_by result buf.new) (state self.old) (state self.new) }
        ensures ends { LaneEnds result (state self.old) (state self.new) }
        ensures cause { HasCause (state self.old).faults (state self.new).faults result };
}
