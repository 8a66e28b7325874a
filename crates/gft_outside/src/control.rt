ghost use Rattle.std.specs.Prelude.{◌<◌, length, IfOk};
ghost use Rattle.gft_base.specs.Words.{HasCause};
ghost use Rattle.gft_outside.specs.ControlInputs.{ControlState, Hears, ControlEnds, heard_by, HeardFits};

use gft_base::Failed;

/// What one poll heard.
#[derive(Clone, Copy, Debug, PartialEq, Eq)]
pub enum Heard {
    /// So many bytes, at the front of the buffer.
    Bytes(usize),
    /// Nothing for a while.
    Quiet,
    /// The peer has ended, and says nothing more.
    Ended,
}

/// What a peer says on its control connection.
pub trait Control: Sized + Send {
    /// What was heard and what is left to hear, if the control tells it, and the count of faults.
    ghost state: { Self → ControlState };

    /// Hears the next bytes, 1 to the buffer's length of them. After `Ended` it answers `Ended` again.
    /// A poll that fails hears nothing.
    fn poll(&mut self, buf: &mut [u8]) -> Result<Heard, Failed>
        requires { 0 < length buf.old }
        ensures fits { IfOk result (λ heard. HeardFits heard (length buf.new)) }
        ensures hears { Hears (heard_by result buf.new) (state self.old) (state self.new) }
        ensures ends { ControlEnds result (state self.old) (state self.new) }
        ensures cause { HasCause (state self.old).faults (state self.new).faults result };
}
