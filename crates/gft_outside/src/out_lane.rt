ghost use Rattle.std.specs.Prelude.{◌≡◌, true, false};
ghost use Rattle.gft_base.specs.Words.{HasCause};
ghost use Rattle.gft_outside.specs.OutLanes.{OutLaneState, PutsOut};

use gft_base::Failed;

/// A data connection on which a sender's bytes go. After a put that failed, and after `close`, nothing
/// more may be put.
pub trait OutLane: Sized + Send {
    /// What was put, if the out lane tells it, whether more may be, and the count of faults.
    ghost state: { Self → OutLaneState };

    /// Puts all bytes; if it fails, a part of them from the front.
    fn put(&mut self, bytes: &[u8]) -> Result<(), Failed>
        requires open { (state self.old).is_open ≡ true }
        ensures puts { PutsOut result bytes.now (state self.old) (state self.new) }
        ensures cause { HasCause (state self.old).faults (state self.new).faults result };

    /// Ends what is put: the peer gets no byte behind it. To close again changes nothing.
    fn close(&mut self)
        ensures closed { state self.new ≡ record (state self.old) { is_open = false } };
}
