ghost use Rattle.std.specs.Prelude.{ℕ, List, Option, MatchResult, OnOk};
ghost use Rattle.std.specs.Io.KnownBytes.{Appends};
ghost use Rattle.gft_base.specs.Words.{HasCause};
ghost use Rattle.gft_drive.specs.Sink.{AppendsPart};

use gft_base::Failed;

/// Takes bytes in order. After a put that failed nothing more may be put.
pub trait Sink {
    /// The bytes that were put, if the sink tells them.
    ghost written: { Self → Option (List ℕ) };

    /// No put has failed.
    ghost is_open: { Self → Type 0 };

    /// How often a put failed.
    ghost faults: { Self → ℕ };

    /// Puts all bytes; if it fails, a part of them from the front.
    fn put(&mut self, bytes: &[u8]) -> Result<(), Failed>
        requires open { is_open self.old }
        ensures put { MatchResult result
            (λ _. Appends (written self.old) (written self.new) bytes.now)
            (λ _. AppendsPart (written self.old) (written self.new) bytes.now) }
        ensures open { OnOk result (is_open self.new) }
        ensures cause { HasCause (faults self.old) (faults self.new) result };
}
