ghost use Rattle.std.specs.Prelude.{◌≡◌, ◌<◌, length, Ok, IfOk};
ghost use Rattle.gft_base.specs.Words.{HasCause};
ghost use Rattle.gft_outside.specs.ControlInputs.{Hears, ControlEnds, heard_by, HeardFits, unheard};

use crate::clock::Clock;
use crate::control::{Control, Heard};
use gft_base::Failed;
use gft_drive::Sink;

/// A control on which nobody speaks: it is quiet, and never fails.
#[derive(Drop)]
pub struct NoControl;

impl Control for NoControl {
    ghost state = { λ _. unheard };

    fn poll(&mut self, _buf: &mut [u8]) -> Result<Heard, Failed>
        ensures quiet { result ≡ Ok Heard.Quiet }
        ensures fits { IfOk result (λ heard. HeardFits heard (length _buf.new)) }
        ensures hears { Hears (heard_by result _buf.new) unheard unheard }
        ensures ends { ControlEnds result unheard unheard }
        ensures cause { HasCause unheard.faults unheard.faults result }
    {
        Ok(Heard::Quiet)
    }
}

/// A sink that takes all bytes, keeps and tells none of them, and never fails.
#[derive(Drop)]
pub struct NoSink;

impl Sink for NoSink {
    ghost use Rattle.std.specs.Prelude.{None};

    ghost written = { λ _. None };

    ghost is_open = { λ _. Unit {0} };

    ghost faults = { λ _. 0 };

    fn put(&mut self, _bytes: &[u8]) -> Result<(), Failed> {
        Ok(())
    }
}

/// A clock that stands at 0.
#[derive(Drop)]
pub struct NoClock;

impl Clock for NoClock {
    ghost use Rattle.std.specs.Prelude.{Some, []};

    ghost left = { λ _. Some [] };

    fn tenths(&mut self) -> u64 {
        0
    }
}
