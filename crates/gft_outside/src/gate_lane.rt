ghost use Rattle.std.specs.Prelude.{◌≡◌, ◌<◌, length, IfOk};
ghost use Rattle.gft_base.specs.Words.{HasCause, one_more};
ghost use Rattle.gft_outside.specs.LaneStates.{Gives, LaneEnds, given_by, EventFits, ends_lane};
ghost use Rattle.gft_outside.specs.Gates.{GateAnswers, GateTurns, gate_state, new_gate};

use crate::lane::{Lane, LaneEvent};
use gft_base::Failed;
use std::alloc::Global;
use std::marker::Model;
use std::sync::Arc;
use std::sync::atomic::{AtomicBool, Ordering};

/// A lane with a gate before one of its events: until a flag is set, which others share, a call answers
/// `Quiet` in its place, but not more often than is said. Behind the gate it tells what is left of the lane.
#[derive(Drop)]
pub struct GateLane<L: Lane + Drop> {
    lane: L,
    hold: Hold,
}

impl<L: Lane + Drop> Model for GateLane<L> {
    ghost use Rattle.std.specs.Prelude.{◌≡◌, true};
    ghost use Rattle.gft_outside.specs.Gates.{Gate};

    ghost Value = { Gate L };

    ghost view = { λ g. record { lane = g.lane; counts = g.hold } };

    ghost invariant = { λ g. g.hold.is_done ≡ true → (L.state g.lane).is_done ≡ true };
}

impl<L: Lane + Drop> GateLane<L> {
    /// Holds the event of this number, counted from 1, until `flag` is set, with `most` Quiets at most. 0
    /// holds none.
    pub fn new(lane: L, held: u64, most: u64, flag: Arc<AtomicBool, Global>) -> Self
        ensures { result ≡ record { lane = lane; counts = new_gate held most } }
    {
        GateLane {
            lane,
            hold: Hold::new(held, most, flag),
        }
    }

    /// How often the gate answered `Quiet`.
    pub fn quiets(&self) -> u64
        ensures { result ≡ self.now.counts.quiets }
    {
        self.hold.quiets
    }
}

// The gate itself, which knows nothing of its lane's type.
#[derive(Drop)]
struct Hold {
    held: u64,
    most: u64,
    flag: Arc<AtomicBool, Global>,
    passed: u64,
    quiets: u64,
    is_open: bool,
    is_done: bool,
}

impl Model for Hold {
    ghost use Rattle.gft_outside.specs.Gates.{GateCounts};

    ghost Value = { GateCounts };

    ghost view = { λ h. record {
      held = h.held;
      most = h.most;
      passed = h.passed;
      quiets = h.quiets;
      is_open = h.is_open;
      is_done = h.is_done;
    } };
}

impl Hold {
    fn new(held: u64, most: u64, flag: Arc<AtomicBool, Global>) -> Self
        ensures { result ≡ new_gate held most }
    {
        Hold {
            held,
            most,
            flag,
            passed: 0,
            quiets: 0,
            is_open: held == 0,
            is_done: false,
        }
    }

    // Whether the gate holds once more; it counts that. Else it is open if its event is the next one.
    fn holds(&mut self) -> bool
        ensures { GateTurns result self.old self.new }
    {
        if self.is_open || self.is_done || self.passed.saturating_add(1) != self.held {
            return false;
        }
        if self.quiets >= self.most || self.flag.load(Ordering::SeqCst) {
            self.is_open = true;
            return false;
        }
        self.quiets += 1;
        true
    }

    // One event of the lane more has passed, perhaps its last.
    fn pass(&mut self, is_last: bool)
        ensures { self.new ≡ record self.old { passed = one_more self.old.passed; is_done = is_last } }
    {
        self.passed = self.passed.saturating_add(1);
        self.is_done = is_last;
    }
}

impl<L: Lane + Drop> Lane for GateLane<L> {
    ghost state = { gate_state L.state };

    fn next(&mut self, buf: &mut [u8]) -> Result<LaneEvent, Failed>
        requires { 0 < length buf.old }
        ensures fits { IfOk result (λ event. EventFits event (length buf.new)) }
        ensures gives { Gives (given_by result buf.new)
            (gate_state L.state self.old) (gate_state L.state self.new) }
        ensures ends { LaneEnds result (gate_state L.state self.old) (gate_state L.state self.new) }
        ensures cause { HasCause (L.state self.old.lane).faults (L.state self.new.lane).faults result }
        ensures gate { GateAnswers L.state result buf.new self.old self.new }
    {
        if self.hold.holds() {
            return Ok(LaneEvent::Quiet);
        }
        match self.lane.next(buf) {
            Ok(event) => {
                self.hold.pass(is_end(event));
                Ok(event)
            }
            Err(failed) => Err(failed),
        }
    }
}

// Whether nothing comes behind the event.
fn is_end(event: LaneEvent) -> bool
    ensures { result ≡ ends_lane event }
{
    match event {
        LaneEvent::Done => true,
        LaneEvent::Opened(_) | LaneEvent::Bytes { .. } | LaneEvent::Ended(_) | LaneEvent::Quiet =>
            false,
    }
}
