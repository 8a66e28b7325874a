ghost use Rattle.std.specs.Prelude.{◌≡◌, ◌<◌, ◌==◌, true, length, flat_map, IfOk};
ghost use Rattle.gft_base.specs.Words.{HasCause};
ghost use Rattle.gft_outside.specs.LaneInputs.{no_channels};
ghost use Rattle.gft_outside.specs.LaneStates.{Gives, LaneEnds, given_by, EventFits};
ghost use Rattle.gft_outside.specs.LaneScripts.{front_in_turn, lane_inputs, lane_state, new_lane};
ghost use Rattle.gft_outside.specs.Links.{IsNewLane};
ghost use Rattle.gft_outside.specs.Lists.{FailsBy};

use crate::failing::Failing;
use crate::lane::{Lane, LaneEvent};
use crate::lane_item::LaneItem;
use crate::lane_script::LaneScript;
use crate::turns::count_in_turn;
use gft_base::{Failed, Faults};
use std::marker::Model;

/// A lane in memory, which tells what comes: the items of a list, and then `Done`. A call gives of an item's
/// bytes as many as its buffer has room for.
#[derive(Drop)]
pub struct MemoryLane {
    script: LaneScript,
    failing: Failing,
    is_done: bool,
    faults: Faults,
}

impl Model for MemoryLane {
    ghost use Rattle.gft_outside.specs.LaneInputs.{AreInTurn, no_channels};
    ghost use Rattle.gft_outside.specs.LaneScripts.{LaneList};
    ghost use Rattle.std.specs.Prelude.{◌≡◌, true, false, [], drop, reverse};

    ghost Value = { LaneList };

    ghost view = { λ l. record {
      script = l.script;
      failing = l.failing;
      is_done = l.is_done;
      faults = l.faults;
    } };

    ghost invariant = { λ l.
        AreInTurn (reverse l.script.all) no_channels
        × (l.is_done ≡ true → drop l.script.place l.script.all ≡ [])
        × (l.failing.calls ≡ 0 → (l.script.place ≡ 0) × (l.is_done ≡ false) × (l.faults ≡ 0)) };
}

impl MemoryLane {
    /// A lane on which these items come, up to the first that is out of turn: a channel is opened under the
    /// next number, and bytes come for a live channel, as does its end. An item without a byte tells nothing.
    /// The calls whose number, counted from 1, is in `failing` fail, and take nothing.
    pub fn new(mut items: Vec<LaneItem>, failing: Vec<u32>) -> Self
        ensures { result
            ≡ new_lane (flat_map lane_inputs (front_in_turn no_channels items.items)) failing.items }
    {
        let count = count_in_turn(&items);
        items.truncate(count);
        MemoryLane {
            script: LaneScript::new(items),
            failing: Failing::new(failing),
            is_done: false,
            faults: Faults::new(),
        }
    }

    /// Whether no call was made yet.
    pub(crate) fn is_unused(&self) -> bool
        ensures unused { result ≡ (self.now.failing.calls == 0) }
        ensures new { result ≡ true → IsNewLane (lane_state self.now) }
    {
        self.failing.calls() == 0
    }

    /// How often a call failed.
    pub(crate) fn faults(&self) -> u64
        ensures { result ≡ self.now.faults }
    {
        self.faults.count()
    }
}

impl Lane for MemoryLane {
    ghost state = { lane_state };

    fn next(&mut self, buf: &mut [u8]) -> Result<LaneEvent, Failed>
        requires { 0 < length buf.old }
        ensures fits { IfOk result (λ event. EventFits event (length buf.new)) }
        ensures gives { Gives (given_by result buf.new) (lane_state self.old) (lane_state self.new) }
        ensures ends { LaneEnds result (lane_state self.old) (lane_state self.new) }
        ensures cause { HasCause self.old.faults self.new.faults result }
        ensures fails { FailsBy self.old.failing self.new.failing result }
    {
        if self.failing.begin() {
            return Err(self.faults.rise());
        }
        match self.script.give(buf) {
            Some(event) => Ok(event),
            None => {
                self.is_done = true;
                Ok(LaneEvent::Done)
            }
        }
    }
}
