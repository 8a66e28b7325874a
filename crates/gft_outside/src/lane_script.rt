ghost use Rattle.std.specs.Prelude.{◌≡◌, ◌+◌, ◌<◌, ◌≤◌, length, take, drop, reverse, Ok, [], flat_map};
ghost use Rattle.std.specs.Prelude.{MatchOption, IfSome, filter};
ghost use Rattle.gft_base.specs.declared.errors.Failed.{Failed};
ghost use Rattle.gft_outside.specs.LaneStates.{given_by, EventFits, IsNotDone};
ghost use Rattle.gft_outside.specs.LaneScripts.{lane_inputs};
ghost use Rattle.gft_outside.specs.Lists.{Moves, tells};

use crate::lane::LaneEvent;
use crate::lane_item::LaneItem;
use std::marker::Model;

/// A list of items, and how much of it was given.
#[derive(Drop)]
pub(crate) struct LaneScript {
    items: Vec<LaneItem>,
    at: usize,
    used: usize,
}

impl Model for LaneScript {
    ghost use Rattle.std.specs.Prelude.{flat_map, drop};
    ghost use Rattle.gft_outside.specs.LaneInputs.{LaneInput};
    ghost use Rattle.gft_outside.specs.Lists.{Script, StandsIn, AllTell, place_in};

    ghost Value = { Script LaneInput };

    ghost use Rattle.gft_outside.specs.LaneScripts.{lane_inputs};

    ghost view = { λ s. record {
      all = flat_map lane_inputs s.items.items;
      place = place_in lane_inputs s.items.items s.at s.used;
    } };

    ghost invariant = { λ s.
        AllTell lane_inputs s.items.items × StandsIn lane_inputs s.used (drop s.at s.items.items) };
}

impl LaneScript {
    /// Nothing of these items was given yet. Those without a byte tell nothing.
    pub(crate) fn new(items: Vec<LaneItem>) -> Self
        ensures { result ≡ record { all = flat_map lane_inputs items.items; place = 0 } }
    {
        LaneScript {
            items: telling(items),
            at: 0,
            used: 0,
        }
    }

    /// Gives what comes next, or nothing at the end.
    pub(crate) fn give(&mut self, buf: &mut [u8]) -> Option<LaneEvent>
        requires { 0 < length buf.old }
        ensures fits { IfSome result (λ event. EventFits event (length buf.new) × IsNotDone event) }
        ensures moves { MatchOption result
            ((drop self.old.place self.old.all ≡ []) × (self.new ≡ self.old))
            (λ event. Moves self.old self.new (given_by {E = Failed} (Ok event) buf.new)) }
    {
        let Some(item) = self.items.get(self.at) else {
            return None;
        };
        let left = item.len() - self.used;
        let (event, count) = item.give(self.used, buf);
        if count < left {
            self.used += count;
            return Some(event);
        }
        self.used = 0;
        self.at += 1;
        Some(event)
    }
}

// The items that tell something.
fn telling(mut items: Vec<LaneItem>) -> Vec<LaneItem>
    ensures { result.items ≡ filter (tells lane_inputs) items.items }
{
    items.retain(|item| item.len() > 0);
    items
}
