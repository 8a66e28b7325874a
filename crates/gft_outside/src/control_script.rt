ghost use Rattle.std.specs.Prelude.{◌≡◌, ◌+◌, ◌<◌, ◌≤◌, length, take, drop, reverse, Ok, [], flat_map};
ghost use Rattle.std.specs.Prelude.{MatchOption, IfSome, filter};
ghost use Rattle.gft_base.specs.declared.errors.Failed.{Failed};
ghost use Rattle.gft_outside.specs.ControlInputs.{heard_by, HeardFits, IsNotOver};
ghost use Rattle.gft_outside.specs.ControlScripts.{control_inputs};
ghost use Rattle.gft_outside.specs.Lists.{Moves, tells};

use crate::control::Heard;
use crate::control_item::ControlItem;
use std::marker::Model;

/// A list of items, and how much of it was given.
#[derive(Drop)]
pub(crate) struct ControlScript {
    items: Vec<ControlItem>,
    at: usize,
    used: usize,
}

impl Model for ControlScript {
    ghost use Rattle.std.specs.Prelude.{flat_map, drop};
    ghost use Rattle.gft_outside.specs.ControlInputs.{ControlInput};
    ghost use Rattle.gft_outside.specs.Lists.{Script, StandsIn, AllTell, place_in};

    ghost Value = { Script ControlInput };

    ghost use Rattle.gft_outside.specs.ControlScripts.{control_inputs};

    ghost view = { λ s. record {
      all = flat_map control_inputs s.items.items;
      place = place_in control_inputs s.items.items s.at s.used;
    } };

    ghost invariant = { λ s.
        AllTell control_inputs s.items.items × StandsIn control_inputs s.used (drop s.at s.items.items) };
}

impl ControlScript {
    /// Nothing of these items was given yet. Those without a byte tell nothing.
    pub(crate) fn new(items: Vec<ControlItem>) -> Self
        ensures { result ≡ record { all = flat_map control_inputs items.items; place = 0 } }
    {
        ControlScript {
            items: telling(items),
            at: 0,
            used: 0,
        }
    }

    /// Gives what comes next, or nothing at the end.
    pub(crate) fn give(&mut self, buf: &mut [u8]) -> Option<Heard>
        requires { 0 < length buf.old }
        ensures fits { IfSome result (λ heard. HeardFits heard (length buf.new) × IsNotOver heard) }
        ensures moves { MatchOption result
            ((drop self.old.place self.old.all ≡ []) × (self.new ≡ self.old))
            (λ heard. Moves self.old self.new (heard_by {E = Failed} (Ok heard) buf.new)) }
    {
        let Some(item) = self.items.get(self.at) else {
            return None;
        };
        let left = item.len() - self.used;
        let (heard, count) = item.give(self.used, buf);
        if count < left {
            self.used += count;
            return Some(heard);
        }
        self.used = 0;
        self.at += 1;
        Some(heard)
    }
}

// The items that tell something.
fn telling(mut items: Vec<ControlItem>) -> Vec<ControlItem>
    ensures { result.items ≡ filter (tells control_inputs) items.items }
{
    items.retain(|item| item.len() > 0);
    items
}
