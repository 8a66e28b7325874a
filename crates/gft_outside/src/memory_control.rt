ghost use Rattle.std.specs.Prelude.{◌≡◌, ◌<◌, length, flat_map, IfOk};
ghost use Rattle.gft_base.specs.Words.{HasCause};
ghost use Rattle.gft_outside.specs.ControlInputs.{Hears, ControlEnds, heard_by, HeardFits};
ghost use Rattle.gft_outside.specs.ControlScripts.{control_inputs, control_state, new_control};
ghost use Rattle.gft_outside.specs.Lists.{FailsBy};

use crate::control::{Control, Heard};
use crate::control_item::ControlItem;
use crate::control_script::ControlScript;
use crate::failing::Failing;
use gft_base::{Failed, Faults};
use std::marker::Model;

/// A control in memory, which tells what it hears: the items of a list, and then the end. A poll gives of
/// an item's bytes as many as its buffer has room for.
#[derive(Drop)]
pub struct MemoryControl {
    script: ControlScript,
    failing: Failing,
    is_over: bool,
    faults: Faults,
}

impl Model for MemoryControl {
    ghost use Rattle.std.specs.Prelude.{◌≡◌, true, [], drop};
    ghost use Rattle.gft_outside.specs.ControlScripts.{ControlList};

    ghost Value = { ControlList };

    ghost view = { λ c. record {
      script = c.script;
      failing = c.failing;
      is_over = c.is_over;
      faults = c.faults;
    } };

    ghost invariant = { λ c. c.is_over ≡ true → drop c.script.place c.script.all ≡ [] };
}

impl MemoryControl {
    /// A control that hears these items; one without a byte tells nothing. The polls whose number, counted
    /// from 1, is in `failing` fail, and hear nothing.
    pub fn new(items: Vec<ControlItem>, failing: Vec<u32>) -> Self
        ensures { result ≡ new_control (flat_map control_inputs items.items) failing.items }
    {
        MemoryControl {
            script: ControlScript::new(items),
            failing: Failing::new(failing),
            is_over: false,
            faults: Faults::new(),
        }
    }
}

impl Control for MemoryControl {
    ghost state = { control_state };

    fn poll(&mut self, buf: &mut [u8]) -> Result<Heard, Failed>
        requires { 0 < length buf.old }
        ensures fits { IfOk result (λ heard. HeardFits heard (length buf.new)) }
        ensures hears { Hears (heard_by result buf.new) (control_state self.old) (control_state self.new) }
        ensures ends { ControlEnds result (control_state self.old) (control_state self.new) }
        ensures cause { HasCause self.old.faults self.new.faults result }
        ensures fails { FailsBy self.old.failing self.new.failing result }
    {
        if self.failing.begin() {
            return Err(self.faults.rise());
        }
        match self.script.give(buf) {
            Some(heard) => Ok(heard),
            None => {
                self.is_over = true;
                Ok(Heard::Ended)
            }
        }
    }
}
