ghost use Rattle.std.specs.Prelude.{◌≡◌};

use crate::clock::Clock;
use std::marker::Model;

/// Gives the readings of its list, one after another, and then 0. Contracts see those that are left.
#[derive(Drop)]
pub struct ListClock {
    readings: Vec<u64>,
    at: usize,
}

impl Model for ListClock {
    ghost use Rattle.std.specs.Prelude.{ℕ, List, drop, length, ◌≤◌};

    ghost Value = { List ℕ };

    ghost view = { λ c. drop c.at c.readings.items };

    ghost invariant = { λ c. c.at ≤ length c.readings.items };
}

impl ListClock {
    /// A clock of these readings, in tenths of a second.
    pub fn new(readings: Vec<u64>) -> Self
        ensures { result ≡ readings.items }
    {
        ListClock { readings, at: 0 }
    }
}

impl Clock for ListClock {
    ghost use Rattle.std.specs.Prelude.{Some};

    ghost left = { λ clock. Some clock };

    fn tenths(&mut self) -> u64 {
        if self.at >= self.readings.len() {
            return 0;
        }
        let reading = self.readings[self.at];
        self.at += 1;
        reading
    }
}
