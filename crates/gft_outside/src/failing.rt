ghost use Rattle.std.specs.Prelude.{◌≡◌};
ghost use Rattle.gft_base.specs.Words.{one_more};
ghost use Rattle.gft_outside.specs.Lists.{fails_next};

use std::marker::Model;

/// The calls that are to fail, by their numbers, counted from 1, and how many calls there were.
#[derive(Drop)]
pub(crate) struct Failing {
    numbers: Vec<u32>,
    calls: u64,
}

impl Model for Failing {
    ghost use Rattle.gft_outside.specs.Lists.{Failures};

    ghost Value = { Failures };

    ghost view = { λ f. record { numbers = f.numbers.items; calls = f.calls } };
}

impl Failing {
    /// No call was made yet.
    pub(crate) fn new(numbers: Vec<u32>) -> Self
        ensures { result ≡ record { numbers = numbers.items; calls = 0 } }
    {
        Failing { numbers, calls: 0 }
    }

    /// How many calls there were.
    pub(crate) fn calls(&self) -> u64
        ensures { result ≡ self.now.calls }
    {
        self.calls
    }

    /// Counts a call, and says whether it fails.
    pub(crate) fn begin(&mut self) -> bool
        ensures fails { result ≡ fails_next self.old }
        ensures counted { self.new ≡ record self.old { calls = one_more self.old.calls } }
    {
        self.calls = self.calls.saturating_add(1);
        let number = self.calls;
        self.numbers
            .iter()
            .any(|&failing| u64::from(failing) == number)
    }
}
