ghost use Rattle.std.specs.Prelude.{◌≡◌, ◌+◌, ◌≤◌, IsTrue};

/// How long a lane has been silent while nothing was booked.
#[derive(Clone, Copy, Debug)]
pub(crate) struct Patience {
    idle: u32,
    quiets: u32,
    turns: u64,
}

impl Patience {
    /// Ends behind so many silences.
    pub(crate) fn new(idle: u32) -> Patience
        ensures idle { result.idle ≡ idle }
        ensures quiets { result.quiets ≡ 0 }
    {
        Patience {
            idle,
            quiets: 0,
            turns: 0,
        }
    }

    /// Something came.
    pub(crate) fn reset(&mut self)
        ensures idle { self.new.idle ≡ self.old.idle }
        ensures quiets { self.new.quiets ≡ 0 }
    {
        self.quiets = 0;
    }

    /// Nothing came, and the Book has had so many turns. Whether that is once too often.
    pub(crate) fn wait(&mut self, turns: u64) -> bool
        ensures idle { self.new.idle ≡ self.old.idle }
        ensures quiets { self.new.quiets ≤ self.old.quiets + 1 }
        ensures ends { IsTrue result → self.new.idle ≤ self.new.quiets }
    {
        if turns != self.turns {
            self.turns = turns;
            self.quiets = 0;
        }
        self.quiets = self.quiets.saturating_add(1);
        self.idle <= self.quiets
    }
}
