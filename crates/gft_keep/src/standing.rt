ghost use Rattle.std.specs.Prelude.{◌≡◌, ◌≢◌, ◌↔◌, IsTrue};
ghost use Rattle.gft_keep.specs.declared.standing.Standing.TheVariants.{Whole};
ghost use Rattle.gft_keep.specs.State.{once_failed};

/// How a keep stands.
#[derive(Clone, Copy, Debug, PartialEq, Eq)]
pub enum Standing {
    /// No change failed: a crash leaves what a read gives.
    Whole,
    /// `fresh` failed: a crash leaves what was kept, or nothing of it.
    Emptying,
    /// Another call failed: a crash leaves what was kept, and of one block as much as it may.
    Torn,
}

impl Standing {
    pub(crate) fn is_broken(self) -> bool
        ensures { IsTrue result ↔ (self ≢ Whole) }
    {
        match self {
            Standing::Whole => false,
            Standing::Emptying | Standing::Torn => true,
        }
    }

    pub(crate) fn once_failed(self) -> Standing
        ensures { result ≡ once_failed self }
    {
        match self {
            Standing::Whole | Standing::Torn => Standing::Torn,
            Standing::Emptying => Standing::Emptying,
        }
    }
}
