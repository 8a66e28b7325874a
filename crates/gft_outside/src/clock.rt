ghost use Rattle.std.specs.Prelude.{ℕ, List, Option};
ghost use Rattle.gft_outside.specs.Clocks.{Ticks};

/// Tells the time. It may answer any number, and doesn't fail.
pub trait Clock: Sized + Send {
    /// The readings to come, if the clock tells them.
    ghost left: { Self → Option (List ℕ) };

    /// The time in tenths of a second since some moment. Behind the last of the readings that are told it
    /// is 0.
    fn tenths(&mut self) -> u64
        ensures { Ticks (left self.old) (left self.new) result };
}
