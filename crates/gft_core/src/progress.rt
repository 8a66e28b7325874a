ghost use Rattle.std.specs.Prelude.{ℕ, ◌↔◌, List, ◌∷◌, IsTrue};
ghost use Rattle.gft_core.specs.declared.event.CoreEvent.{CoreEvent};
ghost use Rattle.gft_core.specs.declared.event.CoreEvent.TheVariants as event;
ghost use Rattle.gft_core.specs.Progress.{Tells, IsSoundProgress, HasMet};

use gft_eod::EodCount;

/// Where the last transfer stands.
#[derive(Drop)]
pub enum Progress {
    /// None has begun.
    Idle,
    /// It runs, and nothing failed it.
    Counting(EodCount),
    /// An event failed it, or its EOFs and EODs don't fit.
    Failed,
}

impl Progress {
    /// A transfer that begins.
    pub fn begin() -> Progress
        ensures fresh { (events : List CoreEvent) → Tells (event.Fresh ∷ events) result }
        ensures resume { (list : _) (events : List CoreEvent) →
            Tells (event.Resume list ∷ events) result }
    {
        Progress::Counting(EodCount::new())
    }

    /// An EOD comes.
    pub fn eod(&mut self)
        ensures { (lane : ℕ) (events : List CoreEvent) → Tells events self.old →
            Tells (event.Eod lane ∷ events) self.new }
    {
        let Progress::Counting(count) = self else {
            return;
        };
        if count.eod().is_err() {
            *self = Progress::Failed;
        }
    }

    /// An EOF comes.
    pub fn eof(&mut self, total: u64)
        ensures { (events : List CoreEvent) → Tells events self.old →
            Tells (event.Eof total ∷ events) self.new }
    {
        let Progress::Counting(count) = self else {
            return;
        };
        if count.eof(total).is_err() {
            *self = Progress::Failed;
        }
    }

    /// Whether it runs, nothing failed it, and it has as many EODs as its total.
    pub fn is_met(&self) -> bool
        ensures met { IsTrue result ↔ HasMet self.now }
        ensures sound { IsSoundProgress self.now }
    {
        match self {
            Progress::Counting(count) => count.is_met(),
            Progress::Idle | Progress::Failed => false,
        }
    }
}
