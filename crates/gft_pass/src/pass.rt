ghost use Rattle.std.specs.Prelude.{◌≡◌};

use crate::numbers::Numbers;
use crate::view::RosterSeat;
use std::marker::Model;

/// The right to count for one lane of one transfer. Contracts see its table, lane and numbers.
#[derive(Drop)]
pub struct Pass {
    pub(crate) lane: u16,
    pub(crate) numbers: Numbers,
    pub(crate) seat: RosterSeat,
}

impl Model for Pass {
    ghost use Rattle.std.specs.Prelude.{◌≡◌, []};
    ghost use Rattle.gft_pass.specs.Ledger.{Lane};
    ghost use Rattle.gft_pass.specs.Views.{lane_view};

    ghost Value = { Lane };

    ghost view = { λ p. record { table = p.seat.table_id; lane = p.lane; count = p.numbers } };

    ghost invariant = { λ p. p.seat.me ≡ (lane_view p.lane p.numbers, []) };
}

impl Pass {
    /// Its lane, counted from 0.
    pub fn lane(&self) -> u16
        ensures { result ≡ self.now.lane }
    {
        self.lane
    }

    /// What it has had.
    pub fn numbers(&self) -> Numbers
        ensures { result ≡ self.now.count }
    {
        self.numbers
    }
}
