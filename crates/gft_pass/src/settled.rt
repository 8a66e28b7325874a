use crate::view::{RosterSeat, RosterTable};
use std::marker::Model;

/// The table of a transfer that ended. Contracts see which table it is.
#[derive(Drop)]
pub struct Settled {
    pub(crate) table: RosterTable,
}

impl Model for Settled {
    ghost use Rattle.atomic_table.specs.Seated.{TableId, table_id_coded};

    ghost Value = { TableId };

    ghost coded = { table_id_coded };

    ghost view = { λ s. s.table.shared.table_id };
}

/// That a transfer ended, with its table and the numbers of its lanes. Only `Roster::settle` makes one, and
/// it can't be cloned.
#[derive(Drop)]
pub struct Ended {
    pub(crate) seat: RosterSeat,
}

impl Model for Ended {
    ghost use Rattle.gft_pass.specs.Ledger.{Ledger};

    ghost Value = { Ledger };

    ghost view = { λ e. record { table = e.seat.table_id; counts = e.seat.me.0.counts } };
}
