use crate::view::ViewSeat;
use std::marker::Model;

/// The right to add to a meter and to read it. Contracts see the meter's table, how many seats it may still
/// split off, and what was added through it and through the seats that were joined into it.
#[derive(Drop)]
pub struct MeterSeat {
    pub(crate) seat: ViewSeat,
}

impl Model for MeterSeat {
    ghost use Rattle.std.specs.Prelude.{◌≡◌, []};
    ghost use Rattle.gft_meter.specs.Adds.{SeatState};
    ghost use Rattle.gft_meter.specs.Views.{live_view};

    ghost Value = { SeatState };

    ghost view = { λ s. record {
      table = s.seat.table_id;
      rights = s.seat.me.0.rights;
      adds = s.seat.me.0.adds;
    } };

    ghost invariant = { λ s. s.seat.me ≡ (live_view s.seat.me.0.rights s.seat.me.0.adds, []) };
}
