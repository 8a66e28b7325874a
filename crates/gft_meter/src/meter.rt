ghost use Rattle.std.specs.Prelude.{◌≡◌, ◌+◌, ◌-◌, ◌*◌, ◌^◌, ◌<◌, ◌≤◌, ◌++◌, [], IfOk};
ghost use Rattle.gft_meter.specs.Adds.{added_on, all_rights, first_seat, joined, most_added, with_bytes};
ghost use Rattle.gft_meter.specs.Views.{word_of};

use crate::seat::MeterSeat;
use crate::view::{Adds, Deal, MeterTable, Reads};
use gft_base::OutOfMemory;
use std::alloc::Global;
use std::marker::Model;

/// A stripe has eight words and counts in the first: so no two stripes share a line of a processor's cache.
const WORDS_A_STRIPE: usize = 8;

/// A count of bytes for each stripe of a transfer. Contracts see its table, and how many stripes it has.
#[derive(Drop)]
pub struct Meter {
    stripes: u16,
    table: MeterTable,
}

impl Model for Meter {
    ghost use Rattle.std.specs.Prelude.{◌≡◌, ◌+◌};
    ghost use Rattle.gft_meter.specs.Adds.{MeterState};
    ghost use Rattle.gft_meter.specs.Views.{word_of};

    ghost Value = { MeterState };

    ghost view = { λ m. record { table = m.table.shared.table_id; stripes = m.stripes } };

    ghost invariant = { λ m. (m.table.shared.key ≡ m.stripes)
        × (m.table.shared.table_id.words ≡ word_of m.stripes + 1) };
}

impl Meter {
    /// A meter of so many stripes with nothing added, and its first seat, which may split off 16 others.
    pub fn new(alloc: Global, stripes: u16) -> Result<(Meter, MeterSeat), OutOfMemory>
        ensures stripes { IfOk result (λ r. r.0.stripes ≡ stripes) }
        ensures seat { IfOk result (λ r. r.1 ≡ first_seat r.0.table) }
    {
        // One word more, which split and join look at: a meter may have no stripe.
        let words = vec![in alloc; 0u64; word_of(stripes) + 1]?;
        let (table, seat) = MeterTable::of_words(alloc, &words, &stripes)?;
        Ok((Meter { stripes, table }, MeterSeat { seat }))
    }

    /// Deals a further seat, by one of this seat's rights. It has no rights of its own.
    pub fn split(&self, seat: &mut MeterSeat) -> MeterSeat
        requires meter { seat.old.table ≡ self.now.table }
        requires right { 0 < seat.old.rights }
        requires nothing { seat.old.adds ≡ [] }
        ensures seat { seat.new ≡ record seat.old { rights = seat.old.rights - 1 } }
        ensures dealt { result ≡ record { table = seat.old.table; rights = 0; adds = [] } }
    {
        let MeterSeat { seat } = seat;
        MeterSeat {
            seat: self.table.shared.split_seat::<Deal>(seat),
        }
    }

    /// Takes another seat into this one: what was added through it, its rights, and the right it stood for.
    pub fn join(&self, seat: &mut MeterSeat, other: MeterSeat)
        requires meter { (seat.old.table ≡ self.now.table) × (other.table ≡ self.now.table) }
        ensures { seat.new ≡ joined seat.old other }
    {
        let MeterSeat { seat } = seat;
        let MeterSeat { seat: other } = other;
        self.table.shared.join_seat::<Deal>(seat, other);
    }

    /// Adds bytes on a stripe, counted from 0. What was added on it through one seat stays at most 2^58.
    pub fn add(&self, seat: &mut MeterSeat, stripe: u16, bytes: u64)
        requires meter { seat.old.table ≡ self.now.table }
        requires stripe { stripe < self.now.stripes }
        requires bound { added_on stripe seat.old.adds + bytes ≤ most_added }
        ensures { seat.new ≡ with_bytes seat.old stripe bytes }
    {
        let MeterSeat { seat } = seat;
        self.table
            .shared
            .fetch_add::<Adds>(seat, word_of(stripe), bytes);
    }

    /// What was added on a stripe, counted from 0, by now. A seat into which all others were joined reads the
    /// exact sum; while others add, each of their adds counts or doesn't yet.
    pub fn read(&self, seat: &mut MeterSeat, stripe: u16) -> u64
        requires meter { seat.old.table ≡ self.now.table }
        requires stripe { stripe < self.now.stripes }
        ensures seat { seat.new ≡ seat.old }
        ensures at_least { added_on stripe seat.old.adds ≤ result }
        ensures exact { seat.old.rights ≡ all_rights → result ≡ added_on stripe seat.old.adds }
        ensures bound { result ≤ (all_rights + 1) * most_added }
    {
        let MeterSeat { seat } = seat;
        self.table.shared.load::<Reads>(seat, word_of(stripe))
    }
}

/// The place of a stripe's word.
fn word_of(stripe: u16) -> usize
    ensures { result ≡ word_of stripe }
{
    usize::from(stripe) * WORDS_A_STRIPE
}
