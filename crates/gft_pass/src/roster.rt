ghost use Rattle.std.specs.Prelude.{◌≡◌, ◌+◌, ◌<◌, true, length, map, replicate, set, slice_index_or, IfOk};
ghost use Rattle.gft_pass.specs.Ledger.{Lane, AllPasses, IsAt, nothing};
ghost use Rattle.gft_pass.specs.Views.{list_view, changed, IsListed};

use crate::numbers::Numbers;
use crate::pass::Pass;
use crate::settled::{Ended, Settled};
use crate::view::{
    Blank, Change, Changes, Deal, Lent, RosterSeat, RosterTable, SeatRule, Shows, View,
};
use atomic_table::{Shared, Table};
use gft_base::OutOfMemory;
use std::alloc::Global;
use std::marker::{Brand, Model};
use std::mem;

type Words = Shared<u8, View, u16, SeatRule>;

/// The list of a transfer's passes with their numbers, while it runs. Contracts see its table, and the
/// numbers of its lanes in order.
#[derive(Drop)]
pub struct Roster {
    lanes: u16,
    table: RosterTable,
    seat: RosterSeat,
}

impl Model for Roster {
    ghost use Rattle.std.specs.Prelude.{◌≡◌, ◌<◌, [], length};
    ghost use Rattle.gft_pass.specs.Ledger.{Ledger};
    ghost use Rattle.gft_pass.specs.Views.{list_view};

    ghost Value = { Ledger };

    ghost view = { λ b. record { table = b.seat.table_id; counts = b.seat.me.0.counts } };

    ghost invariant = { λ b. (b.table.shared.table_id ≡ b.seat.table_id) × (0 < b.seat.table_id.words)
        × (b.seat.me ≡ (list_view b.seat.me.0.counts b.lanes, []))
        × (length b.seat.me.0.counts ≡ b.lanes) };
}

impl Roster {
    /// Begins a transfer of so many lanes, with a pass for each lane in order. Nobody has had anything.
    pub fn begin(alloc: Global, lanes: u16) -> Result<(Roster, Vec<Pass>), OutOfMemory>
        ensures counts { IfOk result (λ r. r.0.counts ≡ replicate lanes nothing) }
        ensures passes { IfOk result (λ r. AllPasses r.0.table lanes r.1.items) }
        ensures fresh { IfOk result (λ r. map (λ p. p.count) r.1.items ≡ replicate lanes nothing) }
    {
        let mut passes = Vec::with_capacity(alloc, usize::from(lanes))?;
        let (table, mut seat) = RosterTable::of_words(alloc, &[0], &lanes)?;
        for lane in 0..lanes {
            passes.push_reserved(deal(&table.shared, &mut seat, lane));
        }
        Ok((Roster { lanes, table, seat }, passes))
    }

    /// Gives a pass of this transfer these numbers, here too. Its numbers were the listed ones.
    pub fn change(&mut self, pass: &mut Pass, after: &Numbers)
        requires { pass.old.table ≡ self.old.table }
        ensures pass { pass.new ≡ record { table = pass.old.table; lane = pass.old.lane; count = after.now } }
        ensures roster { self.new ≡ record {
          table = self.old.table;
          counts = set self.old.counts pass.old.lane after.now;
        } }
        ensures listed { IsAt self.old.counts pass.old.lane pass.old.count }
    {
        let Roster {
            lanes: _,
            table,
            seat,
        } = self;
        let words = &table.shared;
        let (_, blank) = words.load_new_seat::<Blank>(0);
        let lent = mem::replace(&mut pass.seat, blank);
        words.join_seat::<Lent>(seat, lent);
        change_listed::<Brand>(words, seat, after);
        pass.seat = words.split_seat::<Lent>(seat);
        pass.numbers = *after;
    }

    /// Ends the transfer. All its passes come back, in the order in which they were dealt, and their
    /// numbers are the listed ones.
    pub fn settle(self, passes: Vec<Pass>) -> (Settled, Ended)
        requires { AllPasses self.table (length self.counts) passes.items }
        ensures table { (result.0 ≡ self.table) × (result.1.table ≡ self.table) }
        ensures counts { (result.1.counts ≡ self.counts)
            × (result.1.counts ≡ map (λ p. p.count) passes.items) }
    {
        let Roster {
            lanes: _,
            table,
            mut seat,
        } = self;
        for pass in passes {
            take_in(&table.shared, &mut seat, pass);
        }
        (Settled { table }, Ended { seat })
    }
}

/// A pass of the next lane comes off the roster's seat.
fn deal(words: &Words, seat: &mut RosterSeat, lane: u16) -> Pass
    requires table { (seat.old.table_id ≡ words.now.table_id) × (0 < words.now.table_id.words) }
    requires nothing { slice_index_or seat.old.me.0.counts lane nothing ≡ nothing }
    requires next { (seat.old.me.0.keeps_list ≡ true) × (seat.old.me.0.dealt ≡ lane)
        × (lane < length seat.old.me.0.counts) }
    ensures table { seat.new.table_id ≡ seat.old.table_id }
    ensures seat { seat.new.me ≡ (list_view seat.old.me.0.counts (lane + 1), seat.old.me.1) }
    ensures pass { result ≡ record { table = seat.old.table_id; lane = lane; count = nothing } }
{
    let token = words.split_seat::<Deal>(seat);
    Pass {
        lane,
        numbers: Numbers::none(),
        seat: token,
    }
}

/// The roster's seat has a pass's lane, whose numbers become others, in the list too.
fn change_listed<C: Change>(words: &Words, seat: &mut RosterSeat, after: &Numbers)
    requires change { after.now ≡ C.after }
    requires table { (seat.old.table_id ≡ words.now.table_id) × (0 < words.now.table_id.words) }
    requires joined { (seat.old.me.0.keeps_list ≡ true) × (seat.old.me.0.has_lane ≡ true) }
    ensures table { seat.new.table_id ≡ seat.old.table_id }
    ensures changed { seat.new.me ≡ (changed after.now seat.old.me.0, seat.old.me.1) }
    ensures listed { IsListed seat.old.me.0 }
{
    let _ = after;
    words.load::<Changes<C>>(seat, 0);
}

/// Takes a pass back into the roster's seat. Its numbers are the listed ones.
fn take_in(words: &Words, seat: &mut RosterSeat, pass: Pass)
    requires table { (seat.old.table_id ≡ words.now.table_id) × (pass.table ≡ words.now.table_id)
        × (0 < words.now.table_id.words) }
    requires keeps { seat.old.me.0.keeps_list ≡ true }
    ensures table { seat.new.table_id ≡ seat.old.table_id }
    ensures keeps { (seat.new.me.0.keeps_list ≡ true) × (seat.new.me.0.counts ≡ seat.old.me.0.counts)
        × (seat.new.me.1 ≡ seat.old.me.1) }
    ensures listed { IsAt seat.old.me.0.counts pass.lane pass.count }
{
    let Pass {
        lane: _,
        numbers: _,
        seat: token,
    } = pass;
    words.join_seat::<Lent>(seat, token);
    words.load::<Shows>(seat, 0);
}
