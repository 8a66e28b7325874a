// What the seats of a transfer's table know, and the rule that ties them. A call reads the table's one word,
// which never changes: the steps are there for the proofs, which change the views.
use crate::numbers::Numbers;
use atomic_table::{Join, Play, Seat, Split, Table, TableRule};
use std::alloc::Global;
use std::collections::LinkedList;
use std::marker::{Brand, PhantomData};

// The roster's view lists the numbers of all lanes, and says how many lanes were dealt. A pass's has its lane
// and its own numbers. No value of it is made.
pub struct View {
    pub keeps_list: bool,
    pub counts: LinkedList<Numbers>,
    pub dealt: u64,
    pub has_lane: bool,
    pub lane: u64,
    pub count: Numbers,
}

// The rule of a table, which is told the number of lanes.
pub struct SeatRule;

impl TableRule<u8, View, u16> for SeatRule {
    ghost use Rattle.gft_pass.specs.Views.{AreSeats, opening_view};

    ghost holds = { λ _ s. AreSeats s.views };

    ghost first = { opening_view };
}

pub type RosterTable = Table<u8, View, u16, SeatRule, Global>;

pub type RosterSeat = Seat<u8, View>;

// A pass of the next lane comes off the roster's seat.
pub struct Deal;

impl Split<View> for Deal {
    ghost use Rattle.gft_pass.specs.Views.{behind_deal, next_lane};

    ghost left = { behind_deal };

    ghost right = { next_lane };
}

// A pass's seat goes into the roster's, and comes off it again.
pub struct Lent;

impl Join<View> for Lent {
    ghost use Rattle.gft_pass.specs.Views.{with_lane, blank_view};

    ghost both = { with_lane };

    ghost spent = { blank_view };
}

impl Split<View> for Lent {
    ghost use Rattle.gft_pass.specs.Views.{without_lane, its_lane};

    ghost left = { without_lane };

    ghost right = { its_lane };
}

// A seat that knows nothing.
pub struct Blank;

impl Play<u8, View> for Blank {
    ghost use Rattle.std.specs.Prelude.{◌≡◌, []};
    ghost use Rattle.gft_pass.specs.Views.{blank_view};

    ghost then = { λ _ _ _ w. w ≡ (blank_view, []) };
}

// What a lane's numbers become: a step is told its arguments by a type.
pub trait Change {
    ghost use Rattle.gft_pass.specs.declared.numbers.Numbers.{Numbers};

    ghost after: { Numbers };
}

impl Change for Brand {
    ghost use Rattle.gft_pass.specs.Ledger.{nothing};

    ghost after = { nothing };
}

// The joined lane's numbers were the listed ones, and both become the new ones.
pub struct Changes<C: Change> {
    of: PhantomData<C>,
}

impl<C: Change> Play<u8, View> for Changes<C> {
    ghost use Rattle.std.specs.Prelude.{◌≡◌};
    ghost use Rattle.gft_pass.specs.Views.{changed, IsListed};

    ghost then = { λ _ me _ w. (w ≡ (changed C.after me.0, me.1)) × IsListed me.0 };
}

// The joined lane's numbers are the listed ones.
pub struct Shows;

impl Play<u8, View> for Shows {
    ghost use Rattle.std.specs.Prelude.{◌≡◌};
    ghost use Rattle.gft_pass.specs.Views.{IsListed};

    ghost then = { λ _ me _ w. (w ≡ me) × IsListed me.0 };
}
