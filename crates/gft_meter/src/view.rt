// What the seats of a meter know, and the rule that ties them to its words.
use atomic_table::{Join, Play, Seat, Split, Table, TableRule};
use std::alloc::Global;
use std::collections::LinkedList;

// So many bytes on a stripe. No value of it is made.
pub struct Add {
    pub stripe: u16,
    pub bytes: u64,
}

// Whether a seat still adds, how many seats it may split off, and what was added through it and those
// joined into it. No value of it is made.
pub struct View {
    pub is_live: bool,
    pub rights: u64,
    pub adds: LinkedList<Add>,
}

// The rule of a table, which is told the number of stripes.
pub struct SumRule;

impl TableRule<u8, View, u16> for SumRule {
    ghost use Rattle.gft_meter.specs.Views.{AreSums, opening_view};

    ghost holds = { λ stripes s. AreSums stripes s.words s.views };

    ghost first = { λ _. opening_view };
}

pub type MeterTable = Table<u8, View, u16, SumRule, Global>;

pub type ViewSeat = Seat<u8, View>;

// A seat's sum grows with the word of a stripe.
pub struct Adds;

impl Play<u8, View> for Adds {
    ghost use Rattle.std.specs.Prelude.{◌≡◌, ℕ};
    ghost use Rattle.gft_meter.specs.Views.{word_of, with_add};

    ghost then = { λ s me _ w. (stripe : ℕ) → s.word ≡ word_of stripe
        → w ≡ (with_add stripe s.first me.0, me.1) };
}

// A word is at least the seat's sum, and just that if it has all rights.
pub struct Reads;

impl Play<u8, View> for Reads {
    ghost use Rattle.std.specs.Prelude.{◌≡◌, ℕ};
    ghost use Rattle.gft_meter.specs.Views.{word_of, Shows};

    ghost then = { λ s me n w. (w ≡ me)
        × ((stripe : ℕ) → s.word ≡ word_of stripe → Shows stripe n me.0) };
}

// A seat comes off another, and goes into one.
pub struct Deal;

impl Split<View> for Deal {
    ghost use Rattle.gft_meter.specs.Views.{behind_deal, newcomer};

    ghost left = { behind_deal };

    ghost right = { λ _. newcomer };
}

impl Join<View> for Deal {
    ghost use Rattle.gft_meter.specs.Views.{together, spent};

    ghost both = { together };

    ghost spent = { spent };
}
