ghost use Rattle.std.specs.Prelude.{◌≡◌, ◌%◌, ◌<◌, ◌≤◌, ◌+◌, ◌*◌, ◌-◌, ◌^◌, length, slice_index};
ghost use Rattle.gft_drive.specs.Words.{first_layout, bank_at, slot_at, slot_of};
ghost use Rattle.gft_journal.specs.Slot.{IsSlot, bank_number};

use gft_base::LIMIT;

/// The kind of a slot that names a range.
pub(crate) const RANGE: u8 = 1;

/// The kind of a slot that has the complete length.
pub(crate) const COMPLETE: u8 = 2;

/// The bytes of a slot.
pub const SLOT_LEN: usize = 16;

/// One of the two halves of the ranges part.
#[derive(Clone, Copy, Debug, PartialEq, Eq)]
pub(crate) enum Bank {
    First,
    Second,
}

impl Bank {
    /// The bank that a selector names.
    pub(crate) fn selected_by(selector: u8) -> Bank
        ensures { bank_number result ≡ selector % 2 }
    {
        if selector % 2 == 0 {
            Bank::First
        } else {
            Bank::Second
        }
    }

    /// Where the bank begins.
    pub(crate) fn place(self) -> u64
        ensures { result ≡ bank_at (bank_number self) }
    {
        match self {
            Bank::First => 64,
            Bank::Second => 1_048_640,
        }
    }
}

impl Bank {
    pub(crate) fn other(self) -> Bank
        ensures { bank_number result ≡ 1 - bank_number self }
    {
        match self {
            Bank::First => Bank::Second,
            Bank::Second => Bank::First,
        }
    }

    pub(crate) fn number(self) -> u8
        ensures { result ≡ bank_number self }
    {
        match self {
            Bank::First => 0,
            Bank::Second => 1,
        }
    }
}

/// Where a slot of a bank begins.
pub(crate) fn place(bank: Bank, slot: u16) -> u64
    ensures { result ≡ slot_at first_layout (bank_at (bank_number bank)) slot }
{
    bank.place() + 32 + 16 * u64::from(slot)
}

/// An open slot of this kind.
pub(crate) fn encode(kind: u8, start: u64, end: u64) -> [u8; SLOT_LEN]
    requires start { start ≤ LIMIT }
    requires end { end ≤ LIMIT }
    ensures { IsSlot kind start end result }
{
    let [_, _, s2, s3, s4, s5, s6, s7] = start.to_be_bytes();
    let [_, _, e2, e3, e4, e5, e6, e7] = end.to_be_bytes();
    [
        1, kind, s2, s3, s4, s5, s6, s7, 0, 0, e2, e3, e4, e5, e6, e7,
    ]
}
