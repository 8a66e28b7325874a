ghost use Rattle.std.specs.Prelude.{◌≡◌, ◌<◌, ◌≤◌, ◌+◌, ◌*◌, ◌-◌, ◌^◌, length, slice_index, OnOk};
ghost use Rattle.gft_drive.specs.declared.Part.TheVariants.{Ranges};
ghost use Rattle.gft_drive.specs.Words.{Elapses, Reads, Leaves, IsSynced};
ghost use Rattle.gft_drive.specs.Words.{DiffersIn, Written};
ghost use Rattle.gft_base.specs.Words.{HasCause};
ghost use Rattle.gft_drive.specs.Words.{bank_at, bank_size};
ghost use Rattle.gft_journal.specs.Slot.{bank_number};
ghost use Rattle.gft_journal.specs.Bank.{IsSet, IsEnd, slots_of, IsUnit, HasUnits, WritesBank, HasBank};

use crate::slot::{self, Bank, COMPLETE, RANGE, SLOT_LEN};
use gft_base::Failed;
use gft_drive::{Drive, Part};
use gft_range::Range;

// How many bytes are written at once.
const PIECE: usize = 4096;

// The first bytes of a bank of the first version.
const VERSION_HEAD: [u8; SLOT_LEN] = [1, 0, 0, 0, 0, 0, 0, 0, 0, 0, 0, 0, 0, 0, 0, 0];

/// The 16 bytes of a bank at this place: two of its head, and then its slots, these ranges first.
fn unit(set: &[Range], complete: Option<u64>, index: usize) -> [u8; SLOT_LEN]
    requires set { IsSet set.now }
    requires end { IsEnd complete }
    ensures size { length result ≡ 16 }
    ensures unit { IsUnit (slots_of set.now complete) index result 0 }
{
    if index == 0 {
        return VERSION_HEAD;
    }
    if index == 1 {
        return [0; SLOT_LEN];
    }
    let slot = index - 2;
    if slot < set.len() {
        return slot::encode(RANGE, set[slot].start, set[slot].end);
    }
    match complete {
        Some(len) if slot == set.len() => slot::encode(COMPLETE, 0, len),
        _ => [0; SLOT_LEN],
    }
}

/// Writes the bytes at this place.
fn put(buf: &mut [u8], at: usize, bytes: &[u8])
    requires { at + length bytes.now ≤ length buf.old }
    ensures { Written at bytes.now buf.old buf.new }
{
    buf[at..at + bytes.len()].copy_from_slice(bytes);
}

/// A piece of the bank.
fn piece(set: &[Range], complete: Option<u64>, first: usize) -> [u8; PIECE]
    requires set { IsSet set.now }
    requires end { IsEnd complete }
    requires first { first < 65536 }
    ensures size { length result ≡ 4096 }
    ensures units { HasUnits (slots_of set.now complete) first 256 result 0 }
{
    let mut buf = [0; PIECE];
    for i in 0..256 {
        let unit = unit(set, complete, first + i);
        put(&mut buf, 16 * i, &unit);
    }
    buf
}

/// Writes the whole bank.
pub(crate) fn write_bank<D: Drive>(
    drive: &mut D,
    bank: Bank,
    set: &[Range],
    complete: Option<u64>,
) -> Result<(), Failed>
    requires synced { IsSynced Ranges (D.state drive.old) }
    requires room { HasBank (bank_at (bank_number bank)) (D.state drive.old) }
    requires set { IsSet set.now }
    requires end { IsEnd complete }
    ensures written { OnOk result (Reads Ranges
        (WritesBank (bank_at (bank_number bank)) (slots_of set.now complete)) (D.state drive.old)
        (D.state drive.new)) }
    ensures any_moment { Leaves Ranges (DiffersIn (bank_at (bank_number bank)) bank_size)
        (D.state drive.old) (D.state drive.new) }
    ensures time { Elapses (D.state drive.old) (D.state drive.new) }
    ensures cause { HasCause (D.state drive.old).faults (D.state drive.new).faults result }
{
    let place = bank.place();
    for i in 0..256u64 {
        let bytes = piece(set, complete, 256 * i as usize);
        drive.write_at(Part::Ranges, place + 4096 * i, &bytes)?;
    }
    Ok(())
}
