ghost use Rattle.std.specs.Prelude.{◌≡◌, ◌+◌, ◌≤◌, ◌<◌, ◌^◌, ◌⊎◌, ◌↔◌, ℕ, slice_index, IfOk};
ghost use Rattle.gft_range.specs.Words.{IsNormal, HasOffset, InRange};
ghost use Rattle.gft_drive.specs.Words.{Covers, Has, IsOpenAs, first_layout, number_at, range_kind, slot_of};
ghost use Rattle.gft_core.specs.Machine.{IsInside, has_offset};

use crate::octets::Octets;
use gft_base::OutOfMemory;
use gft_range::{Range, RangeSet};
use std::alloc::Global;
use std::marker::Model;

/// How many slots a bank of the ranges part has.
const SLOTS: u64 = 65_534;

/// What a crash left of a drive: its data, and its ranges part. Contracts see a drive's image.
#[derive(Drop)]
pub struct Image {
    pub bytes: Octets,
    pub ranges: Octets,
}

impl Model for Image {
    ghost use Rattle.gft_drive.specs.Words as drive;

    ghost Value = { drive.Image };

    ghost view = { λ i. record { bytes = i.bytes; ranges = i.ranges } };
}

/// The byte at a place, or 0 past the end.
fn byte(part: &[u8], place: u64) -> u64
    ensures small { result < 256 }
    ensures byte { result ≡ slice_index part.now place }
{
    match part.get(place as usize) {
        Some(byte) => u64::from(*byte),
        None => 0,
    }
}

/// The number in six bytes, the highest first.
fn number(part: &[u8], at: u64) -> u64
    requires { at ≤ 2 ^ 32 }
    ensures { result ≡ number_at part.now at 6 }
{
    let high = (byte(part, at) * 256 + byte(part, at + 1)) * 256 + byte(part, at + 2);
    let low = (byte(part, at + 3) * 256 + byte(part, at + 4)) * 256 + byte(part, at + 5);
    high * 16_777_216 + low
}

/// The range of the slot at this place, if the slot is open and has one.
fn range_at(part: &[u8], at: u64) -> Option<Range>
    requires { at ≤ 2 ^ 31 }
    ensures { (x : ℕ) → IsInside result x ↔
        (IsOpenAs range_kind (slot_of first_layout part.now at)
        × Has (slot_of first_layout part.now at) x) }
{
    if byte(part, at) != 1 || byte(part, at + 1) != 1 {
        return None;
    }
    Some(Range {
        start: number(part, at + 2),
        end: number(part, at + 10),
    })
}

/// Adds the offsets of a range, of which there may be none.
pub(crate) fn add(set: &mut RangeSet, range: Range)
    requires room { 1 ≤ set.old.spare }
    ensures normal { IsNormal set.old.ranges → IsNormal set.new.ranges }
    ensures offsets { (x : ℕ) → HasOffset set.new.ranges x ↔ (HasOffset set.old.ranges x ⊎ InRange range x) }
{
    if range.start < range.end {
        set.insert(range);
    }
}

/// Whether a set has an offset.
pub(crate) fn has(set: &RangeSet, offset: u64) -> bool
    ensures { result ≡ has_offset set.now.ranges offset }
{
    offset < set.end()
        && set.covers(Range {
            start: offset,
            end: offset + 1,
        })
}

/// The offsets that are in both sets. `OutOfMemory` if they can't be listed.
pub(crate) fn common(a: &RangeSet, b: &RangeSet) -> Result<RangeSet, OutOfMemory>
    ensures { IfOk result (λ set. (x : ℕ) → HasOffset set.ranges x
        ↔ (HasOffset a.now.ranges x × HasOffset b.now.ranges x)) }
{
    let end = a.end();
    let mut out = a.complement(end)?;
    let out_of_b = b.complement(end)?;
    out.union(&out_of_b)?;
    out.complement(end)
}

impl Image {
    /// The offsets of its ranges: those that the open range slots of the selected bank name.
    pub(crate) fn named(&self, alloc: Global) -> Result<RangeSet, OutOfMemory>
        ensures { IfOk result (λ set. (x : ℕ) → HasOffset set.ranges x ↔ Covers self.now.ranges x) }
    {
        let part = self.ranges.bytes();
        let bank = 64 + 1_048_576 * (byte(part, 0) % 2);
        let mut set = RangeSet::new(alloc);
        for i in 0..SLOTS {
            if let Some(range) = range_at(part, bank + 32 + 16 * i) {
                set.reserve(1)?;
                add(&mut set, range);
            }
        }
        Ok(set)
    }
}
