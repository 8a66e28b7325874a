ghost use Rattle.std.specs.Prelude.{◌≡◌, ◌+◌, ◌<◌, ◌≤◌, length, take, drop, reverse, Ok};
ghost use Rattle.gft_base.specs.declared.errors.Failed.{Failed};
ghost use Rattle.gft_outside.specs.ControlInputs.{heard_by, HeardFits, IsNotOver};
ghost use Rattle.gft_outside.specs.ControlScripts.{control_inputs};

use crate::control::Heard;
use crate::piece::copy_piece;
use gft_core::Octets;

/// What a [`MemoryControl`](crate::MemoryControl) hears: bytes, or nothing for a while.
#[derive(Drop)]
pub enum ControlItem {
    Bytes(Octets),
    Quiet,
}

impl ControlItem {
    /// How much it tells: a byte counts 1, and a quiet while.
    pub(crate) fn len(&self) -> usize
        ensures { result ≡ length (control_inputs self.now) }
    {
        match self {
            ControlItem::Bytes(bytes) => bytes.bytes().len(),
            ControlItem::Quiet => 1,
        }
    }

    /// Gives it from this place on, as far as the buffer has room, and says how much that was.
    pub(crate) fn give(&self, from: usize, buf: &mut [u8]) -> (Heard, usize)
        requires inside { from < length (control_inputs self.now) }
        requires room { 0 < length buf.old }
        ensures some { 1 ≤ result.1 }
        ensures within { from + result.1 ≤ length (control_inputs self.now) }
        ensures fits { HeardFits result.0 (length buf.new) }
        ensures given { heard_by {E = Failed} (Ok result.0) buf.new
            ≡ reverse (take result.1 (drop from (control_inputs self.now))) }
        ensures more { IsNotOver result.0 }
    {
        match self {
            ControlItem::Bytes(bytes) => {
                let count = copy_piece(bytes.bytes(), from, buf);
                (Heard::Bytes(count), count)
            }
            ControlItem::Quiet => (Heard::Quiet, 1),
        }
    }
}
