ghost use Rattle.std.specs.Prelude.{◌≡◌, ◌++◌, ◌∷◌, [], length, slice_get, IfOk, OnOk, OnErr};

use gft_base::OutOfMemory;
use std::alloc::Global;
use std::marker::Model;

/// Bytes that a command carries as they are. Contracts see their list.
#[derive(Debug, Drop)]
pub struct Words {
    bytes: Vec<u8>,
}

impl Model for Words {
    ghost use Rattle.std.specs.Prelude.{List, ℕ};

    ghost Value = { List ℕ };

    ghost view = { λ w. w.bytes.items };
}

impl PartialEq for Words {
    ghost use Rattle.std.specs.Prelude.{nat_eq};
    ghost use Rattle.std.specs.Cmp.{partial_equiv_from_equiv};
    ghost use Rattle.std.specs.Cmp.Lexicographic.{nat_list_eq_equiv, pointwise};

    ghost eq = { pointwise nat_eq };

    ghost laws = { partial_equiv_from_equiv nat_list_eq_equiv };

    fn eq(&self, other: &Words) -> bool {
        self.bytes == other.bytes
    }
}

impl Words {
    /// No bytes. It allocates nothing.
    pub fn new(alloc: Global) -> Self
        ensures { result ≡ [] }
    {
        Words {
            bytes: Vec::new(alloc),
        }
    }

    /// A copy of these bytes. `OutOfMemory` if it can't be allocated.
    pub fn from_bytes(alloc: Global, bytes: &[u8]) -> Result<Words, OutOfMemory>
        ensures { IfOk result (λ words. words ≡ bytes.now) }
    {
        Ok(Words {
            bytes: Vec::from_slice(alloc, bytes)?,
        })
    }

    /// Adds a byte at the end. `OutOfMemory` leaves the bytes as they were.
    pub fn push(&mut self, byte: u8) -> Result<(), OutOfMemory>
        ensures ok { OnOk result (self.new ≡ self.old ++ byte ∷ []) }
        ensures err { OnErr result (self.new ≡ self.old) }
    {
        self.bytes.push(byte)?;
        Ok(())
    }

    /// How many bytes there are.
    pub fn count(&self) -> usize
        ensures { result ≡ length self.now }
    {
        self.bytes.len()
    }

    /// The byte at place `i`, from 0 on.
    pub fn nth(&self, i: usize) -> Option<u8>
        ensures { result ≡ slice_get self.now i }
    {
        self.bytes.get(i).copied()
    }

    /// All bytes, in order.
    pub fn bytes(&self) -> &[u8]
        ensures { result.now ≡ self.now }
    {
        &self.bytes
    }
}
