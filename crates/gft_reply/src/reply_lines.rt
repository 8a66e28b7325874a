ghost use Rattle.std.specs.Prelude.{◌≡◌, ◌++◌, ◌∷◌, ℕ, List, [], length, take, slice_get, IfOk, OnOk, OnErr};
ghost use Rattle.std.specs.Option.{option_copied};

use gft_base::OutOfMemory;
use gft_text::Words;
use std::alloc::Global;
use std::marker::Model;

/// The texts of a reply's lines. Contracts see their list.
#[derive(Debug, Drop)]
pub struct ReplyLines {
    lines: Vec<Words>,
}

impl Model for ReplyLines {
    ghost use Rattle.std.specs.Prelude.{List, ℕ};

    ghost Value = { List (List ℕ) };

    ghost view = { λ l. l.lines.items };
}

impl PartialEq for ReplyLines {
    ghost use Rattle.std.specs.Prelude.{nat_eq};
    ghost use Rattle.std.specs.Cmp.{partial_equiv_from_equiv};
    ghost use Rattle.std.specs.Cmp.Lexicographic.{lists_per, nat_list_eq_equiv, pointwise};

    ghost eq = { pointwise (pointwise nat_eq) };

    ghost laws = { lists_per (partial_equiv_from_equiv nat_list_eq_equiv) };

    fn eq(&self, other: &ReplyLines) -> bool {
        self.lines == other.lines
    }
}

impl ReplyLines {
    /// No lines. It allocates nothing.
    pub fn new(alloc: Global) -> Self
        ensures { result ≡ [] }
    {
        ReplyLines {
            lines: Vec::new(alloc),
        }
    }

    /// Adds a line at the end. `OutOfMemory` leaves the lines as they were.
    pub fn push(&mut self, line: &[u8]) -> Result<(), OutOfMemory>
        ensures ok { OnOk result (self.new ≡ self.old ++ line.now ∷ []) }
        ensures err { OnErr result (self.new ≡ self.old) }
    {
        let alloc = *self.lines.allocator();
        let line = Words::from_bytes(alloc, line)?;
        self.lines.push(line)?;
        Ok(())
    }

    /// How many lines there are.
    pub fn count(&self) -> usize
        ensures { result ≡ length self.now }
    {
        self.lines.len()
    }

    /// The line at place `i`, from 0 on.
    pub fn nth(&self, i: usize) -> Option<&[u8]>
        ensures { option_copied result ≡ slice_get self.now i }
    {
        let line = self.lines.get(i)?;
        Some(line.bytes())
    }

    /// The same lines. `OutOfMemory` if they can't be allocated.
    pub fn copy(&self) -> Result<ReplyLines, OutOfMemory>
        ensures { IfOk result (λ lines. lines ≡ self.now) }
    {
        let mut lines = ReplyLines::new(*self.lines.allocator());
        for line in &self.lines {
            lines.push(line.bytes())?;
        }
        Ok(lines)
    }

    /// All lines, in order.
    pub fn as_slice(&self) -> &[Words]
        ensures { result.now ≡ self.now }
    {
        &self.lines
    }

    /// Leaves the first `count` lines.
    pub(crate) fn truncate(&mut self, count: usize)
        ensures { self.new ≡ take count self.old }
    {
        self.lines.truncate(count);
    }
}
