ghost use Rattle.std.specs.Prelude.{◌≡◌, List, [], ◌∷◌, ◌++◌, None, IfErr, IfOk, OnOk};
ghost use Rattle.gft_range.specs.declared.Range.{Range};
ghost use Rattle.gft_herald.specs.Words.{IsNamed};
ghost use Rattle.gft_receive.specs.Telling.{PutsAll, line_of};
ghost use Rattle.gft_receive.specs.Teller.{HasPut, LeavesLine, cause_of_tell, is_sink};

use gft_base::{Failed, OutOfMemory};
use gft_drive::Sink;
use gft_mark::range_marker;
use gft_pass::Cause;
use gft_range::RangeSet;
use std::alloc::Global;

/// Why no further mark is told.
#[derive(Clone, Copy, Debug)]
pub(crate) enum TellError {
    /// Memory for a mark or its line was refused.
    Memory,
    /// A put failed.
    Sink,
}

impl TellError {
    /// The cause as which it is kept.
    pub(crate) fn cause(self) -> Cause
        ensures { result ≡ cause_of_tell self }
    {
        match self {
            TellError::Memory => Cause::Memory,
            TellError::Sink => Cause::ControlGone,
        }
    }
}

/// How many lines were put whole, and why no further one is.
#[derive(Clone, Copy, Debug)]
pub(crate) struct Told {
    pub(crate) count: u64,
    pub(crate) error: Option<TellError>,
}

impl Told {
    /// Whether a put failed.
    pub(crate) fn put_failed(&self) -> bool
        ensures { result ≡ is_sink self.now.error }
    {
        match self.error {
            Some(TellError::Sink) => true,
            Some(TellError::Memory) | None => false,
        }
    }

    /// Tells the next mark.
    pub(crate) fn tell<W: Sink>(&mut self, alloc: Global, out: &mut W, ranges: &RangeSet)
        requires sink { W.is_open out.old }
        requires none { self.old.error ≡ None }
        requires named { IsNamed ranges.now.ranges }
        ensures tells { (first : W) (made : List (List Range))
            → HasPut W.written W.is_open W.faults first out.old made self.old
            → HasPut W.written W.is_open W.faults first out.new (made ++ ranges.now.ranges ∷ []) self.new }
        ensures sink { self.new.error ≡ None → W.is_open out.new }
    {
        match put_line(alloc, out, ranges) {
            Ok(()) => self.count = self.count.saturating_add(1),
            Err(error) => self.error = Some(error),
        }
    }
}

/// Puts the line of a mark.
fn put_line<W: Sink>(alloc: Global, out: &mut W, ranges: &RangeSet) -> Result<(), TellError>
    requires sink { W.is_open out.old }
    requires named { IsNamed ranges.now.ranges }
    ensures told { OnOk result (PutsAll W.written W.is_open W.faults out.old out.new
        (ranges.now.ranges ∷ [])) }
    ensures left { IfErr result (LeavesLine W.written W.is_open W.faults out.old out.new
        ranges.now.ranges) }
{
    let text = match marker_text(alloc, ranges) {
        Ok(text) => text,
        Err(OutOfMemory) => return Err(TellError::Memory),
    };
    match out.put(&text) {
        Ok(()) => Ok(()),
        Err(Failed) => Err(TellError::Sink),
    }
}

/// The bytes of a mark's line.
fn marker_text(alloc: Global, ranges: &RangeSet) -> Result<Vec<u8>, OutOfMemory>
    requires named { IsNamed ranges.now.ranges }
    ensures { IfOk result (λ text. text.items ≡ line_of ranges.now.ranges) }
{
    let marker = range_marker(alloc, ranges)?;
    marker.write(alloc)
}
