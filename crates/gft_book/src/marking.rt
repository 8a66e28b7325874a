ghost use Rattle.std.specs.Prelude.{◌≡◌, ℕ, ◌<◌, ◌≤◌, ◌↔◌, List, ◌∷◌, length, slice_get, Some, IsTrue, take};
ghost use Rattle.std.specs.Prelude.{IfOk, IfSome, IfNone, OnOk, OnErr};
ghost use Rattle.gft_range.specs.declared.TheConstants.{MAX_ITEMS};
ghost use Rattle.gft_range.specs.Words.{HasOffset};
ghost use Rattle.gft_core.specs.Words.{held};
ghost use Rattle.gft_core.specs.declared.CoreEvent.{CoreEvent};
ghost use Rattle.gft_core.specs.declared.CoreEvent.TheVariants as event;
ghost use Rattle.gft_herald.specs.Words.{IsNamed};
ghost use Rattle.gft_keep.specs.Words.{EachImage, keep_of};
ghost use Rattle.gft_book.specs.Book.{IsStoring, book_of};
ghost use Rattle.gft_book.specs.Calls.{Marked, MarksOnly};
ghost use Rattle.gft_book.specs.Fits.{Fits};
ghost use Rattle.gft_book.specs.Keeping.{KeepsByte};
ghost use Rattle.gft_book.specs.Live.{MakesMarks};

use crate::book::Book;
use crate::mark::Mark;
use gft_base::OutOfMemory;
use gft_drive::{Drive, Origin};
use gft_herald::Pusher;
use gft_range::{MAX_ITEMS, RangeSet};

impl<D: Drive + Drop, O: Origin> Book<D, O> {
    /// Whether at least so many bytes were booked since the last mark, or since the transfer began.
    pub fn mark_due(&self, every: u64) -> bool
        ensures due { IsTrue result ↔ (every ≤ self.now.unmarked) }
    {
        every <= self.unmarked
    }

    /// Whether an offset is kept.
    pub fn keeps_some(&self) -> bool
        ensures some { IsTrue result ↔ (0 < length (keep_of D.state self.now.keep).ranges) }
    {
        self.keep.ranges().count() > 0
    }

    /// How many marks there are.
    pub fn mark_count(&self) -> u64
        ensures { result ≡ length self.now.marks }
    {
        self.marks.len() as u64
    }

    /// Marks the first [`MAX_ITEMS`] kept ranges, and tells the mark's number. `OutOfMemory` if the mark
    /// can't be allocated; then nothing changes.
    pub fn mark(&mut self) -> Result<u64, OutOfMemory>
        requires storing { IsStoring self.old.stage }
        requires some { 0 < length (keep_of D.state self.old.keep).ranges }
        ensures marked { IfOk result (Marked (book_of D.state self.old) (book_of D.state self.new)) }
        ensures refused { OnErr result (self.new ≡ self.old) }
        ensures only { MarksOnly self.old self.new }
        ensures events { OnOk result ((events : List CoreEvent) → Fits (book_of D.state self.old) events
            → Fits (book_of D.state self.new) (event.Mark ∷ events)) }
    {
        let number = self.marks.len() as u64;
        let ranges = self.keep.ranges().first(MAX_ITEMS)?;
        self.marks.push(Mark { number, ranges })?;
        self.unmarked = 0;
        Ok(number)
    }

    /// `mark`, which gives a copy of what the mark names.
    fn mark_copied(&mut self) -> Result<RangeSet, OutOfMemory>
        requires storing { IsStoring self.old.stage }
        requires some { 0 < length (keep_of D.state self.old.keep).ranges }
        ensures copy { IfOk result (λ copy. copy.ranges
            ≡ take MAX_ITEMS (keep_of D.state self.old.keep).ranges) }
        ensures named { IfOk result (λ copy. IsNamed copy.ranges) }
        ensures marked { OnOk result ((n : ℕ) × Marked (book_of D.state self.old) (book_of D.state self.new) n) }
        ensures refused { OnErr result (self.new ≡ self.old) }
        ensures only { MarksOnly self.old self.new }
    {
        let copy = self.keep.ranges().first(MAX_ITEMS)?;
        self.mark()?;
        Ok(copy)
    }

    /// If so many bytes were booked since the last mark, marks what is kept, and pushes the mark into the
    /// line. If the line has no room the mark waits; if memory for it is refused the teller is told.
    pub(crate) fn mark_into(&mut self, pusher: &mut Pusher, every: u64)
        requires storing { IsStoring self.old.stage }
        ensures only { MarksOnly self.old self.new }
        ensures makes { MakesMarks self.old.marks self.new.marks pusher.old pusher.new }
    {
        if !self.mark_due(every) || !self.keeps_some() || !pusher.has_room() {
            return;
        }
        match self.mark_copied() {
            Ok(ranges) => pusher.push(ranges),
            Err(OutOfMemory) => pusher.starve(),
        }
    }

    /// The mark with this number. Every image that a crash may leave now holds what it names, with the bytes
    /// that a read gives.
    pub fn mark_at(&self, number: u64) -> Option<&Mark>
        ensures mark { IfSome result (λ mark. slice_get self.now.marks number ≡ Some mark.now) }
        ensures none { IfNone result (length self.now.marks ≤ number) }
        ensures held { IfSome result (λ mark. EachImage (keep_of D.state self.now.keep) (λ image.
            (x : ℕ) → HasOffset mark.now.ranges.ranges x
            → (v : ℕ) × (held image x ≡ Some v) × KeepsByte (keep_of D.state self.now.keep) x v)) }
    {
        self.facts();
        self.nth_mark(number)
    }

    fn nth_mark(&self, number: u64) -> Option<&Mark>
        ensures mark { IfSome result (λ mark. slice_get self.now.marks number ≡ Some mark.now) }
        ensures none { IfNone result (length self.now.marks ≤ number) }
    {
        self.marks.get(number as usize)
    }
}
