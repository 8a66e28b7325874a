ghost use Rattle.std.specs.Prelude.{◌≡◌, ℕ, ◌+◌, ◌↔◌, List, [], ◌∷◌, length, IsTrue, OnOk, OnErr};
ghost use Rattle.gft_range.specs.Words.{IsNormal, HasOffset};
ghost use Rattle.gft_drive.specs.Words.{Covers, Image};
ghost use Rattle.gft_core.specs.declared.event.CoreEvent.{CoreEvent};
ghost use Rattle.gft_core.specs.declared.event.CoreEvent.TheVariants.{Block, Crash};
ghost use Rattle.gft_core.specs.Kept.{kept, Booked, EndsInLimit};
ghost use Rattle.gft_core.specs.Done.{Done};
ghost use Rattle.gft_core.specs.Machine.{BringsNoByte, Stands};

use crate::event::CoreEvent;
use crate::image::{Image, add, common};
use crate::octets::Octets;
use crate::progress::Progress;
use crate::taken::{Found, Taken};
use gft_base::OutOfMemory;
use gft_range::{Range, RangeSet};
use std::alloc::Global;
use std::marker::Model;

/// The plain machine. It keeps the blocks and crashes of this generation in a list, in the order in
/// which they came. Contracts see its state, and the lists of events, the newest first, for which it
/// `Stands`.
#[derive(Drop)]
pub struct Core {
    entries: Vec<Taken>,
    /// The offsets of the blocks that no crash lost; open ones count.
    found: RangeSet,
    /// The offsets with a kept byte.
    booked: RangeSet,
    progress: Progress,
    /// Whether an event came.
    has_begun: bool,
}

impl Model for Core {
    ghost use Rattle.gft_range.specs.Words.{IsNormal};
    ghost use Rattle.gft_core.specs.Machine.{State};

    ghost Value = { State };

    ghost view = { λ c. record {
      entries = c.entries.items;
      found = c.found.ranges;
      booked = c.booked.ranges;
      progress = c.progress;
      has_begun = c.has_begun;
    } };

    ghost invariant = { λ c. IsNormal c.booked.ranges };
}

impl Core {
    /// The machine before any event.
    pub fn new(alloc: Global) -> Core
        ensures stands { Stands [] result }
    {
        Core {
            entries: Vec::new(alloc),
            found: RangeSet::new(alloc),
            booked: RangeSet::new(alloc),
            progress: Progress::Idle,
            has_begun: false,
        }
    }

    /// Takes one event. A block's bytes end at most at `LIMIT`; a crash may leave any image.
    /// `OutOfMemory` leaves the machine as it was.
    pub fn step(&mut self, event: &CoreEvent) -> Result<(), OutOfMemory>
        requires in_limit { EndsInLimit event.now }
        ensures stands { OnOk result ((events : List CoreEvent) → Stands events self.old →
            Stands (event.now ∷ events) self.new) }
        ensures err { OnErr result (self.new ≡ self.old) }
    {
        match event {
            CoreEvent::Block {
                offset,
                bytes,
                unanswered,
                ..
            } => {
                let end = *offset + bytes.bytes().len() as u64;
                self.take(*offset, end, bytes, *unanswered)
            }
            CoreEvent::Crash { image } => self.crash(image),
            _ => {
                self.tell(event);
                Ok(())
            }
        }
    }

    /// The offsets with a kept byte.
    pub fn booked(&self) -> &RangeSet
        ensures offsets { (events : List CoreEvent) → Stands events self.now →
            (x : ℕ) → HasOffset result.now.ranges x ↔ Booked events x }
        ensures kept { result.now.ranges ≡ self.now.booked }
        ensures normal { IsNormal result.now.ranges }
    {
        &self.booked
    }

    /// The kept byte at an offset, if there is one: that of the earliest block which has it. An open
    /// block counts from the next crash on, if the image has the offset in its ranges.
    pub fn kept_byte(&self, offset: u64) -> Option<u8>
        ensures byte { (events : List CoreEvent) → Stands events self.now →
            result ≡ kept events offset }
    {
        let mut found = Found {
            earliest: None,
            kept: None,
        };
        let mut later = self.entries.as_slice();
        while let Some((entry, rest)) = later.split_first() {
            found = entry.found_after(found, offset);
            later = rest;
        }
        found.kept
    }

    /// Whether the last transfer is done: it has as many EODs as its total, nothing failed it, and
    /// what is booked has no hole.
    pub fn is_done(&self) -> bool
        ensures done { (events : List CoreEvent) → Stands events self.now →
            IsTrue result ↔ Done events }
    {
        let whole = Range {
            start: 0,
            end: self.booked.end(),
        };
        self.progress.is_met() && self.booked.covers(whole)
    }

    /// Takes an event that is no block and no crash.
    fn tell(&mut self, event: &CoreEvent)
        ensures { BringsNoByte event.now → (events : List CoreEvent) → Stands events self.old →
            Stands (event.now ∷ events) self.new }
    {
        self.has_begun = true;
        match event {
            CoreEvent::Eod { .. } => self.progress.eod(),
            CoreEvent::Eof { total } => self.progress.eof(*total),
            CoreEvent::Lost | CoreEvent::Fault | CoreEvent::Abort => {
                self.progress = Progress::Failed;
            }
            CoreEvent::Fresh => {
                self.entries.clear();
                self.found.clear();
                self.booked.clear();
                self.progress = Progress::begin();
            }
            CoreEvent::Resume { .. } => self.progress = Progress::begin(),
            CoreEvent::Mark => {}
            CoreEvent::Block { .. } | CoreEvent::Crash { .. } => {}
        }
    }

    /// Takes a block of bytes that lie from `start` up to `end`.
    fn take(
        &mut self,
        start: u64,
        end: u64,
        bytes: &Octets,
        unanswered: bool,
    ) -> Result<(), OutOfMemory>
        requires end { end ≡ start + length bytes.now }
        ensures stands { OnOk result ((lane channel : ℕ) (events : List CoreEvent) →
            Stands events self.old →
            Stands (Block lane channel start bytes.now unanswered ∷ events) self.new) }
        ensures begun { OnOk result (IsTrue self.new.has_begun) }
        ensures err { OnErr result (self.new ≡ self.old) }
    {
        let entry = Taken::block(start, bytes, unanswered)?;
        // The room comes first, so that a refusal changes nothing.
        self.entries.reserve(1)?;
        self.found.reserve(1)?;
        self.booked.reserve(1)?;
        self.entries.push(entry)?;
        self.has_begun = true;
        add(&mut self.found, Range { start, end });
        if unanswered {
            return Ok(());
        }
        add(&mut self.booked, Range { start, end });
        Ok(())
    }

    /// A crash left this image.
    fn crash(&mut self, image: &Image) -> Result<(), OutOfMemory>
        ensures stands { OnOk result ((events : List CoreEvent) → Stands events self.old →
            Stands (Crash image.now ∷ events) self.new) }
        ensures err { OnErr result (self.new ≡ self.old) }
    {
        let alloc = *self.entries.allocator();
        let ranges = image.named(alloc)?;
        if self.has_begun {
            return self.keep_inside(ranges);
        }
        // The image is as if its data had been one open block, of which the crash kept its ranges.
        let mut first = Core::new(alloc);
        let end = image.bytes.bytes().len() as u64;
        first.take(0, end, &image.bytes, true)?;
        first.keep_inside(ranges)?;
        *self = first;
        Ok(())
    }

    /// A crash left an image with these ranges, behind other events.
    fn keep_inside(&mut self, ranges: RangeSet) -> Result<(), OutOfMemory>
        requires begun { IsTrue self.old.has_begun }
        ensures stands { OnOk result ((image : Image) (events : List CoreEvent) →
            ((x : ℕ) → HasOffset ranges.ranges x ↔ Covers image.ranges x) → Stands events self.old →
            Stands (Crash image ∷ events) self.new) }
        ensures err { OnErr result (self.new ≡ self.old) }
    {
        let left = common(&self.found, &ranges)?;
        let booked = left.copy()?;
        self.entries.reserve(1)?;
        self.entries.push(Taken::Crash { ranges })?;
        self.found = left;
        self.booked = booked;
        self.progress = Progress::Idle;
        Ok(())
    }
}
