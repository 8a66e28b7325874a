ghost use Rattle.std.specs.Prelude.{◌≡◌, ◌<◌, ◌∷◌, [], ◌++◌, IfOk, IfSome, IfNone, IsTrue};
ghost use Rattle.gft_herald.specs.Line.{IsFrontOf, IsNamed, SamePushed, TakesNext, TakesOne};

use crate::bell::Bell;
use gft_base::OutOfMemory;
use gft_range::RangeSet;
use rtrb::{Consumer, Producer, Protocol, RingBuffer};
use std::alloc::Global;
use std::marker::Model;
use std::sync::{Arc, Wait};

/// What a line takes: sets that a marker has room for.
pub(crate) struct Marks;

impl Protocol<RangeSet> for Marks {
    ghost use Rattle.gft_herald.specs.Line.{IsNamed};

    ghost allows = { λ _ set. IsNamed set.ranges };
}

/// The end of a line that pushes marks.
#[derive(Drop)]
pub struct Pusher {
    producer: Producer<RangeSet, Global, Marks>,
    bell: Arc<Bell, Global>,
}

impl Model for Pusher {
    ghost use Rattle.gft_herald.specs.Line.{Pushed, pushed_by};

    ghost Value = { Pushed };

    ghost view = { λ p. pushed_by p.producer };
}

/// The end of a line that takes marks, in the order in which they were pushed.
#[derive(Drop)]
pub struct Taker {
    consumer: Consumer<RangeSet, Global, Marks>,
    bell: Arc<Bell, Global>,
}

impl Model for Taker {
    ghost use Rattle.gft_herald.specs.Line.{Taken, taken_by};

    ghost Value = { Taken };

    ghost view = { λ t. taken_by t.consumer };
}

/// What a teller waits for.
#[derive(Drop)]
pub enum Next {
    /// The next mark names these ranges.
    Mark(RangeSet),
    /// Memory for a mark was refused.
    Starved,
    /// No mark comes any more.
    Closed,
}

/// A new line with room for so many marks. `OutOfMemory` if it can't be allocated.
pub fn line(alloc: Global, room: usize) -> Result<(Pusher, Taker), OutOfMemory>
    ensures pair { IfOk result (λ ends. ends.0.line ≡ ends.1.line) }
    ensures none { IfOk result (λ ends. (ends.0.marks ≡ []) × (ends.1.marks ≡ [])) }
{
    let bell = Arc::new(alloc, Bell::new())?;
    let rope = Arc::try_clone(&bell)?;
    let (producer, consumer) = RingBuffer::with_protocol::<Global, Marks>(alloc, room)?;
    let pusher = Pusher {
        producer,
        bell: rope,
    };
    let taker = Taker { consumer, bell };
    Ok((pusher, taker))
}

impl Pusher {
    /// Whether there is room for a mark.
    pub fn has_room(&mut self) -> bool
        ensures same { SamePushed self.old self.new }
        ensures room { IsTrue result → 0 < self.new.free }
    {
        !self.producer.is_full()
    }

    /// Pushes a mark, and wakes the teller.
    pub fn push(&mut self, ranges: RangeSet)
        requires room { 0 < self.old.free }
        requires named { IsNamed ranges.ranges }
        ensures line { self.new.line ≡ self.old.line }
        ensures marks { self.new.marks ≡ self.old.marks ++ ranges.ranges ∷ [] }
    {
        self.producer.push_reserved(ranges);
        self.bell.ring();
    }

    /// Tells the teller that memory for a mark was refused.
    pub fn starve(&mut self)
        ensures same { SamePushed self.old self.new }
    {
        self.bell.starve();
    }

    /// Tells the teller that no mark comes any more.
    pub fn close(&mut self)
        ensures same { SamePushed self.old self.new }
    {
        self.bell.close();
    }
}

impl Taker {
    /// Waits for what comes next: a mark, if there is one; else what the teller was told.
    pub fn next<R: Wait>(&mut self, rt: &R) -> Next
        ensures takes { TakesNext self.old self.new result }
    {
        'rings: for _ in rt.forever() {
            let closed = self.bell.is_closed();
            if let Ok(ranges) = self.consumer.pop() {
                return Next::Mark(ranges);
            }
            if self.bell.is_starved() {
                return Next::Starved;
            }
            if closed {
                return Next::Closed;
            }
            self.bell.wait(rt);
        }
        unreachable!()
    }

    /// Takes the next mark of those that were pushed; None if all were taken. It doesn't wait.
    pub fn next_beside(&mut self, pusher: &mut Pusher) -> Option<RangeSet>
        requires line { pusher.old.line ≡ self.old.line }
        ensures pusher { SamePushed pusher.old pusher.new }
        ensures some { IfSome result (λ set. TakesOne self.old self.new set.ranges) }
        ensures none { IfNone result ((self.new ≡ self.old) × (self.new.marks ≡ pusher.new.marks)) }
        ensures front { IfSome result (λ _. IsFrontOf pusher.new self.new) }
    {
        if self.consumer.slots_beside(&mut pusher.producer) == 0 {
            return None;
        }
        Some(self.consumer.pop_known())
    }

    /// Tells contracts that what was taken is the front of what was pushed.
    pub fn look_beside(&mut self, pusher: &mut Pusher)
        requires line { pusher.old.line ≡ self.old.line }
        ensures pusher { SamePushed pusher.old pusher.new }
        ensures same { self.new ≡ self.old }
        ensures front { IsFrontOf pusher.new self.new }
    {
        self.consumer.slots_beside(&mut pusher.producer);
    }
}
