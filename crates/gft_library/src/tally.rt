ghost use Rattle.std.specs.Prelude.{◌≡◌, slice_get, [], false, IfOk, option_copied};
ghost use Rattle.gft_library.specs.Answers.{NamedWord, TakesAnswer};
ghost use Rattle.gft_library.specs.Tallies.{new_tally, takes_answer, told_by};

use crate::answer::Answer;
use gft_base::OutOfMemory;
use std::alloc::Global;
use std::marker::Model;

/// Takes the answers of the library that a session gives.
pub trait Tally<S>: Sized {
    ghost use Rattle.std.specs.Prelude.{List, Option};
    ghost use Rattle.gft_library.specs.Answers.{NamedWord};

    /// The answers that were taken, the newest first, if the tally tells them.
    ghost told: { Self → Option (List NamedWord) };

    /// Takes one answer more, or tells nothing from then on.
    fn take(&mut self, answer: Answer<S>)
        ensures { TakesAnswer (told self.old) (told self.new) answer };
}

/// Keeps nothing, and tells nothing.
#[derive(Drop)]
pub struct NoTally;

impl<S> Tally<S> for NoTally {
    ghost use Rattle.std.specs.Prelude.{None};

    ghost told = { λ _. None };

    fn take(&mut self, _answer: Answer<S>)
        ensures { TakesAnswer (⟦<NoTally as Tally<S>>⟧.told self.old) (⟦<NoTally as Tally<S>>⟧.told self.new)
            _answer }
    {}
}

/// Keeps the answers that it takes, up to its room, and tells them; past its room it keeps and tells nothing
/// more. It takes its memory when it is made.
#[derive(Drop)]
pub struct MemoryTally<S> {
    answers: Vec<Answer<S>>,
    room: usize,
    is_full: bool,
}

impl<S> Model for MemoryTally<S> {
    ghost use Rattle.std.specs.Prelude.{◌≤◌, vec_capacity, vec_len};
    ghost use Rattle.gft_library.specs.Tallies.{TallyList};

    ghost Value = { TallyList };

    ghost view = { λ t. record { answers = t.answers.items; room = t.room; is_full = t.is_full } };

    ghost invariant = { λ t. (vec_len t.answers ≤ t.room) × (t.room ≤ vec_capacity t.answers) };
}

impl<S> MemoryTally<S> {
    /// A tally with room for so many answers. `OutOfMemory` if there is no memory for them.
    pub fn new(alloc: Global, room: u32) -> Result<MemoryTally<S>, OutOfMemory>
        ensures { IfOk result (λ tally. tally ≡ new_tally room) }
    {
        let room = room as usize;
        Ok(MemoryTally {
            answers: Vec::with_capacity(alloc, room)?,
            room,
            is_full: false,
        })
    }

    /// The `i`th answer that was taken, counted from 0, if it is kept.
    pub fn nth(&self, i: u32) -> Option<&Answer<S>>
        ensures { option_copied result ≡ slice_get self.now.answers i }
    {
        self.answers.get(i as usize)
    }
}

impl<S> Tally<S> for MemoryTally<S> {
    ghost told = { told_by };

    fn take(&mut self, answer: Answer<S>)
        ensures takes { self.new ≡ takes_answer self.old answer }
        ensures told { TakesAnswer (told_by self.old) (told_by self.new) answer }
    {
        if self.answers.len() < self.room {
            self.answers.push_reserved(answer);
        } else {
            self.is_full = true;
        }
    }
}
