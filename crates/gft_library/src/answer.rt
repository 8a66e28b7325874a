ghost use Rattle.std.specs.Prelude.{◌≡◌, None, option_copied, Some};

use crate::error::LibraryError;
use gft_text::Name;
use std::marker::{Model, PhantomData};

/// What the library answers. Lengths are in bytes.
#[derive(Clone, Copy, Debug, PartialEq, Eq)]
pub enum Word {
    /// The file has this length.
    Length(u64),
    /// The name was removed.
    Removed,
    /// The whole file was stored, with this length.
    Stored(u64),
    /// A part of the file was stored; its last kept byte stands before this offset.
    Part(u64),
    /// The call was refused.
    No(LibraryError),
}

/// An answer of the library about a name, for the shelf's type. Only the library makes one, and it can't be
/// cloned.
#[derive(Drop)]
pub struct Answer<S> {
    name: Option<Name>,
    word: Word,
    shelf: PhantomData<S>,
}

impl<S> Model for Answer<S> {
    ghost use Rattle.gft_library.specs.Answers.{NamedWord};

    ghost Value = { NamedWord };

    ghost view = { λ a. record { name = a.name; word = a.word } };
}

impl<S> Answer<S> {
    pub(crate) fn new(name: Name, word: Word) -> Self
        ensures { result ≡ record { name = Some name; word = word } }
    {
        Answer {
            name: Some(name),
            word,
            shelf: PhantomData,
        }
    }

    /// Memory for the name was refused.
    pub(crate) fn out_of_memory() -> Self
        ensures { result ≡ record { name = None; word = Word.No LibraryError.OutOfMemory } }
    {
        Answer {
            name: None,
            word: Word::No(LibraryError::OutOfMemory),
            shelf: PhantomData,
        }
    }

    /// The name that was asked for; only an answer of want of memory may have none.
    pub fn name(&self) -> Option<&Name>
        ensures { option_copied result ≡ self.now.name }
    {
        self.name.as_ref()
    }

    /// What is answered.
    pub fn word(&self) -> &Word
        ensures { result.now ≡ self.now.word }
    {
        &self.word
    }
}
