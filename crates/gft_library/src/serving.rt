ghost use Rattle.std.specs.Prelude.{◌≡◌, ◌≤◌, IfOk, MatchResult};
ghost use Rattle.gft_drive.specs.Words.{sent_by};
ghost use Rattle.gft_keep.specs.Words.{keep_of};
ghost use Rattle.gft_book.specs.Words.{NamesSome};
ghost use Rattle.gft_library.specs.Calls.{ByBook, EndsReader, IsNotRead, IsNotRemoved, IsNotStored};
ghost use Rattle.gft_library.specs.Calls.{LendsFile, RemovesKept, SizesName, StoresName, TakesBookBack};
ghost use Rattle.gft_library.specs.Calls.{absent_for, unless_there};
ghost use Rattle.gft_library.specs.Finding.{asking};
ghost use Rattle.gft_library.specs.Kept.{OnlyUnder};
ghost use Rattle.gft_library.specs.Steps.{Frees, IsNotFreed};

use crate::MAX_NAMES;
use crate::answer::Word;
use crate::book_calls::{begin_on, lend_of, length_of};
use crate::error::LibraryError;
use crate::holding::{Holding, end_read, in_use};
use crate::names::{Names, Storing};
use crate::seeking::{Absent, seek};
use gft_base::Failed;
use gft_book::{Book, How, Reading};
use gft_drive::{Drive, Origin};
use gft_outside::Shelf;
use gft_text::Name;

// The calls without their answers' names.
impl<S: Shelf + Drop, O: Origin> Names<S, O> {
    /// The length of the name's file, or why it isn't read.
    pub(crate) fn length(&mut self, name: &Name) -> Result<u64, LibraryError>
        ensures only { OnlyUnder self.old.kept self.new.kept name.now }
        ensures length { MatchResult result
            (λ len. SizesName (sent_by O.source O.orders O.fit) (asking S.D.state S.state self.old name.now)
            self.new (Word.Length len))
            (IsNotRead (asking S.D.state S.state self.old name.now) self.new) }
    {
        let mut book = match self.bring(name, Absent::Refuse(LibraryError::NoSuch)) {
            Ok(book) => book,
            Err(why) => return Err(why),
        };
        let answer = length_of(&mut book);
        self.keep(name, Holding::AtHand(book));
        answer
    }

    /// Lends drives of the name's file.
    pub(crate) fn lend(&mut self, name: &Name, drives: u16) -> Result<Reading<S::D>, LibraryError>
        requires drives { (1 ≤ drives) × (drives ≤ 16) }
        ensures only { OnlyUnder self.old.kept self.new.kept name.now }
        ensures lends { MatchResult result
            (λ reading. ByBook (asking S.D.state S.state self.old name.now) unless_there self.new
            (LendsFile S.D.state (sent_by O.source O.orders O.fit) drives reading.drives.items reading.len))
            (IsNotRead (asking S.D.state S.state self.old name.now) self.new) }
    {
        let mut book = match self.bring(name, Absent::Refuse(LibraryError::NoSuch)) {
            Ok(book) => book,
            Err(why) => return Err(why),
        };
        let answer = lend_of(&mut book, drives);
        self.keep(name, Holding::AtHand(book));
        answer
    }

    /// Hands the name's Book out with a transfer that begins on it.
    pub(crate) fn begin(
        &mut self,
        name: &Name,
        how: How,
        lanes: u16,
    ) -> Result<Storing<S::D, O>, LibraryError>
        requires lanes { (1 ≤ lanes) × (lanes ≤ 16) }
        requires list { NamesSome how }
        ensures label { IfOk result (λ storing.
            (keep_of S.D.state storing.book.keep).drive.label ≡ name.now) }
        ensures only { OnlyUnder self.old.kept self.new.kept name.now }
        ensures stores { MatchResult result
            (λ storing. StoresName (asking S.D.state S.state self.old name.now) how lanes self.new
            storing.passes.items storing.book)
            (IsNotStored (asking S.D.state S.state self.old name.now) how self.new) }
    {
        let mut book = match self.bring(name, absent_for(&how)) {
            Ok(book) => book,
            Err(why) => return Err(why),
        };
        match begin_on(&mut book, how, lanes) {
            Ok(passes) => Ok(Storing { book, passes }),
            Err(why) => {
                self.keep(name, Holding::AtHand(book));
                Err(why)
            }
        }
    }

    /// Puts the name's Book back, if it is handed out.
    pub(crate) fn take_back(&mut self, name: &Name, book: Book<S::D, O>)
        requires label { (keep_of S.D.state book.keep).drive.label ≡ name.now }
        ensures only { OnlyUnder self.old.kept self.new.kept name.now }
        ensures back { TakesBookBack (asking S.D.state S.state self.old name.now) self.new book }
    {
        if let Some(Holding::HandedOut) = self.kept.get(name) {
            self.keep(name, Holding::AtHand(book));
        }
    }

    /// A reader has ended, if the name's Book is at hand.
    pub(crate) fn end_read(&mut self, name: &Name)
        ensures only { OnlyUnder self.old.kept self.new.kept name.now }
        ensures ends { EndsReader (asking S.D.state S.state self.old name.now) self.new }
    {
        if let Some(holding) = self.kept.put(name, Holding::HandedOut) {
            self.keep(name, end_read(holding));
        }
    }

    /// Takes the name from the library and from the shelf.
    pub(crate) fn take_away(&mut self, name: &Name) -> Result<(), LibraryError>
        ensures only { OnlyUnder self.old.kept self.new.kept name.now }
        ensures removes { MatchResult result
            (λ _. RemovesKept (asking S.D.state S.state self.old name.now) self.new)
            (IsNotRemoved (asking S.D.state S.state self.old name.now) self.new) }
    {
        if let Err(why) = self.free(name) {
            return Err(why);
        }
        match self.shelf.remove(name) {
            Ok(()) => Ok(()),
            Err(Failed) => Err(LibraryError::ShelfFailed),
        }
    }

    /// Drops what is kept under the name, or its drive on the shelf, if its file is at rest.
    fn free(&mut self, name: &Name) -> Result<(), LibraryError>
        ensures only { OnlyUnder self.old.kept self.new.kept name.now }
        ensures frees { MatchResult result
            (λ _. Frees (asking S.D.state S.state self.old name.now) self.new)
            (IsNotFreed (asking S.D.state S.state self.old name.now) self.new) }
    {
        if let Some(holding) = self.kept.get(name) {
            if let Some(found) = in_use(holding) {
                return Err(LibraryError::Busy { found });
            }
            self.kept.forget(name);
            return Ok(());
        }
        if self.kept.len() >= MAX_NAMES {
            return Err(LibraryError::TooManyNames);
        }
        let absent = Absent::Refuse(LibraryError::NoSuch);
        match seek(self.alloc, &mut self.shelf, name, absent) {
            Ok(_drive) => Ok(()),
            Err(why) => Err(why),
        }
    }
}

/// A restart needs its first range.
fn absent_for(how: &How) -> Absent
    ensures { result ≡ absent_for how.now }
{
    match how {
        How::Fresh | How::Esto => Absent::Make,
        How::Resume(list) => match list.nth(0) {
            Some(missing) => Absent::Refuse(LibraryError::NotInJournal { missing }),
            None => Absent::Refuse(LibraryError::NoSuch),
        },
    }
}
