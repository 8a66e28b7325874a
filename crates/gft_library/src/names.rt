ghost use Rattle.std.specs.Prelude.{◌≡◌, ◌≤◌, [], IfErr, IfOk, IfSome, MatchResult, option_map, Some};
ghost use Rattle.gft_drive.specs.Words.{sent_by};
ghost use Rattle.gft_keep.specs.Words.{keep_of};
ghost use Rattle.gft_book.specs.declared.transfer.Stage.TheVariants.{Rest};
ghost use Rattle.gft_book.specs.Words.{NamesSome};
ghost use Rattle.gft_library.specs.Answers.{IsFor, RefusedWith, word_of_file};
ghost use Rattle.gft_library.specs.Calls.{ByBook, EndsReader, IsNotRead, IsNotStored, IsOfLastTransfer};
ghost use Rattle.gft_library.specs.Calls.{LendsFile, RemovesOrNot, SizesName, StoresName, TakesBookBack};
ghost use Rattle.gft_library.specs.Calls.{drive_in, unless_there};
ghost use Rattle.gft_library.specs.Finding.{asking};
ghost use Rattle.gft_library.specs.Kept.{OnlyUnder, kept_under};
ghost use Rattle.gft_library.specs.Names.{IsOwnDrive, ShelfIsFrom};

use crate::answer::{Answer, Word};
use crate::holding::{Holding, into_drive};
use crate::list::NameList;
use gft_book::{Book, Finished, How, Reading};
use gft_drive::{Drive, Origin};
use gft_outside::Shelf;
use gft_pass::Pass;
use gft_text::Name;
use std::alloc::Global;
use std::marker::Model;

/// A Book that is handed out for a transfer that it runs, and the transfer's passes.
#[derive(Drop)]
pub struct Storing<D: Drive + Drop, O: Origin> {
    pub book: Book<D, O>,
    pub passes: Vec<Pass>,
}

/// The files by their names, each with its Book. Every call leaves all names but its own as they are.
///
/// A name that isn't kept is looked for on the shelf. A drive that can't be attached is kept, and attached
/// again in the next call. A call is refused for the first of these: want of memory for the name; `Busy` if
/// the Book is handed out; `TooManyNames` if [`MAX_NAMES`](crate::MAX_NAMES) names are kept and this isn't
/// one; what the shelf refuses; what attaching the drive refuses; what the Book refuses.
#[derive(Drop)]
pub struct Names<S: Shelf + Drop, O: Origin> {
    pub(crate) alloc: Global,
    pub(crate) shelf: S,
    pub(crate) kept: NameList<Holding<S::D, O>>,
}

impl<S: Shelf + Drop, O: Origin> Model for Names<S, O> {
    ghost use Rattle.gft_drive.specs.Words.{sent_by};
    ghost use Rattle.gft_library.specs.Names.{AreNames, NamesSeen};

    ghost Value = { NamesSeen S.D O S };

    ghost view = { λ n. record { shelf = n.shelf; kept = n.kept } };

    ghost invariant = { λ n. AreNames S.D.state S.state (sent_by O.source O.orders O.fit) (record {
      shelf = n.shelf;
      kept = n.kept;
    }) };
}

impl<S: Shelf + Drop, O: Origin> Names<S, O> {
    /// No name is kept. If the origin names a source for a label, what the shelf has under it is the
    /// source's.
    pub fn new(alloc: Global, shelf: S) -> Self
        requires origin { ShelfIsFrom S.D.state (sent_by O.source O.orders O.fit) (S.state shelf) }
        ensures { result ≡ record { shelf = shelf; kept = [] } }
    {
        Names {
            alloc,
            shelf,
            kept: NameList::new(alloc),
        }
    }

    /// The length in bytes of the name's file: the complete length, or all bytes of a file that was made
    /// elsewhere. It is refused as [`retrieve`](Names::retrieve) is, and leaves the use as it was.
    pub fn size(&mut self, name: &Name) -> Answer<S>
        ensures named { IsFor name.now result }
        ensures only { OnlyUnder self.old.kept self.new.kept name.now }
        ensures word { SizesName (sent_by O.source O.orders O.fit)
            (asking S.D.state S.state self.old name.now) self.new result.word }
    {
        let Ok(copy) = name.copy() else {
            return Answer::out_of_memory();
        };
        match self.length(name) {
            Ok(len) => Answer::new(copy, Word::Length(len)),
            Err(why) => Answer::new(copy, Word::No(why)),
        }
    }

    /// Removes the name with its file; no drive is attached for that. `Busy` if the file is in use; `NoSuch`
    /// if there is none; `ShelfFailed` if the shelf fails, which then may have the file still: the next call
    /// looks for it there.
    pub fn remove(&mut self, name: &Name) -> Answer<S>
        ensures named { IsFor name.now result }
        ensures only { OnlyUnder self.old.kept self.new.kept name.now }
        ensures word { RemovesOrNot (asking S.D.state S.state self.old name.now) self.new result.word }
    {
        let Ok(copy) = name.copy() else {
            return Answer::out_of_memory();
        };
        match self.take_away(name) {
            Ok(()) => Answer::new(copy, Word::Removed),
            Err(why) => Answer::new(copy, Word::No(why)),
        }
    }

    /// Hands the name's Book out for a transfer of 1 to 16 lanes, which begins on it. A name that is nowhere
    /// is made; but a restart is refused then, with `NotInJournal` and its list's first range. The Book
    /// refuses as its `begin_store` says.
    pub fn store(
        &mut self,
        name: &Name,
        how: How,
        lanes: u16,
    ) -> Result<Storing<S::D, O>, Answer<S>>
        requires lanes { (1 ≤ lanes) × (lanes ≤ 16) }
        requires list { NamesSome how }
        ensures label { IfOk result (λ storing.
            (keep_of S.D.state storing.book.keep).drive.label ≡ name.now) }
        ensures named { IfErr result (IsFor name.now) }
        ensures only { OnlyUnder self.old.kept self.new.kept name.now }
        ensures stores { MatchResult result
            (λ storing. StoresName (asking S.D.state S.state self.old name.now) how lanes self.new
            storing.passes.items storing.book)
            (λ answer. RefusedWith answer.word
            (IsNotStored (asking S.D.state S.state self.old name.now) how self.new)) }
    {
        let Ok(copy) = name.copy() else {
            return Err(Answer::out_of_memory());
        };
        match self.begin(name, how, lanes) {
            Ok(storing) => Ok(storing),
            Err(why) => Err(Answer::new(copy, Word::No(why))),
        }
    }

    /// Takes a Book back, at rest; if none is handed out under the name, it is dropped. Answers what was
    /// finished, if anything was: `Stored`, or `Part` for an ESTO. It takes no memory.
    pub fn done_storing(
        &mut self,
        name: Name,
        book: Book<S::D, O>,
        done: Option<Finished>,
    ) -> Option<Answer<S>>
        requires label { (keep_of S.D.state book.keep).drive.label ≡ name }
        requires rest { book.stage ≡ Rest }
        requires of_it { IfSome done (IsOfLastTransfer book.last) }
        ensures answer { result
            ≡ option_map (λ file. record { name = Some name; word = word_of_file file }) done }
        ensures only { OnlyUnder self.old.kept self.new.kept name }
        ensures back { TakesBookBack (asking S.D.state S.state self.old name) self.new book }
    {
        self.take_back(&name, book);
        let file = done?;
        let word = if file.is_whole() {
            Word::Stored(file.len())
        } else {
            Word::Part(file.len())
        };
        Some(Answer::new(name, word))
    }

    /// Lends 1 to 16 drives of the name's file to a reader. The Book refuses as its `begin_read` says, and a
    /// name that is nowhere is refused with `NoSuch`.
    pub fn retrieve(&mut self, name: &Name, drives: u16) -> Result<Reading<S::D>, Answer<S>>
        requires drives { (1 ≤ drives) × (drives ≤ 16) }
        ensures named { IfErr result (IsFor name.now) }
        ensures only { OnlyUnder self.old.kept self.new.kept name.now }
        ensures lends { MatchResult result
            (λ reading. ByBook (asking S.D.state S.state self.old name.now) unless_there self.new
            (LendsFile S.D.state (sent_by O.source O.orders O.fit) drives reading.drives.items reading.len))
            (λ answer. RefusedWith answer.word
            (IsNotRead (asking S.D.state S.state self.old name.now) self.new)) }
    {
        let Ok(copy) = name.copy() else {
            return Err(Answer::out_of_memory());
        };
        match self.lend(name, drives) {
            Ok(reading) => Ok(reading),
            Err(why) => Err(Answer::new(copy, Word::No(why))),
        }
    }

    /// A reader of the name's file has ended. If the Book isn't at hand, nothing changes.
    pub fn done_reading(&mut self, name: &Name)
        ensures only { OnlyUnder self.old.kept self.new.kept name.now }
        ensures ends { EndsReader (asking S.D.state S.state self.old name.now) self.new }
    {
        self.end_read(name);
    }

    /// Gives the drive that is kept under the name, if its file is at rest; the other files are let go. Its
    /// label is the name, and if the origin names a source for it, it has the source's bytes alone.
    pub fn into_drive(self, name: &Name) -> Option<S::D>
        ensures drive { result ≡ drive_in (kept_under self.kept name.now) }
        ensures own { IfSome result (λ drive. IsOwnDrive (sent_by O.source O.orders O.fit) name.now
            (S.D.state drive)) }
    {
        let mut kept = self.kept;
        match kept.remove(name) {
            Some(holding) => into_drive(holding),
            None => None,
        }
    }
}
