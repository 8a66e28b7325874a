ghost use Rattle.std.specs.Prelude.{◌≡◌, ◌≤◌, IfErr, IfOk, IfSome, option_map, Some};
ghost use Rattle.gft_drive.specs.Words.{sent_by};
ghost use Rattle.gft_keep.specs.Words.{keep_of};
ghost use Rattle.gft_book.specs.declared.transfer.Stage.TheVariants.{Rest};
ghost use Rattle.gft_book.specs.Words.{NamesSome};
ghost use Rattle.gft_library.specs.Answers.{Answers, IsFor, Removes, Retrieves, Sizes, Stores, word_of_file};
ghost use Rattle.gft_library.specs.Calls.{ByBook, IsOfLastTransfer, LendsFile, RemovesOrNot, SizesName};
ghost use Rattle.gft_library.specs.Calls.{StoresName, unless_there};
ghost use Rattle.gft_library.specs.Finding.{asking};
ghost use Rattle.gft_library.specs.Names.{IsOwnDrive, NamesSeen, ShelfIsFrom};

use crate::answer::Answer;
use crate::names::{Names, Storing};
use gft_book::{Book, Finished, How, Reading};
use gft_drive::Origin;
use gft_outside::Shelf;
use gft_text::Name;
use std::alloc::Global;
use std::sync::{Mutex, Wait};

/// One lock round the [`Names`]: each call is that call of theirs, under the lock, on names that are as the
/// calls before left them.
#[derive(Drop)]
pub struct Library<S: Shelf + Drop, O: Origin> {
    names: Mutex<Names<S, O>>,
}

impl<S: Shelf + Drop, O: Origin> Library<S, O> {
    /// `Names::new`.
    pub fn new(alloc: Global, shelf: S) -> Self
        requires origin { ShelfIsFrom S.D.state (sent_by O.source O.orders O.fit) (S.state shelf) }
    {
        Library {
            names: Mutex::new(Names::new(alloc, shelf)),
        }
    }

    /// `Names::size`.
    pub fn size<R: Wait>(&self, rt: &R, name: &Name) -> Answer<S>
        ensures answers { Answers Sizes result.word }
        ensures named { IsFor name.now result }
        ensures call { (old new : NamesSeen S.D O S) × SizesName (sent_by O.source O.orders O.fit)
            (asking S.D.state S.state old name.now) new result.word }
    {
        self.names.lock(rt).size(name)
    }

    /// `Names::remove`.
    pub fn remove<R: Wait>(&self, rt: &R, name: &Name) -> Answer<S>
        ensures answers { Answers Removes result.word }
        ensures named { IsFor name.now result }
        ensures call { (old new : NamesSeen S.D O S) × RemovesOrNot (asking S.D.state S.state old name.now)
            new result.word }
    {
        self.names.lock(rt).remove(name)
    }

    /// `Names::store`.
    pub fn store<R: Wait>(
        &self,
        rt: &R,
        name: &Name,
        how: How,
        lanes: u16,
    ) -> Result<Storing<S::D, O>, Answer<S>>
        requires lanes { (1 ≤ lanes) × (lanes ≤ 16) }
        requires list { NamesSome how }
        ensures label { IfOk result (λ storing.
            (keep_of S.D.state storing.book.keep).drive.label ≡ name.now) }
        ensures stores { IfOk result (λ storing. (old new : NamesSeen S.D O S)
            × StoresName (asking S.D.state S.state old name.now) how lanes new storing.passes.items
            storing.book) }
        ensures answers { IfErr result (λ answer. Answers (Stores how) answer.word) }
        ensures named { IfErr result (IsFor name.now) }
    {
        self.names.lock(rt).store(name, how, lanes)
    }

    /// `Names::done_storing`.
    pub fn done_storing<R: Wait>(
        &self,
        rt: &R,
        name: Name,
        book: Book<S::D, O>,
        done: Option<Finished>,
    ) -> Option<Answer<S>>
        requires label { (keep_of S.D.state book.keep).drive.label ≡ name }
        requires rest { book.stage ≡ Rest }
        requires of_it { IfSome done (IsOfLastTransfer book.last) }
        ensures answer { result
            ≡ option_map (λ file. record { name = Some name; word = word_of_file file }) done }
    {
        self.names.lock(rt).done_storing(name, book, done)
    }

    /// `Names::retrieve`.
    pub fn retrieve<R: Wait>(
        &self,
        rt: &R,
        name: &Name,
        drives: u16,
    ) -> Result<Reading<S::D>, Answer<S>>
        requires drives { (1 ≤ drives) × (drives ≤ 16) }
        ensures lends { IfOk result (λ reading. (old new : NamesSeen S.D O S)
            × ByBook (asking S.D.state S.state old name.now) unless_there new
            (LendsFile S.D.state (sent_by O.source O.orders O.fit) drives reading.drives.items reading.len)) }
        ensures answers { IfErr result (λ answer. Answers Retrieves answer.word) }
        ensures named { IfErr result (IsFor name.now) }
    {
        self.names.lock(rt).retrieve(name, drives)
    }

    /// `Names::done_reading`.
    pub fn done_reading<R: Wait>(&self, rt: &R, name: &Name) {
        self.names.lock(rt).done_reading(name);
    }

    /// `Names::into_drive`; it takes no lock.
    pub fn into_drive(self, name: &Name) -> Option<S::D>
        ensures { IfSome result (λ drive. IsOwnDrive (sent_by O.source O.orders O.fit) name.now
            (S.D.state drive)) }
    {
        self.names.into_inner().into_drive(name)
    }
}
