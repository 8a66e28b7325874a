ghost use Rattle.std.specs.Prelude.{◌≡◌, ◌<◌, IfOk, MatchResult, None, Some, length};
ghost use Rattle.gft_drive.specs.Words.{sent_by};
ghost use Rattle.gft_keep.specs.Words.{keep_of};
ghost use Rattle.gft_library.specs.declared.TheConstants.{MAX_NAMES};
ghost use Rattle.gft_library.specs.Finding.{IsBarred, IsKeptFrom, asking};
ghost use Rattle.gft_library.specs.Kept.{OnlyUnder, Puts, kept_under};
ghost use Rattle.gft_library.specs.Names.{IsOwn, IsOwnDrive};
ghost use Rattle.gft_library.specs.Steps.{Admits, AdmitsNew, Brings};

use crate::MAX_NAMES;
use crate::error::LibraryError;
use crate::holding::{Holding, open};
use crate::names::Names;
use crate::seeking::{Absent, seek};
use gft_book::Book;
use gft_drive::{Drive, Origin};
use gft_outside::Shelf;
use gft_text::Name;

// How what is kept under a name comes to hand. Meanwhile the name stands as handed out.
impl<S: Shelf + Drop, O: Origin> Names<S, O> {
    /// Takes the name's Book.
    pub(crate) fn bring(
        &mut self,
        name: &Name,
        absent: Absent,
    ) -> Result<Book<S::D, O>, LibraryError>
        ensures only { OnlyUnder self.old.kept self.new.kept name.now }
        ensures label { IfOk result (λ book. (keep_of S.D.state book.keep).drive.label ≡ name.now) }
        ensures brings { MatchResult result
            (Brings (asking S.D.state S.state self.old name.now) absent self.new)
            (IsKeptFrom (asking S.D.state S.state self.old name.now) absent self.new) }
    {
        let holding = match self.admit(name, absent) {
            Ok(holding) => holding,
            Err(why) => return Err(why),
        };
        match open(self.alloc, holding) {
            Ok(book) => Ok(book),
            Err((why, holding)) => {
                self.keep(name, holding);
                Err(why)
            }
        }
    }

    /// Keeps this under a name that is kept.
    pub(crate) fn keep(&mut self, name: &Name, holding: Holding<S::D, O>)
        requires own { IsOwn S.D.state (sent_by O.source O.orders O.fit) name.now holding }
        ensures puts { Puts self.old.kept self.new.kept name.now holding }
        ensures shelf { self.new.shelf ≡ self.old.shelf }
    {
        self.kept.set(name, holding);
    }

    /// Takes what is kept under the name, or its drive from the shelf.
    fn admit(&mut self, name: &Name, absent: Absent) -> Result<Holding<S::D, O>, LibraryError>
        ensures only { OnlyUnder self.old.kept self.new.kept name.now }
        ensures own { IfOk result (IsOwn S.D.state (sent_by O.source O.orders O.fit) name.now) }
        ensures admits { MatchResult result
            (Admits (asking S.D.state S.state self.old name.now) absent self.new)
            (IsBarred (asking S.D.state S.state self.old name.now) absent self.new) }
    {
        if let Some(holding) = self.kept.put(name, Holding::HandedOut) {
            return Ok(holding);
        }
        if self.kept.len() >= MAX_NAMES {
            return Err(LibraryError::TooManyNames);
        }
        match self.admit_new(name, absent) {
            Ok(drive) => Ok(Holding::Unread(drive)),
            Err(why) => Err(why),
        }
    }

    /// Takes the drive of a name that isn't kept.
    fn admit_new(&mut self, name: &Name, absent: Absent) -> Result<S::D, LibraryError>
        requires none { kept_under self.old.kept name.now ≡ None }
        requires room { length self.old.kept < MAX_NAMES }
        ensures only { OnlyUnder self.old.kept self.new.kept name.now }
        ensures own { IfOk result (λ drive. IsOwnDrive (sent_by O.source O.orders O.fit) name.now
            (S.D.state drive)) }
        ensures admits { MatchResult result
            (AdmitsNew (asking S.D.state S.state self.old name.now) absent self.new)
            (IsBarred (asking S.D.state S.state self.old name.now) absent self.new) }
    {
        let Ok(copy) = name.copy() else {
            return Err(LibraryError::OutOfMemory);
        };
        let Ok(()) = self.kept.add(copy, Holding::HandedOut) else {
            return Err(LibraryError::OutOfMemory);
        };
        match seek(self.alloc, &mut self.shelf, name, absent) {
            Ok(drive) => Ok(drive),
            Err(why) => {
                self.kept.forget(name);
                Err(why)
            }
        }
    }
}
