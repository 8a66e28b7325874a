ghost use Rattle.std.specs.Prelude.{◌≡◌, ℕ, IfErr, IfOk, IfSome, List, MatchResult, Some};
ghost use Rattle.gft_drive.specs.Words.{sent_by};
ghost use Rattle.gft_keep.specs.Words.{keep_of};
ghost use Rattle.gft_library.specs.Calls.{drive_in, in_use, with_reader_fewer};
ghost use Rattle.gft_library.specs.Finding.{IsOpenedOn, NotOpenedOn};
ghost use Rattle.gft_library.specs.Names.{DriveIsFrom, IsOwn, IsOwnDrive};
ghost use Rattle.gft_library.specs.declared.holding.Holding.TheVariants.{AtHand};
ghost use Rattle.gft_library.specs.Steps.{HasSource, Opens, OpensNot, StaysOwn};

use crate::error::LibraryError;
use gft_book::{Book, Use};
use gft_drive::{Drive, Origin};
use gft_keep::Keep;
use std::alloc::Global;

/// What is kept under a name.
#[derive(Drop)]
pub(crate) enum Holding<D: Drive + Drop, O: Origin> {
    /// The name's Book.
    AtHand(Book<D, O>),
    /// Nothing: the Book is handed out to a transfer.
    HandedOut,
    /// The name's drive, which could not be attached yet.
    Unread(D),
}

/// The Book of what is kept under a name: a drive is attached.
pub(crate) fn open<D: Drive + Drop, O: Origin>(
    alloc: Global,
    holding: Holding<D, O>,
) -> Result<Book<D, O>, (LibraryError, Holding<D, O>)>
    requires from { HasSource D.state (sent_by O.source O.orders O.fit) holding }
    ensures opened { MatchResult result (Opens D.state holding)
        (λ refused. OpensNot D.state holding refused.0 refused.1) }
    ensures own { MatchResult result
        (λ book. StaysOwn D.state (sent_by O.source O.orders O.fit) holding (AtHand book))
        (λ refused. StaysOwn D.state (sent_by O.source O.orders O.fit) holding refused.1) }
{
    match holding {
        Holding::AtHand(book) => Ok(book),
        Holding::HandedOut => {
            let found = Use::Storing;
            Err((LibraryError::Busy { found }, Holding::HandedOut))
        }
        Holding::Unread(drive) => match open_drive(alloc, drive) {
            Ok(book) => Ok(book),
            Err((why, drive)) => Err((why, Holding::Unread(drive))),
        },
    }
}

/// A Book over a drive, once it is attached.
fn open_drive<D: Drive + Drop, O: Origin>(
    alloc: Global,
    drive: D,
) -> Result<Book<D, O>, (LibraryError, D)>
    requires from { DriveIsFrom (sent_by O.source O.orders O.fit) (D.state drive) }
    ensures opened { IfOk result (IsOpenedOn D.state drive) }
    ensures refused { IfErr result (λ refused. NotOpenedOn D.state drive refused.0 refused.1) }
    ensures label { MatchResult result
        (λ book. (keep_of D.state book.keep).drive.label ≡ (D.state drive).label)
        (λ refused. (D.state refused.1).label ≡ (D.state drive).label) }
    ensures from { IfErr result (λ refused. DriveIsFrom (sent_by O.source O.orders O.fit)
        (D.state refused.1)) }
{
    match Keep::attach(alloc, drive) {
        Ok(keep) => Ok(Book::new(alloc, keep)),
        Err((error, drive)) => Err((error.into(), drive)),
    }
}

/// One reader of the file has ended, if its Book is at hand.
pub(crate) fn end_read<D: Drive + Drop, O: Origin>(holding: Holding<D, O>) -> Holding<D, O>
    ensures ends { result ≡ with_reader_fewer holding }
    ensures own { StaysOwn D.state (sent_by O.source O.orders O.fit) holding result }
{
    match holding {
        Holding::AtHand(mut book) => {
            book.end_read();
            Holding::AtHand(book)
        }
        Holding::HandedOut => Holding::HandedOut,
        Holding::Unread(drive) => Holding::Unread(drive),
    }
}

/// How the file is used, unless it is at rest.
pub(crate) fn in_use<D: Drive + Drop, O: Origin>(holding: &Holding<D, O>) -> Option<Use>
    ensures { result ≡ in_use holding.now }
{
    match holding {
        Holding::AtHand(book) => match book.use_now() {
            Use::Rest => None,
            found => Some(found),
        },
        Holding::HandedOut => Some(Use::Storing),
        Holding::Unread(_) => None,
    }
}

/// The drive of a file that is at rest.
pub(crate) fn into_drive<D: Drive + Drop, O: Origin>(holding: Holding<D, O>) -> Option<D>
    ensures drive { result ≡ drive_in (Some holding) }
    ensures own { (name : List ℕ) → IsOwn D.state (sent_by O.source O.orders O.fit) name holding
        → IfSome result (λ drive. IsOwnDrive (sent_by O.source O.orders O.fit) name (D.state drive)) }
{
    match holding {
        Holding::AtHand(book) => match book.use_now() {
            Use::Rest => Some(book.into_keep().into_drive()),
            _ => None,
        },
        Holding::HandedOut => None,
        Holding::Unread(drive) => Some(drive),
    }
}
