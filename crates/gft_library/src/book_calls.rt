ghost use Rattle.std.specs.Prelude.{◌≡◌, ◌≤◌, MatchResult};
ghost use Rattle.gft_drive.specs.Words.{sent_by};
ghost use Rattle.gft_keep.specs.Words.{keep_of};
ghost use Rattle.gft_book.specs.Words.{NamesSome, book_of};
ghost use Rattle.gft_library.specs.Calls.{BeginsTransfer, LendsFile, RefusesReader, RefusesTransfer};
ghost use Rattle.gft_library.specs.Calls.{TellsLength};

use crate::error::LibraryError;
use gft_book::{Book, How, Reading};
use gft_drive::{Drive, Origin};
use gft_pass::Pass;

/// The length of a Book's file.
pub(crate) fn length_of<D: Drive + Drop, O: Origin>(
    book: &mut Book<D, O>,
) -> Result<u64, LibraryError>
    ensures label { (keep_of D.state book.new.keep).drive.label
        ≡ (keep_of D.state book.old.keep).drive.label }
    ensures length { MatchResult result
        (λ len. TellsLength (sent_by O.source O.orders O.fit) (book_of D.state book.old)
        (book_of D.state book.new) len)
        (λ why. RefusesReader D.state why book.old book.new) }
{
    book.facts();
    match book.begin_read(1) {
        Ok(reading) => {
            book.end_read();
            Ok(reading.len)
        }
        Err(why) => Err(why.into()),
    }
}

/// Lends drives of a Book's file.
pub(crate) fn lend_of<D: Drive + Drop, O: Origin>(
    book: &mut Book<D, O>,
    drives: u16,
) -> Result<Reading<D>, LibraryError>
    requires drives { (1 ≤ drives) × (drives ≤ 16) }
    ensures label { (keep_of D.state book.new.keep).drive.label
        ≡ (keep_of D.state book.old.keep).drive.label }
    ensures lends { MatchResult result
        (λ reading. LendsFile D.state (sent_by O.source O.orders O.fit) drives reading.drives.items
        reading.len book.old book.new)
        (λ why. RefusesReader D.state why book.old book.new) }
{
    match book.begin_read(drives) {
        Ok(reading) => Ok(reading),
        Err(why) => Err(why.into()),
    }
}

/// Begins a transfer on a Book.
pub(crate) fn begin_on<D: Drive + Drop, O: Origin>(
    book: &mut Book<D, O>,
    how: How,
    lanes: u16,
) -> Result<Vec<Pass>, LibraryError>
    requires lanes { (1 ≤ lanes) × (lanes ≤ 16) }
    requires list { NamesSome how }
    ensures label { (keep_of D.state book.new.keep).drive.label
        ≡ (keep_of D.state book.old.keep).drive.label }
    ensures begins { MatchResult result
        (λ passes. BeginsTransfer D.state how lanes passes.items book.old book.new)
        (λ why. RefusesTransfer D.state how why book.old book.new) }
{
    match book.begin_store(how, lanes) {
        Ok(passes) => Ok(passes),
        Err(why) => Err(why.into()),
    }
}
