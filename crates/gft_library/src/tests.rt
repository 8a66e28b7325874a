ghost use Rattle.std.specs.Prelude.{◌≡◌};
ghost use Rattle.gft_keep.specs.Words.{keep_of};
ghost use Rattle.gft_book.specs.Words.{HasAllPasses};
ghost use Rattle.gft_book.specs.declared.transfer.Stage.TheVariants.{Rest};

use super::*;
use gft_base::OutOfMemory;
use gft_book::{Book, How, Use};
use gft_drive::{CallKind, Drive, FailAt, MemoryDrive, Part, Unknown};
use gft_outside::{MemoryShelf, NamedDrive};
use gft_text::read_name;
use std::alloc::Global;
use std::test::Fail;

type Files = Library<MemoryShelf, Unknown>;

const ABSENT: Word = Word::No(LibraryError::NoSuch);

// A file with the bytes `hello`, made elsewhere, whose drive fails these calls.
fn hello(alloc: Global, name: &[u8], failing: &[FailAt]) -> Result<NamedDrive, Fail> {
    let name = read_name(alloc, name)?;
    let mut drive = MemoryDrive::new(alloc, name.as_bytes(), 9, u32::MAX, failing)?;
    drive.write_at(Part::Bytes, 0, b"hello")?;
    Ok(NamedDrive::new(name, drive))
}

// The library of these files; a shelf's call of this number fails.
fn files(alloc: Global, drives: Vec<NamedDrive>, failing: Vec<u32>) -> Files {
    Library::new(
        alloc,
        MemoryShelf::new(drives, 9, u32::MAX, Vec::new(alloc), failing),
    )
}

// Why a call is refused, if it is.
fn refusal<T: Drop>(answered: &Result<T, Answer<MemoryShelf>>) -> Option<Word> {
    match answered {
        Ok(_) => None,
        Err(answer) => Some(*answer.word()),
    }
}

#[test]
fn a_book_is_handed_out_once(rt: HostRuntime) -> Result<(), Fail> {
    let alloc = rt.alloc();
    let files = files(alloc, Vec::new(alloc), Vec::new(alloc));
    let (a, b) = (read_name(alloc, b"a")?, read_name(alloc, b"b")?);
    let busy = Word::No(LibraryError::Busy {
        found: Use::Storing,
    });
    let storing = files.store(&rt, &a, How::Fresh, 1);
    assert_eq!(rt; refusal(&storing), None);
    let again = files.store(&rt, &a, How::Fresh, 1);
    assert_eq!(rt; refusal(&again), Some(busy));
    let reading = files.retrieve(&rt, &b, 1);
    assert_eq!(rt; refusal(&reading), Some(ABSENT));
    let size = files.size(&rt, &b);
    assert_eq!(rt; *size.word(), ABSENT);
    let removed = files.remove(&rt, &b);
    assert_eq!(rt; *removed.word(), ABSENT);
    Ok(())
}

// The Book, once its transfer is settled, for which no byte came.
fn settled<D: Drive + Drop>(storing: Storing<D, Unknown>) -> Book<D, Unknown>
    requires { HasAllPasses storing.book.stage storing.passes.items }
    ensures rest { result.stage ≡ Rest }
    ensures label { (keep_of D.state result.keep).drive.label
        ≡ (keep_of D.state storing.book.keep).drive.label }
{
    let Storing { mut book, passes } = storing;
    let _hole = book.settle(passes);
    book
}

#[test]
fn a_book_comes_back(rt: HostRuntime) -> Result<(), Fail> {
    let alloc = rt.alloc();
    let files = files(alloc, Vec::new(alloc), Vec::new(alloc));
    let a = read_name(alloc, b"a")?;
    let copy = a.copy()?;
    let Ok(storing) = files.store(&rt, &a, How::Fresh, 1) else {
        return Err(OutOfMemory.into());
    };
    let book = settled(storing);
    assert!(rt; files.done_storing(&rt, copy, book, None).is_none());
    let size = files.size(&rt, &a);
    assert_eq!(rt; *size.word(), Word::No(LibraryError::Incomplete));
    Ok(())
}

#[test]
fn a_file_is_read_and_removed(rt: HostRuntime) -> Result<(), Fail> {
    let alloc = rt.alloc();
    let drives = vec![in alloc; hello(alloc, b"a", &[])?]?;
    let files = files(alloc, drives, Vec::new(alloc));
    let a = read_name(alloc, b"a")?;
    let size = files.size(&rt, &a);
    assert_eq!(rt; *size.word(), Word::Length(5));
    let Ok(reading) = files.retrieve(&rt, &a, 2) else {
        return Err(OutOfMemory.into());
    };
    assert_eq!(rt; (reading.len, reading.drives.len()), (5, 2));
    let found = Use::Reading(1);
    let refused = files.remove(&rt, &a);
    assert_eq!(rt; *refused.word(), Word::No(LibraryError::Busy { found }));
    files.done_reading(&rt, &a);
    let removed = files.remove(&rt, &a);
    assert_eq!(rt; *removed.word(), Word::Removed);
    let gone = files.size(&rt, &a);
    assert_eq!(rt; *gone.word(), ABSENT);
    Ok(())
}

// The shelf's first call fails, and so does the first length of the drive.
#[test]
fn a_drive_is_attached_again(rt: HostRuntime) -> Result<(), Fail> {
    let alloc = rt.alloc();
    let first = FailAt {
        call: CallKind::Len,
        part: Part::Ranges,
        number: 1,
    };
    let drives = vec![in alloc; hello(alloc, b"a", &[first])?]?;
    let files = files(alloc, drives, vec![in alloc; 1]?);
    let a = read_name(alloc, b"a")?;
    let unasked = files.size(&rt, &a);
    assert_eq!(rt; *unasked.word(), Word::No(LibraryError::ShelfFailed));
    let failed = files.size(&rt, &a);
    assert_eq!(rt; *failed.word(), Word::No(LibraryError::DriveFailed));
    let size = files.size(&rt, &a);
    assert_eq!(rt; *size.word(), Word::Length(5));
    assert!(rt; files.into_drive(&a).is_some());
    Ok(())
}

#[test]
fn a_tally_keeps_what_it_has_room_for(rt: HostRuntime) -> Result<(), Fail> {
    let alloc = rt.alloc();
    let files = files(alloc, Vec::new(alloc), Vec::new(alloc));
    let b = read_name(alloc, b"b")?;
    let mut tally: MemoryTally<MemoryShelf> = MemoryTally::new(alloc, 1)?;
    tally.take(files.size(&rt, &b));
    tally.take(files.remove(&rt, &b));
    let Some(answer) = tally.nth(0) else {
        return Err(OutOfMemory.into());
    };
    assert_eq!(rt; *answer.word(), ABSENT);
    assert_eq!(rt; answer.name().map(|name| name.as_bytes().len()), Some(1));
    assert!(rt; tally.nth(1).is_none());
    NoTally.take(files.size(&rt, &b));
    Ok(())
}
