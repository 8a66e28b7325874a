ghost use Rattle.std.specs.Prelude.{MatchResult};
ghost use Rattle.gft_library.specs.Finding.{Seeks, SeeksNot};

use crate::error::LibraryError;
use gft_outside::Shelf;
use gft_text::Name;
use std::alloc::Global;

/// What is done about a name that is neither kept nor on the shelf.
#[derive(Clone, Copy)]
pub(crate) enum Absent {
    /// The call is refused with this.
    Refuse(LibraryError),
    /// The shelf makes it.
    Make,
}

/// Takes the drive of a name from the shelf.
pub(crate) fn seek<S: Shelf + Drop>(
    alloc: Global,
    shelf: &mut S,
    name: &Name,
    absent: Absent,
) -> Result<S::D, LibraryError>
    ensures sought { MatchResult result
        (Seeks S.D.state S.state absent shelf.old shelf.new name.now)
        (SeeksNot S.D.state S.state absent shelf.old shelf.new name.now) }
{
    match shelf.find(alloc, name) {
        Ok(Some(drive)) => Ok(drive),
        Ok(None) => match absent {
            Absent::Refuse(why) => Err(why),
            Absent::Make => match shelf.make(alloc, name) {
                Ok(drive) => Ok(drive),
                Err(error) => Err(error.into()),
            },
        },
        Err(error) => Err(error.into()),
    }
}
