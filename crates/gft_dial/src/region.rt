ghost use Rattle.std.specs.Prelude.{◌≡◌};
ghost use Rattle.gft_dial.specs.Regions.{region_in};

use gft_range::Range;

/// A part of a file, as ERET names it (GFD.20, ERET).
#[derive(Clone, Copy, Debug, PartialEq, Eq)]
pub struct FilePart {
    /// Where it begins, in bytes from the file's start.
    pub offset: u64,
    /// How many bytes it has at most.
    pub size: u64,
}

/// The offsets that are sent of a file of so many bytes: all of them, or those of a part, as far as the file
/// goes. A part behind the file's end has none.
pub fn region_of(len: u64, part: Option<FilePart>) -> Range
    ensures { result ≡ region_in len part }
{
    match part {
        None => Range { start: 0, end: len },
        Some(part) => Range {
            start: part.offset.min(len),
            end: part.offset.saturating_add(part.size).min(len),
        },
    }
}
