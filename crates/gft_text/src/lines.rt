ghost use Rattle.std.specs.Prelude.{◌≡◌, ℕ, ◌<◌, ◌≤◌, List, [], ◌++◌, length, take, vec_len};
ghost use Rattle.std.specs.Prelude.{IsErr, IfOk, OnOk, OnErr, Err};
ghost use Rattle.gft_base.specs.Words.{Lacks, line_feed};
ghost use Rattle.gft_text.specs.LineStream.{told};
ghost use Rattle.gft_text.specs.Lines.{CarriesLine, Feeds, IsFront, IsOverlong, Overruns};
ghost use Rattle.gft_text.specs.Lines.{line_begun, lines_to_come, shown};

use crate::LINE_LIMIT;
use gft_base::find_byte;
use std::alloc::{AllocError, Global};
use std::marker::Model;
use thiserror::Error;

/// A reader of the lines of a stream, which takes its bytes in any pieces. A line ends with an LF.
///
/// `feed` takes bytes, and `line` shows those taken since the last line's end.
#[derive(Drop)]
pub struct Lines {
    /// Those bytes, without the LF.
    bytes: Vec<u8>,
    /// Whether an LF ended them.
    whole: bool,
}

impl Model for Lines {
    ghost use Rattle.std.specs.Prelude.{◌≡◌, ◌<◌, ◌≤◌, true, length};
    ghost use Rattle.gft_base.specs.Words.{Lacks, line_feed};
    ghost use Rattle.gft_text.specs.Lines.{Held};
    ghost use Rattle.gft_text.specs.declared.TheConstants.{LINE_LIMIT};

    ghost Value = { Held };

    ghost view = { λ l. record { bytes = l.bytes.items; whole = l.whole } };

    ghost invariant = { λ l. Lacks line_feed l.bytes.items × (length l.bytes.items ≤ LINE_LIMIT)
        × (l.whole ≡ true → length l.bytes.items < LINE_LIMIT) };
}

/// How many bytes a feed took, and whether the last of them ended a line.
#[derive(Clone, Copy, Debug, PartialEq, Eq)]
pub struct Fed {
    pub used: usize,
    pub whole: bool,
}

/// Why bytes of a stream were not taken.
#[derive(Clone, Copy, Debug, PartialEq, Eq, Error)]
pub enum LineError {
    /// `LINE_LIMIT` bytes came since the last line's end, and none of them is an LF.
    #[error("line too long")]
    TooLong,
    /// Memory was refused; nothing was taken.
    #[error("out of memory")]
    OutOfMemory,
}

impl From<AllocError> for LineError {
    ghost use Rattle.gft_text.specs.declared.lines.LineError.TheVariants as errors;

    ghost from_gives = { λ _ e. e ≡ errors.OutOfMemory };

    fn from(_refused: AllocError) -> LineError {
        LineError::OutOfMemory
    }
}

impl Lines {
    /// A reader before the first byte. It allocates nothing.
    pub fn new(alloc: Global) -> Self
        ensures nothing { shown result ≡ [] }
        ensures to_come { (stream : List ℕ) → lines_to_come result stream ≡ told stream }
    {
        Lines {
            bytes: Vec::new(alloc),
            whole: false,
        }
    }

    /// Takes the bytes up to the next LF and that LF, or all if there is none. The feed behind a
    /// whole line begins a new one; hand in what is left.
    ///
    /// `TooLong` if `LINE_LIMIT` bytes were taken since the last line's end and none is an LF; from
    /// then on each feed answers it. `OutOfMemory` leaves the reader as it was.
    pub fn feed(&mut self, piece: &[u8]) -> Result<Fed, LineError>
        ensures fed { IfOk result (λ fed. Feeds self.old piece.now fed self.new) }
        ensures carried { IfOk result (λ fed. CarriesLine self.old piece.now fed self.new) }
        ensures short { OnOk result (length self.new.bytes < LINE_LIMIT) }

        // A line that is too long is refused, and no other.
        ensures too_long { result ≡ Err LineError.TooLong → Overruns self.old piece.now self.new }
        ensures refused { LINE_LIMIT ≤ length (line_begun self.old ++ piece.now) →
            Lacks line_feed (take LINE_LIMIT (line_begun self.old ++ piece.now)) → IsErr result }
        ensures again { IsOverlong self.old →
            (result ≡ Err LineError.TooLong) × (self.new ≡ self.old) }

        ensures memory { result ≡ Err LineError.OutOfMemory → self.new ≡ self.old }
    {
        let begun = begun_len(&self.bytes, self.whole);
        if begun == LINE_LIMIT {
            return Err(LineError::TooLong);
        }
        let (front, whole) = up_to_line_feed(piece, LINE_LIMIT - begun);
        replace_end(&mut self.bytes, begun, front)?;
        self.whole = whole;
        if self.bytes.len() == LINE_LIMIT {
            return Err(LineError::TooLong);
        }
        Ok(Fed {
            used: front.len() + usize::from(whole),
            whole,
        })
    }

    /// The bytes taken since the last line's end, without the LF and without a CR just before it.
    pub fn line(&self) -> &[u8]
        ensures shown { result.now ≡ shown self.now }
        ensures single { Lacks line_feed result.now }
        ensures bound { length result.now ≤ LINE_LIMIT }
    {
        match (self.whole, self.bytes.as_slice()) {
            (true, [line @ .., b'\r']) => line,
            (_, bytes) => bytes,
        }
    }
}

/// How many of the bytes the next ones go on from.
fn begun_len(bytes: &[u8], whole: bool) -> usize
    ensures len { result ≡ length (line_begun (record { bytes = bytes.now; whole = whole })) }
    ensures kept { take result bytes.now ≡ line_begun (record { bytes = bytes.now; whole = whole }) }
    ensures within { result ≤ length bytes.now }
{
    if whole { 0 } else { bytes.len() }
}

/// The bytes before the first LF among the first `room`, and whether there is one.
fn up_to_line_feed(piece: &[u8], room: usize) -> (&[u8], bool)
    ensures { IsFront piece.now room result.0.now result.1 }
{
    let first = &piece[..room.min(piece.len())];
    match find_byte(first, b'\n') {
        Some(at) => (&first[..at], true),
        None => (first, false),
    }
}

/// Puts `end` in place of the bytes behind the first `kept`.
fn replace_end(bytes: &mut Vec<u8>, kept: usize, end: &[u8]) -> Result<(), AllocError>
    requires { kept ≤ vec_len bytes.old }
    ensures ok { OnOk result (bytes.new.items ≡ take kept bytes.old.items ++ end.now) }
    ensures err { OnErr result (bytes.new.items ≡ bytes.old.items) }
{
    // The room comes first, so that a refusal changes nothing.
    bytes.reserve(end.len())?;
    bytes.truncate(kept);
    bytes.extend_from_slice(end)
}
