ghost use Rattle.std.specs.Prelude.{◌≡◌, ◌↔◌, ℕ, IsTrue, IfOk, IfErr, MatchOption};
ghost use Rattle.gft_opts.specs.Part.{FitsEret, FitsEsto, IsEret, IsEsto, IsOffset, IsPath, eret_text};
ghost use Rattle.gft_opts.specs.Part.{esto_text};
ghost use Rattle.gft_opts.specs.Refusal.{RefusesOption};
ghost use Rattle.gft_opts.specs.declared.part.Eret.{Eret};
ghost use Rattle.gft_opts.specs.declared.part.Esto.{Esto};

use crate::error::OptsError;
use gft_base::{LIMIT, OutOfMemory, find_byte, read_decimal, split_first};
use gft_text::Words;
use std::alloc::Global;

/// A part of a file to be sent (GFD.20, ERET with the module `P`).
#[derive(Debug, Drop, PartialEq)]
pub struct Eret {
    /// Where the part begins, in bytes, at most 2^48 - 1.
    pub offset: u64,
    /// How long it is, in bytes. It may end behind the file's end.
    pub size: u64,
    /// The file's name, as it was sent.
    pub path: Words,
}

/// Where a part of a file is to be stored (GFD.20, ESTO with the module `A`).
#[derive(Debug, Drop, PartialEq)]
pub struct Esto {
    /// What is added to the offsets of the blocks that come, in bytes, at most 2^48 - 1.
    pub offset: u64,
    /// The file's name, as it was sent.
    pub path: Words,
}

/// Reads `P offset size name` (GFD.20, ERET): four words with one space between them, `P` in
/// either letter case. The offset is at most 2^48 - 1. The name is any bytes without a space; its
/// copy is the one allocation. `BadParameter` if the text is none, and `OutOfMemory` only if it is one.
pub fn read_eret(alloc: Global, text: &[u8]) -> Result<Eret, OptsError>
    ensures part { IfOk result (IsEret text.now) }
    ensures none { IfErr result (RefusesOption ((eret : Eret) → ¬ IsEret text.now eret)
        ((eret : Eret) × IsEret text.now eret)) }
{
    let Some((offset, size, path)) = eret_words(text) else {
        return Err(OptsError::BadParameter);
    };
    Ok(Eret {
        offset,
        size,
        path: Words::from_bytes(alloc, path)?,
    })
}

/// The offset, the size and the name.
fn eret_words(text: &[u8]) -> Option<(u64, u64, &[u8])>
    ensures { MatchOption result ((eret : Eret) → ¬ IsEret text.now eret)
        (λ words. IsEret text.now
        (record { offset = words.0; size = words.1; path = words.2.now })) }
{
    let (mode, behind) = split_first(text, b' ');
    let (offset, behind) = split_first(behind?, b' ');
    let (size, behind) = split_first(behind?, b' ');
    let path = behind?;
    if !mode.eq_ignore_ascii_case(b"P") || !is_path(path) {
        return None;
    }
    Some((read_offset(offset)?, read_decimal(size)?, path))
}

/// Reads `A offset name` (GFD.20, ESTO): three words with one space between them, `A` in either
/// letter case. The offset is at most 2^48 - 1. The name is any bytes without a space; its copy is
/// the one allocation. `BadParameter` if the text is none, and `OutOfMemory` only if it is one.
pub fn read_esto(alloc: Global, text: &[u8]) -> Result<Esto, OptsError>
    ensures part { IfOk result (IsEsto text.now) }
    ensures none { IfErr result (RefusesOption ((esto : Esto) → ¬ IsEsto text.now esto)
        ((esto : Esto) × IsEsto text.now esto)) }
{
    let Some((offset, path)) = esto_words(text) else {
        return Err(OptsError::BadParameter);
    };
    Ok(Esto {
        offset,
        path: Words::from_bytes(alloc, path)?,
    })
}

/// The offset and the name.
fn esto_words(text: &[u8]) -> Option<(u64, &[u8])>
    ensures { MatchOption result ((esto : Esto) → ¬ IsEsto text.now esto)
        (λ words. IsEsto text.now (record { offset = words.0; path = words.1.now })) }
{
    let (mode, behind) = split_first(text, b' ');
    let (offset, behind) = split_first(behind?, b' ');
    let path = behind?;
    if !mode.eq_ignore_ascii_case(b"A") || !is_path(path) {
        return None;
    }
    Some((read_offset(offset)?, path))
}

fn read_offset(text: &[u8]) -> Option<u64>
    ensures { MatchOption result ((offset : ℕ) → ¬ IsOffset text.now offset) (IsOffset text.now) }
{
    let offset = read_decimal(text)?;
    if offset > LIMIT {
        return None;
    }
    Some(offset)
}

/// Whether these bytes can be a name: one or more, and no space.
fn is_path(path: &[u8]) -> bool
    ensures { IsTrue result ↔ IsPath path.now }
{
    !path.is_empty() && find_byte(path, b' ').is_none()
}

impl Eret {
    /// Whether the part has a text: an offset of at most 2^48 - 1, and a name of one byte or more
    /// without a space.
    pub fn fits(&self) -> bool
        ensures { IsTrue result ↔ FitsEret self.now }
    {
        let _any_size = self.size;
        self.offset <= LIMIT && is_path(self.path.bytes())
    }
}

impl Esto {
    /// Whether the part has a text: an offset of at most 2^48 - 1, and a name of one byte or more
    /// without a space.
    pub fn fits(&self) -> bool
        ensures { IsTrue result ↔ FitsEsto self.now }
    {
        self.offset <= LIMIT && is_path(self.path.bytes())
    }
}

/// The text of a part that fits, `P offset size name`. `OutOfMemory` when it can't be allocated.
pub fn write_eret(alloc: Global, eret: &Eret) -> Result<Vec<u8>, OutOfMemory>
    requires { FitsEret eret.now }
    ensures text { IfOk result (λ text. text.items ≡ eret_text eret.now) }
    ensures read_again { IfOk result (λ text. IsEret text.items eret.now) }
{
    let front = format!(in alloc; "P {} {} ", eret.offset, eret.size)?;
    let mut text = front.into_bytes();
    text.extend_from_slice(eret.path.bytes())?;
    Ok(text)
}

/// The text of a part that fits, `A offset name`. `OutOfMemory` when it can't be allocated.
pub fn write_esto(alloc: Global, esto: &Esto) -> Result<Vec<u8>, OutOfMemory>
    requires { FitsEsto esto.now }
    ensures text { IfOk result (λ text. text.items ≡ esto_text esto.now) }
    ensures read_again { IfOk result (λ text. IsEsto text.items esto.now) }
{
    let front = format!(in alloc; "A {} ", esto.offset)?;
    let mut text = front.into_bytes();
    text.extend_from_slice(esto.path.bytes())?;
    Ok(text)
}
