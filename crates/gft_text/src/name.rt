ghost use Rattle.std.specs.Prelude.{◌≡◌, ◌↔◌, IsTrue, IfOk, IfErr};
ghost use Rattle.gft_text.specs.Name.{IsName, RefusesName, WritesName};
ghost use Rattle.gft_text.specs.Name.{bad_byte, fault_of, is_name_byte, without_slash};

use crate::MAX_NAME_LEN;
use gft_base::OutOfMemory;
use std::alloc::{AllocError, Global};
use std::marker::Model;
use thiserror::Error;

/// The ending of the server's own files.
const OWN_ENDING: &[u8] = b".gfr";

/// A file's name: 1 to `MAX_NAME_LEN` bytes of letters, digits, `.`, `_` and `-`. It doesn't begin
/// with `.` and doesn't end in `.gfr`. Contracts see its bytes.
#[derive(Debug, Drop)]
pub struct Name {
    bytes: Vec<u8>,
}

impl Model for Name {
    ghost use Rattle.std.specs.Prelude.{List, ℕ};
    ghost use Rattle.gft_text.specs.Name.{IsName};

    ghost Value = { List ℕ };

    ghost view = { λ n. n.bytes.items };

    ghost invariant = { λ n. IsName n.bytes.items };
}

impl PartialEq for Name {
    ghost use Rattle.std.specs.Prelude.{nat_eq};
    ghost use Rattle.std.specs.Cmp.{partial_equiv_from_equiv};
    ghost use Rattle.std.specs.Cmp.Lexicographic.{nat_list_eq_equiv, pointwise};

    ghost eq = { pointwise nat_eq };

    ghost laws = { partial_equiv_from_equiv nat_list_eq_equiv };

    fn eq(&self, other: &Name) -> bool {
        self.bytes == other.bytes
    }
}

/// Why a text is no name.
#[derive(Clone, Copy, Debug, PartialEq, Eq, Error)]
pub enum NameError {
    /// The first rule that the name breaks, without its leading `/`, is broken at this byte.
    #[error("bad name at byte {at}")]
    BadName { at: usize },
    /// Memory was refused.
    #[error("out of memory")]
    OutOfMemory,
}

impl From<AllocError> for NameError {
    ghost use Rattle.gft_text.specs.declared.name.NameError.TheVariants as errors;

    ghost from_gives = { λ _ e. e ≡ errors.OutOfMemory };

    fn from(_refused: AllocError) -> NameError {
        NameError::OutOfMemory
    }
}

impl Name {
    /// The name's bytes.
    pub fn as_bytes(&self) -> &[u8]
        ensures bytes { result.now ≡ self.now }
        ensures legal { IsName self.now }
    {
        &self.bytes
    }

    /// The same name. `OutOfMemory` if it can't be allocated.
    pub fn copy(&self) -> Result<Name, OutOfMemory>
        ensures { IfOk result (λ copy. copy ≡ self.now) }
    {
        let bytes = self.bytes.clone()?;
        Ok(Name { bytes })
    }
}

/// Whether the text is a name as it stands: one leading `/` makes it none. It allocates nothing.
pub fn is_name(text: &[u8]) -> bool
    ensures { IsTrue result ↔ IsName text.now }
{
    fault_in(text).is_none()
}

/// Reads a name; one leading `/` is dropped.
///
/// `BadName` if the rest is no name, with a place in it, by the first of these that it breaks: the
/// first byte that no name has; 0 for an empty name or a leading `.`; `MAX_NAME_LEN` for a longer
/// one; the place of an ending `.gfr`. `OutOfMemory`, which a name alone can give, if it can't be
/// copied.
pub fn read_name(alloc: Global, text: &[u8]) -> Result<Name, NameError>
    ensures name { IfOk result (WritesName text.now) }
    ensures refused { IfErr result (RefusesName (without_slash text.now)) }
{
    let name = without_slash(text);
    if let Some(at) = fault_in(name) {
        return Err(NameError::BadName { at });
    }
    Ok(Name {
        bytes: Vec::from_slice(alloc, name)?,
    })
}

/// The text without one leading `/`.
fn without_slash(text: &[u8]) -> &[u8]
    ensures { result.now ≡ without_slash text.now }
{
    match text {
        [b'/', rest @ ..] => rest,
        whole => whole,
    }
}

/// The place at which the first rule is broken.
fn fault_in(name: &[u8]) -> Option<usize>
    ensures { result ≡ fault_of name.now }
{
    if let Some(at) = first_bad_byte(name) {
        return Some(at);
    }
    if name.is_empty() || name[0] == b'.' {
        return Some(0);
    }
    if name.len() > MAX_NAME_LEN {
        return Some(MAX_NAME_LEN);
    }
    if name.ends_with(OWN_ENDING) {
        return Some(name.len() - OWN_ENDING.len());
    }
    None
}

/// The place of the first byte that no name has.
fn first_bad_byte(name: &[u8]) -> Option<usize>
    ensures { result ≡ bad_byte name.now }
{
    name.iter().position(|byte| !is_name_byte(*byte))
}

fn is_name_byte(byte: u8) -> bool
    ensures { result ≡ is_name_byte byte }
{
    byte.is_ascii_alphanumeric() || byte == b'.' || byte == b'_' || byte == b'-'
}
