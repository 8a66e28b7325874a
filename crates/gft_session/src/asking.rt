//! The rows of the table that ask the library.

ghost use Rattle.std.specs.Prelude.{◌≡◌, IfErr, IfOk};
ghost use Rattle.gft_text.specs.Words.{RefusesName, WritesName, without_slash};
ghost use Rattle.gft_library.specs.Words.{Removes, Sizes};
ghost use Rattle.gft_session.specs.Asking.{AsksLibrary, name_reply};
ghost use Rattle.gft_session.specs.Brought.{brought_of};
ghost use Rattle.gft_reply_kind.specs.Words.{HasText};

use crate::response::{Response, alone, answered};
use gft_drive::Origin;
use gft_library::Library;
use gft_outside::Shelf;
use gft_reply_kind::ReplyKind;
use gft_text::{NameError, Words, read_name};
use std::alloc::Global;
use std::sync::Wait;

/// SIZE (RFC 3659, section 4).
pub(crate) fn size<S: Shelf + Drop, O: Origin, R: Wait>(
    rt: &R,
    alloc: Global,
    path: &Words,
    library: &Library<S, O>,
) -> Response<S>
    ensures answers { AsksLibrary Sizes path.now (brought_of result) }
    ensures text { HasText result.kind }
{
    match read_name(alloc, path.bytes()) {
        Ok(name) => answered(library.size(rt, &name)),
        Err(why) => alone(refused(why)),
    }
}

/// DELE (RFC 959, section 4.1.3).
pub(crate) fn remove<S: Shelf + Drop, O: Origin, R: Wait>(
    rt: &R,
    alloc: Global,
    path: &Words,
    library: &Library<S, O>,
) -> Response<S>
    ensures answers { AsksLibrary Removes path.now (brought_of result) }
    ensures text { HasText result.kind }
{
    match read_name(alloc, path.bytes()) {
        Ok(name) => answered(library.remove(rt, &name)),
        Err(why) => alone(refused(why)),
    }
}

fn refused(why: NameError) -> ReplyKind
    ensures reply { result ≡ name_reply why }
    ensures text { HasText result }
{
    match why {
        NameError::BadName { at: _ } => ReplyKind::BadName,
        NameError::OutOfMemory => ReplyKind::OutOfMemory,
    }
}
