//! A reply, and the answer of the library that it gives.

ghost use Rattle.std.specs.Prelude.{◌≡◌, None};
ghost use Rattle.gft_session.specs.Asking.{is_want, to_take, word_reply};

use gft_library::{Answer, LibraryError, Word};
use gft_reply_kind::ReplyKind;

/// What is replied, and what a tally takes with it.
#[derive(Drop)]
pub(crate) struct Response<S> {
    pub(crate) kind: ReplyKind,
    /// No want of memory.
    pub(crate) answer: Option<Answer<S>>,
}

/// A reply for which the library wasn't asked.
pub(crate) fn alone<S>(kind: ReplyKind) -> Response<S>
    ensures { result ≡ record { kind = kind; answer = None } }
{
    Response { kind, answer: None }
}

/// The reply for an answer of the library.
pub(crate) fn answered<S>(answer: Answer<S>) -> Response<S>
    ensures reply { result.kind ≡ word_reply answer.word }
    ensures answer { result.answer ≡ to_take answer }
{
    let kind = match answer.word() {
        Word::Length(len) => ReplyKind::Length(*len),
        Word::Removed => ReplyKind::Deleted,
        Word::Stored(_) => ReplyKind::Complete,
        Word::Part(_) => ReplyKind::PartStored,
        Word::No(why) => ReplyKind::Refused(*why),
    };
    if is_want(answer.word()) {
        return alone(kind);
    }
    Response {
        kind,
        answer: Some(answer),
    }
}

fn is_want(word: &Word) -> bool
    ensures { result ≡ is_want word.now }
{
    match word {
        Word::No(LibraryError::OutOfMemory) => true,
        _ => false,
    }
}
