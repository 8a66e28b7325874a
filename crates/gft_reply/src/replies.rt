ghost use Rattle.std.specs.Prelude.{◌≡◌, ℕ, List, [], ◌∷◌, length, IsErr, IsNone, IfOk, Err};
ghost use Rattle.gft_reply.specs.ReplyStream.{Refused, replies};
ghost use Rattle.gft_reply.specs.Replies.{CarriesReply, RefusesReply, HasRefused, replies_to_come};

use crate::reply::Reply;
use crate::taking::{Stop, take_piece};
use std::alloc::Global;
use std::marker::Model;
use std::mem;
use thiserror::Error;

/// A reader of the replies of a stream, which takes its bytes in any pieces.
#[derive(Drop)]
pub struct Replies {
    /// The lines of the reply that has begun.
    begun: Reply,
    /// The bytes of the line that has begun.
    bytes: Vec<u8>,
    failed: bool,
}

impl Model for Replies {
    ghost use Rattle.std.specs.Prelude.{◌<◌, length};
    ghost use Rattle.gft_base.specs.Words.{Lacks, line_feed};
    ghost use Rattle.gft_text.specs.declared.TheConstants.{LINE_LIMIT};
    ghost use Rattle.gft_reply.specs.Standing.{Standing};

    ghost Value = { Standing };

    ghost view = { λ r. record {
      code = r.begun.code;
      lines = r.begun.lines;
      bytes = r.bytes.items;
      failed = r.failed;
    } };

    ghost invariant = { λ r. Lacks line_feed r.bytes.items × (length r.bytes.items < LINE_LIMIT) };
}

/// How many bytes a feed took, and the reply that the last of them ended.
#[derive(Debug, Drop)]
pub struct Got {
    pub used: usize,
    pub reply: Option<Reply>,
}

/// Why bytes of a stream gave no reply.
#[derive(Clone, Copy, Debug, PartialEq, Eq, Error)]
pub enum ReplyError {
    /// A reply begins with none of the two forms, a line has `LINE_LIMIT` bytes, or a reply
    /// `LINE_COUNT_LIMIT` lines.
    #[error("bad reply")]
    BadReply,
    /// Memory was refused; nothing was taken.
    #[error("out of memory")]
    OutOfMemory,
}

impl Replies {
    /// A reader before the first byte. It allocates nothing.
    pub fn new(alloc: Global) -> Self
        ensures to_come { (stream : List ℕ) → replies_to_come result stream ≡ replies stream }
        ensures not_failed { ¬ HasRefused result }
    {
        Replies {
            begun: Reply::nothing(alloc),
            bytes: Vec::new(alloc),
            failed: false,
        }
    }

    /// Takes bytes until a reply is whole (RFC 959, section 4.2), or all if none is; hand in what
    /// is left.
    ///
    /// `BadReply` if a line stands that can't be there, a line has `LINE_LIMIT` bytes, or a reply
    /// `LINE_COUNT_LIMIT` lines; from then on each feed answers it. `OutOfMemory` leaves the reader
    /// as it was.
    pub fn feed(&mut self, piece: &[u8]) -> Result<Got, ReplyError>
        ensures carried { IfOk result (λ got. CarriesReply self.old piece.now got self.new) }
        ensures whole { IfOk result (λ got. IsNone got.reply → got.used ≡ length piece.now) }
        ensures bad { result ≡ Err ReplyError.BadReply → RefusesReply self.old piece.now self.new }

        // A line that can't stand there, and that comes before a reply, is refused.
        ensures refused { replies_to_come self.old piece.now ≡ Refused ∷ [] → IsErr result }
        ensures again { HasRefused self.old →
            (result ≡ Err ReplyError.BadReply) × (self.new ≡ self.old) }

        ensures memory { result ≡ Err ReplyError.OutOfMemory → self.new ≡ self.old }
    {
        if self.failed {
            return Err(ReplyError::BadReply);
        }
        let (held, code, count) = (self.bytes.len(), self.begun.code, self.begun.lines.count());
        match take_piece(&mut self.begun, &mut self.bytes, piece) {
            Ok(Stop::Open { .. }) => Ok(Got {
                used: piece.len(),
                reply: None,
            }),
            Ok(Stop::Ended { left }) => {
                let next = Reply::nothing(*self.bytes.allocator());
                let reply = mem::replace(&mut self.begun, next);
                self.bytes.clear();
                Ok(Got {
                    used: piece.len() - left,
                    reply: Some(reply),
                })
            }
            Ok(Stop::Refused) => {
                self.bytes.clear();
                self.failed = true;
                Err(ReplyError::BadReply)
            }
            Err(_) => {
                self.bytes.truncate(held);
                self.begun.code = code;
                self.begun.lines.truncate(count);
                Err(ReplyError::OutOfMemory)
            }
        }
    }
}
