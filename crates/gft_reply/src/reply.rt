ghost use Rattle.std.specs.Prelude.{◌≡◌, [], IfOk};

use crate::LINE_COUNT_LIMIT;
use crate::reply_lines::ReplyLines;
use gft_base::OutOfMemory;
use std::alloc::Global;

/// A reply (RFC 959, section 4.2): its code, and the text of each line.
#[derive(Debug, PartialEq, Drop)]
pub struct Reply {
    /// From 100 to 599.
    pub code: u16,
    /// The text behind the code of the first and the last line, and the inner lines.
    pub lines: ReplyLines,
}

impl Reply {
    /// No line yet.
    pub(crate) fn nothing(alloc: Global) -> Self
        ensures code { result.code ≡ 0 }
        ensures lines { result.lines ≡ [] }
    {
        Reply {
            code: 0,
            lines: ReplyLines::new(alloc),
        }
    }

    /// The same reply. `OutOfMemory` if it can't be allocated.
    pub fn copy(&self) -> Result<Reply, OutOfMemory>
        ensures { IfOk result (λ reply. reply ≡ self.now) }
    {
        Ok(Reply {
            code: self.code,
            lines: self.lines.copy()?,
        })
    }
}
