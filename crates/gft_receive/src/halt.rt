use gft_eblock::BadBlock;
use gft_pass::Cause;

/// Why a mover ends.
#[derive(Clone, Copy, Debug)]
pub(crate) enum Halt {
    /// The lane is done.
    Done,
    /// The Book stopped it, and the pass knows.
    Stopped,
    /// The lane shows this cause, and the Book doesn't know yet.
    Failed(Cause),
}

/// Why bytes weren't fed to their end.
#[derive(Clone, Copy, Debug)]
pub(crate) enum Unfed {
    /// The Book stopped the mover, and the pass knows.
    Stop,
    /// This header is refused.
    Refused(BadBlock),
}
