ghost use Rattle.std.specs.Prelude.{◌≡◌};
ghost use Rattle.gft_pass.specs.Ledger.{nothing};

use crate::cause::Cause;

/// What one pass has had.
#[derive(Clone, Copy, Debug)]
pub struct Numbers {
    /// Bytes of the blocks that were taken.
    pub bytes: u64,
    /// EODs that were counted.
    pub eods: u64,
    /// The total of its EOF, if one was taken.
    pub total: Option<u64>,
    /// The transfer's cause, if it was kept in a call with this pass.
    pub cause: Option<Cause>,
    /// Whether a call with this pass found the transfer failed, or all its EODs taken.
    pub stopped: bool,
}

impl Numbers {
    /// Nothing yet.
    pub fn none() -> Numbers
        ensures { result ≡ nothing }
    {
        Numbers {
            bytes: 0,
            eods: 0,
            total: None,
            cause: None,
            stopped: false,
        }
    }
}
