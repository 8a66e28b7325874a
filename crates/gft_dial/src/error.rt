use thiserror::Error;

/// Why a sender has no data connections. None is left open.
#[derive(Clone, Copy, Debug, PartialEq, Eq, Error)]
pub enum DialError {
    /// A dial failed, and the link's count of faults rose.
    #[error("a data connection failed")]
    Failed,
    /// Memory was refused, before the first dial.
    #[error("out of memory")]
    OutOfMemory,
}
