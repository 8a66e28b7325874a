/// How a session ended.
#[derive(Clone, Copy, Debug, PartialEq, Eq)]
pub enum SessionEnd {
    /// A QUIT line was answered.
    Quit,
    /// The peer ended the control connection.
    Closed,
    /// A poll of the control failed.
    ControlFault,
    /// A put failed.
    OutFault,
    /// The control was silent too often in a row.
    IdleControl,
    /// The peer sent as many bytes without a line's end as no line has.
    LineTooLong,
    /// Memory was refused where no reply could say so.
    OutOfMemory,
}

/// Why a reply was not put whole.
#[derive(Clone, Copy, Debug, PartialEq, Eq)]
pub(crate) enum Stopped {
    OutFault,
    OutOfMemory,
}
