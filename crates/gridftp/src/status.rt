ghost use Rattle.std.specs.Prelude.{◌≡◌};
ghost use Rattle.gridftp.specs.Status.{number_of};

/// The exit status of `gridftp`.
#[derive(Clone, Copy, Debug, PartialEq, Eq)]
pub enum Status {
    /// What was asked for is done.
    Done,
    /// A transfer of it was refused or failed.
    Refused,
    /// The words are in no grammar.
    Usage,
    /// A line couldn't be printed.
    PutFailed,
    /// Memory was refused.
    OutOfMemory,
}

impl Status {
    /// The number that the process ends with: 0, 1, 2, 4 or 6.
    pub fn number(self) -> u8
        ensures { result ≡ number_of self }
    {
        match self {
            Status::Done => 0,
            Status::Refused => 1,
            Status::Usage => 2,
            Status::PutFailed => 4,
            Status::OutOfMemory => 6,
        }
    }
}
