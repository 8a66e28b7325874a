ghost use Rattle.std.specs.Prelude.{◌≡◌};
ghost use Rattle.gridftpd.specs.Status.{number_of, status_of};

use crate::outcome::Outcome;

/// The exit status of `gridftpd drain`.
#[derive(Clone, Copy, Debug, PartialEq, Eq)]
pub enum Status {
    Complete,
    Refused,
    Usage,
    ReadFailed,
    PutFailed,
    DriveFailed,
    OutOfMemory,
    Damaged,
}

impl Status {
    /// The number that the process ends with, 0 to 7.
    pub fn number(self) -> u8
        ensures { result ≡ number_of self }
    {
        match self {
            Status::Complete => 0,
            Status::Refused => 1,
            Status::Usage => 2,
            Status::ReadFailed => 3,
            Status::PutFailed => 4,
            Status::DriveFailed => 5,
            Status::OutOfMemory => 6,
            Status::Damaged => 7,
        }
    }
}
