//! The outside: where bytes come from, where they go, and the drive that keeps a file. Each trait
//! counts its faults, and tells its bytes or doesn't: the memory forms tell theirs, the drive over a
//! file tells none.
#![tactic(auto)]

mod crash;
mod disk;
mod drive;
mod error;
mod failures;
mod file;
mod memory;
mod memory_sink;
mod memory_source;
mod origin;
mod sink;
mod source;
mod streams;
#[cfg(test)]
mod tests;

pub use crash::CrashChoice;
pub use drive::{Drive, Part};
pub use error::TwinError;
pub use failures::{CallKind, DriveCall, FailAt};
pub use file::FileDrive;
pub use memory::MemoryDrive;
pub use memory_sink::MemorySink;
pub use memory_source::MemorySource;
pub use origin::{Origin, Unknown};
pub use sink::Sink;
pub use source::Source;
pub use streams::{ReadSource, WriteSink};

/// The bytes of the `Ranges` part of a new drive, and its room.
pub const RANGES_LEN: u64 = 2_097_216;

/// The most ranges of a file.
pub const MAX_RANGES: usize = 16_384;

// The definitions of all crates cite the names: their numbers are pinned here.
const _: () = prove!(RANGES_LEN == 2_097_216);

const _: () = prove!(MAX_RANGES == 16_384);
