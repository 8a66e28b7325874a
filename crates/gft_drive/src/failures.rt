use crate::drive::Part;

/// The calls of a drive.
#[derive(Clone, Copy, Debug, PartialEq, Eq)]
pub enum CallKind {
    Len,
    Read,
    Write,
    Cut,
    Sync,
}

/// A call that is to fail: the `number`th of this kind on this part, counted from 1.
#[derive(Clone, Copy, Debug, PartialEq, Eq)]
pub struct FailAt {
    pub call: CallKind,
    pub part: Part,
    pub number: u32,
}

/// A call that reached a drive. The place and the length are in bytes, 0 if the kind has none.
#[derive(Clone, Copy, Debug, PartialEq, Eq)]
pub struct DriveCall {
    pub call: CallKind,
    pub part: Part,
    pub at: u64,
    pub len: u64,
}
