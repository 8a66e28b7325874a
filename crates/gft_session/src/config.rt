/// The bounds of a session.
#[derive(Clone, Copy, Debug)]
pub struct Config {
    /// On how many stripes SPAS listens, from 1 to 16.
    pub stripes: u16,
    /// A restart marker is due for so many bytes that were stored since the last, at least 1.
    pub marker_bytes: u64,
    /// So many silences of the control in a row end the session, at least 1.
    pub idle: u32,
}
