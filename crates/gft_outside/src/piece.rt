ghost use Rattle.std.specs.Prelude.{◌≡◌, ◌+◌, ◌<◌, ◌≤◌, length, take, drop};

/// Copies bytes from this place on to the front of the buffer, as many as it has room for.
pub(crate) fn copy_piece(bytes: &[u8], from: usize, buf: &mut [u8]) -> usize
    requires inside { from < length bytes.now }
    requires room { 0 < length buf.old }
    ensures some { 1 ≤ result }
    ensures within { from + result ≤ length bytes.now }
    ensures fits { result ≤ length buf.new }
    ensures copied { take result buf.new ≡ take result (drop from bytes.now) }
{
    let count = (bytes.len() - from).min(buf.len());
    buf[..count].copy_from_slice(&bytes[from..from + count]);
    count
}
