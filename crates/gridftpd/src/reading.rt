ghost use Rattle.std.specs.Prelude.{ℕ, ◌≡◌, ◌<◌, ◌≤◌, [], length, take, IfOk, OnErr};
ghost use Rattle.std.specs.Io.KnownBytes.{Consumes, IsAtEnd};
ghost use Rattle.gft_base.specs.Words.{HasCause};

use gft_base::Failed;
use gft_drive::Source;

/// The most bytes of one read.
pub(crate) const READ_LEN: usize = 65_536;

/// Reads at most so many bytes into the front of the buffer; none where none is wanted, or at the
/// end of the input.
pub(crate) fn read_next<I: Source>(
    input: &mut I,
    buf: &mut [u8],
    most: u64,
) -> Result<usize, Failed>
    requires { 0 < length buf.old }
    ensures count { IfOk result (λ n. (n ≤ length buf.new) × (n ≤ most)) }
    ensures consumed { IfOk result (λ n. Consumes (I.left input.old) (I.left input.new) (take n buf.new)) }
    ensures at_end { IfOk result (λ n. n ≡ 0 → 0 < most → IsAtEnd (I.left input.new)) }
    ensures asked { OnErr result (0 < most) }
    ensures nothing { OnErr result (Consumes (I.left input.old) (I.left input.new) []) }
    ensures cause { HasCause (I.faults input.old) (I.faults input.new) result }
{
    if most == 0 {
        return Ok(0);
    }
    let asked = most.min(buf.len() as u64) as usize;
    input.read(&mut buf[..asked])
}
