ghost use Rattle.std.specs.Prelude.{◌≡◌, ◌+◌, ◌-◌, ◌<◌, ◌≤◌, ◌++◌, true, IfOk};
ghost use Rattle.std.specs.Prelude.{drop, length, slice_range, take};
ghost use Rattle.gft_range.specs.Words.{InRange};
ghost use Rattle.gft_eblock.specs.declared.TheConstants.{HEADER_LEN};
ghost use Rattle.gft_send.specs.Sending.{IsRestOf, MustHave, Sends, end_of_piece};

use gft_base::Failed;
use gft_drive::{Drive, Part};
use gft_eblock::HEADER_LEN;
use gft_outside::OutLane;
use gft_pass::Cause;
use gft_range::Range;

/// Reads bytes from the front of `left` on, as many as the buffer takes, and puts them behind what stands in
/// the buffer's header from `from` on. The answer is how many were read, at least one.
pub(crate) fn send_piece<D: Drive, X: OutLane>(
    drive: &mut D,
    out: &mut X,
    buf: &mut [u8],
    from: usize,
    left: Range,
) -> Result<u64, Cause>
    requires from { from ≤ HEADER_LEN }
    requires room { HEADER_LEN < length buf.old }
    requires some { left.start < left.end }
    requires there { MustHave (D.state drive.old).contents (InRange left) }
    requires is_open { (X.state out.old).is_open ≡ true }
    ensures count { IfOk result (λ n. (0 < n) × (n ≤ left.end - left.start)) }
    ensures sends { Sends (InRange left) (IsRestOf left)
        (λ file. drop from (take HEADER_LEN buf.old)
        ++ slice_range file left.start (end_of_piece left result))
        result (D.state drive.old) (D.state drive.new) (X.state out.old) (X.state out.new) }
    ensures header { take HEADER_LEN buf.new ≡ take HEADER_LEN buf.old }
{
    let most = (buf.len() - HEADER_LEN) as u64;
    let to = HEADER_LEN + most.min(left.end - left.start) as usize;
    let count = match drive.read(Part::Bytes, left.start, &mut buf[HEADER_LEN..to]) {
        Ok(0) => {
            return Err(Cause::Hole {
                total: None,
                eods: 0,
                missing: Some(left),
            });
        }
        Ok(count) => count,
        Err(Failed) => return Err(Cause::DriveFailed),
    };
    match out.put(&buf[from..HEADER_LEN + count]) {
        Ok(()) => Ok(count as u64),
        Err(Failed) => Err(Cause::LinkFailed),
    }
}
