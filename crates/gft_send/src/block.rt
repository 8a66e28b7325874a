ghost use Rattle.std.specs.Prelude.{◌≡◌, ◌++◌, ◌^◌, ◌<◌, ◌≤◌, true, IfOk, length, slice_range};
ghost use Rattle.gft_range.specs.Words.{HasOffset, InRange};
ghost use Rattle.gft_eblock.specs.Words.{spelling};
ghost use Rattle.gft_eblock.specs.declared.TheConstants.{HEADER_LEN};
ghost use Rattle.gft_layout.specs.Words.{IsAscending};
ghost use Rattle.gft_send.specs.Sending.{HasRest, IsRestOf, MustHave, Sends};
ghost use Rattle.gft_send.specs.Streams.{data_blocks, data_header};
ghost use Rattle.gft_send.specs.Stripes.{bytes_in};

use crate::piece::send_piece;
use gft_drive::Drive;
use gft_eblock::{HEADER_LEN, Header, encode};
use gft_layout::Plan;
use gft_outside::OutLane;
use gft_pass::Cause;
use gft_range::Range;

/// The flags of a block that has data alone.
const DATA: u8 = 0;

/// Puts the bytes of a range that are left behind the first piece of its block.
fn send_rest<D: Drive, X: OutLane>(
    drive: &mut D,
    out: &mut X,
    buf: &mut [u8],
    range: Range,
) -> Result<(), Cause>
    requires room { HEADER_LEN < length buf.old }
    requires order { range.start ≤ range.end }
    requires there { MustHave (D.state drive.old).contents (InRange range) }
    requires is_open { (X.state out.old).is_open ≡ true }
    ensures { Sends (InRange range) (IsRestOf range) (λ file. slice_range file range.start range.end) result
        (D.state drive.old) (D.state drive.new) (X.state out.old) (X.state out.new) }
{
    let mut at = range.start;
    'pieces: while at < range.end {
        let left = Range {
            start: at,
            end: range.end,
        };
        match send_piece(drive, out, buf, HEADER_LEN, left) {
            Ok(count) => at += count,
            Err(cause) => return Err(cause),
        }
    }
    Ok(())
}

/// Puts a range as one block: its header together with the first piece of its data, then the rest.
fn send_block<D: Drive, X: OutLane>(
    drive: &mut D,
    out: &mut X,
    buf: &mut [u8],
    range: Range,
) -> Result<(), Cause>
    requires room { HEADER_LEN < length buf.old }
    requires some { range.start < range.end }
    requires there { MustHave (D.state drive.old).contents (InRange range) }
    requires is_open { (X.state out.old).is_open ≡ true }
    ensures { Sends (InRange range) (IsRestOf range)
        (λ file. spelling (data_header range) ++ slice_range file range.start range.end) result
        (D.state drive.old) (D.state drive.new) (X.state out.old) (X.state out.new) }
{
    let header = Header {
        flags: DATA,
        count: range.end - range.start,
        offset: range.start,
    };
    buf[..HEADER_LEN].copy_from_slice(&encode(&header));
    match send_piece(drive, out, buf, 0, range) {
        Ok(count) => {
            let rest = Range {
                start: range.start + count,
                end: range.end,
            };
            send_rest(drive, out, buf, rest)
        }
        Err(cause) => Err(cause),
    }
}

/// Puts the ranges of a plan as blocks, and tells how many bytes of data they have.
pub(crate) fn send_blocks<D: Drive, X: OutLane>(
    drive: &mut D,
    out: &mut X,
    buf: &mut [u8],
    ranges: Plan,
) -> Result<u64, Cause>
    requires room { HEADER_LEN < length buf.old }
    requires ascending { IsAscending ranges }
    requires fits { bytes_in ranges < 2 ^ 64 }
    requires there { MustHave (D.state drive.old).contents (HasOffset ranges) }
    requires is_open { (X.state out.old).is_open ≡ true }
    ensures count { IfOk result (λ n. n ≡ bytes_in ranges.entry) }
    ensures sends { Sends (HasOffset ranges.entry) (HasRest ranges.entry)
        (λ file. data_blocks file ranges.entry) result (D.state drive.old) (D.state drive.new)
        (X.state out.old) (X.state out.new) }
{
    let mut sent = 0;
    for range in ranges {
        match send_block(drive, out, buf, range) {
            Ok(()) => sent += range.end - range.start,
            Err(cause) => return Err(cause),
        }
    }
    Ok(sent)
}
