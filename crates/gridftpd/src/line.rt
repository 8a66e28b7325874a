//! The line that `drain` prints. Each text stands here once.

ghost use Rattle.std.specs.Prelude.{◌≡◌, IfOk, Some, string_bytes};
ghost use Rattle.gridftpd.specs.Line.{usage_text, complete_text, lost_text, hole_text, bad_block_text};
ghost use Rattle.gridftpd.specs.Line.{count_refused_text, too_long_text, ranges_full_text, read_failed_text};
ghost use Rattle.gridftpd.specs.Line.{damaged_text, drive_failed_text, out_of_memory_text, number_text};
ghost use Rattle.gridftpd.specs.Line.{range_text};

use gft_eblock::BadBlock;
use gft_eod::EodError;
use gft_range::Range;
use std::alloc::{AllocError, Global};
use std::fmt;

#[tactic(auto, unfolding(crate::specs::Line::usage_text))]
pub(crate) fn usage_line() -> &'static [u8]
    ensures { result.now ≡ usage_text }
{
    b"usage: gridftpd drain NAME\n"
}

#[tactic(auto, unfolding(crate::specs::Line::complete_text))]
pub(crate) fn complete_line() -> &'static [u8]
    ensures { result.now ≡ complete_text }
{
    b"226 Transfer complete.\n"
}

#[tactic(auto, unfolding(crate::specs::Line::too_long_text))]
pub(crate) fn too_long_line() -> &'static [u8]
    ensures { result.now ≡ too_long_text }
{
    b"426 Stream too long: lane 0.\n"
}

#[tactic(auto, unfolding(crate::specs::Line::read_failed_text))]
pub(crate) fn read_failed_line() -> &'static [u8]
    ensures { result.now ≡ read_failed_text }
{
    b"451 Read failed.\n"
}

#[tactic(auto, unfolding(crate::specs::Line::drive_failed_text))]
pub(crate) fn drive_failed_line() -> &'static [u8]
    ensures { result.now ≡ drive_failed_text }
{
    b"451 Drive failed.\n"
}

#[tactic(auto, unfolding(crate::specs::Line::damaged_text))]
pub(crate) fn damaged_line() -> &'static [u8]
    ensures { result.now ≡ damaged_text }
{
    b"451 Journal damaged.\n"
}

#[tactic(auto, unfolding(crate::specs::Line::out_of_memory_text))]
pub(crate) fn out_of_memory_line() -> &'static [u8]
    ensures { result.now ≡ out_of_memory_text }
{
    b"455 Out of memory.\n"
}

#[tactic(auto, unfolding(crate::specs::Line::lost_text))]
pub(crate) fn lost_line(alloc: Global, taken: u64) -> Result<String, AllocError>
    ensures { IfOk result (λ line. string_bytes line ≡ lost_text taken) }
{
    format!(in alloc; "426 Channel lost: lane 0, channel 0, {taken} bytes taken.\n")
}

#[tactic(auto, unfolding(crate::specs::Line::hole_text))]
pub(crate) fn hole_line(
    alloc: Global,
    total: Option<u64>,
    eods: u64,
    missing: Option<Range>,
) -> Result<String, AllocError>
    ensures { IfOk result (λ line. string_bytes line ≡ hole_text total eods missing) }
{
    let total = OrNone(total);
    let missing = GapOrNone(missing);
    format!(in alloc; "426 Hole: total {total}, EODs {eods}, first missing {missing}.\n")
}

#[tactic(auto, unfolding(crate::specs::Line::bad_block_text))]
pub(crate) fn bad_block_line(alloc: Global, bad: &BadBlock) -> Result<String, AllocError>
    ensures { IfOk result (λ line. string_bytes line ≡ bad_block_text bad.now) }
{
    let BadBlock {
        place,
        flags,
        count,
        offset,
    } = *bad;
    format!(in alloc; "426 Bad block at {place}: flags {flags}, count {count}, offset {offset}.\n")
}

#[tactic(auto, unfolding(crate::specs::Line::count_refused_text))]
pub(crate) fn count_refused_line(alloc: Global, error: EodError) -> Result<String, AllocError>
    ensures { IfOk result (λ line. string_bytes line ≡ count_refused_text error) }
{
    match error {
        EodError::BadTotal { total } => format!(in alloc; "426 Bad total: {total}.\n"),
        EodError::TwoTotals { kept, new } => {
            format!(in alloc; "426 Two totals: {kept} and {new}.\n")
        }
        EodError::TooManyEods { total } => {
            format!(in alloc; "426 Too many EODs: total {total}.\n")
        }
    }
}

#[tactic(auto, unfolding(crate::specs::Line::ranges_full_text))]
pub(crate) fn ranges_full_line(alloc: Global, kept: u64) -> Result<String, AllocError>
    ensures { IfOk result (λ line. string_bytes line ≡ ranges_full_text kept) }
{
    format!(in alloc; "452 Too many ranges: {kept}.\n")
}

/// A number, or `none`.
#[derive(Drop)]
struct OrNone(Option<u64>);

impl fmt::Display for OrNone {
    ghost output = { λ x. Some (number_text x.0) };

    fn fmt<W: fmt::Write>(&self, f: &mut fmt::Formatter<W>) -> fmt::Result {
        match self.0 {
            Some(number) => write!(f, "{number}"),
            None => write!(f, "none"),
        }
    }
}

/// A range as `start-end`, or `none`.
#[derive(Drop)]
struct GapOrNone(Option<Range>);

impl fmt::Display for GapOrNone {
    ghost output = { λ x. Some (range_text x.0) };

    fn fmt<W: fmt::Write>(&self, f: &mut fmt::Formatter<W>) -> fmt::Result {
        match self.0 {
            Some(Range { start, end }) => write!(f, "{start}-{end}"),
            None => write!(f, "none"),
        }
    }
}
