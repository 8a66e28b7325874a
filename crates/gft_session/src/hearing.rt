//! The lines of the control.

ghost use Rattle.std.specs.Prelude.{◌≡◌, ◌≤◌, [], MatchResult};
ghost use Rattle.gft_base.specs.Words.{Rose};
ghost use Rattle.gft_text.specs.Words.{lines_to_come};
ghost use Rattle.gft_session.specs.Hearing.{HearsLine, StopsHearing, HasHeard};

use crate::session_end::SessionEnd;
use gft_outside::{Control, Heard};
use gft_text::{LineError, Lines};
use std::sync::Wait;

/// Hears the next line, a byte at a time, so that no byte of a later line is taken early.
pub(crate) fn next_line<C: Control, R: Wait>(
    rt: &R,
    control: &mut C,
    lines: &mut Lines,
    idle: u32,
) -> Result<(), SessionEnd>
    requires idle { 1 ≤ idle }
    requires settled { lines_to_come lines.old [] ≡ [] }
    ensures heard { MatchResult result
        (λ _. HearsLine idle (C.state control.old) (C.state control.new) lines.old lines.new)
        (λ end. StopsHearing end idle (C.state control.old) (C.state control.new) lines.old) }
    ensures faults { HasHeard result (C.state control.old).faults (C.state control.new).faults }
{
    let mut buf = [0u8; 1];
    let mut quiets: u32 = 0;
    'bytes: for _ in rt.forever() {
        let heard = match control.poll(&mut buf) {
            Ok(heard) => heard,
            Err(_) => return Err(SessionEnd::ControlFault),
        };
        match heard {
            Heard::Ended => return Err(SessionEnd::Closed),
            Heard::Quiet => {
                quiets += 1;
                if quiets == idle {
                    return Err(SessionEnd::IdleControl);
                }
            }
            Heard::Bytes(_) => {
                quiets = 0;
                match lines.feed(&buf) {
                    Ok(fed) => {
                        if fed.whole {
                            return Ok(());
                        }
                    }
                    Err(LineError::TooLong) => return Err(SessionEnd::LineTooLong),
                    Err(LineError::OutOfMemory) => return Err(SessionEnd::OutOfMemory),
                }
            }
        }
    }
    unreachable!()
}
