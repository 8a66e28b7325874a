ghost use Rattle.std.specs.Prelude.{◌≡◌, ◌+◌, ◌<◌, ◌≤◌, length, OnOk, OnErr, IfErr, Some};
ghost use Rattle.gft_base.specs.declared.TheConstants.{LIMIT};
ghost use Rattle.gft_drive.specs.Words.{sent_by};
ghost use Rattle.gft_eblock.specs.declared.TheConstants.{MAX_BYTES};
ghost use Rattle.gft_eblock.specs.Words.{event_arrivals, to_come};
ghost use Rattle.gft_book.specs.Words.{IsLaneOf, Learns, SamePass};
ghost use Rattle.gft_receive.specs.Booking.{IsBooksCause, numbers_after};
ghost use Rattle.gft_receive.specs.Honest.{MayBring};
ghost use Rattle.gft_receive.specs.Turns.{IsFedWhole, IsSized, IsUnfed};

use crate::halt::Unfed;
use gft_book::{Run, Shared, Stop};
use gft_drive::{Drive, Origin};
use gft_eblock::{Channel, Event};
use gft_pass::Pass;
use std::sync::Wait;

/// Feeds a channel these bytes to their end, and books what they bring. Bytes behind an EOD are dropped.
pub(crate) fn feed<D: Drive + Drop, O: Origin, N: Run, R: Wait>(
    rt: &R,
    book: &Shared<D, O, N>,
    pass: &mut Pass,
    reader: &mut Channel,
    bytes: &[u8],
) -> Result<(), Unfed>
    requires pass { IsLaneOf N.start pass.old }
    requires room { reader.old.taken + length bytes.now ≤ MAX_BYTES }
    requires honest { MayBring (sent_by O.source O.orders O.fit) N.start pass.old.lane pass.old.count
        (to_come reader.old bytes.now) }
    ensures fed { OnOk result (IsFedWhole reader.old reader.new bytes.now pass.old pass.new) }
    ensures unfed { IfErr result (IsUnfed reader.old bytes.now pass.old pass.new) }
{
    let mut left = bytes;
    'events: loop {
        if reader.is_done() {
            return Ok(());
        }
        let step = match reader.feed(left) {
            Ok(step) => step,
            Err(bad) => return Err(Unfed::Refused(bad)),
        };
        left = &left[step.used..];
        let event = match step.event {
            None => return Ok(()),
            Some(event) => event,
        };
        match book_event(rt, book, pass, event) {
            Ok(()) => {}
            Err(Stop) => return Err(Unfed::Stop),
        }
    }
}

/// Books what an event brings, in a turn of its own.
fn book_event<D: Drive + Drop, O: Origin, N: Run, R: Wait>(
    rt: &R,
    book: &Shared<D, O, N>,
    pass: &mut Pass,
    event: Event,
) -> Result<(), Stop>
    requires pass { IsLaneOf N.start pass.old }
    requires sized { IsSized event }
    requires honest { MayBring (sent_by O.source O.orders O.fit) N.start pass.old.lane pass.old.count
        (event_arrivals (Some event)) }
    ensures pass { SamePass pass.old pass.new }
    ensures booked { OnOk result (pass.new.count
        ≡ numbers_after (event_arrivals (Some event.entry)) pass.old.count) }
    ensures stopped { OnErr result (Learns (IsBooksCause (event_arrivals (Some event.entry))) pass.old.count
        pass.new.count) }
{
    match event {
        Event::Piece { offset, bytes } => match book.lock(rt).store(pass, offset, bytes) {
            Ok(_) => Ok(()),
            Err(Stop) => Err(Stop),
        },
        Event::Eof { total } => book.lock(rt).eof(pass, total),
        Event::Eod => book.lock(rt).eod(pass),
    }
}
