ghost use Rattle.std.specs.Prelude.{◌≡◌, ◌+◌, vec_len};
ghost use Rattle.gft_drive.specs.Words.{sent_by};
ghost use Rattle.gft_keep.specs.Words.{keep_of};
ghost use Rattle.gft_book.specs.declared.transfer.Stage.TheVariants.{Rest};
ghost use Rattle.gft_book.specs.Words.{HasAllPasses, IsRunning, KeptSince, book_of, start_now};
ghost use Rattle.gft_receive.specs.Words.{AreFresh, HasTold, Receives};
ghost use Rattle.gft_delivery.specs.Delivery.{Delivers, IsDelivery, IsPatient};

use crate::laws::sent_streams_are_honest;
use gft_book::Book;
use gft_drive::{Drive, Origin, Sink};
use gft_outside::{Clock, Control, Lane};
use gft_pass::Pass;
use gft_receive::{Limits, Received, receive};
use gft_text::Lines;
use std::alloc::Global;
use std::sync::Wait;
use std::thread::Threads;

/// Receives a whole file from lanes that bring its sender's streams, cut in any way and dealt out over any
/// number of lanes. It is [`receive`], for a transfer of which this is known.
///
/// At Ok the file is the sender's, byte by byte and with its length. Where no lane and no put fails, the end is
/// Ok, `RangesFull`, `Memory` or `DriveFailed`.
pub fn deliver<
    L: Lane + Drop,
    D: Drive + Drop,
    O: Origin + Send,
    C: Control,
    W: Sink + Send,
    T: Clock,
    R: Threads + Wait + Sync,
>(
    rt: &R,
    alloc: Global,
    lanes: Vec<L>,
    book: Book<D, O>,
    passes: Vec<Pass>,
    control: &mut C,
    lines: &mut Lines,
    out: &mut W,
    clock: &mut T,
    limits: &Limits,
) -> Received<L, D, O>
    requires running { IsRunning book.stage }
    requires passes { HasAllPasses book.stage passes.items × AreFresh passes.items
        × (vec_len passes ≡ vec_len lanes + 1) }
    requires delivery { IsDelivery L.state (sent_by O.source O.orders O.fit)
        (start_now (book_of D.state book)) lanes.items }
    requires patient { IsPatient limits.now }
    requires sink { W.is_open out.old }
    ensures rest { (result.book.stage ≡ Rest)
        × (result.book.last ≡ Some (start_now (book_of D.state book)).table) }
    ensures kept { KeptSince (start_now (book_of D.state book)) (keep_of D.state result.book.keep) }
    ensures receives { Receives L.state limits.now (start_now (book_of D.state book)) lanes.items
        result.lanes.items (keep_of D.state result.book.keep) result.outcome.end result.put_failed }
    ensures delivers { Delivers L.state (sent_by O.source O.orders O.fit) (start_now (book_of D.state book))
        lanes.items result.lanes.items (keep_of D.state result.book.keep) result.outcome.end
        result.put_failed }
    ensures told { HasTold W.written W.is_open W.faults out.old out.new
        (sent_by O.source O.orders O.fit (start_now (book_of D.state book)).label)
        (keep_of D.state result.book.keep) book.marks result.book.marks result.outcome.end
        result.outcome.told result.put_failed }
    ensures unasked { (control.new ≡ control.old) × (lines.new ≡ lines.old) × (clock.new ≡ clock.old) }
{
    sent_streams_are_honest();
    receive(
        rt, alloc, lanes, book, passes, control, lines, out, clock, limits,
    )
}
