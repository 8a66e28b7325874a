//! A transfer of a STOR or ESTO, from its 150 to its last reply.

ghost use Rattle.std.specs.Prelude.{◌≡◌, ◌+◌, ◌≤◌, All, OnOk, length, map, unwrap_or};
ghost use Rattle.gft_base.specs.declared.TheConstants.{LIMIT};
ghost use Rattle.gft_drive.specs.Words.{sent_by};
ghost use Rattle.gft_keep.specs.Words.{keep_of};
ghost use Rattle.gft_book.specs.declared.transfer.Stage.TheVariants.{Rest};
ghost use Rattle.gft_book.specs.declared.usage.How.{How};
ghost use Rattle.gft_book.specs.Words.{HasAllPasses};
ghost use Rattle.gft_outside.specs.Words.{IsNewLane};
ghost use Rattle.gft_session.specs.Brought.{output};
ghost use Rattle.gft_session.specs.Next.{IsBegun};
ghost use Rattle.gft_session.specs.Receiving.{AreHonestFor, StoresBy, failures};
ghost use Rattle.gft_reply_kind.specs.Words.{reply_of};
ghost use Rattle.gft_session.specs.Settings.{around_of};
ghost use Rattle.gft_session.specs.Steps.{Gives, HasStopped, PutsAll};

use crate::answering::{give, say};
use crate::config::Config;
use crate::next::Begun;
use crate::ports::give_back;
use crate::response::answered;
use crate::session_end::Stopped;
use gft_book::Book;
use gft_drive::{Drive, Origin, Sink};
use gft_library::{Library, Storing, Tally};
use gft_outside::{Clock, Control, Link, Shelf};
use gft_pass::Cause;
use gft_receive::{Limits, Received, receive};
use gft_reply_kind::ReplyKind;
use gft_text::Lines;
use std::alloc::Global;
use std::sync::Wait;
use std::thread::Threads;

/// Takes a transfer from its 150 to its last reply, and gives the lanes and the Book back before that.
pub(crate) fn store<
    C: Control,
    W: Sink + Send,
    K: Link,
    S: Shelf + Drop,
    T: Clock,
    O: Origin + Send,
    G: Tally<S>,
    R: Threads + Wait + Sync,
>(
    rt: &R,
    alloc: Global,
    config: &Config,
    begun: Begun<S::D, O, K::In>,
    control: &mut C,
    lines: &mut Lines,
    out: &mut W,
    link: &mut K,
    library: &Library<S, O>,
    clock: &mut T,
    tally: &mut G,
) -> Result<(), Stopped>
    requires open { W.is_open out.old }
    requires ours { length begun.lanes.items ≤ (K.state link.old).handed_out }
    requires begun { (how : How) × IsBegun S.D.state begun.name how (length begun.lanes.items)
        begun.storing.book begun.storing.passes.items
        × AreHonestFor (around_of config.now K.In.state S.D.state (sent_by O.source O.orders O.fit))
        begun.part begun.name how begun.lanes.items }
    requires lanes { All (λ l. IsNewLane (K.In.state l)) begun.lanes.items
        × (unwrap_or begun.part 0 ≤ LIMIT) }
    ensures gives { (how : How) → IsBegun S.D.state begun.name how (length begun.lanes.items)
        begun.storing.book begun.storing.passes.items
        → Gives (λ brought. StoresBy
        (around_of config.now K.In.state S.D.state (sent_by O.source O.orders O.fit))
        begun.part begun.name how begun.lanes.items (K.state link.old) brought (K.state link.new)) result
        (output (W.written out.old) (G.told tally.old)) (output (W.written out.new) (G.told tally.new)) }
    ensures open { OnOk result (W.is_open out.new) }
    ensures ours { (K.state link.new).handed_out + length begun.lanes.items ≡ (K.state link.old).handed_out }
    ensures stopped { HasStopped (W.faults out.old) (W.faults out.new) result }
    ensures unasked { (control.new ≡ control.old) × (lines.new ≡ lines.old) × (clock.new ≡ clock.old) }
{
    let Begun {
        name,
        part,
        storing,
        lanes,
    } = begun;
    storing.book.facts();
    match say(alloc, &ReplyKind::Opening, out) {
        Ok(()) => {}
        Err(stopped) => {
            give_back(link, lanes);
            let book = abandon(storing);
            let _ = library.done_storing(rt, name, book, None);
            return Err(stopped);
        }
    }
    let Storing { book, passes } = storing;
    let limits = Limits {
        marker_bytes: config.marker_bytes,
        idle: config.idle,
        shift: part.unwrap_or(0),
    };
    let Received {
        outcome,
        put_failed,
        book,
        lanes: used,
    } = receive(
        rt, alloc, lanes, book, passes, control, lines, out, clock, &limits,
    );
    give_back(link, used);
    match outcome.end {
        Ok(finished) => match library.done_storing(rt, name, book, Some(finished)) {
            Some(answer) => give(alloc, answered(answer), out, tally),
            None => unreachable!(),
        },
        Err(cause) => {
            let _ = library.done_storing(rt, name, book, None);
            if put_failed {
                return Err(Stopped::OutFault);
            }
            fail(alloc, cause, out)
        }
    }
}

/// The Book of a transfer for which nothing came, at rest.
fn abandon<D: Drive + Drop, O: Origin>(storing: Storing<D, O>) -> Book<D, O>
    requires { HasAllPasses storing.book.stage storing.passes.items }
    ensures rest { result.stage ≡ Rest }
    ensures label { (keep_of D.state result.keep).drive.label
        ≡ (keep_of D.state storing.book.keep).drive.label }
{
    let Storing { mut book, passes } = storing;
    let _hole = book.settle(passes);
    book
}

/// Tells why a transfer failed; behind an abort, that it was processed.
fn fail<W: Sink>(alloc: Global, cause: Cause, out: &mut W) -> Result<(), Stopped>
    requires open { W.is_open out.old }
    ensures puts { PutsAll result (W.written out.old) (W.written out.new) (map reply_of (failures cause)) }
    ensures open { OnOk result (W.is_open out.new) }
    ensures stopped { HasStopped (W.faults out.old) (W.faults out.new) result }
{
    match cause {
        Cause::Aborted => {}
        other => return say(alloc, &ReplyKind::Failed(other), out),
    }
    match say(alloc, &ReplyKind::Failed(Cause::Aborted), out) {
        Ok(()) => {}
        Err(stopped) => return Err(stopped),
    }
    say(alloc, &ReplyKind::AbortDone, out)
}
