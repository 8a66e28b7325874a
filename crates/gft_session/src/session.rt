//! A whole session.

ghost use Rattle.std.specs.Prelude.{◌≡◌, ◌≤◌};
ghost use Rattle.gft_drive.specs.Words.{sent_by};
ghost use Rattle.gft_session.specs.Brought.{output};
ghost use Rattle.gft_session.specs.Conversation.{Closes, Converses, HasClosed, HasFault, IsConfig};
ghost use Rattle.gft_session.specs.Conversation.{IsHonestWith, IsSession};
ghost use Rattle.gft_session.specs.Fit.{IsFit};
ghost use Rattle.gft_session.specs.Conversation.{end_of};
ghost use Rattle.gft_session.specs.Listeners.{HasHandedOut, KeepsCount};
ghost use Rattle.gft_session.specs.Settings.{around_of, start_world, state_of, world};

use crate::answering::{answer, say};
use crate::config::Config;
use crate::hearing::next_line;
use crate::ports::release;
use crate::session_end::{SessionEnd, Stopped};
use crate::settings::Settings;
use gft_drive::{Origin, Sink};
use gft_library::{Library, Tally};
use gft_outside::{Clock, Control, Link, Shelf};
use gft_reply_kind::ReplyKind;
use gft_text::Lines;
use std::alloc::Global;
use std::sync::Wait;
use std::thread::Threads;

/// One connection's conversation: a greeting, and for each line the replies of the table.
///
/// It ends at a QUIT line (`Quit`), where the control has ended (`Closed`), was silent `config.idle` times
/// in a row (`IdleControl`), brought as many bytes without a line's end as no line has (`LineTooLong`) or
/// failed (`ControlFault`), where a put failed (`OutFault`), and where memory was refused that no reply
/// could tell (`OutOfMemory`). Nothing is put after a put that failed. All that the link handed out is
/// given back. The tally takes each answer of the library just before the reply that gives it is put, but
/// for want of memory. The clock isn't asked.
pub fn run_session<
    C: Control,
    W: Sink + Send,
    K: Link,
    S: Shelf + Drop,
    T: Clock,
    O: Origin + Send,
    G: Tally<S>,
    R: Threads + Wait + Sync,
>(
    rt: &R,
    alloc: Global,
    control: &mut C,
    out: &mut W,
    link: &mut K,
    library: &Library<S, O>,
    clock: &mut T,
    config: &Config,
    tally: &mut G,
) -> SessionEnd
    requires config { IsConfig config.now }
    requires open { W.is_open out.old }
    requires honest { IsHonestWith
        (around_of config.now K.In.state S.D.state (sent_by O.source O.orders O.fit))
        (start_world (K.state link.old)) }
    ensures session { IsSession
        (around_of config.now K.In.state S.D.state (sent_by O.source O.orders O.fit)) config.now.idle
        result (K.state link.old) (K.state link.new) (C.state control.old) (C.state control.new)
        (output (W.written out.old) (G.told tally.old)) (output (W.written out.new) (G.told tally.new)) }
    ensures clock { clock.new ≡ clock.old }
    ensures fault { HasFault result (C.state control.old).faults (C.state control.new).faults
        (W.faults out.old) (W.faults out.new) }
{
    let mut settings = Settings::new(alloc);
    let end = converse(
        rt,
        alloc,
        control,
        out,
        link,
        library,
        clock,
        config,
        tally,
        &mut settings,
    );
    release(link, settings.side);
    end
}

/// The same, but for the lanes that are left: the settings have them.
fn converse<
    C: Control,
    W: Sink + Send,
    K: Link,
    S: Shelf + Drop,
    T: Clock,
    O: Origin + Send,
    G: Tally<S>,
    R: Threads + Wait + Sync,
>(
    rt: &R,
    alloc: Global,
    control: &mut C,
    out: &mut W,
    link: &mut K,
    library: &Library<S, O>,
    clock: &mut T,
    config: &Config,
    tally: &mut G,
    settings: &mut Settings<K::In>,
) -> SessionEnd
    requires config { IsConfig config.now }
    requires open { W.is_open out.old }
    requires ours { HasHandedOut (world settings.old (K.state link.old)) }
    requires fit { IsFit K.In.state (state_of settings.old) }
    requires honest { IsHonestWith
        (around_of config.now K.In.state S.D.state (sent_by O.source O.orders O.fit))
        (world settings.old (K.state link.old)) }
    ensures talk { Converses
        (around_of config.now K.In.state S.D.state (sent_by O.source O.orders O.fit)) config.now.idle
        result (world settings.old (K.state link.old)) (world settings.new (K.state link.new))
        (C.state control.old) (C.state control.new) (output (W.written out.old) (G.told tally.old))
        (output (W.written out.new) (G.told tally.new)) }
    ensures ours { KeepsCount (world settings.old (K.state link.old))
        (world settings.new (K.state link.new)) }
    ensures clock { clock.new ≡ clock.old }
    ensures fault { HasFault result (C.state control.old).faults (C.state control.new).faults
        (W.faults out.old) (W.faults out.new) }
{
    match say(alloc, &ReplyKind::Greeting, out) {
        Ok(()) => {}
        Err(stopped) => return ended(stopped),
    }
    let mut lines = Lines::new(alloc);
    'lines: for _ in rt.forever() {
        match next_line(rt, control, &mut lines, config.idle) {
            Ok(()) => {}
            Err(end) => return close(alloc, out, end),
        }
        match answer(
            rt, alloc, config, control, &mut lines, settings, out, link, library, clock, tally,
        ) {
            Ok(true) => {}
            Ok(false) => return SessionEnd::Quit,
            Err(stopped) => return ended(stopped),
        }
    }
    unreachable!()
}

/// Puts the line that closes a session, where it has one.
fn close<W: Sink>(alloc: Global, out: &mut W, end: SessionEnd) -> SessionEnd
    requires { W.is_open out.old }
    ensures closes { Closes end result (W.written out.old) (W.written out.new) }
    ensures fault { HasClosed end result (W.faults out.old) (W.faults out.new) }
{
    let kind = match end {
        SessionEnd::IdleControl => ReplyKind::Idle,
        SessionEnd::LineTooLong => ReplyKind::TooLong,
        _ => return end,
    };
    match say(alloc, &kind, out) {
        Ok(()) => end,
        Err(stopped) => ended(stopped),
    }
}

/// The end of a session whose reply was not put whole.
fn ended(stopped: Stopped) -> SessionEnd
    ensures { result ≡ end_of stopped }
{
    match stopped {
        Stopped::OutFault => SessionEnd::OutFault,
        Stopped::OutOfMemory => SessionEnd::OutOfMemory,
    }
}
