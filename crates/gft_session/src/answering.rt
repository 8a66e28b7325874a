//! One line, from its bytes to those of its reply.

ghost use Rattle.std.specs.Prelude.{◌≡◌, ◌↔◌, IfOk, OnOk, IsTrue};
ghost use Rattle.gft_drive.specs.Words.{sent_by};
ghost use Rattle.gft_text.specs.Words.{shown};
ghost use Rattle.gft_command.specs.declared.command.Command.{Command};
ghost use Rattle.gft_command.specs.Words.{IsCommand};
ghost use Rattle.gft_reply.specs.Words.{reply_text};
ghost use Rattle.gft_session.specs.Brought.{output};
ghost use Rattle.gft_session.specs.Conversation.{AnswersOne, IsConfig, IsHonestFor};
ghost use Rattle.gft_session.specs.Fit.{IsFit};
ghost use Rattle.gft_session.specs.Listeners.{HasHandedOut, KeepsCount};
ghost use Rattle.gft_reply_kind.specs.Words.{HasText, reply_of};
ghost use Rattle.gft_session.specs.Settings.{around_of, state_of, world};
ghost use Rattle.gft_session.specs.Steps.{HasStopped, Puts, Takes, Tallies, WasRefused, list_of};

use crate::config::Config;
use crate::next::Next;
use crate::response::{Response, alone};
use crate::session_end::Stopped;
use crate::settings::Settings;
use crate::stepping::step;
use crate::storing::store;
use gft_command::{Command, parse};
use gft_drive::{Origin, Sink};
use gft_library::{Answer, Library, Tally};
use gft_outside::{Clock, Control, Link, Shelf};
use gft_reply_kind::ReplyKind;
use gft_text::Lines;
use std::alloc::Global;
use std::sync::Wait;
use std::thread::Threads;

/// Answers one line. Tells whether the session goes on.
pub(crate) fn answer<
    C: Control,
    W: Sink + Send,
    K: Link,
    S: Shelf + Drop,
    T: Clock,
    O: Origin + Send,
    G: Tally<S>,
    R: Threads + Wait + Sync,
>(
    rt: &R,
    alloc: Global,
    config: &Config,
    control: &mut C,
    lines: &mut Lines,
    settings: &mut Settings<K::In>,
    out: &mut W,
    link: &mut K,
    library: &Library<S, O>,
    clock: &mut T,
    tally: &mut G,
) -> Result<bool, Stopped>
    requires open { W.is_open out.old }
    requires config { IsConfig config.now }
    requires fit { IsFit K.In.state (state_of settings.old) }
    requires ours { HasHandedOut (world settings.old (K.state link.old)) }
    requires honest { (command : Command) → IsCommand (shown lines.old) command
        → IsHonestFor (around_of config.now K.In.state S.D.state (sent_by O.source O.orders O.fit))
        (state_of settings.old) command }
    ensures answers { AnswersOne (around_of config.now K.In.state S.D.state (sent_by O.source O.orders O.fit))
        (shown lines.old) (world settings.old (K.state link.old)) (world settings.new (K.state link.new)) result
        (output (W.written out.old) (G.told tally.old)) (output (W.written out.new) (G.told tally.new)) }
    ensures open { OnOk result (W.is_open out.new) }
    ensures ours { KeepsCount (world settings.old (K.state link.old))
        (world settings.new (K.state link.new)) }
    ensures stopped { HasStopped (W.faults out.old) (W.faults out.new) result }
    ensures unasked { (control.new ≡ control.old) × (lines.new ≡ lines.old) × (clock.new ≡ clock.old) }
{
    let command = match parse(alloc, lines.line()) {
        Ok(command) => command,
        Err(why) => {
            return give_and_tell(alloc, alone::<S>(ReplyKind::Unread(why)), out, tally, true);
        }
    };
    let goes_on = !is_quit(&command);
    match step(rt, alloc, config, command, settings, link, library) {
        Next::Say(response) => give_and_tell(alloc, response, out, tally, goes_on),
        Next::Store(begun) => match store(
            rt, alloc, config, begun, control, lines, out, link, library, clock, tally,
        ) {
            Ok(()) => Ok(goes_on),
            Err(stopped) => Err(stopped),
        },
    }
}

/// Gives a reply, and tells whether the session goes on behind it.
fn give_and_tell<S, W: Sink, G: Tally<S>>(
    alloc: Global,
    response: Response<S>,
    out: &mut W,
    tally: &mut G,
    goes_on: bool,
) -> Result<bool, Stopped>
    requires open { W.is_open out.old }
    requires text { HasText response.kind }
    ensures puts { Puts result (W.written out.old) (W.written out.new)
        (reply_text (reply_of response.kind)) }
    ensures takes { Takes result response.answer (G.told tally.old) (G.told tally.new) }
    ensures told { IfOk result (λ told. told ≡ goes_on) }
    ensures open { OnOk result (W.is_open out.new) }
    ensures stopped { HasStopped (W.faults out.old) (W.faults out.new) result }
{
    match give(alloc, response, out, tally) {
        Ok(()) => Ok(goes_on),
        Err(stopped) => Err(stopped),
    }
}

/// Puts a reply whole, or stops; just before that a tally takes the answer that it gives.
pub(crate) fn give<S, W: Sink, G: Tally<S>>(
    alloc: Global,
    response: Response<S>,
    out: &mut W,
    tally: &mut G,
) -> Result<(), Stopped>
    requires open { W.is_open out.old }
    requires text { HasText response.kind }
    ensures puts { Puts result (W.written out.old) (W.written out.new)
        (reply_text (reply_of response.kind)) }
    ensures takes { Takes result response.answer (G.told tally.old) (G.told tally.new) }
    ensures open { OnOk result (W.is_open out.new) }
    ensures stopped { HasStopped (W.faults out.old) (W.faults out.new) result }
{
    let Response { kind, answer } = response;
    let Ok(text) = kind.text(alloc) else {
        return Err(Stopped::OutOfMemory);
    };
    take(answer, tally);
    put_whole(&text, out)
}

fn take<S, G: Tally<S>>(answer: Option<Answer<S>>, tally: &mut G)
    ensures { Tallies (G.told tally.old) (G.told tally.new) (list_of answer) }
{
    match answer {
        Some(answer) => tally.take(answer),
        None => {}
    }
}

/// Puts a reply whole, or stops.
pub(crate) fn say<W: Sink>(alloc: Global, kind: &ReplyKind, out: &mut W) -> Result<(), Stopped>
    requires open { W.is_open out.old }
    requires text { HasText kind.now }
    ensures puts { Puts result (W.written out.old) (W.written out.new) (reply_text (reply_of kind.now)) }
    ensures open { OnOk result (W.is_open out.new) }
    ensures stopped { HasStopped (W.faults out.old) (W.faults out.new) result }
{
    let Ok(text) = kind.text(alloc) else {
        return Err(Stopped::OutOfMemory);
    };
    put_whole(&text, out)
}

fn put_whole<W: Sink>(text: &[u8], out: &mut W) -> Result<(), Stopped>
    requires open { W.is_open out.old }
    ensures puts { Puts result (W.written out.old) (W.written out.new) text.now }
    ensures open { OnOk result (W.is_open out.new) }
    ensures memory { ¬ WasRefused result }
    ensures stopped { HasStopped (W.faults out.old) (W.faults out.new) result }
{
    match out.put(text) {
        Ok(()) => Ok(()),
        Err(_) => Err(Stopped::OutFault),
    }
}

fn is_quit(command: &Command) -> bool
    ensures { IsTrue result ↔ (command.now ≡ Command.Quit) }
{
    match command {
        Command::Quit => true,
        _ => false,
    }
}
