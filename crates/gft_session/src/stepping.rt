//! A command's step: the table's row, behind the login.

ghost use Rattle.std.specs.Prelude.{◌≡◌, ◌≤◌};
ghost use Rattle.gft_drive.specs.Words.{sent_by};
ghost use Rattle.gft_session.specs.Conversation.{IsConfig};
ghost use Rattle.gft_session.specs.Fit.{IsFit};
ghost use Rattle.gft_session.specs.Listeners.{HasHandedOut};
ghost use Rattle.gft_session.specs.Next.{CountsTaken, HasNextText, IsRow, IsStep};
ghost use Rattle.gft_session.specs.Settings.{around_of, is_in, state_of, world};
ghost use Rattle.gft_session.specs.Table.{is_free, is_transfer};

use crate::asking::{remove, size};
use crate::choices::{
    drop_list, folder, keep_list, name_user, pass, protection, set_mode, set_options, set_type,
    structure,
};
use crate::config::Config;
use crate::jobs::{begin_store, retrieve};
use crate::next::Next;
use crate::ports::{passive, set_target, set_targets, striped};
use crate::response::alone;
use crate::settings::{Login, Settings};
use gft_command::Command;
use gft_drive::Origin;
use gft_library::Library;
use gft_outside::{Link, Shelf};
use gft_reply_kind::ReplyKind;
use std::alloc::Global;
use std::sync::Wait;

/// Answers a command, but for the transfer that it begins. The login comes first.
pub(crate) fn step<K: Link, S: Shelf + Drop, O: Origin, R: Wait>(
    rt: &R,
    alloc: Global,
    config: &Config,
    command: Command,
    settings: &mut Settings<K::In>,
    link: &mut K,
    library: &Library<S, O>,
) -> Next<S, S::D, O, K::In>
    requires config { IsConfig config.now }
    requires fit { IsFit K.In.state (state_of settings.old) }
    requires ours { HasHandedOut (world settings.old (K.state link.old)) }
    ensures step { IsStep
        (around_of config.now K.In.state S.D.state (sent_by O.source O.orders O.fit)) command
        (world settings.old (K.state link.old)) result (world settings.new (K.state link.new)) }
    ensures ours { CountsTaken (world settings.old (K.state link.old))
        (world settings.new (K.state link.new)) result }
    ensures text { HasNextText result }
{
    let may_ask = is_free(&command) || is_in(settings.login);
    if !may_ask {
        if is_transfer(&command) {
            drop_list(settings);
        }
        return Next::Say(alone(ReplyKind::LogInFirst));
    }
    row(rt, alloc, config, command, settings, link, library)
}

/// One row of the table.
fn row<K: Link, S: Shelf + Drop, O: Origin, R: Wait>(
    rt: &R,
    alloc: Global,
    config: &Config,
    command: Command,
    settings: &mut Settings<K::In>,
    link: &mut K,
    library: &Library<S, O>,
) -> Next<S, S::D, O, K::In>
    requires config { IsConfig config.now }
    requires fit { IsFit K.In.state (state_of settings.old) }
    requires ours { HasHandedOut (world settings.old (K.state link.old)) }
    ensures row { IsRow
        (around_of config.now K.In.state S.D.state (sent_by O.source O.orders O.fit)) command
        (world settings.old (K.state link.old)) result (world settings.new (K.state link.new)) }
    ensures ours { CountsTaken (world settings.old (K.state link.old))
        (world settings.new (K.state link.new)) result }
    ensures text { HasNextText result }
{
    match command {
        Command::User(_) => Next::Say(alone(name_user(settings))),
        Command::Pass(_) => Next::Say(alone(pass(settings))),
        Command::Quit => Next::Say(alone(ReplyKind::Goodbye)),
        Command::Noop => Next::Say(alone(ReplyKind::Done)),
        Command::Feat => Next::Say(alone(ReplyKind::Features)),
        Command::SetType(letter) => Next::Say(alone(set_type(letter, settings))),
        Command::SetMode(letter) => Next::Say(alone(set_mode(letter, settings))),
        Command::SetStru(letter) => Next::Say(alone(structure(letter))),
        Command::Dcau(letter) => Next::Say(alone(protection(letter))),
        Command::Sbuf(_) => Next::Say(alone(ReplyKind::BufferNoted)),
        Command::Allo(_) => Next::Say(alone(ReplyKind::AlloNotNeeded)),
        Command::Opts(options) => Next::Say(alone(set_options(options, settings))),
        Command::Pwd => Next::Say(alone(ReplyKind::OnlyFolder)),
        Command::Cwd(path) => Next::Say(alone(folder(&path))),
        Command::Pasv => Next::Say(alone(passive(alloc, settings, link))),
        Command::Spas => Next::Say(alone(striped(alloc, config.stripes, settings, link))),
        Command::Port(at) => Next::Say(alone(set_target(at, settings, link))),
        Command::Spor(places) => Next::Say(alone(set_targets(places, settings, link))),
        Command::Rest(list) => Next::Say(alone(keep_list(list, settings))),
        Command::Stor(path) => begin_store::<K, S, O, R>(rt, alloc, &path, None, settings, library),
        Command::Esto(esto) => {
            begin_store::<K, S, O, R>(rt, alloc, &esto.path, Some(esto.offset), settings, library)
        }
        Command::Retr(path) => Next::Say(retrieve::<S, K>(alloc, &path, false, settings)),
        Command::Eret(eret) => Next::Say(retrieve::<S, K>(alloc, &eret.path, true, settings)),
        Command::Size(path) => Next::Say(size(rt, alloc, &path, library)),
        Command::Dele(path) => Next::Say(remove(rt, alloc, &path, library)),
        Command::Abor => Next::Say(alone(ReplyKind::NoTransfer)),
    }
}

fn is_in(login: Login) -> bool
    ensures { result ≡ is_in login }
{
    match login {
        Login::In => true,
        Login::Nobody | Login::Named => false,
    }
}

/// Whether a command needs no login.
fn is_free(command: &Command) -> bool
    ensures { result ≡ is_free command.now }
{
    match command {
        Command::User(_) | Command::Pass(_) | Command::Quit | Command::Noop | Command::Feat => true,
        _ => false,
    }
}

/// Whether a command begins a transfer.
fn is_transfer(command: &Command) -> bool
    ensures { result ≡ is_transfer command.now }
{
    match command {
        Command::Stor(_) | Command::Esto(_) | Command::Retr(_) | Command::Eret(_) => true,
        _ => false,
    }
}
