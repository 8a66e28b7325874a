//! The lines that begin a transfer, up to their beginning.

ghost use Rattle.std.specs.Prelude.{◌≡◌, ◌+◌, ◌≤◌, ◌⊎◌, IfErr, MatchResult, None, Some, length, not};
ghost use Rattle.gft_drive.specs.Words.{sent_by};
ghost use Rattle.gft_text.specs.Words.{WritesName};
ghost use Rattle.gft_opts.specs.declared.TheConstants.{MAX_TARGETS};
ghost use Rattle.gft_book.specs.Words.{NamesSome};
ghost use Rattle.gft_session.specs.Brought.{brought_of};
ghost use Rattle.gft_session.specs.Fit.{IsFit};
ghost use Rattle.gft_session.specs.Jobs.{IsHow, is_binary, is_empty, refusal, targets_in};
ghost use Rattle.gft_session.specs.Next.{HasNextText, StoresOrNot, taken_by};
ghost use Rattle.gft_session.specs.Receiving.{AnswersRetrieve};
ghost use Rattle.gft_reply_kind.specs.Words.{HasText};
ghost use Rattle.gft_session.specs.Settings.{Nobody, around_of, lanes_in, side_of, state_of, without_list};
ghost use Rattle.gft_session.specs.Settings.{held, world};
ghost use Rattle.gft_session.specs.declared.config.Config.{Config};
ghost use Rattle.gft_outside.specs.Words.{LinkState};

use crate::choices::drop_list;
use crate::next::{Begun, Next};
use crate::response::{Response, alone, answered};
use crate::settings::{DataSide, Mode, Settings, TransferType};
use gft_book::How;
use gft_drive::Origin;
use gft_library::Library;
use gft_outside::{Link, Shelf};
use gft_range::RangeSet;
use gft_reply_kind::ReplyKind;
use gft_text::{Name, NameError, Words, read_name};
use std::alloc::Global;
use std::mem;
use std::sync::Wait;

/// Begins a STOR or ESTO (RFC 959, section 4.1.3; GFD.20), unless it is refused. The kept list is dropped in
/// any case.
pub(crate) fn begin_store<K: Link, S: Shelf + Drop, O: Origin, R: Wait>(
    rt: &R,
    alloc: Global,
    path: &Words,
    part: Option<u64>,
    settings: &mut Settings<K::In>,
    library: &Library<S, O>,
) -> Next<S, S::D, O, K::In>
    requires fit { IsFit K.In.state (state_of settings.old) }
    ensures stores { (link : LinkState K.In K.Out) (config : Config) → StoresOrNot
        (around_of config K.In.state S.D.state (sent_by O.source O.orders O.fit))
        (record { path = path.now; part = part }) (world settings.old link) result
        (world settings.new link) }
    ensures held { length (held (state_of settings.new)) + length (taken_by result)
        ≡ length (held (state_of settings.old)) }
    ensures text { HasNextText result }
{
    let is_ready = has_lanes(&settings.side);
    let checked = check(
        alloc,
        settings,
        path,
        part.is_some(),
        is_ready,
        ReplyKind::ListenFirst,
    );
    let list = mem::replace(&mut settings.rest, RangeSet::new(alloc));
    let name = match checked {
        Ok(name) => name,
        Err(kind) => return Next::Say(alone(kind)),
    };
    let lanes = count_lanes(&settings.side);
    match library.store(rt, &name, how_of(part, list), lanes) {
        Ok(storing) => Next::Store(Begun {
            name,
            part,
            storing,
            lanes: take_lanes(alloc, settings),
        }),
        Err(answer) => Next::Say(answered(answer)),
    }
}

/// RETR and ERET (RFC 959, section 4.1.3; GFD.20), as far as they are refused before the library is asked.
/// The kept list is dropped in any case.
pub(crate) fn retrieve<S, K: Link>(
    alloc: Global,
    path: &Words,
    is_part: bool,
    settings: &mut Settings<K::In>,
) -> Response<S>
    ensures answers { (link : LinkState K.In K.Out) → AnswersRetrieve path.now is_part
        (world settings.old link) (brought_of result) (world settings.new link) }
    ensures text { HasText result.kind }
{
    let is_ready = has_targets(&settings.side);
    let checked = check(
        alloc,
        settings,
        path,
        is_part,
        is_ready,
        ReplyKind::TargetsFirst,
    );
    drop_list(settings);
    match checked {
        Ok(_) => alone(ReplyKind::NotBuilt),
        Err(kind) => alone(kind),
    }
}

/// The name that a transfer is about, or the first refusal.
fn check<L>(
    alloc: Global,
    settings: &Settings<L>,
    path: &Words,
    is_part: bool,
    is_ready: bool,
    last: ReplyKind,
) -> Result<Name, ReplyKind>
    requires text { HasText last }
    ensures checked { MatchResult result
        (λ name. (refusal (state_of settings.now) path.now is_part is_ready last ≡ None)
        × WritesName path.now name)
        (λ kind. (refusal (state_of settings.now) path.now is_part is_ready last ≡ Some kind)
        ⊎ (kind ≡ ReplyKind.OutOfMemory)) }
    ensures text { IfErr result HasText }
{
    if !is_binary(settings.transfer_type, settings.mode) {
        return Err(ReplyKind::SetTypeAndMode);
    }
    if is_part && settings.rest.count() != 0 {
        return Err(ReplyKind::RestElsewhere);
    }
    let name = match read_name(alloc, path.bytes()) {
        Ok(name) => name,
        Err(NameError::BadName { at: _ }) => return Err(ReplyKind::BadName),
        Err(NameError::OutOfMemory) => return Err(ReplyKind::OutOfMemory),
    };
    if !is_ready {
        return Err(last);
    }
    Ok(name)
}

fn is_binary(transfer_type: TransferType, mode: Mode) -> bool
    ensures { result ≡ is_binary transfer_type mode }
{
    match transfer_type {
        TransferType::Ascii => false,
        TransferType::Image => match mode {
            Mode::Stream => false,
            Mode::Extended => true,
        },
    }
}

/// How a STOR or ESTO begins: a kept list restarts a STOR.
fn how_of(part: Option<u64>, list: RangeSet) -> How
    ensures how { IsHow part list.ranges result }
    ensures some { NamesSome result }
{
    if part.is_some() {
        return How::Esto;
    }
    if list.count() == 0 {
        return How::Fresh;
    }
    How::Resume(list)
}

fn has_lanes<L>(side: &DataSide<L>) -> bool
    ensures { result ≡ not (is_empty (lanes_in (side_of side.now))) }
{
    match side {
        DataSide::Listening(lanes) => lanes.len() != 0,
        DataSide::Nobody => false,
        DataSide::Target(_) => false,
        DataSide::Targets(_) => false,
    }
}

fn count_lanes<L>(side: &DataSide<L>) -> u16
    requires { length (lanes_in (side_of side.now)) ≤ MAX_TARGETS }
    ensures { result ≡ length (lanes_in (side_of side.now)) }
{
    match side {
        DataSide::Listening(lanes) => lanes.len() as u16,
        DataSide::Nobody => 0,
        DataSide::Target(_) => 0,
        DataSide::Targets(_) => 0,
    }
}

fn has_targets<L>(side: &DataSide<L>) -> bool
    ensures { result ≡ not (is_empty (targets_in (side_of side.now))) }
{
    match side {
        DataSide::Target(_) => true,
        DataSide::Targets(places) => places.count() != 0,
        DataSide::Nobody => false,
        DataSide::Listening(_) => false,
    }
}

/// Takes the lanes that wait, and leaves nobody.
fn take_lanes<L: Drop>(alloc: Global, settings: &mut Settings<L>) -> Vec<L>
    ensures lanes { result.items ≡ lanes_in (side_of settings.old.side) }
    ensures state { state_of settings.new ≡ record (state_of settings.old) { side = Nobody } }
{
    match mem::replace(&mut settings.side, DataSide::Nobody) {
        DataSide::Listening(lanes) => lanes,
        DataSide::Nobody => Vec::new(alloc),
        DataSide::Target(_) => Vec::new(alloc),
        DataSide::Targets(_) => Vec::new(alloc),
    }
}
