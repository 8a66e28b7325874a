//! The session's side of the data connections: the lanes that listen, and the targets.

ghost use Rattle.std.specs.Prelude.{◌≡◌, ◌≤◌, ◌+◌, [], ◌∷◌, length, vec_len, vec_capacity, MatchResult};
ghost use Rattle.gft_opts.specs.declared.TheConstants.{MAX_TARGETS};
ghost use Rattle.gft_session.specs.Listeners.{HasHandedOut, KeepsCount, ListensNot, ListensOn, Returns};
ghost use Rattle.gft_session.specs.Listeners.{lanes_of, places_of};
ghost use Rattle.gft_session.specs.Brought.{alone};
ghost use Rattle.gft_reply_kind.specs.Words.{HasText};
ghost use Rattle.gft_session.specs.Saying.{AnswersListen, IsPassive, IsStriped, SaysAndReturns};
ghost use Rattle.gft_session.specs.Saying.{refused_reply};
ghost use Rattle.gft_session.specs.Settings.{lanes_in, side_of, state_of, world};
ghost use Rattle.gft_session.specs.Table.{with_targets};

use crate::settings::{DataSide, Settings};
use gft_opts::{HostPorts, MAX_TARGETS};
use gft_outside::{Link, LinkError, Listening};
use gft_reply_kind::ReplyKind;
use gft_text::HostPort;
use std::alloc::Global;
use std::mem;

/// Listens on one stripe, in place of the lanes that wait (RFC 959, PASV).
pub(crate) fn passive<K: Link>(
    alloc: Global,
    settings: &mut Settings<K::In>,
    link: &mut K,
) -> ReplyKind
    requires ours { HasHandedOut (world settings.old (K.state link.old)) }
    ensures answers { AnswersListen K.In.state 1 IsPassive (world settings.old (K.state link.old))
        (alone result) (world settings.new (K.state link.new)) }
    ensures ours { KeepsCount (world settings.old (K.state link.old))
        (world settings.new (K.state link.new)) }
    ensures text { HasText result }
{
    match listen(alloc, 1, settings, link) {
        Ok(places) => ReplyKind::Passive(places[0]),
        Err(why) => refused(why),
    }
}

/// Listens on so many stripes, in place of the lanes that wait (GFD.20, SPAS).
pub(crate) fn striped<K: Link>(
    alloc: Global,
    stripes: u16,
    settings: &mut Settings<K::In>,
    link: &mut K,
) -> ReplyKind
    requires stripes { (1 ≤ stripes) × (stripes ≤ MAX_TARGETS) }
    requires ours { HasHandedOut (world settings.old (K.state link.old)) }
    ensures answers { AnswersListen K.In.state stripes IsStriped (world settings.old (K.state link.old))
        (alone result) (world settings.new (K.state link.new)) }
    ensures ours { KeepsCount (world settings.old (K.state link.old))
        (world settings.new (K.state link.new)) }
    ensures text { HasText result }
{
    match listen(alloc, stripes, settings, link) {
        Ok(places) => ReplyKind::Striped(places),
        Err(why) => refused(why),
    }
}

fn refused(why: LinkError) -> ReplyKind
    ensures reply { result ≡ refused_reply why }
    ensures text { HasText result }
{
    match why {
        LinkError::Failed => ReplyKind::CannotListen,
        LinkError::OutOfMemory => ReplyKind::OutOfMemory,
    }
}

/// Keeps one target (RFC 959, PORT), and gives the lanes that wait back.
pub(crate) fn set_target<K: Link>(
    at: HostPort,
    settings: &mut Settings<K::In>,
    link: &mut K,
) -> ReplyKind
    requires ours { HasHandedOut (world settings.old (K.state link.old)) }
    ensures answers { SaysAndReturns K.In.state (ReplyKind.TargetsSet 1)
        (with_targets (state_of settings.old) (at ∷ [])) (world settings.old (K.state link.old))
        (alone result) (world settings.new (K.state link.new)) }
    ensures ours { KeepsCount (world settings.old (K.state link.old))
        (world settings.new (K.state link.new)) }
    ensures text { HasText result }
{
    let old = mem::replace(&mut settings.side, DataSide::Target(at));
    release(link, old);
    ReplyKind::TargetsSet(1)
}

/// Keeps the targets (GFD.20, SPOR), and gives the lanes that wait back.
pub(crate) fn set_targets<K: Link>(
    places: HostPorts,
    settings: &mut Settings<K::In>,
    link: &mut K,
) -> ReplyKind
    requires ours { HasHandedOut (world settings.old (K.state link.old)) }
    ensures answers { SaysAndReturns K.In.state (ReplyKind.TargetsSet (length places))
        (with_targets (state_of settings.old) places) (world settings.old (K.state link.old))
        (alone result) (world settings.new (K.state link.new)) }
    ensures ours { KeepsCount (world settings.old (K.state link.old))
        (world settings.new (K.state link.new)) }
    ensures text { HasText result }
{
    let count = places.count();
    let old = mem::replace(&mut settings.side, DataSide::Targets(places));
    release(link, old);
    ReplyKind::TargetsSet(count)
}

/// Gives the lanes that wait back.
pub(crate) fn release<K: Link>(link: &mut K, side: DataSide<K::In>)
    requires { length (lanes_in (side_of side)) ≤ (K.state link.old).handed_out }
    ensures returned { Returns K.In.state (K.state link.old) (K.state link.new) (lanes_in (side_of side)) }
    ensures count { (K.state link.new).handed_out + length (lanes_in (side_of side))
        ≡ (K.state link.old).handed_out }
{
    match side {
        DataSide::Nobody => {}
        DataSide::Listening(lanes) => give_back(link, lanes),
        DataSide::Target(_) => {}
        DataSide::Targets(_) => {}
    }
}

/// Gives lanes back to their link, in order.
pub(crate) fn give_back<K: Link>(link: &mut K, lanes: Vec<K::In>)
    requires { length lanes.items ≤ (K.state link.old).handed_out }
    ensures returned { Returns K.In.state (K.state link.old) (K.state link.new) lanes.items }
    ensures count { (K.state link.new).handed_out + length lanes.items ≡ (K.state link.old).handed_out }
{
    'each: for lane in lanes {
        link.back_in(lane);
    }
}

/// Listens on so many stripes in place of the lanes that wait, and gives those back. The places are
/// those of the new lanes. A refusal leaves all as it was.
fn listen<K: Link>(
    alloc: Global,
    stripes: u16,
    settings: &mut Settings<K::In>,
    link: &mut K,
) -> Result<Vec<HostPort>, LinkError>
    requires some { 1 ≤ stripes }
    requires ours { HasHandedOut (world settings.old (K.state link.old)) }
    ensures listens { MatchResult result
        (λ places. ListensOn K.In.state stripes (world settings.old (K.state link.old)) places.items
        (world settings.new (K.state link.new)))
        (λ why. ListensNot why (world settings.old (K.state link.old))
        (world settings.new (K.state link.new))) }
    ensures ours { KeepsCount (world settings.old (K.state link.old))
        (world settings.new (K.state link.new)) }
{
    // The room comes first, so that no memory is refused behind the link's answer.
    let Ok(mut lanes) = Vec::with_capacity(alloc, usize::from(stripes)) else {
        return Err(LinkError::OutOfMemory);
    };
    let Ok(mut places) = Vec::with_capacity(alloc, usize::from(stripes)) else {
        return Err(LinkError::OutOfMemory);
    };
    let listening = match link.listen(alloc, stripes) {
        Ok(listening) => listening,
        Err(why) => return Err(why),
    };
    part(listening, &mut lanes, &mut places);
    let old = mem::replace(&mut settings.side, DataSide::Listening(lanes));
    release(link, old);
    Ok(places)
}

/// Parts lanes from the places where they listen. There is room for them.
fn part<L: Drop>(listening: Vec<Listening<L>>, lanes: &mut Vec<L>, places: &mut Vec<HostPort>)
    requires empty { (lanes.old.items ≡ []) × (places.old.items ≡ []) }
    requires room { (vec_len listening ≤ vec_capacity lanes.old)
        × (vec_len listening ≤ vec_capacity places.old) }
    ensures lanes { lanes.new.items ≡ lanes_of listening.items }
    ensures places { places.new.items ≡ places_of listening.items }
{
    'each: for one in listening {
        let Listening { at, lane } = one;
        lanes.push_reserved(lane);
        places.push_reserved(at);
    }
}
