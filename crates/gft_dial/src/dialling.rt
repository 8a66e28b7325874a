ghost use Rattle.std.specs.Prelude.{◌≡◌, ◌≤◌, ◌∷◌, [], All, IfErr, IfOk, length, map, vec_capacity, vec_len};
ghost use Rattle.std.specs.List.{repeat};
ghost use Rattle.gft_outside.specs.Words.{IsNewOutLane};
ghost use Rattle.gft_dial.specs.Dials.{DialsTo, MakesDials, each_times, outs_of};
ghost use Rattle.gft_dial.specs.Stripes.{DialsNone, IsNewStripe, IsUnopened};

use crate::error::DialError;
use crate::hanging_up::hang_up;
use gft_base::{Failed, OutOfMemory};
use gft_outside::Link;
use gft_send::Stripe;
use gft_text::HostPort;
use std::alloc::Global;

/// Opens so many data connections to each place, those to the first place first, and pairs them with the
/// drives: the stripe of a place has the drive of that number. They may be sent as they are.
///
/// After an error each data connection that was opened is given back, in order, and the drives are dropped.
/// `Failed` comes where a dial failed: it is the last one that was made. `OutOfMemory` comes before the first
/// dial, and leaves the link as it was.
pub fn dial_stripes<K: Link, D: Drop>(
    alloc: Global,
    link: &mut K,
    places: &[HostPort],
    channels: u16,
    drives: Vec<D>,
) -> Result<Vec<Stripe<D, K::Out>>, DialError>
    requires { vec_len drives ≡ length places.now }
    ensures count { IfOk result (λ stripes. vec_len stripes ≡ length places.now) }
    ensures drives { IfOk result (λ stripes. map (λ stripe. stripe.drive) stripes.items ≡ drives.items) }
    ensures new { IfOk result (λ stripes. All (IsNewStripe K.Out.state channels) stripes.items) }
    ensures dialled { IfOk result (λ stripes. DialsTo (K.state link.old) (K.state link.new)
        (each_times channels places.now) (outs_of stripes.items)) }
    ensures refused { IfErr result (DialsNone K.Out.state (each_times channels places.now)
        (K.state link.old) (K.state link.new)) }
{
    // The room comes first, so that no memory is refused behind a dial.
    let Ok(mut stripes) = unopened(alloc, channels, drives) else {
        return Err(DialError::OutOfMemory);
    };
    match dial_all(link, places, channels, stripes.as_mut_slice()) {
        Ok(()) => Ok(stripes),
        Err(Failed) => {
            hang_up(link, stripes);
            Err(DialError::Failed)
        }
    }
}

/// Stripes of these drives, with room for so many data connections each.
fn unopened<D: Drop, X: Drop>(
    alloc: Global,
    channels: u16,
    drives: Vec<D>,
) -> Result<Vec<Stripe<D, X>>, OutOfMemory>
    ensures drives { IfOk result (λ stripes. map (λ stripe. stripe.drive) stripes.items ≡ drives.items) }
    ensures unopened { IfOk result (λ stripes. All (IsUnopened channels) stripes.items) }
{
    let mut stripes = Vec::with_capacity(alloc, drives.len())?;
    'each: for drive in drives {
        let room = Vec::with_capacity(alloc, usize::from(channels))?;
        stripes.push_reserved(Stripe {
            drive,
            channels: room,
            sent: Ok(0),
        });
    }
    Ok(stripes)
}

/// Opens the data connections of all stripes, up to a dial that fails.
fn dial_all<K: Link, D: Drop>(
    link: &mut K,
    places: &[HostPort],
    channels: u16,
    stripes: &mut [Stripe<D, K::Out>],
) -> Result<(), Failed>
    requires count { length stripes.old ≡ length places.now }
    requires unopened { All (IsUnopened channels) stripes.old }
    ensures drives { map (λ stripe. stripe.drive) stripes.new ≡ map (λ stripe. stripe.drive) stripes.old }
    ensures new { IfOk result (λ _. All (IsNewStripe K.Out.state channels) stripes.new) }
    ensures fresh { All (λ out. IsNewOutLane (K.Out.state out)) (outs_of stripes.new) }
    ensures dials { MakesDials result (each_times channels places.now) (K.state link.old) (K.state link.new)
        (outs_of stripes.new) }
{
    for number in 0..places.len() {
        let outs = &mut stripes[number].channels;
        match dial_channels(link, &places[number], channels, outs) {
            Ok(()) => {}
            Err(Failed) => return Err(Failed),
        }
    }
    Ok(())
}

/// Opens so many data connections to a place, up to a dial that fails. There is room for them.
fn dial_channels<K: Link>(
    link: &mut K,
    at: &HostPort,
    channels: u16,
    outs: &mut Vec<K::Out>,
) -> Result<(), Failed>
    requires empty { outs.old.items ≡ [] }
    requires room { channels ≤ vec_capacity outs.old }
    ensures fresh { All (λ out. IsNewOutLane (K.Out.state out)) outs.new.items }
    ensures dials { MakesDials result (repeat channels (at.now ∷ [])) (K.state link.old) (K.state link.new)
        outs.new.items }
{
    'each: while outs.len() < usize::from(channels) {
        match link.dial(at) {
            Ok(out) => outs.push_reserved(out),
            Err(Failed) => return Err(Failed),
        }
    }
    Ok(())
}
