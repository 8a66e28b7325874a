ghost use Rattle.std.specs.Prelude.{◌≡◌, []};

use super::*;
use std::test::Fail;
use std::thread;

#[test]
fn a_seat_reads_what_was_added_through_those_joined_into_it(rt: HostRuntime) -> Result<(), Fail> {
    let (meter, mut first) = Meter::new(rt.alloc(), 2)?;
    let mut second = meter.split(&mut first);
    meter.add(&mut first, 0, 5);
    meter.add(&mut first, 0, 7);
    meter.add(&mut second, 0, 3);
    meter.join(&mut first, second);
    assert_eq!(rt; meter.read(&mut first, 0), 15);
    assert_eq!(rt; meter.read(&mut first, 1), 0);
    Ok(())
}

// The first stripes and the last ones, and the greatest sum of a seat, which wasn't joined yet.
#[test]
fn stripes_count_apart(rt: HostRuntime) -> Result<(), Fail> {
    let (meter, mut first) = Meter::new(rt.alloc(), 65_535)?;
    let mut second = meter.split(&mut first);
    meter.add(&mut second, 65_534, 288_230_376_151_711_744);
    meter.add(&mut first, 65_533, 3);
    meter.add(&mut first, 0, 0);
    assert_eq!(rt; meter.read(&mut first, 0), 0);
    assert_eq!(rt; meter.read(&mut first, 1), 0);
    assert_eq!(rt; meter.read(&mut first, 65_533), 3);
    assert_eq!(rt; meter.read(&mut first, 65_534), 288_230_376_151_711_744);
    Ok(())
}

#[test]
fn a_meter_without_a_stripe_has_seats(rt: HostRuntime) -> Result<(), Fail> {
    let (meter, mut first) = Meter::new(rt.alloc(), 0)?;
    let second = meter.split(&mut first);
    meter.join(&mut first, second);
    Ok(())
}

#[test]
fn seats_add_in_threads_of_their_own(rt: HostRuntime) -> Result<(), Fail> {
    let (meter, mut teller) = Meter::new(rt.alloc(), 2)?;
    let mut first = meter.split(&mut teller);
    let mut second = meter.split(&mut teller);
    let all = &meter;
    let (first, second) = thread::join(
        &rt,
        move || -> MeterSeat
            requires { (first.table ≡ all.now.table) × (all.now.stripes ≡ 2) × (first.adds ≡ []) }
            ensures { result.table ≡ all.entry.now.table }
        {
            all.add(&mut first, 0, 5);
            first
        },
        move || -> MeterSeat
            requires { (second.table ≡ all.now.table) × (all.now.stripes ≡ 2) × (second.adds ≡ []) }
            ensures { result.table ≡ all.entry.now.table }
        {
            all.add(&mut second, 1, 3);
            second
        },
    );
    meter.join(&mut teller, first);
    meter.join(&mut teller, second);
    assert_eq!(rt; meter.read(&mut teller, 0), 5);
    assert_eq!(rt; meter.read(&mut teller, 1), 3);
    Ok(())
}
