ghost use Rattle.std.specs.Prelude.{◌≡◌, length};
ghost use Rattle.gft_pass.specs.Ledger.{AllPasses};

use super::*;
use gft_eblock::BadBlock;
use gft_eod::EodError;
use std::process::Abort;
use std::test::Fail;
use std::thread;

/// Numbers, one after another.
type Row = (u64, u64, Option<u64>, Option<Cause>, bool);

const NONE: Row = (0, 0, None, None, false);

fn numbers_of(row: Row) -> Numbers {
    let (bytes, eods, total, cause, stopped) = row;
    Numbers {
        bytes,
        eods,
        total,
        cause,
        stopped,
    }
}

fn row_of(numbers: Numbers) -> Row {
    let Numbers {
        bytes,
        eods,
        total,
        cause,
        stopped,
    } = numbers;
    (bytes, eods, total, cause, stopped)
}

/// Gives the pass at this place these numbers.
fn change_at(roster: &mut Roster, passes: &mut Vec<Pass>, place: usize, row: Row)
    requires { AllPasses roster.old.table (length roster.old.counts) passes.old.items }
    ensures { AllPasses roster.new.table (length roster.new.counts) passes.new.items }
{
    if let Some(pass) = passes.get_mut(place) {
        roster.change(pass, &numbers_of(row));
    }
}

#[test]
fn each_pass_has_what_it_was_given_last(rt: HostRuntime) -> Result<(), Fail> {
    let hello = (5, 1, None, None, false);
    let world = (10, 1, Some(2), None, false);
    let gone = (5, 0, None, Some(Cause::ControlGone), false);
    let stopped = (5, 1, None, None, true);
    let rows: [(u16, &[(usize, Row)], &[Row]); 6] = [
        (0, &[], &[]),
        (1, &[], &[NONE]),
        (2, &[(1, hello)], &[NONE, hello]),
        (
            2,
            &[(0, hello), (1, world), (0, stopped)],
            &[stopped, world],
        ),
        (3, &[(2, gone), (0, world)], &[world, NONE, gone]),
        (3, &[(1, gone), (1, NONE)], &[NONE, NONE, NONE]),
    ];
    for (lanes, changes, want) in rows {
        let (mut roster, mut passes) = Roster::begin(rt.alloc(), lanes)?;
        for &(place, row) in changes {
            change_at(&mut roster, &mut passes, place, row);
        }
        assert_eq!(rt; passes.len(), want.len(), "{changes:?}");
        for (i, (pass, want)) in passes.iter().zip(want).enumerate() {
            assert_eq!(rt; usize::from(pass.lane()), i, "{changes:?}");
            assert_eq!(rt; row_of(pass.numbers()), *want, "{changes:?}");
        }
        let (_settled, _ended) = roster.settle(passes);
    }
    Ok(())
}

#[test]
fn a_refusal_is_kept_with_its_numbers(rt: HostRuntime) -> Result<(), Fail> {
    let (total, kept, new) = (1025, 2, 3);
    let rows = [
        (EodError::BadTotal { total }, Cause::BadTotal { total }),
        (
            EodError::TwoTotals { kept, new },
            Cause::TwoTotals { kept, new },
        ),
        (
            EodError::TooManyEods { total },
            Cause::TooManyEods { total },
        ),
    ];
    for (error, cause) in rows {
        assert_eq!(rt; Cause::of_count(error), cause);
    }
    Ok(())
}

#[test]
fn causes_are_told_apart_by_their_numbers(rt: HostRuntime) -> Result<(), Fail> {
    let bad = BadBlock {
        place: 17,
        flags: 16,
        count: 5,
        offset: 0,
    };
    let (lane, channel) = (0, 1);
    let refused = Cause::BadBlock { lane, channel, bad };
    let lost = Cause::Lost {
        lane,
        channel,
        taken: 17,
    };
    assert!(rt; refused != lost);
    let other = BadBlock { flags: 32, ..bad };
    assert!(rt;
        refused
            != Cause::BadBlock {
                lane,
                channel,
                bad: other
            }
    );
    assert_eq!(rt; row_of(Numbers::none()), NONE);
    Ok(())
}

// Movers run in threads, each with its pass, and the roster stands under their lock.
#[test]
fn another_thread_may_run_a_transfer(rt: HostRuntime) -> Result<(), Fail> {
    let hello = (5, 1, None, None, false);
    let (mut roster, mut passes) = Roster::begin(rt.alloc(), 2)?;
    change_at(&mut roster, &mut passes, 1, hello);
    let (told, ()) = thread::join(
        &rt,
        move || {
            let row = passes.last().map(|pass| row_of(pass.numbers()));
            (row, roster.settle(passes))
        },
        || (),
    );
    let (row, (_settled, _ended)) = told;
    assert_eq!(rt; row, Some(hello));
    Ok(())
}
