use super::*;
use gft_base::LIMIT;
use gft_range::{Range, RangeSet};
use std::alloc::Global;
use std::process::Abort;
use std::test::Fail;

/// An event of a row: `Hello`, `Jelly` and `World` are blocks of five bytes, at 0, 0 and 5.
#[derive(Clone, Copy, Debug)]
enum Told {
    Fresh,
    Hello,
    Jelly,
    World,
    OpenHello,
    OpenJelly,
    Eof(u64),
    Eod,
    Lost,
    Mark,
    Resume,
    /// A crash leaves these data, and no range.
    CrashBare(&'static [u8]),
    /// A crash leaves these data, and in its first bank the one range `0-5`.
    CrashFive(&'static [u8]),
    /// The same, in its second bank.
    CrashSecond(&'static [u8]),
}

fn block(alloc: Global, offset: u64, bytes: &[u8], unanswered: bool) -> Result<CoreEvent, Fail> {
    let bytes = Octets::from_bytes(alloc, bytes)?;
    Ok(CoreEvent::Block {
        lane: 0,
        channel: 5,
        offset,
        bytes,
        unanswered,
    })
}

/// The bytes of a ranges part: zeros, but with this selector, and with this slot behind so many bytes.
fn part(alloc: Global, selector: u8, before: usize, slot: &[u8]) -> Result<Octets, Fail> {
    let mut bytes = Vec::new(alloc);
    bytes.push(selector)?;
    for _ in 1..before {
        bytes.push(0)?;
    }
    bytes.extend_from_slice(slot)?;
    for _ in before..2_097_200 {
        bytes.push(0)?;
    }
    Ok(Octets::from_bytes(alloc, &bytes)?)
}

fn crash(alloc: Global, bytes: &[u8], ranges: Octets) -> Result<CoreEvent, Fail> {
    let bytes = Octets::from_bytes(alloc, bytes)?;
    Ok(CoreEvent::Crash {
        image: Image { bytes, ranges },
    })
}

fn event_of(alloc: Global, told: Told) -> Result<CoreEvent, Fail> {
    let closed = [0; 16];
    let five = [1, 1, 0, 0, 0, 0, 0, 0, 0, 0, 0, 0, 0, 0, 0, 5];
    let event = match told {
        Told::Hello => return block(alloc, 0, b"hello", false),
        Told::Jelly => return block(alloc, 0, b"jelly", false),
        Told::World => return block(alloc, 5, b"world", false),
        Told::OpenHello => return block(alloc, 0, b"hello", true),
        Told::OpenJelly => return block(alloc, 0, b"jelly", true),
        Told::CrashBare(bytes) => return crash(alloc, bytes, part(alloc, 0, 96, &closed)?),
        Told::CrashFive(bytes) => return crash(alloc, bytes, part(alloc, 0, 96, &five)?),
        Told::CrashSecond(bytes) => {
            return crash(alloc, bytes, part(alloc, 1, 1_048_672, &five)?);
        }
        Told::Fresh => CoreEvent::Fresh,
        Told::Eof(total) => CoreEvent::Eof { total },
        Told::Eod => CoreEvent::Eod { lane: 0 },
        Told::Lost => CoreEvent::Lost,
        Told::Mark => CoreEvent::Mark,
        Told::Resume => CoreEvent::Resume {
            list: RangeSet::new(alloc),
        },
    };
    Ok(event)
}

/// The machine after these events.
fn machine_after(rt: &impl Abort, alloc: Global, told: &[Told]) -> Result<Core, Fail> {
    let mut core = Core::new(alloc);
    for &each in told {
        let event = event_of(alloc, each)?;
        if let CoreEvent::Block { offset, bytes, .. } = &event {
            let count = bytes.bytes().len() as u64;
            assert!(rt; *offset <= LIMIT && count <= LIMIT - *offset);
        }
        core.step(&event)?;
    }
    Ok(core)
}

/// The events of a row, the range that they book, the kept byte at 0, and whether they are done.
type Row = (&'static [Told], Option<Range>, Option<u8>, bool);

fn check(rt: &impl Abort, alloc: Global, rows: &[Row]) -> Result<(), Fail> {
    for &(told, booked, byte, done) in rows {
        let core = machine_after(rt, alloc, told)?;
        assert_eq!(rt; core.booked().nth(0), booked, "{told:?}");
        assert_eq!(rt; core.booked().nth(1), None, "{told:?}");
        assert_eq!(rt; core.kept_byte(0), byte, "{told:?}");
        assert_eq!(rt; core.is_done(), done, "{told:?}");
    }
    Ok(())
}

const FIRST: Option<Range> = Some(Range { start: 0, end: 5 });

const SECOND: Option<Range> = Some(Range { start: 5, end: 10 });

const BOTH: Option<Range> = Some(Range { start: 0, end: 10 });

const H: Option<u8> = Some(b'h');

const J: Option<u8> = Some(b'j');

#[test]
fn rows_of_events(rt: HostRuntime) -> Result<(), Fail> {
    use Told::{Eod, Eof, Fresh, Hello, Jelly, Lost, Mark, OpenHello, Resume, World};
    let rows: [Row; 11] = [
        (&[Fresh, World, Hello, Eof(2), Eod, Eod], BOTH, H, true),
        (&[Fresh], None, None, false),
        (&[Fresh, Hello, Lost, Eof(1), Eod], FIRST, H, false),
        (&[Fresh, World, Eof(1), Eod], SECOND, None, false),
        (&[Fresh, Eof(1), Eof(2), Eod], None, None, false),
        (&[Fresh, Eof(1), Mark, Eod], None, None, true),
        (
            &[Fresh, Hello, Lost, Resume, World, Eof(1), Eod],
            BOTH,
            H,
            true,
        ),
        (&[Fresh, Hello, Fresh, Jelly, Eof(1), Eod], FIRST, J, true),
        (&[Fresh, Hello, Jelly, Hello], FIRST, H, false),
        (&[Fresh, OpenHello, Mark], None, None, false),
        (&[Fresh, Hello, Eof(1), Eod, Resume], FIRST, H, false),
    ];
    check(&rt, rt.alloc(), &rows)?;
    let octets = Octets::from_bytes(rt.alloc(), b"hello")?;
    assert!(rt; octets == octets.copy()?);
    laws::honest_law();
    laws::crash_law();
    Ok(())
}

#[test]
fn a_crash_that_begins_a_list(rt: HostRuntime) -> Result<(), Fail> {
    use Told::{CrashBare, CrashFive, CrashSecond, Eod, Eof, Fresh, Hello, Jelly, Resume, World};
    let rows: [Row; 7] = [
        (&[CrashFive(b"hello")], FIRST, H, false),
        (&[CrashSecond(b"hello more")], FIRST, H, false),
        (&[CrashBare(b"hello")], None, None, false),
        (&[CrashFive(b"hello"), Jelly], FIRST, H, false),
        (&[CrashBare(b"hello"), Jelly], FIRST, J, false),
        (
            &[CrashFive(b"hello"), Resume, World, Eof(1), Eod],
            BOTH,
            H,
            true,
        ),
        (
            &[CrashFive(b"jelly"), Fresh, Hello, Eof(1), Eod],
            FIRST,
            H,
            true,
        ),
    ];
    check(&rt, rt.alloc(), &rows)
}

#[test]
fn a_crash_decides_on_open_blocks(rt: HostRuntime) -> Result<(), Fail> {
    use Told::{CrashBare, CrashFive, Fresh, Hello, Jelly, OpenHello, OpenJelly, World};
    let rows: [Row; 8] = [
        (&[Fresh, OpenHello, CrashBare(b"hel")], None, None, false),
        (
            &[Fresh, OpenHello, CrashBare(b"hel"), Jelly],
            FIRST,
            J,
            false,
        ),
        (&[Fresh, OpenHello, CrashFive(b"hello")], FIRST, H, false),
        (
            &[Fresh, OpenHello, CrashFive(b"hello"), Jelly],
            FIRST,
            H,
            false,
        ),
        (
            &[Fresh, OpenJelly, OpenHello, CrashFive(b"jelly")],
            FIRST,
            J,
            false,
        ),
        (
            &[Fresh, Jelly, OpenHello, CrashFive(b"jelly")],
            FIRST,
            J,
            false,
        ),
        (&[Fresh, Hello, CrashFive(b"hello")], FIRST, H, false),
        (&[Fresh, Hello, CrashFive(b"hello"), World], BOTH, H, false),
    ];
    check(&rt, rt.alloc(), &rows)
}

#[test]
fn one_crash_behind_another(rt: HostRuntime) -> Result<(), Fail> {
    use Told::{CrashBare, CrashFive, Eod, Eof, Fresh, Hello, OpenHello};
    let rows: [Row; 4] = [
        (&[CrashFive(b"hello"), CrashFive(b"hello")], FIRST, H, false),
        (
            &[Fresh, OpenHello, CrashBare(b""), CrashBare(b"")],
            None,
            None,
            false,
        ),
        (
            &[Fresh, OpenHello, CrashFive(b"hello"), CrashFive(b"hello")],
            FIRST,
            H,
            false,
        ),
        (
            &[Fresh, Hello, Eof(1), Eod, CrashFive(b"hello")],
            FIRST,
            H,
            false,
        ),
    ];
    check(&rt, rt.alloc(), &rows)
}

/// A crash that leaves the first five offsets with these bytes.
const CRASH: Told = Told::CrashFive(b"hello");

#[test]
fn a_restart_behind_a_crash(rt: HostRuntime) -> Result<(), Fail> {
    use Told::{Eod, Eof, Fresh, Hello, Mark, Resume, World};
    let rows: [Row; 3] = [
        (
            &[Fresh, Hello, Resume, CRASH, World, Eof(1), Eod],
            BOTH,
            H,
            false,
        ),
        (
            &[Fresh, Hello, Resume, CRASH, Resume, World, Eof(1), Eod],
            BOTH,
            H,
            true,
        ),
        (
            &[Fresh, Hello, Mark, CRASH, Resume, World, Eof(1), Eod],
            BOTH,
            H,
            true,
        ),
    ];
    check(&rt, rt.alloc(), &rows)
}
