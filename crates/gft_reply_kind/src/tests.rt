ghost use Rattle.gft_reply_kind.specs.Replies.{HasText};

use super::*;
use gft_book::Use;
use gft_command::CommandError;
use gft_eblock::BadBlock;
use gft_library::LibraryError;
use gft_pass::Cause;
use gft_range::Range;
use gft_text::HostPort;
use std::alloc::Global;
use std::process::Abort;
use std::test::Fail;

/// The kind has this text.
fn says(rt: &impl Abort, alloc: Global, kind: &ReplyKind, want: &[u8]) -> Result<(), Fail>
    requires { HasText kind.now }
{
    let text = kind.text(alloc)?;
    assert_eq!(rt; text.as_slice(), want);
    Ok(())
}

/// The transfer that ended for this cause is told so.
fn fails(rt: &impl Abort, alloc: Global, cause: Cause, want: &[u8]) -> Result<(), Fail> {
    says(rt, alloc, &ReplyKind::Failed(cause), want)
}

/// An address on this machine.
fn address(port: u16) -> HostPort {
    HostPort {
        host: [127, 0, 0, 1],
        port,
    }
}

#[test]
fn positive_replies_have_texts(rt: HostRuntime) -> Result<(), Fail> {
    let alloc = rt.alloc();
    let greeting = b"220 GridFTP server ready.\r\n";
    says(&rt, alloc, &ReplyKind::Greeting, greeting)?;
    says(&rt, alloc, &ReplyKind::LoggedIn, b"230 Logged in.\r\n")?;
    let folder = b"257 \"/\" is the only folder.\r\n";
    says(&rt, alloc, &ReplyKind::OnlyFolder, folder)?;
    let opening = b"150 Opening data connections.\r\n";
    says(&rt, alloc, &ReplyKind::Opening, opening)?;
    let done = b"226 Abort processed.\r\n";
    says(&rt, alloc, &ReplyKind::AbortDone, done)
}

#[test]
fn negative_replies_have_texts(rt: HostRuntime) -> Result<(), Fail> {
    let alloc = rt.alloc();
    says(&rt, alloc, &ReplyKind::NotBuilt, b"504 Not built.\r\n")?;
    let no_listener = b"425 Cannot listen.\r\n";
    says(&rt, alloc, &ReplyKind::CannotListen, no_listener)?;
    says(&rt, alloc, &ReplyKind::Idle, b"421 Idle, closing.\r\n")?;
    let too_long = b"500 Line too long.\r\n";
    says(&rt, alloc, &ReplyKind::TooLong, too_long)
}

#[test]
fn extensions_are_listed(rt: HostRuntime) -> Result<(), Fail> {
    let want = b"211-Extensions supported:\r\n DCAU\r\n ERET\r\n ESTO\r\n PARALLEL\r\n \
          SBUF\r\n SIZE\r\n SPAS\r\n SPOR\r\n211 End\r\n";
    says(&rt, rt.alloc(), &ReplyKind::Features, want)
}

#[test]
fn addresses_are_named(rt: HostRuntime) -> Result<(), Fail> {
    let alloc = rt.alloc();
    let want = b"227 Entering Passive Mode (127,0,0,1,200,10)\r\n";
    says(&rt, alloc, &ReplyKind::Passive(address(51_210)), want)?;
    let places = vec![in alloc; address(51_210), address(255)]?;
    let want =
        b"229-Entering Striped Passive Mode.\r\n 127,0,0,1,200,10\r\n 127,0,0,1,0,255\r\n229 End\r\n";
    says(&rt, alloc, &ReplyKind::Striped(places), want)
}

#[test]
fn numbers_are_named(rt: HostRuntime) -> Result<(), Fail> {
    let alloc = rt.alloc();
    let sixteen = b"200 16 targets set.\r\n";
    says(&rt, alloc, &ReplyKind::TargetsSet(16), sixteen)?;
    says(&rt, alloc, &ReplyKind::Length(0), b"213 0\r\n")?;
    let most = b"213 18446744073709551615\r\n";
    says(&rt, alloc, &ReplyKind::Length(u64::MAX), most)
}

#[test]
fn lines_that_are_no_command_have_texts(rt: HostRuntime) -> Result<(), Fail> {
    let alloc = rt.alloc();
    let rows: [(CommandError, &[u8]); 4] = [
        (CommandError::UnknownVerb, b"500 Unknown command.\r\n"),
        (
            CommandError::MissingParameter,
            b"501 Parameter missing.\r\n",
        ),
        (CommandError::BadParameter, b"501 Bad parameter.\r\n"),
        (CommandError::OutOfMemory, b"455 Out of memory.\r\n"),
    ];
    for (why, want) in rows {
        says(&rt, alloc, &ReplyKind::Unread(why), want)?;
    }
    Ok(())
}

#[test]
fn refusals_of_the_library_have_texts(rt: HostRuntime) -> Result<(), Fail> {
    let alloc = rt.alloc();
    let missing = Range {
        start: 64,
        end: 100,
    };
    let rows: [(LibraryError, &[u8]); 9] = [
        (
            LibraryError::Busy {
                found: Use::Storing,
            },
            b"450 Busy: storing.\r\n",
        ),
        (
            LibraryError::Busy {
                found: Use::Reading(2),
            },
            b"450 Busy: reading.\r\n",
        ),
        (
            LibraryError::CompleteAlready { len: 5 },
            b"550 Complete already.\r\n",
        ),
        (
            LibraryError::NotInJournal { missing },
            b"554 REST names 64-100, which is not stored.\r\n",
        ),
        (LibraryError::Incomplete, b"550 Not complete.\r\n"),
        (
            LibraryError::TooManyNames,
            b"452 Too many names: 65536.\r\n",
        ),
        (LibraryError::OutOfMemory, b"455 Out of memory.\r\n"),
        (LibraryError::DriveFailed, b"451 Drive failed.\r\n"),
        (LibraryError::ShelfFailed, b"451 Drive failed.\r\n"),
    ];
    for (why, want) in rows {
        says(&rt, alloc, &ReplyKind::Refused(why), want)?;
    }
    Ok(())
}

#[test]
fn causes_without_numbers_have_texts(rt: HostRuntime) -> Result<(), Fail> {
    let alloc = rt.alloc();
    let rows: [(Cause, &[u8]); 6] = [
        (Cause::Aborted, b"426 Aborted.\r\n"),
        (Cause::ControlGone, b"426 Control lost.\r\n"),
        (Cause::LinkFailed, b"425 Data connection failed.\r\n"),
        (Cause::DriveFailed, b"451 Drive failed.\r\n"),
        (
            Cause::RangesFull { kept: 16_384 },
            b"452 Too many ranges: 16384.\r\n",
        ),
        (Cause::Memory, b"455 Out of memory.\r\n"),
    ];
    for (cause, want) in rows {
        says(&rt, alloc, &ReplyKind::Failed(cause), want)?;
    }
    Ok(())
}

#[test]
fn channels_are_named(rt: HostRuntime) -> Result<(), Fail> {
    let alloc = rt.alloc();
    let lost = Cause::Lost {
        lane: 1,
        channel: 2,
        taken: 22,
    };
    let want = b"426 Channel lost: lane 1, channel 2, 22 bytes taken.\r\n";
    fails(&rt, alloc, lost, want)?;
    let bad = Cause::BadBlock {
        lane: 1,
        channel: 2,
        bad: BadBlock {
            place: 17,
            flags: 3,
            count: 5,
            offset: 9,
        },
    };
    let want = b"426 Bad block at 17: flags 3, count 5, offset 9.\r\n";
    fails(&rt, alloc, bad, want)
}

#[test]
fn lanes_are_named(rt: HostRuntime) -> Result<(), Fail> {
    let alloc = rt.alloc();
    let idle = Cause::Idle { lane: 3, turns: 7 };
    fails(&rt, alloc, idle, b"426 Idle: lane 3, turn 7.\r\n")?;
    let too_long = Cause::StreamTooLong { lane: 2 };
    let want = b"426 Stream too long: lane 2.\r\n";
    fails(&rt, alloc, too_long, want)?;
    let too_many = Cause::TooManyChannels {
        lane: 1,
        opened: 70,
        live: 64,
    };
    let want = b"426 Too many channels: lane 1, opened 70, live 64.\r\n";
    fails(&rt, alloc, too_many, want)
}

#[test]
fn totals_are_named(rt: HostRuntime) -> Result<(), Fail> {
    let alloc = rt.alloc();
    let two = Cause::TwoTotals { kept: 1, new: 2 };
    fails(&rt, alloc, two, b"426 Two totals: 1 and 2.\r\n")?;
    let bad = Cause::BadTotal { total: 0 };
    fails(&rt, alloc, bad, b"426 Bad total: 0.\r\n")?;
    let too_many = Cause::TooManyEods { total: 1 };
    fails(&rt, alloc, too_many, b"426 Too many EODs: total 1.\r\n")
}

#[test]
fn holes_are_named(rt: HostRuntime) -> Result<(), Fail> {
    let alloc = rt.alloc();
    let missing = Some(Range { start: 5, end: 9 });
    let gap = Cause::Hole {
        total: Some(2),
        eods: 2,
        missing,
    };
    fails(
        &rt,
        alloc,
        gap,
        b"426 Hole: total 2, EODs 2, first missing 5-9.\r\n",
    )?;
    let empty = Cause::Hole {
        total: None,
        eods: 0,
        missing: None,
    };
    fails(
        &rt,
        alloc,
        empty,
        b"426 Hole: total none, EODs 0, first missing none.\r\n",
    )
}
