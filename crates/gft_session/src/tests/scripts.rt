//! The whole script of a transfer: its control is cut anywhere, and each call from outside fails once.

use super::*;
use gft_drive::{CallKind, FailAt};
use std::process::Abort;

/// The login, the settings, and a file that two lanes bring.
const TRANSFER: [&[u8]; 9] = [
    b"USER anonymous\r\n",
    b"PASS x\r\n",
    b"TYPE I\r\n",
    b"MODE E\r\n",
    b"DCAU N\r\n",
    b"SPAS\r\n",
    b"STOR a.dat\r\n",
    b"SIZE a.dat\r\n",
    b"QUIT\r\n",
];

/// What is put where nothing fails.
const REPLIES: [&[u8]; 12] = [
    b"220 GridFTP server ready.\r\n",
    b"331 Password please.\r\n",
    b"230 Logged in.\r\n",
    b"200 Type I.\r\n",
    b"200 Mode E.\r\n",
    b"200 DCAU N.\r\n",
    b"229-Entering Striped Passive Mode.\r\n 127,0,0,1,200,10\r\n 127,0,0,1,200,11\r\n229 End\r\n",
    b"150 Opening data connections.\r\n",
    b"111 Range Marker 0-5\r\n",
    b"226 Transfer complete.\r\n",
    b"213 5\r\n",
    b"221 Goodbye.\r\n",
];

/// The first of these replies, and then others.
fn replies_then(alloc: Global, count: usize, others: &[u8]) -> Result<Vec<u8>, OutOfMemory> {
    let mut all = Vec::new(alloc);
    for reply in REPLIES.get(..count).unwrap_or(&REPLIES) {
        all.extend_from_slice(reply)?;
    }
    all.extend_from_slice(others)?;
    Ok(all)
}

/// The control's bytes, a line each.
fn script(alloc: Global, failing: Vec<u32>) -> Result<MemoryControl, OutOfMemory> {
    let mut items = Vec::new(alloc);
    for line in TRANSFER {
        items.push(bytes(alloc, line)?)?;
    }
    Ok(MemoryControl::new(items, failing))
}

/// A link of two lanes that bring `hello`. The calls of these numbers fail, of the link and of its first
/// lane.
fn hello_link(
    alloc: Global,
    failing: Vec<u32>,
    lane_failing: Vec<u32>,
) -> Result<MemoryLink, Fail> {
    let first = lane_of(alloc, &[(0, b"hello")], Some(2), lane_failing)?;
    let second = lane_of(alloc, &[], Some(2), Vec::new(alloc))?;
    let listening = vec![in alloc;
        Listening {
            at: address(0),
            lane: first
        },
        Listening {
            at: address(1),
            lane: second
        },
    ]?;
    Ok(MemoryLink::new(alloc, listening, Vec::new(alloc), failing)?)
}

/// How a session over the library ends, and what it puts.
fn session<R: Threads + Wait + Sync>(
    rt: &R,
    alloc: Global,
    files: &Files,
    control: MemoryControl,
    puts: Vec<u32>,
    link: &mut MemoryLink,
) -> Result<(SessionEnd, Vec<u8>), OutOfMemory> {
    let mut control = control;
    let mut out = sink(alloc, puts)?;
    let config = Config {
        stripes: 2,
        marker_bytes: 67_108_864,
        idle: 3,
    };
    let end = run_session(
        rt,
        alloc,
        &mut control,
        &mut out,
        link,
        files,
        &mut NoClock,
        &config,
        &mut NoTally,
    );
    Ok((end, Vec::from_slice(alloc, out.bytes())?))
}

/// Asserts that a session in which nothing fails answers the script.
fn answers_the_script<R: Threads + Wait + Sync + Abort>(
    rt: &R,
    alloc: Global,
    files: &Files,
    behind: &str,
    number: u32,
) -> Result<(), Fail> {
    let none = Vec::new(alloc);
    let mut link = hello_link(alloc, Vec::new(alloc), Vec::new(alloc))?;
    let control = script(alloc, Vec::new(alloc))?;
    let (end, said) = session(rt, alloc, files, control, none, &mut link)?;
    assert_eq!(rt; end, SessionEnd::Quit, "behind {behind} {number}");
    assert_eq!(rt;
        said,
        replies_then(alloc, 12, b"")?,
        "behind {behind} {number}"
    );
    Ok(())
}

/// Asserts that a peer is answered as ever which says the script byte by byte, and is silent in front of the
/// byte at each of these places, and of those 28 and 56 places behind it.
fn are_cut<R: Threads + Wait + Sync + Abort>(
    rt: &R,
    alloc: Global,
    places: std::ops::Range<usize>,
) -> Result<(), Fail> {
    let mut all = Vec::new(alloc);
    for line in TRANSFER {
        all.extend_from_slice(line)?;
    }
    for cut in places {
        let mut items = Vec::new(alloc);
        for (place, byte) in all.iter().enumerate() {
            if place % 28 == cut {
                items.push(ControlItem::Quiet)?;
            }
            items.push(bytes(alloc, &[*byte])?)?;
        }
        let control = MemoryControl::new(items, Vec::new(alloc));
        let mut link = hello_link(alloc, Vec::new(alloc), Vec::new(alloc))?;
        let files = files_of(alloc, Vec::new(alloc), Vec::new(alloc));
        let (end, said) = session(rt, alloc, &files, control, Vec::new(alloc), &mut link)?;
        assert_eq!(rt; end, SessionEnd::Quit);
        assert_eq!(rt; said, replies_then(alloc, 12, b"")?, "cut {cut}");
        assert_eq!(rt; link.handed_out(), 0);
    }
    Ok(())
}

#[test]
fn cuts_change_no_reply_of_a_transfer(rt: HostRuntime) -> Result<(), Fail> {
    are_cut(&rt, rt.alloc(), 0..14)
}

#[test]
fn other_cuts_change_no_reply_of_a_transfer(rt: HostRuntime) -> Result<(), Fail> {
    are_cut(&rt, rt.alloc(), 14..28)
}

// A poll gives one byte.
#[test]
fn a_poll_that_fails_ends_the_script(rt: HostRuntime) -> Result<(), Fail> {
    let alloc = rt.alloc();
    // the last poll of each line, and how many replies are put before its own
    let rows = [
        (16, 1),
        (24, 2),
        (32, 3),
        (40, 4),
        (48, 5),
        (54, 6),
        (66, 7),
        (78, 10),
        (84, 11),
    ];
    let mut first = 1;
    for (last, put) in rows {
        for poll in [first, last] {
            let files = files_of(alloc, Vec::new(alloc), Vec::new(alloc));
            let control = script(alloc, vec![in alloc; poll]?)?;
            let mut link = hello_link(alloc, Vec::new(alloc), Vec::new(alloc))?;
            let (end, said) = session(&rt, alloc, &files, control, Vec::new(alloc), &mut link)?;
            assert_eq!(rt; end, SessionEnd::ControlFault, "poll {poll}");
            assert_eq!(rt; said, replies_then(alloc, put, b"")?, "poll {poll}");
            assert_eq!(rt; link.handed_out(), 0, "poll {poll}");
            answers_the_script(&rt, alloc, &files, "poll", poll)?;
        }
        first = last.saturating_add(1);
    }
    Ok(())
}

#[test]
fn a_put_that_fails_ends_the_script(rt: HostRuntime) -> Result<(), Fail> {
    let alloc = rt.alloc();
    let files = files_of(alloc, Vec::new(alloc), Vec::new(alloc));
    for put in 1..=12 {
        let control = script(alloc, Vec::new(alloc))?;
        let puts = vec![in alloc; put]?;
        let mut link = hello_link(alloc, Vec::new(alloc), Vec::new(alloc))?;
        let (end, said) = session(&rt, alloc, &files, control, puts, &mut link)?;
        assert_eq!(rt; end, SessionEnd::OutFault, "put {put}");
        assert_eq!(rt;
            said,
            replies_then(alloc, (put as usize).saturating_sub(1), b"")?,
            "put {put}"
        );
        assert_eq!(rt; link.handed_out(), 0, "put {put}");
        answers_the_script(&rt, alloc, &files, "put", put)?;
    }
    Ok(())
}

/// The replies from that to SPAS on, where these calls fail: of the link, of its first lane, of the shelf, and
/// of the drives that it makes.
fn failing<R: Threads + Wait + Sync + Abort>(
    rt: &R,
    alloc: Global,
    link: &[u32],
    lane: &[u32],
    shelf: &[u32],
    drive: &[FailAt],
) -> Result<Vec<u8>, Fail> {
    let drives = Vec::from_slice(alloc, drive)?;
    let shelf = Vec::from_slice(alloc, shelf)?;
    let shelf = MemoryShelf::new(Vec::new(alloc), 64, u32::MAX, drives, shelf);
    let files = Library::new(alloc, shelf);
    let control = script(alloc, Vec::new(alloc))?;
    let (link, lane) = (Vec::from_slice(alloc, link)?, Vec::from_slice(alloc, lane)?);
    let mut link = hello_link(alloc, link, lane)?;
    let (end, said) = session(rt, alloc, &files, control, Vec::new(alloc), &mut link)?;
    assert_eq!(rt; end, SessionEnd::Quit);
    assert_eq!(rt; link.handed_out(), 0);
    answers_the_script(rt, alloc, &files, "a failure", 0)?;
    let front = replies_then(alloc, 6, b"")?;
    let behind = said.strip_prefix(front.as_slice()).unwrap_or(b"");
    Ok(Vec::from_slice(alloc, behind)?)
}

/// The reply to SPAS, then these, and then that to QUIT.
fn striped_then(alloc: Global, others: &[u8]) -> Result<Vec<u8>, OutOfMemory> {
    let mut all = Vec::from_slice(alloc, REPLIES[6])?;
    all.extend_from_slice(others)?;
    all.extend_from_slice(REPLIES[11])?;
    Ok(all)
}

// One call makes both listeners. A lane's third call comes behind its EOD, and isn't made.
#[test]
fn calls_of_a_link_and_its_lanes_fail(rt: HostRuntime) -> Result<(), Fail> {
    let alloc = rt.alloc();
    let said = failing(&rt, alloc, &[1], &[], &[], &[])?;
    let want = b"425 Cannot listen.\r\n503 SPAS or PASV first.\r\n550 No such file.\r\n\
221 Goodbye.\r\n";
    assert_eq!(rt; said.as_slice(), want.as_slice());
    for call in 1..=2 {
        let said = failing(&rt, alloc, &[], &[call], &[], &[])?;
        let want = b"150 Opening data connections.\r\n425 Data connection failed.\r\n\
550 Not complete.\r\n";
        assert_eq!(rt; said, striped_then(alloc, want)?, "lane, {call}");
    }
    Ok(())
}

// The shelf is asked for the name, and then to make it.
#[test]
fn calls_of_a_shelf_fail(rt: HostRuntime) -> Result<(), Fail> {
    let alloc = rt.alloc();
    for call in 1..=2 {
        let said = failing(&rt, alloc, &[], &[], &[call], &[])?;
        let want = b"451 Drive failed.\r\n550 No such file.\r\n";
        assert_eq!(rt; said, striped_then(alloc, want)?, "shelf, {call}");
    }
    Ok(())
}

/// Asserts that these are the replies to STOR and SIZE where one of these calls of the drive fails.
fn drive_fails<R: Threads + Wait + Sync + Abort>(
    rt: &R,
    alloc: Global,
    calls: &[(CallKind, Part, u32)],
    want: &[u8],
) -> Result<(), Fail> {
    for &(call, part, number) in calls {
        let at = FailAt { call, part, number };
        let said = failing(rt, alloc, &[], &[], &[], &[at])?;
        assert_eq!(rt; said, striped_then(alloc, want)?, "{at:?}");
    }
    Ok(())
}

// All calls before the file is born, but for all reads between the first and the last.
#[test]
fn calls_of_a_drive_fail_before_its_birth(rt: HostRuntime) -> Result<(), Fail> {
    use CallKind::{Len, Read, Sync, Write};
    let calls = [
        (Sync, Part::Bytes, 1),
        (Sync, Part::Ranges, 1),
        (Len, Part::Ranges, 1),
        (Read, Part::Ranges, 1),
        (Read, Part::Ranges, 258),
        (Len, Part::Bytes, 1),
        (Write, Part::Ranges, 1),
    ];
    let want = b"451 Drive failed.\r\n550 No such file.\r\n";
    drive_fails(&rt, rt.alloc(), &calls, want)
}

// All calls by which the transfer begins, but for the journal's writes between the first and the last.
#[test]
fn calls_of_a_drive_fail_at_a_beginning(rt: HostRuntime) -> Result<(), Fail> {
    use CallKind::{Cut, Sync, Write};
    let calls = [
        (Sync, Part::Ranges, 2),
        (Write, Part::Ranges, 2),
        (Write, Part::Ranges, 257),
        (Sync, Part::Ranges, 3),
        (Write, Part::Ranges, 258),
        (Sync, Part::Ranges, 4),
        (Cut, Part::Bytes, 1),
        (Sync, Part::Bytes, 2),
    ];
    let want = b"451 Drive failed.\r\n550 Not complete.\r\n";
    drive_fails(&rt, rt.alloc(), &calls, want)
}

#[test]
fn calls_of_a_drive_fail_in_a_store(rt: HostRuntime) -> Result<(), Fail> {
    use CallKind::{Sync, Write};
    let calls = [
        (Write, Part::Bytes, 1),
        (Sync, Part::Bytes, 3),
        (Write, Part::Ranges, 259),
        (Sync, Part::Ranges, 5),
        (Write, Part::Ranges, 260),
        (Sync, Part::Ranges, 6),
    ];
    let want = b"150 Opening data connections.\r\n451 Drive failed.\r\n550 Not complete.\r\n";
    drive_fails(&rt, rt.alloc(), &calls, want)
}

#[test]
fn calls_of_a_drive_fail_at_an_end(rt: HostRuntime) -> Result<(), Fail> {
    use CallKind::{Cut, Sync, Write};
    let calls = [
        (Cut, Part::Bytes, 2),
        (Sync, Part::Bytes, 4),
        (Write, Part::Ranges, 261),
        (Sync, Part::Ranges, 7),
        (Write, Part::Ranges, 262),
    ];
    let want = b"150 Opening data connections.\r\n111 Range Marker 0-5\r\n451 Drive failed.\r\n\
550 Not complete.\r\n";
    drive_fails(&rt, rt.alloc(), &calls, want)?;
    // the last one: a read gives the file that is complete
    let want = b"150 Opening data connections.\r\n111 Range Marker 0-5\r\n451 Drive failed.\r\n\
213 5\r\n";
    drive_fails(&rt, rt.alloc(), &[(Sync, Part::Ranges, 8)], want)
}
