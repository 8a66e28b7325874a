ghost use Rattle.std.specs.Prelude.{◌≡◌, ◌≤◌, IfOk, true};

mod restarts;
mod scripts;

use super::*;
use gft_base::OutOfMemory;
use gft_book::How;
use gft_core::Octets;
use gft_drive::{Drive, MemoryDrive, MemorySink, Part, Unknown};
use gft_eblock::{Header, encode};
use gft_library::{Library, LibraryError, MemoryTally, NoTally, Word};
use gft_outside::{
    ControlItem, LaneItem, Listening, MemoryControl, MemoryLane, MemoryLink, MemoryShelf,
    NamedDrive, NoClock,
};
use gft_reply::{Replies, Reply, ReplyLines};
use gft_text::{HostPort, read_host_port, read_name};
use std::alloc::Global;
use std::sync::Wait;
use std::test::Fail;
use std::thread::Threads;

const GREETING: &[u8] = b"220 GridFTP server ready.\r\n";

const LOGIN: &[u8] = b"USER anonymous\r\nPASS x\r\n";

const LOGIN_REPLIES: &[u8] = b"331 Password please.\r\n230 Logged in.\r\n";

/// Where the lane of this place listens.
fn address(place: u16) -> HostPort {
    HostPort {
        host: [127, 0, 0, 1],
        port: place.wrapping_add(51_210),
    }
}

/// A link with so many lanes to come. The calls of these numbers fail.
fn link_of(alloc: Global, lanes: u16, failing: Vec<u32>) -> Result<MemoryLink, OutOfMemory> {
    let mut listening = Vec::new(alloc);
    for place in 0..lanes {
        let lane = MemoryLane::new(Vec::new(alloc), Vec::new(alloc));
        let at = address(place);
        listening.push(Listening { at, lane })?;
    }
    MemoryLink::new(alloc, listening, Vec::new(alloc), failing)
}

/// A sink with room enough, where the puts of these numbers fail.
fn sink(alloc: Global, failing: Vec<u32>) -> Result<MemorySink, OutOfMemory>
    ensures { IfOk result (λ sink. sink.is_open ≡ true) }
{
    MemorySink::new(alloc, 4096, failing)
}

fn bytes(alloc: Global, said: &[u8]) -> Result<ControlItem, OutOfMemory> {
    Ok(ControlItem::Bytes(Octets::from_bytes(alloc, said)?))
}

type Files = Library<MemoryShelf, Unknown>;

const CONFIG: Config = Config {
    stripes: 2,
    marker_bytes: 5,
    idle: 3,
};

/// A library of these files. The shelf's calls of these numbers fail.
fn files_of(alloc: Global, drives: Vec<NamedDrive>, failing: Vec<u32>) -> Files {
    let shelf = MemoryShelf::new(drives, 64, u32::MAX, Vec::new(alloc), failing);
    Library::new(alloc, shelf)
}

/// A library of one file, `a.dat`, with the bytes `hello`, which was made elsewhere.
fn hello(alloc: Global, failing: Vec<u32>) -> Result<Files, Fail> {
    let name = read_name(alloc, b"a.dat")?;
    let mut drive = MemoryDrive::new(alloc, name.as_bytes(), 9, u32::MAX, &[])?;
    drive.write_at(Part::Bytes, 0, b"hello")?;
    let drives = vec![in alloc; NamedDrive::new(name, drive)]?;
    Ok(files_of(alloc, drives, failing))
}

/// Runs a session with two stripes, which three silences in a row end, over an empty library.
fn run<R: Threads + Wait + Sync>(
    rt: &R,
    alloc: Global,
    control: &mut MemoryControl,
    out: &mut MemorySink,
    link: &mut MemoryLink,
) -> SessionEnd
    requires { out.old.is_open ≡ true }
{
    let files = files_of(alloc, Vec::new(alloc), Vec::new(alloc));
    run_session(
        rt,
        alloc,
        control,
        out,
        link,
        &files,
        &mut NoClock,
        &CONFIG,
        &mut NoTally,
    )
}

/// The same of a peer that says this.
fn run_script<R: Threads + Wait + Sync>(
    rt: &R,
    alloc: Global,
    script: &[u8],
    out: &mut MemorySink,
    link: &mut MemoryLink,
) -> Result<SessionEnd, OutOfMemory>
    requires { out.old.is_open ≡ true }
{
    let said = bytes(alloc, script)?;
    let mut control = MemoryControl::new(vec![in alloc; said]?, Vec::new(alloc));
    Ok(run(rt, alloc, &mut control, out, link))
}

/// The replies behind the greeting to a peer that says this, with so many lanes to come.
fn replies<R: Threads + Wait + Sync>(
    rt: &R,
    alloc: Global,
    script: &[u8],
    lanes: u16,
) -> Result<Vec<u8>, OutOfMemory> {
    let mut out = sink(alloc, Vec::new(alloc))?;
    let mut link = link_of(alloc, lanes, Vec::new(alloc))?;
    run_script(rt, alloc, script, &mut out, &mut link)?;
    let behind = out.bytes().strip_prefix(GREETING).unwrap_or(b"");
    Ok(Vec::from_slice(alloc, behind)?)
}

/// The same behind a login.
fn replies_in<R: Threads + Wait + Sync>(
    rt: &R,
    alloc: Global,
    script: &[u8],
    lanes: u16,
) -> Result<Vec<u8>, OutOfMemory> {
    let mut all = Vec::from_slice(alloc, LOGIN)?;
    all.extend_from_slice(script)?;
    let replies = replies(rt, alloc, &all, lanes)?;
    let behind = replies.strip_prefix(LOGIN_REPLIES).unwrap_or(b"");
    Ok(Vec::from_slice(alloc, behind)?)
}

#[test]
fn commands_before_the_login(rt: HostRuntime) -> Result<(), Fail> {
    let alloc = rt.alloc();
    let rows: [(&[u8], &[u8]); 5] = [
        (b"NOOP\r\n", b"200 Done.\r\n"),
        (b"USER x\r\n", b"331 Password please.\r\n"),
        (b"PASS x\r\n", b"503 USER first.\r\n"),
        (b"FOO\r\n", b"500 Unknown command.\r\n"),
        (b"QUIT\r\nNOOP\r\n", b"221 Goodbye.\r\n"),
    ];
    for (script, want) in rows {
        let said = replies(&rt, alloc, script, 0)?;
        assert_eq!(rt; said.as_slice(), want);
    }
    Ok(())
}

#[test]
fn the_login_comes_first(rt: HostRuntime) -> Result<(), Fail> {
    let alloc = rt.alloc();
    let rows: [&[u8]; 21] = [
        b"TYPE I\r\n",
        b"MODE E\r\n",
        b"STRU F\r\n",
        b"DCAU N\r\n",
        b"SBUF 9\r\n",
        b"ALLO 9\r\n",
        b"OPTS RETR Parallelism=4,4,4;\r\n",
        b"PWD\r\n",
        b"CWD /\r\n",
        b"PASV\r\n",
        b"SPAS\r\n",
        b"PORT 127,0,0,1,200,10\r\n",
        b"SPOR 127,0,0,1,200,10\r\n",
        b"REST 0-5\r\n",
        b"STOR a\r\n",
        b"ESTO A 5 a\r\n",
        b"RETR a\r\n",
        b"ERET P 0 5 a\r\n",
        b"SIZE a\r\n",
        b"DELE a\r\n",
        b"ABOR\r\n",
    ];
    for script in rows {
        let said = replies(&rt, alloc, script, 0)?;
        assert_eq!(rt; said.as_slice(), b"530 Log in first.\r\n".as_slice());
    }
    Ok(())
}

#[test]
fn features_are_listed(rt: HostRuntime) -> Result<(), Fail> {
    let alloc = rt.alloc();
    let said = replies(&rt, alloc, b"FEAT\r\n", 0)?;
    let want = b"211-Extensions supported:\r\n DCAU\r\n ERET\r\n ESTO\r\n PARALLEL\r\n \
          SBUF\r\n SIZE\r\n SPAS\r\n SPOR\r\n211 End\r\n"
        .as_slice();
    assert_eq!(rt; said.as_slice(), want);
    Ok(())
}

#[test]
fn settings_are_answered(rt: HostRuntime) -> Result<(), Fail> {
    let alloc = rt.alloc();
    let rows: [(&[u8], &[u8]); 9] = [
        (b"TYPE A\r\n", b"200 Type A.\r\n"),
        (b"TYPE E\r\n", b"504 Type not supported.\r\n"),
        (b"MODE S\r\n", b"200 Mode S.\r\n"),
        (b"MODE B\r\n", b"504 Mode not supported.\r\n"),
        (b"STRU F\r\n", b"200 Structure F.\r\n"),
        (b"STRU R\r\n", b"504 Structure not supported.\r\n"),
        (b"DCAU A\r\n", b"504 Only DCAU N.\r\n"),
        (b"SBUF 9\r\n", b"200 Buffer size noted.\r\n"),
        (b"OPTS RETR Parallelism=4,4,4;\r\n", b"200 Options set.\r\n"),
    ];
    for (script, want) in rows {
        let said = replies_in(&rt, alloc, script, 0)?;
        assert_eq!(rt; said.as_slice(), want);
    }
    Ok(())
}

#[test]
fn other_lines_are_answered(rt: HostRuntime) -> Result<(), Fail> {
    let alloc = rt.alloc();
    let rows: [(&[u8], &[u8]); 7] = [
        (b"ALLO 10\r\n", b"202 ALLO is not needed.\r\n"),
        (b"PWD\r\n", b"257 \"/\" is the only folder.\r\n"),
        (b"CWD /\r\n", b"250 Folder is /.\r\n"),
        (b"CWD x\r\n", b"550 No such folder.\r\n"),
        (b"REST 0-5\r\n", b"350 Restart list noted.\r\n"),
        (b"ABOR\r\n", b"225 No transfer in progress.\r\n"),
        (
            b"SPOR 127,0,0,1,200,10 127,0,0,1,200,11\r\n",
            b"200 2 targets set.\r\n",
        ),
    ];
    for (script, want) in rows {
        let said = replies_in(&rt, alloc, script, 0)?;
        assert_eq!(rt; said.as_slice(), want);
    }
    Ok(())
}

const SCRIPT: &[u8] = b"USER anonymous\r\nPASS x\r\nTYPE I\r\nMODE E\r\nDCAU N\r\nSPAS\r\n\
SIZE b.dat\r\nQUIT\r\n";

const SCRIPT_REPLIES: &[u8] =
    b"220 GridFTP server ready.\r\n331 Password please.\r\n230 Logged in.\r\n\
200 Type I.\r\n200 Mode E.\r\n200 DCAU N.\r\n229-Entering Striped Passive Mode.\r\n \
127,0,0,1,200,10\r\n 127,0,0,1,200,11\r\n229 End\r\n550 No such file.\r\n221 Goodbye.\r\n";

// The peer says the script in two pieces.
#[test]
fn cuts_change_no_reply(rt: HostRuntime) -> Result<(), Fail> {
    let alloc = rt.alloc();
    for cut in 0..=SCRIPT.len() {
        let (front, behind) = SCRIPT.split_at(cut);
        let said = vec![in alloc;
            bytes(alloc, front)?,
            ControlItem::Quiet,
            bytes(alloc, behind)?,
        ]?;
        let mut control = MemoryControl::new(said, Vec::new(alloc));
        let mut out = sink(alloc, Vec::new(alloc))?;
        let mut link = link_of(alloc, 2, Vec::new(alloc))?;
        assert_eq!(rt;
            run(&rt, alloc, &mut control, &mut out, &mut link),
            SessionEnd::Quit
        );
        assert_eq!(rt; out.bytes(), SCRIPT_REPLIES, "cut {cut}");
        assert_eq!(rt; link.handed_out(), 0);
    }
    Ok(())
}

#[test]
fn sixteen_stripes_are_named(rt: HostRuntime) -> Result<(), Fail> {
    let alloc = rt.alloc();
    let said = bytes(alloc, b"USER x\r\nPASS x\r\nSPAS\r\n")?;
    let mut control = MemoryControl::new(vec![in alloc; said]?, Vec::new(alloc));
    let mut out = sink(alloc, Vec::new(alloc))?;
    let mut link = link_of(alloc, 16, Vec::new(alloc))?;
    let config = Config {
        stripes: 16,
        marker_bytes: 5,
        idle: 3,
    };
    let files = files_of(alloc, Vec::new(alloc), Vec::new(alloc));
    run_session(
        &rt,
        alloc,
        &mut control,
        &mut out,
        &mut link,
        &files,
        &mut NoClock,
        &config,
        &mut NoTally,
    );
    let front = GREETING.len() + LOGIN_REPLIES.len();
    let got = Replies::new(alloc).feed(out.bytes().get(front..).unwrap_or(b""))?;
    let reply = got.reply.unwrap_or(Reply {
        code: 0,
        lines: ReplyLines::new(alloc),
    });
    assert_eq!(rt; reply.code, 229);
    assert_eq!(rt; reply.lines.count(), 18);
    for place in 0..16u16 {
        let line = reply.lines.nth(usize::from(place) + 1).unwrap_or(b"");
        assert_eq!(rt; read_host_port(line), Ok(address(place)), "stripe {place}");
    }
    Ok(())
}

#[test]
fn a_line_too_long_ends_it(rt: HostRuntime) -> Result<(), Fail> {
    let alloc = rt.alloc();
    let said = replies(&rt, alloc, &[b'x'; 65_536], 0)?;
    assert_eq!(rt; said.as_slice(), b"500 Line too long.\r\n".as_slice());
    Ok(())
}

/// How a session ends that hears these, where the polls and the puts of these numbers fail, and its
/// replies.
fn ending<R: Threads + Wait + Sync>(
    rt: &R,
    alloc: Global,
    items: Vec<ControlItem>,
    polls: Vec<u32>,
    puts: Vec<u32>,
) -> Result<(SessionEnd, MemorySink), OutOfMemory> {
    let mut control = MemoryControl::new(items, polls);
    let mut out = sink(alloc, puts)?;
    let mut link = link_of(alloc, 0, Vec::new(alloc))?;
    let end = run(rt, alloc, &mut control, &mut out, &mut link);
    Ok((end, out))
}

#[test]
fn silences_in_a_row_end_it(rt: HostRuntime) -> Result<(), Fail> {
    let alloc = rt.alloc();
    let items = vec![in alloc;
        ControlItem::Quiet,
        ControlItem::Quiet,
        bytes(alloc, b"N")?,
        ControlItem::Quiet,
        ControlItem::Quiet,
        ControlItem::Quiet,
    ]?;
    let (end, out) = ending(&rt, alloc, items, Vec::new(alloc), Vec::new(alloc))?;
    assert_eq!(rt; end, SessionEnd::IdleControl);
    assert_eq!(rt;
        out.bytes(),
        b"220 GridFTP server ready.\r\n421 Idle, closing.\r\n".as_slice()
    );
    Ok(())
}

#[test]
fn the_control_ends_within_a_line(rt: HostRuntime) -> Result<(), Fail> {
    let alloc = rt.alloc();
    let items = vec![in alloc; bytes(alloc, b"NOO")?]?;
    let (end, out) = ending(&rt, alloc, items, Vec::new(alloc), Vec::new(alloc))?;
    assert_eq!(rt; end, SessionEnd::Closed);
    assert_eq!(rt; out.bytes(), GREETING);
    Ok(())
}

#[test]
fn a_poll_that_fails_ends_it(rt: HostRuntime) -> Result<(), Fail> {
    let alloc = rt.alloc();
    let items = vec![in alloc; bytes(alloc, b"NOOP\r\n")?]?;
    let (end, out) = ending(&rt, alloc, items, vec![in alloc; 3]?, Vec::new(alloc))?;
    assert_eq!(rt; end, SessionEnd::ControlFault);
    assert_eq!(rt; out.bytes(), GREETING);
    Ok(())
}

// The reply to the first line is not put, nor is anything behind it.
#[test]
fn a_put_that_fails_ends_it(rt: HostRuntime) -> Result<(), Fail> {
    let alloc = rt.alloc();
    let items = vec![in alloc; bytes(alloc, b"NOOP\r\nQUIT\r\n")?]?;
    let (end, out) = ending(&rt, alloc, items, Vec::new(alloc), vec![in alloc; 2]?)?;
    assert_eq!(rt; end, SessionEnd::OutFault);
    assert_eq!(rt; out.bytes(), GREETING);
    Ok(())
}

// The second listening fails. The lane of the first is given back at the end, and no sooner.
#[test]
fn listening_fails_where_a_lane_waits(rt: HostRuntime) -> Result<(), Fail> {
    let alloc = rt.alloc();
    let mut out = sink(alloc, Vec::new(alloc))?;
    let mut link = link_of(alloc, 2, vec![in alloc; 2]?)?;
    let script = b"USER x\r\nPASS x\r\nPASV\r\nPASV\r\nQUIT\r\n";
    assert_eq!(rt;
        run_script(&rt, alloc, script, &mut out, &mut link)?,
        SessionEnd::Quit
    );
    let behind = out
        .bytes()
        .get(GREETING.len() + LOGIN_REPLIES.len()..)
        .unwrap_or(b"");
    let want =
        b"227 Entering Passive Mode (127,0,0,1,200,10)\r\n425 Cannot listen.\r\n221 Goodbye.\r\n";
    assert_eq!(rt; behind, want.as_slice());
    assert_eq!(rt; link.lanes_back().len(), 1);
    assert_eq!(rt; link.handed_out(), 0);
    assert_eq!(rt; link.faults(), 1);
    Ok(())
}

/// The replies of a library behind the login to a peer that says this and goes, and what a tally with room
/// for two answers took.
fn answers<R: Threads + Wait + Sync>(
    rt: &R,
    alloc: Global,
    files: &Files,
    script: &[u8],
) -> Result<(Vec<u8>, MemoryTally<MemoryShelf>), OutOfMemory> {
    let items = vec![in alloc; bytes(alloc, LOGIN)?, bytes(alloc, script)?]?;
    let mut control = MemoryControl::new(items, Vec::new(alloc));
    let mut out = sink(alloc, Vec::new(alloc))?;
    let mut link = link_of(alloc, 0, Vec::new(alloc))?;
    let mut tally = MemoryTally::new(alloc, 2)?;
    run_session(
        rt,
        alloc,
        &mut control,
        &mut out,
        &mut link,
        files,
        &mut NoClock,
        &CONFIG,
        &mut tally,
    );
    let front = GREETING.len() + LOGIN_REPLIES.len();
    let behind = out.bytes().get(front..).unwrap_or(b"");
    Ok((Vec::from_slice(alloc, behind)?, tally))
}

#[test]
fn files_are_answered(rt: HostRuntime) -> Result<(), Fail> {
    let alloc = rt.alloc();
    let files = hello(alloc, Vec::new(alloc))?;
    let rows: [(&[u8], &[u8]); 8] = [
        (b"SIZE a.dat\r\n", b"213 5\r\n"),
        (b"SIZE /a.dat\r\n", b"213 5\r\n"),
        (b"SIZE b.dat\r\n", b"550 No such file.\r\n"),
        (b"SIZE .a\r\n", b"553 Bad name.\r\n"),
        (b"DELE a/b\r\n", b"553 Bad name.\r\n"),
        (b"DELE a.dat\r\n", b"250 Deleted.\r\n"),
        (b"DELE a.dat\r\n", b"550 No such file.\r\n"),
        (b"SIZE a.dat\r\n", b"550 No such file.\r\n"),
    ];
    for (script, want) in rows {
        let (said, _) = answers(&rt, alloc, &files, script)?;
        assert_eq!(rt; said.as_slice(), want);
    }
    Ok(())
}

// The second name is none, so no answer of the library is given for it.
#[test]
fn a_tally_takes_each_answer(rt: HostRuntime) -> Result<(), Fail> {
    let alloc = rt.alloc();
    let files = hello(alloc, Vec::new(alloc))?;
    let script = b"SIZE a.dat\r\nSIZE .a\r\nDELE b.dat\r\nQUIT\r\n";
    let (_, tally) = answers(&rt, alloc, &files, script)?;
    let rows: [(&[u8], Word); 2] = [
        (b"a.dat", Word::Length(5)),
        (b"b.dat", Word::No(LibraryError::NoSuch)),
    ];
    for (place, (name, word)) in rows.into_iter().enumerate() {
        let Some(answer) = tally.nth(place as u32) else {
            return Err(OutOfMemory.into());
        };
        assert_eq!(rt;
            answer.name().map_or(b"".as_slice(), |name| name.as_bytes()),
            name
        );
        assert_eq!(rt; *answer.word(), word);
    }
    Ok(())
}

#[test]
fn files_in_use_are_busy(rt: HostRuntime) -> Result<(), Fail> {
    let alloc = rt.alloc();
    let files = hello(alloc, Vec::new(alloc))?;
    let (a, b) = (read_name(alloc, b"a.dat")?, read_name(alloc, b"b.dat")?);
    let _reading = files.retrieve(&rt, &a, 1);
    let _storing = files.store(&rt, &b, How::Fresh, 1);
    let script = b"DELE a.dat\r\nSIZE b.dat\r\nDELE b.dat\r\n";
    let (said, _) = answers(&rt, alloc, &files, script)?;
    let want = b"450 Busy: reading.\r\n450 Busy: storing.\r\n450 Busy: storing.\r\n";
    assert_eq!(rt; said.as_slice(), want.as_slice());
    Ok(())
}

#[test]
fn a_shelf_fails_once(rt: HostRuntime) -> Result<(), Fail> {
    let alloc = rt.alloc();
    let files = hello(alloc, vec![in alloc; 1]?)?;
    let (said, _) = answers(&rt, alloc, &files, b"SIZE a.dat\r\nSIZE a.dat\r\n")?;
    assert_eq!(rt;
        said.as_slice(),
        b"451 Drive failed.\r\n213 5\r\n".as_slice()
    );
    Ok(())
}

const BINARY: &[u8] = b"TYPE I\r\nMODE E\r\n";

const BINARY_REPLIES: &[u8] = b"200 Type I.\r\n200 Mode E.\r\n";

// A list that is kept goes with the next line that begins a transfer, and with no later one.
#[test]
fn transfers_are_refused_in_order(rt: HostRuntime) -> Result<(), Fail> {
    let alloc = rt.alloc();
    let rows: [(&[u8], &[u8]); 9] = [
        (
            b"MODE S\r\nSTOR .a\r\n",
            b"200 Mode S.\r\n504 Set TYPE I and MODE E.\r\n",
        ),
        (
            b"TYPE A\r\nRETR .a\r\n",
            b"200 Type A.\r\n504 Set TYPE I and MODE E.\r\n",
        ),
        (
            b"REST 0-5\r\nESTO A 0 .a\r\nESTO A 0 a\r\n",
            b"350 Restart list noted.\r\n503 REST goes with STOR or RETR.\r\n503 SPAS or PASV first.\r\n",
        ),
        (
            b"REST 0-5\r\nERET P 0 5 .a\r\nERET P 0 5 a\r\n",
            b"350 Restart list noted.\r\n503 REST goes with STOR or RETR.\r\n503 PORT or SPOR first.\r\n",
        ),
        (b"STOR .a\r\n", b"553 Bad name.\r\n"),
        (b"RETR a.gfr\r\n", b"553 Bad name.\r\n"),
        (b"STOR a\r\n", b"503 SPAS or PASV first.\r\n"),
        (b"RETR a\r\n", b"503 PORT or SPOR first.\r\n"),
        (
            b"PORT 127,0,0,1,200,10\r\nRETR a\r\n",
            b"200 1 targets set.\r\n504 Not built.\r\n",
        ),
    ];
    for (script, want) in rows {
        let mut all = Vec::from_slice(alloc, BINARY)?;
        all.extend_from_slice(script)?;
        let said = replies_in(&rt, alloc, &all, 0)?;
        let behind = said.strip_prefix(BINARY_REPLIES).unwrap_or(b"");
        assert_eq!(rt; behind, want);
    }
    Ok(())
}

/// A lane on which one channel brings these blocks, each with its offset, and then, if there is a total, an
/// EOF with it and an EOD; it ends then. The calls of these numbers fail.
fn lane_of(
    alloc: Global,
    blocks: &[(u64, &[u8])],
    total: Option<u64>,
    failing: Vec<u32>,
) -> Result<MemoryLane, Fail> {
    let mut bytes = Vec::new(alloc);
    for &(offset, data) in blocks {
        bytes.extend_from_slice(&header(0, data.len() as u64, offset))?;
        bytes.extend_from_slice(data)?;
    }
    if let Some(total) = total {
        bytes.extend_from_slice(&header(64, 0, total))?;
        bytes.extend_from_slice(&header(8, 0, 0))?;
    }
    let bytes = Octets::from_bytes(alloc, bytes.as_slice())?;
    let items = vec![in alloc;
        LaneItem::Opened(0),
        LaneItem::Bytes { channel: 0, bytes },
        LaneItem::Ended(0),
    ]?;
    Ok(MemoryLane::new(items, failing))
}

/// A lane that brings these blocks and is whole by itself.
fn whole_lane(alloc: Global, blocks: &[(u64, &[u8])]) -> Result<MemoryLane, Fail> {
    lane_of(alloc, blocks, Some(1), Vec::new(alloc))
}

fn header(flags: u8, count: u64, offset: u64) -> [u8; 17] {
    encode(&Header {
        flags,
        count,
        offset,
    })
}

/// A link of these lanes.
fn link_over(alloc: Global, lanes: Vec<MemoryLane>) -> Result<MemoryLink, Fail> {
    let mut listening = Vec::new(alloc);
    for lane in lanes {
        listening.push(Listening {
            at: address(0),
            lane,
        })?;
    }
    Ok(MemoryLink::new(alloc, listening, Vec::new(alloc), Vec::new(alloc))?)
}

/// The replies behind the login and the settings to a peer that says this, and what a tally took. No mark
/// but the last is made.
fn stored<R: Threads + Wait + Sync>(
    rt: &R,
    alloc: Global,
    files: &Files,
    link: &mut MemoryLink,
    script: &[u8],
) -> Result<(Vec<u8>, MemoryTally<MemoryShelf>), Fail> {
    marked(rt, alloc, files, link, script, 67_108_864)
}

/// The same with a mark for so many bytes.
fn marked<R: Threads + Wait + Sync>(
    rt: &R,
    alloc: Global,
    files: &Files,
    link: &mut MemoryLink,
    script: &[u8],
    marker_bytes: u64,
) -> Result<(Vec<u8>, MemoryTally<MemoryShelf>), Fail>
    requires { 1 ≤ marker_bytes }
{
    let items = vec![in alloc;
        bytes(alloc, LOGIN)?,
        bytes(alloc, BINARY)?,
        bytes(alloc, script)?,
    ]?;
    let mut control = MemoryControl::new(items, Vec::new(alloc));
    let mut out = sink(alloc, Vec::new(alloc))?;
    let mut tally = MemoryTally::new(alloc, 4)?;
    let config = Config {
        stripes: 1,
        marker_bytes,
        idle: 3,
    };
    run_session(
        rt,
        alloc,
        &mut control,
        &mut out,
        link,
        files,
        &mut NoClock,
        &config,
        &mut tally,
    );
    let front = GREETING.len() + LOGIN_REPLIES.len() + BINARY_REPLIES.len();
    let behind = out.bytes().get(front..).unwrap_or(b"");
    Ok((Vec::from_slice(alloc, behind)?, tally))
}

const LISTENING: &[u8] = b"227 Entering Passive Mode (127,0,0,1,200,10)\r\n";

#[test]
fn a_file_is_stored(rt: HostRuntime) -> Result<(), Fail> {
    let alloc = rt.alloc();
    let files = files_of(alloc, Vec::new(alloc), Vec::new(alloc));
    let lane = whole_lane(alloc, &[(0, b"hello")])?;
    let mut link = link_over(alloc, vec![in alloc; lane]?)?;
    let script = b"PASV\r\nSTOR a.dat\r\nSIZE a.dat\r\nSTOR a.dat\r\n";
    let (said, tally) = stored(&rt, alloc, &files, &mut link, script)?;
    let want =
        b"150 Opening data connections.\r\n111 Range Marker 0-5\r\n226 Transfer complete.\r\n213 5\r\n\
503 SPAS or PASV first.\r\n";
    assert_eq!(rt;
        said.strip_prefix(LISTENING).unwrap_or(b""),
        want.as_slice()
    );
    assert_eq!(rt;
        tally.nth(0).map(|answer| *answer.word()),
        Some(Word::Stored(5))
    );
    assert_eq!(rt;
        tally.nth(1).map(|answer| *answer.word()),
        Some(Word::Length(5))
    );
    assert_eq!(rt; (link.lanes_back().len(), link.handed_out()), (1, 0));
    Ok(())
}

#[test]
fn a_part_is_stored_and_then_the_rest(rt: HostRuntime) -> Result<(), Fail> {
    let alloc = rt.alloc();
    let files = files_of(alloc, Vec::new(alloc), Vec::new(alloc));
    let lanes = vec![in alloc;
        whole_lane(alloc, &[(0, b"world")])?,
        whole_lane(alloc, &[(0, b"hello")])?,
    ]?;
    let mut link = link_over(alloc, lanes)?;
    let (said, _) = stored(&rt, alloc, &files, &mut link, b"PASV\r\nESTO A 5 a.dat\r\n")?;
    let want = b"150 Opening data connections.\r\n111 Range Marker 5-10\r\n226 Part stored.\r\n";
    assert_eq!(rt;
        said.strip_prefix(LISTENING).unwrap_or(b""),
        want.as_slice()
    );
    let script = b"PASV\r\nREST 5-10\r\nSTOR a.dat\r\nSIZE a.dat\r\n";
    let (said, _) = stored(&rt, alloc, &files, &mut link, script)?;
    let want =
        b"350 Restart list noted.\r\n150 Opening data connections.\r\n111 Range Marker 0-10\r\n\
226 Transfer complete.\r\n213 10\r\n";
    assert_eq!(rt;
        said.strip_prefix(LISTENING).unwrap_or(b""),
        want.as_slice()
    );
    Ok(())
}

// The lane ends without its EOD, so that the transfer fails; the five bytes stay kept.
#[test]
fn a_lost_channel_is_told(rt: HostRuntime) -> Result<(), Fail> {
    let alloc = rt.alloc();
    let files = files_of(alloc, Vec::new(alloc), Vec::new(alloc));
    let lanes = vec![in alloc;
        lane_of(alloc, &[(0, b"hello")], None, Vec::new(alloc))?,
        whole_lane(alloc, &[(5, b"world")])?,
    ]?;
    let mut link = link_over(alloc, lanes)?;
    let script = b"PASV\r\nSTOR a.dat\r\nSIZE a.dat\r\n";
    let (said, _) = stored(&rt, alloc, &files, &mut link, script)?;
    let want = b"150 Opening data connections.\r\n111 Range Marker 0-5\r\n\
426 Channel lost: lane 0, channel 0, 22 bytes taken.\r\n550 Not complete.\r\n";
    assert_eq!(rt;
        said.strip_prefix(LISTENING).unwrap_or(b""),
        want.as_slice()
    );
    let script = b"PASV\r\nREST 0-9\r\nSTOR a.dat\r\nREST 0-5\r\nSTOR a.dat\r\nSIZE a.dat\r\n";
    let (said, _) = stored(&rt, alloc, &files, &mut link, script)?;
    let want =
        b"350 Restart list noted.\r\n554 REST names 5-9, which is not stored.\r\n350 Restart list noted.\r\n\
150 Opening data connections.\r\n111 Range Marker 0-10\r\n226 Transfer complete.\r\n213 10\r\n";
    assert_eq!(rt;
        said.strip_prefix(LISTENING).unwrap_or(b""),
        want.as_slice()
    );
    Ok(())
}
