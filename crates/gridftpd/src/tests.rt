ghost use Rattle.std.specs.Prelude.{◌≡◌, ◌<◌, Some, IfOk, codes, length, string_bytes};
ghost use Rattle.gridftpd.specs.DrainWords.{AreDrainWords, name_in};

use crate::draining::drain;
use gft_base::OutOfMemory;
use gft_drive::{
    CallKind, CrashChoice, Drive, FailAt, FileDrive, MemoryDrive, MemorySink, MemorySource, Origin,
    Part, Unknown,
};
use gft_eblock::{Header, encode};
use gft_keep::Keep;
use gft_range::Range;
use std::alloc::{AllocError, Global};
use std::fs;
use std::process::Abort;
use std::test::Fail;

/// Flags, offset and bytes of a block.
type Block = (u8, u64, &'static str);

/// A recording, how many of its bytes are there, and what comes of it: the status, the line, and the
/// file where it is told.
type Row = (
    &'static [Block],
    usize,
    u8,
    &'static str,
    Option<&'static str>,
);

const WORDS: &[&str] = &["drain", "a.dat"];

const ALL: usize = usize::MAX;

const STORED: &str = "226 Transfer complete.\n";

const USAGE: &str = "usage: gridftpd drain NAME\n";

const HELLO: &[Block] = &[(0, 0, "hello"), (64, 1, ""), (12, 0, "")];

const TWICE: &[Block] = &[(0, 0, "HELLO"), (0, 0, "helloX"), (64, 1, ""), (12, 0, "")];

/// 201 letters.
const LONG: &str = concat!(
    "nnnnnnnnnnnnnnnnnnnnnnnnnnnnnnnnnnnnnnnnnnnnnnnnnnnnnnnnnnnnnnnnnnn",
    "nnnnnnnnnnnnnnnnnnnnnnnnnnnnnnnnnnnnnnnnnnnnnnnnnnnnnnnnnnnnnnnnnnn",
    "nnnnnnnnnnnnnnnnnnnnnnnnnnnnnnnnnnnnnnnnnnnnnnnnnnnnnnnnnnnnnnnnnnn",
);

static RECORDINGS: [Row; 19] = [
    (HELLO, ALL, 0, STORED, Some("hello")),
    (&[(64, 1, ""), (8, 0, "")], ALL, 0, STORED, Some("")),
    (TWICE, ALL, 0, STORED, Some("HELLOX")),
    (
        &[(64, 1, ""), (64, 1, ""), (0, 0, "ab"), (8, 0, "")],
        ALL,
        0,
        STORED,
        Some("ab"),
    ),
    (
        HELLO,
        16,
        1,
        "426 Channel lost: lane 0, channel 0, 16 bytes taken.\n",
        Some(""),
    ),
    (
        HELLO,
        20,
        1,
        "426 Channel lost: lane 0, channel 0, 20 bytes taken.\n",
        None,
    ),
    (
        &[(0, 0, "hello"), (0, 7, "xy"), (64, 1, ""), (8, 0, "")],
        ALL,
        1,
        "426 Hole: total 1, EODs 1, first missing 5-7.\n",
        None,
    ),
    (
        HELLO,
        0,
        1,
        "426 Hole: total none, EODs 0, first missing none.\n",
        Some(""),
    ),
    (
        &[(0, 2, "cd"), (0, 0, "ab"), (8, 4, "e")],
        ALL,
        1,
        "426 Hole: total none, EODs 1, first missing none.\n",
        None,
    ),
    (
        &[(64, 2, ""), (8, 0, "")],
        ALL,
        1,
        "426 Hole: total 2, EODs 1, first missing none.\n",
        None,
    ),
    (
        &[(64, 2, ""), (64, 3, "")],
        ALL,
        1,
        "426 Two totals: 2 and 3.\n",
        None,
    ),
    (
        &[(64, 2, ""), (64, 3, ""), (0, 0, "ab"), (8, 0, "")],
        ALL,
        1,
        "426 Two totals: 2 and 3.\n",
        Some(""),
    ),
    (&[(64, 0, "")], ALL, 1, "426 Bad total: 0.\n", None),
    (
        &[(64, 0, ""), (8, 0, "")],
        ALL,
        1,
        "426 Bad total: 0.\n",
        Some(""),
    ),
    (&[(72, 0, "")], ALL, 1, "426 Bad total: 0.\n", Some("")),
    (
        &[(0, 0, "hello"), (64, 2, ""), (72, 3, "")],
        38,
        1,
        "426 Channel lost: lane 0, channel 0, 38 bytes taken.\n",
        Some("hello"),
    ),
    (&[(64, 1025, "")], ALL, 1, "426 Bad total: 1025.\n", None),
    (
        &[(16, 0, "a")],
        ALL,
        1,
        "426 Bad block at 0: flags 16, count 1, offset 0.\n",
        None,
    ),
    (
        &[(0, 0, "hello"), (64, 1, "x")],
        ALL,
        1,
        "426 Bad block at 22: flags 64, count 1, offset 1.\n",
        None,
    ),
];

static OTHER_WORDS: [&'static [&'static str]; 9] = [
    &[],
    &["drain"],
    &["drain", ""],
    &["drain", ".x"],
    &["drain", "a.gfr"],
    &["drain", "/a"],
    &["drain", LONG],
    &["drain", "a", "b"],
    &["store", "a"],
];

fn recording(alloc: Global, blocks: &[Block], there: usize) -> Result<Vec<u8>, AllocError> {
    let mut stream = Vec::new(alloc);
    for &(flags, offset, text) in blocks {
        let bytes = text.as_bytes();
        let count = bytes.len() as u64;
        stream.extend_from_slice(&encode(&Header {
            flags,
            count,
            offset,
        }))?;
        stream.extend_from_slice(bytes)?;
    }
    stream.truncate(there);
    Ok(stream)
}

fn owned(alloc: Global, words: &[&str]) -> Result<Vec<String>, AllocError> {
    let mut owned = Vec::new(alloc);
    for &word in words {
        owned.push(String::from_str(alloc, word)?)?;
    }
    Ok(owned)
}

fn named(words: &[String]) -> &[u8]
    ensures { result.now ≡ name_in words.now }
{
    match words {
        [_, name] => name.as_str().as_bytes(),
        _ => b"",
    }
}

/// What a drive holds before `drain`.
#[derive(Clone, Copy, Debug)]
enum Before {
    Nothing,
    /// A complete file of 20 bytes, and its journal.
    OlderFile,
    /// A bank of a version that is not known.
    Damaged,
}

fn written(
    drive: MemoryDrive,
    part: Part,
    at: u64,
    bytes: &[u8],
) -> Result<MemoryDrive, OutOfMemory>
    requires { 0 < length bytes.now }
    ensures { IfOk result (λ new. new.label ≡ drive.label) }
{
    let mut drive = drive;
    match drive.write_at(part, at, bytes) {
        Ok(()) => Ok(drive),
        Err(_) => Err(OutOfMemory),
    }
}

fn with_older_file(drive: MemoryDrive) -> Result<MemoryDrive, OutOfMemory>
    ensures { IfOk result (λ new. new.label ≡ drive.label) }
{
    let drive = written(drive, Part::Bytes, 0, b"01234567890123456789")?;
    let drive = written(drive, Part::Ranges, 1, b"\x01")?;
    let drive = written(
        drive,
        Part::Ranges,
        96,
        b"\x01\x01\0\0\0\0\0\0\0\0\0\0\0\0\0\x14",
    )?;
    written(
        drive,
        Part::Ranges,
        112,
        b"\x01\x02\0\0\0\0\0\0\0\0\0\0\0\0\0\x14",
    )
}

fn made(
    alloc: Global,
    words: &[String],
    before: Before,
    calls: u32,
    failing: &[FailAt],
) -> Result<MemoryDrive, OutOfMemory>
    ensures { IfOk result (λ drive. drive.label ≡ name_in words.now) }
{
    let drive = MemoryDrive::new(alloc, named(words), 1_000, calls, failing)?;
    match before {
        Before::Nothing => Ok(drive),
        Before::OlderFile => with_older_file(drive),
        Before::Damaged => written(drive, Part::Ranges, 64, b"\x03"),
    }
}

/// Runs `drain` over a drive and a sink in memory, of which these calls fail.
fn run<O: Origin>(
    alloc: Global,
    words: &[&str],
    input: &mut MemorySource,
    puts: Vec<u32>,
    calls: &[FailAt],
) -> Result<(u8, MemorySink, Option<MemoryDrive>), OutOfMemory> {
    let words = owned(alloc, words)?;
    let mut out = MemorySink::new(alloc, 1_000, puts)?;
    let drive = made(alloc, words.as_slice(), Before::Nothing, u32::MAX, calls)?;
    let (status, back) = drain::<_, _, _, O>(alloc, words.as_slice(), input, &mut out, drive);
    Ok((status, out, back))
}

/// Runs `drain` of a recording over a drive of which so many calls are answered, and these fail.
fn drained(
    alloc: Global,
    input: &mut MemorySource,
    before: Before,
    calls: u32,
    failing: &[FailAt],
) -> Result<(u8, MemorySink, Option<MemoryDrive>), OutOfMemory> {
    let words = owned(alloc, WORDS)?;
    let mut out = MemorySink::new(alloc, 1_000, Vec::new(alloc))?;
    let drive = made(alloc, words.as_slice(), before, calls, failing)?;
    let (status, back) = drain::<_, _, _, Unknown>(alloc, words.as_slice(), input, &mut out, drive);
    Ok((status, out, back))
}

#[test]
fn a_recording_is_stored_or_refused_by_its_line(rt: HostRuntime) -> Result<(), Fail> {
    let alloc = rt.alloc();
    for most in [1, 1_000] {
        for &(blocks, there, status, line, file) in &RECORDINGS {
            let stream = recording(alloc, blocks, there)?;
            let mut input = MemorySource::new(stream, most, Vec::new(alloc));
            let (given, out, back) = run::<Unknown>(
                alloc,
                WORDS,
                &mut input,
                Vec::new(alloc),
                &[],
            )?;
            assert_eq!(rt; given, status, "{line}");
            assert_eq!(rt; out.bytes(), line.as_bytes(), "{line}");
            let stored = back.as_ref().map(|drive| drive.bytes());
            assert!(rt; stored.is_some(), "{line}");
            if let Some(file) = file {
                assert_eq!(rt; stored, Some(file.as_bytes()), "{line}");
            }
        }
    }
    Ok(())
}

#[test]
fn other_words_touch_nothing(rt: HostRuntime) -> Result<(), Fail> {
    let alloc = rt.alloc();
    for words in OTHER_WORDS {
        let mut input = MemorySource::new(recording(alloc, HELLO, ALL)?, 1_000, Vec::new(alloc));
        let (status, out, back) = run::<Unknown>(alloc, words, &mut input, Vec::new(alloc), &[])?;
        assert_eq!(rt; status, 2);
        assert_eq!(rt; out.bytes(), USAGE.as_bytes());
        assert_eq!(rt; input.reads(), 0);
        assert_eq!(rt; back.map(|drive| drive.count()), Some(0));
    }
    Ok(())
}

#[test]
fn what_follows_the_eod_is_left_unread(rt: HostRuntime) -> Result<(), Fail> {
    let alloc = rt.alloc();
    let stream = recording(alloc, &[(0, 0, "hello"), (72, 1, ""), (0, 0, "later")], ALL)?;
    let mut input = MemorySource::new(stream, 7, Vec::new(alloc));
    let (status, _out, _back) = run::<Unknown>(alloc, WORDS, &mut input, Vec::new(alloc), &[])?;
    assert_eq!(rt; status, 0);
    assert_eq!(rt; input.rest().len(), 22);
    Ok(())
}

#[test]
fn what_follows_a_refusal_is_left_unread(rt: HostRuntime) -> Result<(), Fail> {
    let alloc = rt.alloc();
    for (blocks, rest) in [
        ([(64, 2, ""), (64, 3, ""), (12, 0, "")], 17),
        ([(64, 0, ""), (64, 1, ""), (12, 0, "")], 34),
        ([(0, 0, "ab"), (16, 0, ""), (64, 1, "")], 17),
    ] {
        let mut input = MemorySource::new(recording(alloc, &blocks, ALL)?, 40, Vec::new(alloc));
        let (status, _out, _back) = run::<Unknown>(alloc, WORDS, &mut input, Vec::new(alloc), &[])?;
        assert_eq!(rt; status, 1);
        assert_eq!(rt; input.rest().len(), rest);
    }
    Ok(())
}

#[test]
fn a_kept_byte_is_not_written_again(rt: HostRuntime) -> Result<(), Fail> {
    let alloc = rt.alloc();
    let mut input = MemorySource::new(recording(alloc, TWICE, ALL)?, 1_000, Vec::new(alloc));
    let (status, _out, back) = run::<Unknown>(alloc, WORDS, &mut input, Vec::new(alloc), &[])?;
    assert_eq!(rt; status, 0);
    let mut writes = Vec::new(alloc);
    if let Some(drive) = back {
        for i in 0..drive.count() {
            if let Some(call) = drive.call(i) {
                if call.call == CallKind::Write && call.part == Part::Bytes {
                    writes.push((call.at, call.len))?;
                }
            }
        }
    }
    assert_eq!(rt; writes.as_slice(), [(0, 5), (5, 1)].as_slice());
    Ok(())
}

/// A source of the nine bytes `abcdefghi`.
struct Alphabet;

impl Origin for Alphabet {
    ghost use Rattle.std.proofs.Common.{arith};
    ghost use Rattle.gft_drive.specs.Words.{one_lane};
    ghost use Rattle.gft_drive.proofs.Lemmas.{one_lane_fit};

    ghost source = { λ _. Some (codes "abcdefghi") };

    ghost orders = { λ _ _. one_lane (codes "abcdefghi") };

    ghost fit = { one_lane_fit (codes "abcdefghi") (omega arith) };
}

#[test]
fn sixty_bytes_take_sixty_reads(rt: HostRuntime) -> Result<(), Fail> {
    let alloc = rt.alloc();
    let stream = recording(alloc, &[(0, 0, "abcdefghi"), (64, 1, ""), (12, 0, "")], ALL)?;
    let mut input = MemorySource::new(stream, 1, Vec::new(alloc));
    let (status, _out, back) = run::<Alphabet>(alloc, WORDS, &mut input, Vec::new(alloc), &[])?;
    assert_eq!(rt; status, 0);
    assert_eq!(rt;
        back.as_ref().map(|drive| drive.bytes()),
        Some(b"abcdefghi".as_slice())
    );
    assert_eq!(rt; input.reads(), 60);
    Ok(())
}

#[test]
fn each_fault_has_its_status(rt: HostRuntime) -> Result<(), Fail> {
    let alloc = rt.alloc();
    for (read, put, sync, status, line) in [
        (2, 0, 0, 3, "451 Read failed.\n"),
        (0, 1, 0, 4, ""),
        (0, 0, 1, 5, "451 Drive failed.\n"),
        (0, 0, 2, 5, "451 Drive failed.\n"),
        (0, 0, 3, 5, "451 Drive failed.\n"),
        (0, 0, 4, 5, "451 Drive failed.\n"),
    ] {
        let stream = recording(alloc, HELLO, ALL)?;
        let mut input = MemorySource::new(stream, 100, vec![in alloc; read]?);
        let calls = [FailAt {
            call: CallKind::Sync,
            part: Part::Bytes,
            number: sync,
        }];
        let (given, out, _back) = run::<Unknown>(
            alloc,
            WORDS,
            &mut input,
            vec![in alloc; put]?,
            &calls,
        )?;
        assert_eq!(rt; given, status);
        assert_eq!(rt; out.bytes(), line.as_bytes());
    }
    Ok(())
}

#[test]
fn a_stored_file_is_complete_in_its_journal(rt: HostRuntime) -> Result<(), Fail> {
    let alloc = rt.alloc();
    let mut input = MemorySource::new(recording(alloc, HELLO, ALL)?, 1_000, Vec::new(alloc));
    let (status, _out, back) = drained(alloc, &mut input, Before::Nothing, u32::MAX, &[])?;
    assert_eq!(rt; status, 0);
    let Some(drive) = back else {
        panic!(rt; "the drive is gone");
    };
    let journal = drive.ranges_part();
    assert_eq!(rt; journal.len(), 2_097_216);
    assert_eq!(rt; journal[0], 1);
    assert_eq!(rt;
        &journal[1_048_672..1_048_704],
        b"\x01\x01\0\0\0\0\0\0\0\0\0\0\0\0\0\x05\x01\x02\0\0\0\0\0\0\0\0\0\0\0\0\0\x05".as_slice()
    );
    Ok(())
}

#[test]
fn an_older_file_goes(rt: HostRuntime) -> Result<(), Fail> {
    let alloc = rt.alloc();
    for (there, fails, status, file) in [
        (usize::MAX, 0, 0, "hello"),
        (30, 0, 1, "hello"),
        (10, 0, 1, ""),
        (usize::MAX, 3, 3, "hello"),
        (usize::MAX, 1, 3, ""),
    ] {
        let stream = recording(alloc, HELLO, there)?;
        let mut input = MemorySource::new(stream, 1_000, vec![in alloc; fails]?);
        let (given, _out, back) = drained(alloc, &mut input, Before::OlderFile, u32::MAX, &[])?;
        assert_eq!(rt; given, status, "{there} {fails}");
        let stored = back.as_ref().map(|drive| drive.bytes());
        assert_eq!(rt; stored, Some(file.as_bytes()), "{there} {fails}");
    }
    Ok(())
}

#[test]
fn a_damaged_journal_is_left_alone(rt: HostRuntime) -> Result<(), Fail> {
    let alloc = rt.alloc();
    let mut input = MemorySource::new(recording(alloc, HELLO, ALL)?, 1_000, Vec::new(alloc));
    let (status, out, back) = drained(alloc, &mut input, Before::Damaged, u32::MAX, &[])?;
    assert_eq!(rt; status, 7);
    assert_eq!(rt; out.bytes(), b"451 Journal damaged.\n".as_slice());
    assert_eq!(rt; input.reads(), 0);
    let Some(drive) = back else {
        panic!(rt; "the drive is gone");
    };
    assert_eq!(rt; drive.ranges_part().get(64).copied(), Some(3));
    Ok(())
}

/// Asserts that nothing is kept, or `hello`.
fn keeps_none_or_hello(rt: &impl Abort, alloc: Global, drive: MemoryDrive, at: u32) {
    let Ok(keep) = Keep::attach(alloc, drive) else {
        panic!(rt; "not attached at {at}");
    };
    let count = keep.ranges().count();
    let first = keep.ranges().nth(0);
    let drive = keep.into_drive();
    if count > 0 {
        assert_eq!(rt; count, 1, "{at}");
        assert_eq!(rt; first, Some(Range { start: 0, end: 5 }), "{at}");
        assert_eq!(rt; drive.bytes(), b"hello".as_slice(), "{at}");
    }
}

/// Stops `drain` of `hello` after so many drive calls, and crashes.
fn stop_at(rt: &impl Abort, alloc: Global, choice: CrashChoice, calls: u32) -> Result<(), Fail> {
    let mut input = MemorySource::new(recording(alloc, HELLO, ALL)?, 1_000, Vec::new(alloc));
    let (_status, _out, back) = drained(alloc, &mut input, Before::Nothing, calls, &[])?;
    if let Some(drive) = back {
        keeps_none_or_hello(rt, alloc, drive.crash(choice), calls);
    }
    Ok(())
}

/// Stops `drain` of `hello` after each number of drive calls, and crashes.
fn stop_and_crash(rt: &impl Abort, alloc: Global, choice: CrashChoice) -> Result<(), Fail> {
    let mut input = MemorySource::new(recording(alloc, HELLO, ALL)?, 1_000, Vec::new(alloc));
    let (_status, _out, back) = drained(alloc, &mut input, Before::Nothing, u32::MAX, &[])?;
    let Some(whole) = back else {
        return Ok(());
    };
    let count = whole.count().min(10_000) as u32;
    for calls in 0..=count {
        stop_at(rt, alloc, choice, calls)?;
    }
    Ok(())
}

#[test]
fn a_crash_that_leaves_the_old_loses_nothing(rt: HostRuntime) -> Result<(), Fail> {
    stop_and_crash(&rt, rt.alloc(), CrashChoice::Old)
}

#[test]
fn a_crash_that_leaves_the_new_loses_nothing(rt: HostRuntime) -> Result<(), Fail> {
    stop_and_crash(&rt, rt.alloc(), CrashChoice::New)
}

#[test]
fn a_crash_that_leaves_half_loses_nothing(rt: HostRuntime) -> Result<(), Fail> {
    stop_and_crash(&rt, rt.alloc(), CrashChoice::Half)
}

#[test]
fn a_crash_that_leaves_other_bytes_loses_nothing(rt: HostRuntime) -> Result<(), Fail> {
    stop_and_crash(&rt, rt.alloc(), CrashChoice::Fill(255))
}

/// How often a run of `drain` of `hello` makes this call.
fn times(alloc: Global, call: CallKind, part: Part) -> Result<u32, Fail> {
    let mut input = MemorySource::new(recording(alloc, HELLO, ALL)?, 1_000, Vec::new(alloc));
    let (_status, _out, back) = drained(alloc, &mut input, Before::Nothing, u32::MAX, &[])?;
    let mut count = 0u32;
    if let Some(whole) = back {
        for i in 0..whole.count() {
            if whole
                .call(i)
                .is_some_and(|made| made.call == call && made.part == part)
            {
                count = count.saturating_add(1);
            }
        }
    }
    Ok(count)
}

/// Lets each call of this kind fail once, and attaches what is left.
fn each_call_fails(rt: &impl Abort, alloc: Global, call: CallKind, part: Part) -> Result<(), Fail> {
    let count = times(alloc, call, part)?;
    for number in 1..=count {
        let failing = [FailAt { call, part, number }];
        let mut input = MemorySource::new(recording(alloc, HELLO, ALL)?, 1_000, Vec::new(alloc));
        let (status, out, back) = drained(alloc, &mut input, Before::Nothing, u32::MAX, &failing)?;
        assert_eq!(rt; status, 5, "{number}");
        assert_eq!(rt; out.bytes(), b"451 Drive failed.\n".as_slice(), "{number}");
        if let Some(drive) = back {
            keeps_none_or_hello(rt, alloc, drive, number);
        }
    }
    Ok(())
}

#[test]
fn each_call_of_the_drive_fails_once(rt: HostRuntime) -> Result<(), Fail> {
    for part in [Part::Bytes, Part::Ranges] {
        for call in [
            CallKind::Len,
            CallKind::Read,
            CallKind::Write,
            CallKind::Cut,
            CallKind::Sync,
        ] {
            each_call_fails(&rt, rt.alloc(), call, part)?;
        }
    }
    Ok(())
}

#[test]
fn both_files_are_written(rt: HostRuntime) -> Result<(), Fail> {
    let alloc = rt.alloc();
    let words = owned(alloc, &["drain", "both.dat"])?;
    let drive = FileDrive::at(rt.clone()?, named_path(alloc, words.as_slice())?)?;
    let mut input = MemorySource::new(recording(alloc, HELLO, ALL)?, 1_000, Vec::new(alloc));
    let mut out = MemorySink::new(alloc, 1_000, Vec::new(alloc))?;
    let (status, _drive) = drain::<_, _, _, Unknown>(
        alloc,
        words.as_slice(),
        &mut input,
        &mut out,
        drive,
    );
    assert_eq!(rt; status, 0);
    assert_eq!(rt; fs::read(&rt, "both.dat")?.as_slice(), b"hello".as_slice());
    let journal = fs::read(&rt, "both.dat.gfr")?;
    assert_eq!(rt; journal.len(), 2_097_216);
    assert_eq!(rt; journal[0], 1);
    assert_eq!(rt;
        &journal[1_048_688..1_048_704],
        b"\x01\x02\0\0\0\0\0\0\0\0\0\0\0\0\0\x05".as_slice()
    );
    fs::remove_file(&rt, "both.dat")?;
    fs::remove_file(&rt, "both.dat.gfr")?;
    Ok(())
}

fn named_path(alloc: Global, words: &[String]) -> Result<String, AllocError>
    ensures { IfOk result (λ path. AreDrainWords words.now → string_bytes path ≡ name_in words.now) }
{
    match words.last() {
        Some(name) => name.clone(),
        None => Ok(String::new(alloc)),
    }
}
