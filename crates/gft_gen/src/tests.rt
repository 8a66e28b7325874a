use super::*;
use crate::marker::LastLine;
use gft_drive::{MemorySink, Sink};
use gft_range::{Range, RangeSet};
use std::alloc::Global;
use std::process::Abort;
use std::sync::Wait;
use std::test::Fail;
use std::thread::Threads;

/// Room for the seven lines.
const ROOM: usize = 200;

/// How long the file is that was made of seed 7, if it was, and what was put.
fn made(
    rt: &(impl Abort + Threads + Wait + Sync),
    alloc: Global,
    size: u64,
) -> Result<(Option<u64>, MemorySink), Fail> {
    let mut out = MemorySink::new(alloc, ROOM, Vec::new(alloc))?;
    let size = size.min(gft_generated::MAX_SIZE);
    match make(rt, alloc, 7, size, &mut out)? {
        Some(file) => Ok((Some(file.len()), out)),
        None => Ok((None, out)),
    }
}

#[test]
fn files_are_made_in_three_attempts(rt: HostRuntime) -> Result<(), Fail> {
    let alloc = rt.alloc();
    for size in [0, 1, 65_535, 65_537, 1_048_576, 40_000_000] {
        let (len, out) = made(&rt, alloc, size)?;
        assert_eq!(rt; len, Some(size));
        let want = format!(in alloc;
            "seed 7\nsize {size}\nstripes 4\nchannels 16\nattempts 3\nanswers 426 426 226\nequal yes\n"
        )?;
        assert_eq!(rt; out.bytes(), want.as_bytes());
    }
    Ok(())
}

#[test]
fn a_sink_that_fails_is_told(rt: HostRuntime) -> Result<(), Fail> {
    let alloc = rt.alloc();
    let mut out = MemorySink::new(alloc, ROOM, vec![in alloc; 1]?)?;
    let Err(error) = make(&rt, alloc, 7, 5, &mut out) else {
        return Err(Fail::new("a put that failed is passed over"));
    };
    assert_eq!(rt; error, MakeError::OutFault);
    Ok(())
}

/// What the last line names, of those that were put.
fn last_ranges(alloc: Global, lines: &[&[u8]]) -> Result<RangeSet, Fail> {
    let mut last = LastLine::new(alloc)?;
    for &line in lines {
        let Ok(()) = last.put(line) else {
            return Err(Fail::new("a put of the last line failed"));
        };
    }
    Ok(last.ranges(alloc)?)
}

#[test]
fn the_last_marker_counts(rt: HostRuntime) -> Result<(), Fail> {
    let alloc = rt.alloc();
    let rows: [(&[&[u8]], &[Range]); 5] = [
        (&[], &[]),
        (
            &[b"111 Range Marker 0-5\r\n"],
            &[Range { start: 0, end: 5 }],
        ),
        (
            &[
                b"111 Range Marker 0-5\r\n",
                b"111 Range Marker 0-7",
                b",9-11\r\n",
            ],
            &[Range { start: 0, end: 7 }, Range { start: 9, end: 11 }],
        ),
        (&[b"226 Transfer complete.\r\n"], &[]),
        (&[b"111 Range Marker 5-\r\n"], &[]),
    ];
    for (lines, want) in rows {
        let ranges = last_ranges(alloc, lines)?;
        assert_eq!(rt; ranges.as_slice(), want);
    }
    Ok(())
}
