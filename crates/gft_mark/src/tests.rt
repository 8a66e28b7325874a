use super::*;
use gft_range::{Range, RangeSet};
use gft_reply::{Replies, Reply, ReplyLines};
use std::alloc::Global;
use std::process::Abort;
use std::test::Fail;

static PERF_LINES: [&str; 6] = [
    "Perf Marker",
    "Timestamp: 1234.5",
    "Stripe Index: 0",
    "Stripe Bytes Transferred: 9",
    "Total Stripe Count: 1",
    "End",
];

/// The reply of these lines, in which another text stands at one place.
fn reply_of(
    alloc: Global,
    code: u16,
    lines: &[&str],
    place: usize,
    text: &str,
) -> Result<Reply, Fail> {
    let mut reply = Reply {
        code,
        lines: ReplyLines::new(alloc),
    };
    for (i, line) in lines.iter().enumerate() {
        let line = if i == place { text } else { *line };
        reply.lines.push(line.as_bytes())?;
    }
    Ok(reply)
}

fn perf_of(alloc: Global, reply: &Reply) -> Result<Option<Perf>, Fail> {
    match read_marker(alloc, reply) {
        Ok(Marker::Perf(perf)) => Ok(Some(perf)),
        Ok(Marker::Ranges(_)) => Ok(None),
        Err(MarkerError::NotAMarker) => Ok(None),
        Err(MarkerError::OutOfMemory) => Err(Fail::from("out of memory")),
    }
}

fn written_and_read(rt: &impl Abort, alloc: Global, text: &[u8]) -> Result<Reply, Fail> {
    let mut replies = Replies::new(alloc);
    let got = replies.feed(text)?;
    assert_eq!(rt; got.used, text.len());
    let reply = got.reply.ok_or("no reply")?;
    Ok(reply)
}

#[test]
fn a_restart_marker_names_its_ranges(rt: HostRuntime) -> Result<(), Fail> {
    let mut set = RangeSet::new(rt.alloc());
    set.reserve(2)?;
    set.insert(Range { start: 0, end: 5 });
    set.insert(Range { start: 7, end: 9 });
    assert!(rt; set.count() > 0);
    let text = range_marker(rt.alloc(), &set)?.write(rt.alloc())?;
    assert_eq!(rt; text.as_slice(), b"111 Range Marker 0-5,7-9\r\n".as_slice());
    let reply = written_and_read(&rt, rt.alloc(), &text)?;
    let marker = read_marker(rt.alloc(), &reply)?;
    let Marker::Ranges(named) = marker else {
        return Err(Fail::from("no restart marker"));
    };
    assert_eq!(rt; named.count(), 2);
    assert_eq!(rt; named.nth(1), Some(Range { start: 7, end: 9 }));
    Ok(())
}

#[test]
fn a_performance_marker_states_its_values(rt: HostRuntime) -> Result<(), Fail> {
    let perf = Perf {
        tenths: 12345,
        stripe: 0,
        bytes: 9,
        stripes: 1,
    };
    let text = perf_marker(rt.alloc(), &perf)?.write(rt.alloc())?;
    let expected = b"112-Perf Marker\r\n Timestamp: 1234.5\r\n Stripe Index: 0\r\n \
        Stripe Bytes Transferred: 9\r\n Total Stripe Count: 1\r\n112 End\r\n";
    assert_eq!(rt; text.as_slice(), expected.as_slice());
    let reply = written_and_read(&rt, rt.alloc(), &text)?;
    assert_eq!(rt; perf_of(rt.alloc(), &reply)?, Some(perf));
    let spaced = b"112-Perf Marker\r\nTimestamp:  1234.5\r\n  Stripe Index:0\r\n \
        Stripe Bytes Transferred: 9\r\n Total Stripe Count: 1\r\n112 End.\r\n";
    let reply = written_and_read(&rt, rt.alloc(), spaced)?;
    assert_eq!(rt; perf_of(rt.alloc(), &reply)?, Some(perf));
    Ok(())
}

#[test]
fn a_line_of_a_performance_marker_stands_or_is_refused(rt: HostRuntime) -> Result<(), Fail> {
    let rows: [(usize, &'static str, Option<(u64, u16)>); 18] = [
        (1, "Timestamp: 1234", Some((12340, 0))),
        (1, "Timestamp: 1234.56", Some((12345, 0))),
        (1, "Timestamp: 1234.", None),
        (1, "Timestamp: 1234.5x", None),
        (1, "Timestamp: .5", None),
        (1, "Timestamp: 1.2.3", None),
        (1, "Timestamp: 1234.5 ", None),
        (1, "Timestamp : 1234.5", None),
        (1, "Timestamp: 1844674407370955161.5", Some((u64::MAX, 0))),
        (1, "Timestamp: 1844674407370955161.6", None),
        (1, "Timestamp: 1844674407370955162", None),
        (2, "Stripe Index: 65535", Some((12345, 65535))),
        (2, "Stripe Index: 65536", None),
        (3, "Stripe Bytes: 9", None),
        (4, "Total Stripe Count: ", None),
        (5, "Ended", Some((12345, 0))),
        (5, "end", None),
        (0, " Perf Marker", None),
    ];
    for (i, (place, text, expected)) in rows.into_iter().enumerate() {
        let reply = reply_of(rt.alloc(), 112, &PERF_LINES, place, text)?;
        let perf = perf_of(rt.alloc(), &reply)?;
        assert_eq!(rt;
            perf.map(|perf| (perf.tenths, perf.stripe)),
            expected,
            "row {i}"
        );
    }
    Ok(())
}

#[test]
fn other_replies_are_no_markers(rt: HostRuntime) -> Result<(), Fail> {
    let rows: [(u16, &'static [&'static str]); 8] = [
        (200, &["Done."]),
        (111, &["Range Marker 0-0"]),
        (111, &["Range Marker "]),
        (111, &["Range Marker 5-0"]),
        (111, &["Range Marker 0-5", "0-5"]),
        (112, &["Range Marker 0-5"]),
        (111, &PERF_LINES),
        (112, &[]),
    ];
    for (i, (code, lines)) in rows.into_iter().enumerate() {
        let reply = reply_of(rt.alloc(), code, lines, 6, "")?;
        let marker = read_marker(rt.alloc(), &reply);
        assert!(rt; matches!(marker, Err(MarkerError::NotAMarker)), "row {i}");
    }
    let message = MarkerError::NotAMarker.to_string(rt.alloc())?;
    assert_eq!(rt; message.as_str(), "not a marker");
    Ok(())
}
