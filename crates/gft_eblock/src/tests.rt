use super::*;
use arrayvec::ArrayVec;
use std::process::Abort;

/// A header and the bytes behind it, as they stand in a stream.
fn header_bytes(flags: u8, count: u64, offset: u64) -> [u8; HEADER_LEN] {
    encode(&Header {
        flags,
        count,
        offset,
    })
}

/// Feeds a channel that isn't done, in a test whose pieces are short.
fn fed<'a>(rt: &impl Abort, channel: &mut Channel, piece: &'a [u8]) -> Result<Step<'a>, BadBlock> {
    assert!(rt; !channel.is_done());
    assert!(rt; channel.taken() < 1000 && piece.len() < 1000);
    channel.feed(piece)
}

#[test]
fn a_header_is_flags_count_and_offset(rt: HostRuntime) {
    let rows = [
        (
            (64, 0, 1),
            [64, 0, 0, 0, 0, 0, 0, 0, 0, 0, 0, 0, 0, 0, 0, 0, 1],
        ),
        (
            (12, 0, 0),
            [12, 0, 0, 0, 0, 0, 0, 0, 0, 0, 0, 0, 0, 0, 0, 0, 0],
        ),
        (
            (0, 258, 281_474_976_710_655),
            [
                0, 0, 0, 0, 0, 0, 0, 1, 2, 0, 0, 255, 255, 255, 255, 255, 255,
            ],
        ),
    ];
    for ((flags, count, offset), bytes) in rows {
        assert_eq!(rt;
            header_bytes(flags, count, offset),
            bytes,
            "{flags} {count} {offset}"
        );
    }
}

#[test]
fn an_eof_and_an_eod_share_a_header(rt: HostRuntime) {
    let mut channel = Channel::new(0);
    let bytes = header_bytes(76, 0, 1);
    let step = fed(&rt, &mut channel, &bytes).expect(&rt, "no bad block");
    assert_eq!(rt; step.used, 17);
    assert_eq!(rt; step.event, Some(Event::Eof { total: 1 }));
    assert!(rt; !channel.is_done());
    assert_eq!(rt; channel.wants(), 0);
    let step = fed(&rt, &mut channel, &[]).expect(&rt, "no bad block");
    assert_eq!(rt; step.event, Some(Event::Eod));
    assert!(rt; channel.is_done());
    assert_eq!(rt; channel.taken(), 17);
}

#[test]
fn the_last_offset_is_taken_and_one_more_byte_is_not(rt: HostRuntime) {
    let mut channel = Channel::new(0);
    let bytes = header_bytes(0, 1, 281_474_976_710_654);
    let step = fed(&rt, &mut channel, &bytes).expect(&rt, "no bad block");
    assert_eq!(rt; step.event, None);
    assert_eq!(rt; channel.wants(), 1);
    let step = fed(&rt, &mut channel, b"x").expect(&rt, "no bad block");
    let offset = 281_474_976_710_654;
    assert_eq!(rt;
        step.event,
        Some(Event::Piece {
            offset,
            bytes: b"x"
        })
    );

    let mut channel = Channel::new(0);
    let bytes = header_bytes(0, 2, 281_474_976_710_654);
    let bad = BadBlock {
        place: 0,
        flags: 0,
        count: 2,
        offset: 281_474_976_710_654,
    };
    assert_eq!(rt; fed(&rt, &mut channel, &bytes), Err(bad));
    assert_eq!(rt; channel.taken(), 17);
    assert_eq!(rt; fed(&rt, &mut channel, &bytes), Err(bad));
    assert_eq!(rt; channel.taken(), 17);
    assert_eq!(rt; channel.wants(), 0);
}

#[test]
fn bad_blocks_are_refused_by_their_flags_and_place(rt: HostRuntime) {
    // The shift, then the flags, count and offset of a block.
    let rows = [
        (0, 16, 0, 0),
        (0, 32, 0, 0),
        (0, 64, 1, 0),
        (1, 0, 1, 281_474_976_710_654),
        (0, 8, u64::MAX, u64::MAX),
    ];
    for (shift, flags, count, offset) in rows {
        let mut channel = Channel::new(shift);
        let empty = header_bytes(0, 0, u64::MAX);
        let step = fed(&rt, &mut channel, &empty).expect(&rt, "no bad block");
        assert_eq!(rt;
            step,
            Step {
                used: 17,
                event: None
            }
        );
        let bytes = header_bytes(flags, count, offset);
        let bad = BadBlock {
            place: 17,
            flags,
            count,
            offset,
        };
        assert_eq!(rt;
            fed(&rt, &mut channel, &bytes),
            Err(bad),
            "{flags} {count} {offset}"
        );
    }
}

/// The blocks of one channel: five bytes, the count of EODs, the end.
fn hello_stream() -> ArrayVec<u8, 56> {
    let mut stream = ArrayVec::new();
    let _ = stream.try_extend_from_slice(&header_bytes(0, 5, 0));
    let _ = stream.try_extend_from_slice(b"hello");
    let _ = stream.try_extend_from_slice(&header_bytes(64, 0, 1));
    let _ = stream.try_extend_from_slice(&header_bytes(12, 0, 0));
    stream
}

#[test]
fn a_stream_may_be_cut_at_every_byte(rt: HostRuntime) {
    let mut channel = Channel::new(100);
    let stream = hello_stream();
    assert_eq!(rt; stream.len(), 56);
    let mut told = Vec::new(rt.alloc());
    for piece in stream.chunks(1) {
        let step = fed(&rt, &mut channel, piece).expect(&rt, "no bad block");
        assert_eq!(rt; step.used, 1);
        if let Some(event) = step.event {
            told.push(event).expect(&rt, "memory");
        }
    }
    let events = [
        Event::Piece {
            offset: 100,
            bytes: b"h",
        },
        Event::Piece {
            offset: 101,
            bytes: b"e",
        },
        Event::Piece {
            offset: 102,
            bytes: b"l",
        },
        Event::Piece {
            offset: 103,
            bytes: b"l",
        },
        Event::Piece {
            offset: 104,
            bytes: b"o",
        },
        Event::Eof { total: 1 },
        Event::Eod,
    ];
    assert_eq!(rt; told.as_slice(), &events[..]);
    assert!(rt; channel.is_done());
}

#[test]
fn an_eod_comes_behind_the_data_of_its_block(rt: HostRuntime) {
    let mut channel = Channel::new(0);
    let bytes = header_bytes(8, 2, 7);
    assert_eq!(rt;
        fed(&rt, &mut channel, &bytes),
        Ok(Step {
            used: 17,
            event: None
        })
    );
    let step = fed(&rt, &mut channel, b"ab").expect(&rt, "no bad block");
    assert_eq!(rt;
        step.event,
        Some(Event::Piece {
            offset: 7,
            bytes: b"ab"
        })
    );
    assert!(rt; !channel.is_done());
    let step = fed(&rt, &mut channel, b"c").expect(&rt, "no bad block");
    assert_eq!(rt;
        step,
        Step {
            used: 0,
            event: Some(Event::Eod)
        }
    );
    assert!(rt; channel.is_done());
}

#[test]
fn a_channel_says_what_it_took_and_wants(rt: HostRuntime) {
    let mut channel = Channel::new(0);
    assert_eq!(rt; channel.wants(), 17);
    let step = fed(&rt, &mut channel, &[0, 0, 0]).expect(&rt, "no bad block");
    assert_eq!(rt;
        step,
        Step {
            used: 3,
            event: None
        }
    );
    assert_eq!(rt; channel.taken(), 3);
    assert_eq!(rt; channel.wants(), 14);
}

#[test]
fn a_bad_block_is_named(rt: HostRuntime) {
    let bad = BadBlock {
        place: 17,
        flags: 16,
        count: 2,
        offset: 3,
    };
    let text = "bad block at byte 17: flags 16, count 2, offset 3";
    assert_eq!(rt;
        bad.to_string(rt.alloc()).expect(&rt, "memory").as_str(),
        text
    );
}
