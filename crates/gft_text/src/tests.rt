use super::*;
use std::alloc::Global;
use std::test::Fail;

const VERBS: Table = Table {
    entries: &[
        Entry {
            text: "NOOP",
            code: 7,
        },
        Entry {
            text: "QUIT",
            code: 300,
        },
        Entry {
            text: "Noo",
            code: 0,
        },
    ],
};

#[test]
fn a_line_ends_with_an_lf_and_loses_one_cr(rt: HostRuntime) {
    let mut lines = Lines::new(rt.alloc());
    assert!(rt; lines.line().is_empty());
    let rows: [(&[u8], usize, bool, &[u8]); 9] = [
        (b"NOOP\r", 5, false, b"NOOP\r"),
        (b"\nQU", 1, true, b"NOOP"),
        (b"QU", 2, false, b"QU"),
        (b"", 0, false, b"QU"),
        (b"IT\nUSER", 3, true, b"QUIT"),
        (b"\n", 1, true, b""),
        (b"a\rb\r\r\n", 6, true, b"a\rb\r"),
        (b"\r\n\n", 2, true, b""),
        (b"last", 4, false, b"last"),
    ];
    for (i, (piece, used, whole, line)) in rows.into_iter().enumerate() {
        assert_eq!(rt; lines.feed(piece), Ok(Fed { used, whole }), "piece {i}");
        assert_eq!(rt; lines.line(), line, "line {i}");
    }
}

#[test]
fn a_line_of_65536_bytes_is_refused_for_good(rt: HostRuntime) -> Result<(), Fail> {
    let long = vec![in rt.alloc(); b'A'; 65536]?;
    let mut lines = Lines::new(rt.alloc());
    assert_eq!(rt; lines.feed(&long), Err(LineError::TooLong));
    assert_eq!(rt; lines.feed(b"\n"), Err(LineError::TooLong));
    assert_eq!(rt; lines.line().len(), 65536);

    Ok(())
}

#[test]
fn a_line_of_65535_bytes_is_taken(rt: HostRuntime) -> Result<(), Fail> {
    let longest = vec![in rt.alloc(); b'A'; 65535]?;
    let mut lines = Lines::new(rt.alloc());
    let open = Fed {
        used: 65535,
        whole: false,
    };
    assert_eq!(rt; lines.feed(&longest), Ok(open));
    assert_eq!(rt;
        lines.feed(b"\n"),
        Ok(Fed {
            used: 1,
            whole: true
        })
    );
    assert_eq!(rt; lines.line().len(), 65535);
    assert_eq!(rt; lines.feed(&longest), Ok(open));
    assert_eq!(rt; lines.feed(b"A\n"), Err(LineError::TooLong));
    Ok(())
}

#[test]
fn a_number_or_none(rt: HostRuntime) {
    assert_eq!(rt; read_number(b"0017"), Ok(17));
    assert_eq!(rt; read_number(b"1a"), Err(BadNumber));
}

/// The name's bytes, or the refusal.
fn name_in(alloc: Global, text: &[u8]) -> Result<Vec<u8>, NameError> {
    let name = read_name(alloc, text)?;
    Ok(Vec::from_slice(alloc, name.as_bytes())?)
}

#[test]
fn names_lose_one_slash(rt: HostRuntime) -> Result<(), Fail> {
    let longest = vec![in rt.alloc(); b'n'; 200]?;
    let rows: [(&[u8], &[u8]); 5] = [
        (b"/run-7.dat", b"run-7.dat"),
        (b"run-7.dat", b"run-7.dat"),
        (b"-x", b"-x"),
        (b"a.gfr.A_1", b"a.gfr.A_1"),
        (&longest, &longest),
    ];
    for (i, (text, name)) in rows.into_iter().enumerate() {
        assert_eq!(rt; name_in(rt.alloc(), text)?.as_slice(), name, "name {i}");
        assert_eq!(rt; is_name(text), text == name, "name {i}");
    }
    Ok(())
}

#[test]
fn names_are_refused_at_the_first_fault(rt: HostRuntime) -> Result<(), Fail> {
    let too_long = vec![in rt.alloc(); b'n'; 201]?;
    let rows: [(&[u8], usize); 10] = [
        (b".x", 0),
        (b"a.gfr", 1),
        (b"/a.gfr", 1),
        (b"", 0),
        (b"/", 0),
        (b"//a", 0),
        (b"a b", 1),
        (b".a b", 2),
        (b".gfr", 0),
        (&too_long, 200),
    ];
    for (i, (text, at)) in rows.into_iter().enumerate() {
        assert!(rt; !is_name(text), "name {i}");
        match read_name(rt.alloc(), text) {
            Ok(_) => assert!(rt; false, "name {i} is taken"),
            Err(refusal) => assert_eq!(rt; refusal, NameError::BadName { at }, "name {i}"),
        }
    }
    Ok(())
}

#[test]
fn a_copied_name_is_the_same(rt: HostRuntime) -> Result<(), Fail> {
    let name = read_name(rt.alloc(), b"/a.dat")?;
    let copy = name.copy()?;
    assert_eq!(rt; copy.as_bytes(), b"a.dat".as_slice());
    assert!(rt; copy == name);
    assert!(rt; copy != read_name(rt.alloc(), b"a.dat.1")?);
    Ok(())
}

#[test]
fn an_address_is_six_numbers_of_8_bits(rt: HostRuntime) -> Result<(), Fail> {
    let at = HostPort {
        host: [127, 0, 0, 1],
        port: 51210,
    };
    let text = write_host_port(rt.alloc(), &at)?;
    assert_eq!(rt; text.as_slice(), b"127,0,0,1,200,10".as_slice());
    let rows: [(&[u8], Result<HostPort, BadNumber>); 9] = [
        (b"127,0,0,1,200,10", Ok(at)),
        (b"0127,00,0,001,200,000000000010", Ok(at)),
        (b"127,0,0,1,200", Err(BadNumber)),
        (b"127,0,0,1,200,10,0", Err(BadNumber)),
        (b"127,0,0,1,200,", Err(BadNumber)),
        (b"256,0,0,1,200,10", Err(BadNumber)),
        (b"127,0,0,1,200,256", Err(BadNumber)),
        (b"127,0,0,1, 200,10", Err(BadNumber)),
        (b"", Err(BadNumber)),
    ];
    for (i, (text, read)) in rows.into_iter().enumerate() {
        assert_eq!(rt; read_host_port(text), read, "address {i}");
    }
    Ok(())
}

#[test]
fn words_are_kept_byte_by_byte(rt: HostRuntime) -> Result<(), Fail> {
    let mut words = Words::new(rt.alloc());
    assert_eq!(rt; words.count(), 0);
    words.push(b'a')?;
    words.push(0xff)?;
    assert_eq!(rt; words.count(), 2);
    assert_eq!(rt; words.nth(1), Some(0xff));
    assert_eq!(rt; words.nth(2), None);
    assert_eq!(rt; words.bytes(), b"a\xff".as_slice());
    assert!(rt; words == Words::from_bytes(rt.alloc(), b"a\xff")?);
    assert!(rt; words != Words::from_bytes(rt.alloc(), b"a")?);
    Ok(())
}

#[test]
fn a_table_finds_whole_texts_in_any_case(rt: HostRuntime) {
    let rows: [(&[u8], Option<u16>); 7] = [
        (b"NOOP", Some(7)),
        (b"quit", Some(300)),
        (b"qUiT", Some(300)),
        (b"NOO", Some(0)),
        (b"NO", None),
        (b"QUITS", None),
        (b"", None),
    ];
    for (i, (text, code)) in rows.into_iter().enumerate() {
        assert_eq!(rt; VERBS.find(text), code, "text {i}");
    }
}

#[test]
fn refusals_say_what_was_wrong(rt: HostRuntime) -> Result<(), Fail> {
    let alloc = rt.alloc();
    let at_byte = NameError::BadName { at: 17 };
    assert_eq!(rt; at_byte.to_string(alloc)?.as_str(), "bad name at byte 17");
    assert_eq!(rt;
        LineError::TooLong.to_string(alloc)?.as_str(),
        "line too long"
    );
    assert_eq!(rt; BadNumber.to_string(alloc)?.as_str(), "bad number");
    Ok(())
}
