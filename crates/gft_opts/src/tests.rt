use super::*;
use gft_layout::Layout;
use gft_text::{HostPort, Words};
use std::alloc::Global;
use std::test::Fail;

const AT_7: HostPort = HostPort {
    host: [10, 0, 0, 7],
    port: 51210,
};

const AT_8: HostPort = HostPort {
    host: [10, 0, 0, 8],
    port: 1,
};

static BLOCKED: RetrOptions = RetrOptions {
    layout: Some(Layout::Blocked { block: 1048576 }),
    parallel: Some(4),
};

static PARTITIONED: RetrOptions = RetrOptions {
    layout: Some(Layout::Partitioned),
    parallel: None,
};

static NONE: RetrOptions = RetrOptions {
    layout: None,
    parallel: None,
};

#[test]
fn options_that_are_read(rt: HostRuntime) {
    let rows: [(&[u8], RetrOptions); 9] = [
        (
            b"StripeLayout=Blocked;BlockSize=1048576;Parallelism=4,4,4;",
            BLOCKED,
        ),
        (
            b"sTRIPELAYOUT=bLOCKED;blocksize=1048576;PARALLELISM=4,4,4;",
            BLOCKED,
        ),
        (
            b"Parallelism=4,1,64;BlockSize=0001048576;StripeLayout=Blocked",
            BLOCKED,
        ),
        (b"StripeLayout=Partitioned;", PARTITIONED),
        (b"stripelayout=PARTITIONED", PARTITIONED),
        (b"", NONE),
        (b"Parallelism=1,1,1;", with_start(1)),
        (b"Parallelism=64,64,64;", with_start(64)),
        (b"Parallelism=5,4,8;", with_start(5)),
    ];
    for (i, (text, options)) in rows.into_iter().enumerate() {
        assert_eq!(rt; read_retr(text), Ok(options), "options {i}");
    }
}

fn with_start(start: u16) -> RetrOptions {
    RetrOptions {
        layout: None,
        parallel: Some(start),
    }
}

#[test]
fn options_that_are_refused(rt: HostRuntime) {
    let rows: [&[u8]; 20] = [
        b";",
        b";StripeLayout=Partitioned;",
        b"StripeLayout=Partitioned;;",
        b"StripeLayout",
        b"StripeLayout=",
        b"StripeLayout=Striped;",
        b"StripeLayout = Partitioned;",
        b"StripeLayout=Partitioned;StripeLayout=Partitioned;",
        b"BlockSize=5;",
        b"StripeLayout=Blocked;",
        b"StripeLayout=Partitioned;BlockSize=5;",
        b"StripeLayout=Blocked;BlockSize=0;",
        b"StripeLayout=Blocked;BlockSize=281474976710656;",
        b"StripeLayout=Blocked;BlockSize=5;BlockSize=5;",
        b"Parallelism=4,5,8;",
        b"Parallelism=8,1,4;",
        b"Parallelism=1,0,1;",
        b"Parallelism=4,4,65;",
        b"Parallelism=4,4;",
        b"Markers=5;",
    ];
    for (i, text) in rows.into_iter().enumerate() {
        assert_eq!(rt;
            read_retr(text),
            Err(OptsError::BadParameter),
            "options {i}"
        );
    }
}

#[test]
fn options_are_written_in_one_order(rt: HostRuntime) -> Result<(), Fail> {
    let rows: [(RetrOptions, &[u8]); 4] = [
        (
            BLOCKED,
            b"StripeLayout=Blocked;BlockSize=1048576;Parallelism=4,4,4;",
        ),
        (PARTITIONED, b"StripeLayout=Partitioned;"),
        (NONE, b""),
        (with_start(64), b"Parallelism=64,64,64;"),
    ];
    for (i, (options, text)) in rows.into_iter().enumerate() {
        assert!(rt; options.fits(), "options {i}");
        assert_eq!(rt;
            write_retr(rt.alloc(), &options)?.as_slice(),
            text,
            "options {i}"
        );
    }
    assert!(rt; !with_start(65).fits());
    Ok(())
}

#[test]
fn targets_are_read_and_written(rt: HostRuntime) -> Result<(), Fail> {
    let text = b"10,0,0,7,200,10 10,0,0,8,0,1";
    let targets = read_targets(rt.alloc(), text)?;
    assert_eq!(rt; targets.count(), 2);
    assert_eq!(rt; targets.nth(0), Some(AT_7));
    assert_eq!(rt; targets.nth(1), Some(AT_8));
    assert_eq!(rt; targets.nth(2), None);
    assert!(rt; targets.fits());
    assert!(rt; targets.as_slice() == [AT_7, AT_8].as_slice());
    assert!(rt; targets == read_targets(rt.alloc(), text)?);
    assert!(rt; targets != HostPorts::new(rt.alloc()));
    assert_eq!(rt;
        write_targets(rt.alloc(), &targets)?.as_slice(),
        text.as_slice()
    );
    Ok(())
}

/// How many targets are read, or the refusal.
fn count_in(alloc: Global, text: &[u8]) -> Result<usize, OptsError> {
    Ok(read_targets(alloc, text)?.count())
}

#[test]
fn one_to_16_targets_with_one_space_between(rt: HostRuntime) -> Result<(), Fail> {
    let rows: [(&[u8], Result<usize, OptsError>); 6] = [
        (b"10,0,0,7,200,10", Ok(1)),
        (b"", Err(OptsError::BadParameter)),
        (
            b"10,0,0,7,200,10  10,0,0,8,0,1",
            Err(OptsError::BadParameter),
        ),
        (b"10,0,0,7,200,10 ", Err(OptsError::BadParameter)),
        (
            b"10,0,0,7,200,10,10,0,0,8,0,1",
            Err(OptsError::BadParameter),
        ),
        (b"10,0,0,7,200", Err(OptsError::BadParameter)),
    ];
    for (i, (text, count)) in rows.into_iter().enumerate() {
        assert_eq!(rt; count_in(rt.alloc(), text), count, "targets {i}");
    }
    Ok(())
}

#[test]
fn a_17th_target_is_refused(rt: HostRuntime) -> Result<(), Fail> {
    let mut targets = HostPorts::new(rt.alloc());
    assert!(rt; !targets.fits());
    for _ in 0..16 {
        targets.push(AT_8)?;
    }
    let mut text = Vec::from_slice(rt.alloc(), b"10,0,0,8,0,1")?;
    for _ in 0..15 {
        text.extend_from_slice(b" 10,0,0,8,0,1")?;
    }
    assert!(rt; targets.fits());
    assert_eq!(rt; count_in(rt.alloc(), &text), Ok(16));
    targets.push(AT_8)?;
    text.extend_from_slice(b" 10,0,0,8,0,1")?;
    assert!(rt; !targets.fits());
    assert_eq!(rt; count_in(rt.alloc(), &text), Err(OptsError::BadParameter));
    Ok(())
}

#[test]
fn parts_to_be_sent(rt: HostRuntime) -> Result<(), Fail> {
    let eret = read_eret(rt.alloc(), b"P 10 5 a.dat")?;
    assert_eq!(rt; (eret.offset, eret.size), (10, 5));
    assert_eq!(rt; eret.path.bytes(), b"a.dat".as_slice());
    assert!(rt; eret.fits());
    assert_eq!(rt;
        write_eret(rt.alloc(), &eret)?.as_slice(),
        b"P 10 5 a.dat".as_slice()
    );
    let longest = read_eret(rt.alloc(), b"p 281474976710655 18446744073709551615 \xff")?;
    assert_eq!(rt; (longest.offset, longest.size), (281474976710655, u64::MAX));
    let rows: [&[u8]; 8] = [
        b"P 281474976710656 5 a",
        b"P 2 3 a b",
        b"P 2 3 ",
        b"P 2 3",
        b"P  2 3 a",
        b"A 2 3 a",
        b"P 2 18446744073709551616 a",
        b"",
    ];
    for (i, text) in rows.into_iter().enumerate() {
        let refused = matches!(read_eret(rt.alloc(), text), Err(OptsError::BadParameter));
        assert!(rt; refused, "part {i}");
    }
    Ok(())
}

#[test]
fn parts_to_be_stored(rt: HostRuntime) -> Result<(), Fail> {
    let esto = read_esto(rt.alloc(), b"a 5 a.dat")?;
    assert_eq!(rt; esto.offset, 5);
    assert_eq!(rt; esto.path.bytes(), b"a.dat".as_slice());
    assert!(rt; esto.fits());
    assert_eq!(rt;
        write_esto(rt.alloc(), &esto)?.as_slice(),
        b"A 5 a.dat".as_slice()
    );
    let furthest = read_esto(rt.alloc(), b"A 281474976710655 x")?;
    assert_eq!(rt; furthest.offset, 281474976710655);
    let rows: [&[u8]; 6] = [
        b"B 5 a.dat",
        b"A 281474976710656 x",
        b"A 5 a b",
        b"A 5 ",
        b"A 5",
        b"AA 5 x",
    ];
    for (i, text) in rows.into_iter().enumerate() {
        let refused = matches!(read_esto(rt.alloc(), text), Err(OptsError::BadParameter));
        assert!(rt; refused, "part {i}");
    }
    Ok(())
}

#[test]
fn a_name_with_a_space_has_no_text(rt: HostRuntime) -> Result<(), Fail> {
    let path = Words::from_bytes(rt.alloc(), b"a b")?;
    let esto = Esto { offset: 5, path };
    assert!(rt; !esto.fits());
    let path = Words::new(rt.alloc());
    let eret = Eret {
        offset: 5,
        size: 1,
        path,
    };
    assert!(rt; !eret.fits());
    Ok(())
}

#[test]
fn refusals_say_what_was_wrong(rt: HostRuntime) -> Result<(), Fail> {
    let bad = OptsError::BadParameter;
    assert_eq!(rt; bad.to_string(rt.alloc())?.as_str(), "bad parameter");
    Ok(())
}
