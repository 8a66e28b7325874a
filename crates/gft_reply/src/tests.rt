use super::*;
use std::alloc::Global;
use std::test::Fail;

fn reply_of(alloc: Global, code: u16, lines: &[&str]) -> Result<Reply, Fail> {
    let mut reply = Reply {
        code,
        lines: ReplyLines::new(alloc),
    };
    for line in lines {
        reply.lines.push(line.as_bytes())?;
    }
    Ok(reply)
}

/// What the last byte of these told, each fed alone.
fn last_told(alloc: Global, stream: &[u8]) -> Result<Option<Reply>, ReplyError> {
    let mut replies = Replies::new(alloc);
    let mut told = None;
    for i in 0..stream.len() {
        told = replies.feed(&stream[i..i + 1])?.reply;
    }
    Ok(told)
}

#[test]
fn a_stream_tells_its_first_reply_or_is_refused(rt: HostRuntime) -> Result<(), Fail> {
    let alloc = rt.alloc();
    let rows: [(&[u8], u16, &[&str]); 14] = [
        (b"220 ready\r\n", 220, &["ready"]),
        (b"599 \n", 599, &[""]),
        (b"211-A\r\n B\r\n211 End\r\n", 211, &["A", "B", "End"]),
        (
            b"229-A\n229-B\n230 C\n\n229 End\n",
            229,
            &["A", "229-B", "230 C", "", "End"],
        ),
        (b"100-\r\n100\r\n100 \r\n", 100, &["", "100", ""]),
        (b"22 ready\r\n", 0, &[]),
        (b"099 low\r\n", 0, &[]),
        (b"620 high\r\n", 0, &[]),
        (b"220ready\r\n", 0, &[]),
        (b"220\r\n", 0, &[]),
        (b" 220 ready\r\n", 0, &[]),
        (b"2a0 ready\r\n", 0, &[]),
        (b"\r\n", 0, &[]),
        (b"2x\r\n", 0, &[]),
    ];
    for (i, (stream, code, lines)) in rows.into_iter().enumerate() {
        let whole = Replies::new(alloc).feed(stream).map(|got| got.reply);
        let cut = last_told(alloc, stream);
        if code == 0 {
            assert!(rt; whole == Err(ReplyError::BadReply), "row {i}");
            assert!(rt; cut == Err(ReplyError::BadReply), "row {i}");
        } else {
            let reply = Ok(Some(reply_of(alloc, code, lines)?));
            assert!(rt; whole == reply, "row {i}");
            assert!(rt; cut == reply, "row {i}");
        }
    }
    Ok(())
}

#[test]
fn a_written_reply_is_read_again(rt: HostRuntime) -> Result<(), Fail> {
    let mut reply = reply_of(rt.alloc(), 229, &["Entering Striped Passive Mode."])?;
    for _ in 0..16 {
        reply.lines.push(b"127,0,0,1,200,10")?;
    }
    reply.lines.push(b"End")?;
    assert!(rt; reply.fits());
    let text = reply.write(rt.alloc())?;
    assert!(rt; text.starts_with(b"229-Entering Striped Passive Mode.\r\n 127,0,0,1,200,10\r\n"));
    assert!(rt; text.ends_with(b" 127,0,0,1,200,10\r\n229 End\r\n"));
    assert_eq!(rt; reply.lines.count(), 18);
    assert!(rt; reply.lines.nth(17) == Some(b"End".as_slice()));
    assert_eq!(rt; reply.lines.as_slice().len(), 18);
    assert!(rt; last_told(rt.alloc(), &text)? == Some(reply.copy()?));
    Ok(())
}

#[test]
fn a_reply_has_at_most_1023_lines(rt: HostRuntime) -> Result<(), Fail> {
    let mut text = Vec::new(rt.alloc());
    text.extend_from_slice(b"211-\r\n")?;
    for _ in 0..1021 {
        text.extend_from_slice(b"\r\n")?;
    }
    let mut replies = Replies::new(rt.alloc());
    assert!(rt; replies.feed(&text)?.reply.is_none());
    let got = replies.feed(b"211 \r\n220 ready")?;
    assert_eq!(rt; got.used, 6);
    let reply = got.reply.ok_or("no reply")?;
    assert_eq!(rt; reply.lines.count(), 1023);
    assert!(rt; reply.fits());
    let mut replies = Replies::new(rt.alloc());
    text.extend_from_slice(b"\r\n")?;
    assert!(rt; replies.feed(&text)?.reply.is_none());
    for piece in [b"211 \r\n".as_slice(), b"".as_slice()] {
        assert!(rt; matches!(replies.feed(piece), Err(ReplyError::BadReply)));
    }
    let message = ReplyError::BadReply.to_string(rt.alloc())?;
    assert_eq!(rt; message.as_str(), "bad reply");
    Ok(())
}

#[test]
fn a_reply_fits_if_it_has_a_text(rt: HostRuntime) -> Result<(), Fail> {
    let rows: [(u16, &[&str], bool); 7] = [
        (100, &[""], true),
        (599, &["\r", ""], true),
        (99, &["A"], false),
        (600, &["A"], false),
        (220, &[], false),
        (220, &["A", "\n", "B"], false),
        (220, &["A", "B", "C"], true),
    ];
    for (i, (code, lines, fits)) in rows.into_iter().enumerate() {
        let reply = reply_of(rt.alloc(), code, lines)?;
        assert_eq!(rt; reply.fits(), fits, "row {i}");
    }
    let long = vec![in rt.alloc(); b'A'; 65531]?;
    let mut reply = reply_of(rt.alloc(), 220, &[])?;
    reply.lines.push(&long[1..])?;
    assert!(rt; reply.fits());
    reply.lines = ReplyLines::new(rt.alloc());
    reply.lines.push(&long)?;
    assert!(rt; !reply.fits());
    Ok(())
}
