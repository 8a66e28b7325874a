use crate::running::run_client;
use gft_drive::MemorySink;
use std::alloc::Global;
use std::test::Fail;

/// The words of a call.
fn words_of(alloc: Global, text: &str) -> Result<Vec<String>, Fail> {
    let mut words = Vec::new(alloc);
    for word in text.split(' ') {
        words.push(String::from_str(alloc, word)?)?;
    }
    Ok(words)
}

#[test]
fn each_call_has_its_status(rt: HostRuntime) -> Result<(), Fail> {
    let alloc = rt.alloc();
    let five =
        "seed 7\nsize 5\nstripes 4\nchannels 16\nattempts 3\nanswers 426 426 226\nequal yes\n";
    let rows = [
        ("make 7 5", 400, 0, five),
        ("make 07 005", 400, 0, five),
        ("make 7 5", 10, 4, ""),
        ("make 7", 10, 4, ""),
    ];
    for (text, room, status, printed) in rows {
        let mut out = MemorySink::new(alloc, room, Vec::new(alloc))?;
        let words = words_of(alloc, text)?;
        let ended = run_client(&rt, alloc, words.as_slice(), &mut out);
        assert_eq!(rt; ended, status);
        assert_eq!(rt; out.bytes(), printed.as_bytes());
    }
    Ok(())
}

#[test]
fn other_words_get_the_usage_text(rt: HostRuntime) -> Result<(), Fail> {
    let alloc = rt.alloc();
    let usage = gft_words::client_usage(alloc)?;
    let rows = [
        "make 7",
        "make 7 1073741825",
        "make --x 7 5",
        "make -- 7 5",
        "make 7 5 5",
        "--help",
        "put",
    ];
    for text in rows {
        let mut out = MemorySink::new(alloc, 4_000, Vec::new(alloc))?;
        let words = words_of(alloc, text)?;
        let ended = run_client(&rt, alloc, words.as_slice(), &mut out);
        assert_eq!(rt; ended, 2);
        assert_eq!(rt; out.bytes(), usage.as_bytes());
    }
    Ok(())
}
