use super::*;
use crate::usage::serve_command;
use std::alloc::{AllocError, Global};
use std::test::Fail;

/// The words of a line: what stands between its spaces, an empty word between two.
fn words(alloc: Global, line: &str) -> Result<Vec<String>, AllocError> {
    let mut words = Vec::new(alloc);
    for word in line.split(' ') {
        words.push(String::from_str(alloc, word)?)?;
    }
    Ok(words)
}

/// Address, port, workers, stripes, bytes from marker to marker, silences.
type Values = ([u8; 4], u16, u16, u16, u64, u32);

fn values_of(words: &ServerWords) -> Values {
    (
        words.at.host,
        words.at.port,
        words.workers,
        words.config.stripes,
        words.config.marker_bytes,
        words.config.idle,
    )
}

const LOOPBACK: [u8; 4] = [127, 0, 0, 1];

const GREATEST: &str =
    "serve --idle=1000000 --marker-bytes=1099511627776 --stripes=16 --workers=64 --port=65535";

const LEAST: &str =
    "serve --address 0.0.0.0 --port 1 --workers 1 --stripes 1 --marker-bytes 1 --idle 1";

#[test]
fn options_of_serve_stand_in_any_order_and_have_defaults(rt: HostRuntime) -> Result<(), Fail> {
    let alloc = rt.alloc();
    let rows: [(&str, Values); 7] = [
        ("serve", (LOOPBACK, 2811, 8, 4, 67_108_864, 600)),
        (
            "serve --port=2811 --workers 3",
            (LOOPBACK, 2811, 3, 4, 67_108_864, 600),
        ),
        (
            "serve --workers 3 --port=2811",
            (LOOPBACK, 2811, 3, 4, 67_108_864, 600),
        ),
        (LEAST, ([0, 0, 0, 0], 1, 1, 1, 1, 1)),
        (
            GREATEST,
            (LOOPBACK, 65_535, 64, 16, 1_099_511_627_776, 1_000_000),
        ),
        (
            "serve --address=010.2.003.255",
            ([10, 2, 3, 255], 2811, 8, 4, 67_108_864, 600),
        ),
        (
            "serve --stripes 016 --port 00000000000000000021",
            (LOOPBACK, 21, 8, 16, 67_108_864, 600),
        ),
    ];
    for (line, values) in rows {
        let words = words(alloc, line)?;
        let said = read_server_words(alloc, words.as_slice())?;
        assert_eq!(rt; values_of(&said), values, "{line}");
    }
    Ok(())
}

#[test]
fn other_words_of_serve_are_refused(rt: HostRuntime) -> Result<(), Fail> {
    let alloc = rt.alloc();
    let rows = [
        "",
        "Serve",
        "drain a.dat",
        "help",
        "--help",
        "serve --help",
        "serve -h",
        "serve --",
        "serve ",
        "serve x",
        "serve --workers 3 x",
        "serve -p 1",
        "serve --por 1",
        "serve --PORT 1",
        "serve --unknown 1",
        "serve --port",
        "serve --port ",
        "serve --port=",
        "serve --idle=",
        "serve --=1",
        "serve --port=1=2",
        "serve --workers 3 --workers 3",
        "serve --workers 3 --workers=4",
        "serve --address=1.2.3.4 --address=1.2.3.4",
        "serve --workers --port 1",
        "serve --workers -3",
        "serve --workers=-3",
        "serve --workers +3",
        "serve --port 0",
        "serve --port 65536",
        "serve --workers 65",
        "serve --stripes 0",
        "serve --stripes 17",
        "serve --marker-bytes 1099511627777",
        "serve --idle 1000001",
        "serve --stripes 000000000000000000004",
        "serve --address 127.0.0",
        "serve --address 127.0.0.1.1",
        "serve --address 127.0.0.256",
        "serve --address 127,0,0,1",
        "serve --address localhost",
    ];
    for line in rows {
        let words = words(alloc, line)?;
        let said = read_server_words(alloc, words.as_slice());
        assert_eq!(rt; said.err(), Some(WordsError::Usage), "{line}");
    }
    let none = read_server_words(alloc, &[]);
    assert_eq!(rt; none.err(), Some(WordsError::Usage));
    Ok(())
}

#[test]
fn make_has_a_seed_and_a_size(rt: HostRuntime) -> Result<(), Fail> {
    let alloc = rt.alloc();
    let rows = [
        ("make 7 5", Some((7, 5))),
        ("make 007 0005", Some((7, 5))),
        (
            "make 18446744073709551615 1073741824",
            Some((18_446_744_073_709_551_615, 1_073_741_824)),
        ),
        ("make 7 1073741825", None),
        ("make 18446744073709551616 5", None),
        ("make 7", None),
        ("make 7 5 6", None),
        ("make  7 5", None),
        ("make 7 ", None),
        ("make --x 7 5", None),
        ("make 7 5 --x=1", None),
        ("make 7 -5", None),
        ("make -- 7 5", None),
        ("make --help", None),
        ("Make 7 5", None),
        ("", None),
        ("put 127.0.0.1:2811 a b", None),
        ("get 127.0.0.1:2811 a b", None),
        ("third 127.0.0.1:2811 127.0.0.1:2812 a b", None),
    ];
    for (line, made) in rows {
        let words = words(alloc, line)?;
        let said = read_client_words(alloc, words.as_slice());
        let wanted = match made {
            Some((seed, size)) => Ok(ClientWords::Make { seed, size }),
            None => Err(WordsError::Usage),
        };
        assert_eq!(rt; said, wanted, "{line}");
    }
    Ok(())
}

#[test]
fn drain_has_a_name(rt: HostRuntime) -> Result<(), Fail> {
    let alloc = rt.alloc();
    let rows: [(&str, Option<&[u8]>); 9] = [
        ("drain a.dat", Some(b"a.dat")),
        ("drain -x", Some(b"-x")),
        ("drain /a.dat", None),
        ("drain .x", None),
        ("drain a.gfr", None),
        ("drain ", None),
        ("drain", None),
        ("drain a b", None),
        ("serve a", None),
    ];
    for (line, name) in rows {
        let words = words(alloc, line)?;
        assert_eq!(rt; drain_name(words.as_slice()), name, "{line}");
    }
    Ok(())
}

#[test]
fn usage_tells_commands_options_ranges_and_defaults(rt: HostRuntime) -> Result<(), Fail> {
    let server = server_usage(rt.alloc())?;
    assert_eq!(rt; server.as_str(), SERVER_USAGE);
    let client = client_usage(rt.alloc())?;
    assert_eq!(rt; client.as_str(), CLIENT_USAGE);
    Ok(())
}

const SERVER_USAGE: &str = "Stores and serves the files of this folder by GridFTP, in the clear

Usage: gridftpd serve [OPTIONS]
       gridftpd drain NAME

Options of serve:
      --address <ADDRESS>     IPv4 address to listen on [default: 127.0.0.1]
      --port <PORT>           Port to listen on, 1 to 65535 [default: 2811]
      --workers <COUNT>       Callers served at once, 1 to 64 [default: 8]
      --stripes <COUNT>       Data listeners of one transfer, 1 to 16 [default: 4]
      --marker-bytes <BYTES>  Stored bytes from marker to marker, 1 to 1099511627776 [default: 67108864]
      --idle <QUIETS>         Quiets, of one second each, that end a session, 1 to 1000000 [default: 600]

An option is written --key value or --key=value, and each at most once.

Commands:
  serve       Serves callers until it is stopped
  drain NAME  Stores one recorded data connection, read from standard input, as the file NAME

Examples:
  gridftpd serve --address 0.0.0.0 --workers=16
  gridftpd drain run-7.dat < recording
";

const CLIENT_USAGE: &str = "Transfers a generated file with itself: three attempts, two cuts

Usage: gridftp make SEED SIZE

Arguments:
  <SEED>  Which file is generated, 0 to 18446744073709551615
  <SIZE>  Its size in bytes, 0 to 1073741824

Example:
  gridftp make 7 268435456
";

#[test]
fn clap_has_the_keys_and_the_defaults_of_the_reader(rt: HostRuntime) -> Result<(), Fail> {
    let alloc = rt.alloc();
    let words = words(alloc, "serve --workers 3")?;
    let said = read_server_words(alloc, words.as_slice())?;
    let found = serve_command(alloc)?.try_get_matches_from(&["--workers", "3"])?;
    assert_eq!(rt; found.get_str("address"), Some("127.0.0.1"));
    assert_eq!(rt; found.get_one::<u16>("port"), Some(said.at.port));
    assert_eq!(rt; found.get_one::<u16>("workers"), Some(said.workers));
    assert_eq!(rt; found.get_one::<u16>("stripes"), Some(said.config.stripes));
    assert_eq!(rt;
        found.get_one::<u64>("marker-bytes"),
        Some(said.config.marker_bytes)
    );
    assert_eq!(rt; found.get_one::<u32>("idle"), Some(said.config.idle));
    Ok(())
}
