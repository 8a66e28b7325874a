use super::*;
use gft_opts::Esto;
use gft_text::{HostPort, Words};
use std::alloc::Global;
use std::process::Abort;
use std::test::Fail;

/// What is written of the command that a line is.
fn written(rt: &impl Abort, alloc: Global, line: &[u8]) -> Result<Vec<u8>, CommandError> {
    let command = parse(alloc, line)?;
    assert!(rt; command.fits());
    Ok(command.write(alloc)?)
}

#[test]
fn a_line_in_its_one_form_is_written_as_it_was(rt: HostRuntime) -> Result<(), Fail> {
    let rows: [&'static [u8]; 26] = [
        b"USER anonymous",
        b"PASS x",
        b"QUIT",
        b"NOOP",
        b"FEAT",
        b"PWD",
        b"CWD /",
        b"TYPE I",
        b"MODE E",
        b"STRU F",
        b"DCAU N",
        b"SBUF 1048576",
        b"ALLO 0",
        b"OPTS RETR StripeLayout=Blocked;BlockSize=1048576;Parallelism=4,4,4;",
        b"PASV",
        b"SPAS",
        b"PORT 127,0,0,1,200,10",
        b"SPOR 127,0,0,1,200,10 127,0,0,1,200,11",
        b"REST 0-5,7-9",
        b"STOR a.dat",
        b"RETR a.dat",
        b"ERET P 10 5 a.dat",
        b"ESTO A 5 a.dat",
        b"SIZE a.dat",
        b"DELE a.dat",
        b"ABOR",
    ];
    for (i, line) in rows.into_iter().enumerate() {
        let written = written(&rt, rt.alloc(), line)?;
        assert!(rt; written.strip_suffix(b"\r\n") == Some(line), "row {i}");
    }
    Ok(())
}

#[test]
fn another_line_is_written_in_its_one_form(rt: HostRuntime) -> Result<(), Fail> {
    let rows: [(&'static [u8], &'static [u8]); 16] = [
        (b"retr /a.dat", b"RETR /a.dat\r\n"),
        (b"TYPE I N", b"TYPE I\r\n"),
        (b"Type i", b"TYPE I\r\n"),
        (b"NOOP ", b"NOOP\r\n"),
        (b"NOOP  ", b"NOOP\r\n"),
        (b"\xff\xf4\xff\xf2ABOR", b"ABOR\r\n"),
        (b"\xff\xf2\xff\xf2\xff\xf4abor", b"ABOR\r\n"),
        (b"REST 7-9,5,3-8", b"REST 0-9\r\n"),
        (b"REST 0", b"REST 0-0\r\n"),
        (b"ALLO 10 R 5", b"ALLO 10\r\n"),
        (b"SBUF 09", b"SBUF 9\r\n"),
        (
            b"OPTS retr parallelism=4,2,8",
            b"OPTS RETR Parallelism=4,4,4;\r\n",
        ),
        (b"OPTS RETR ", b"OPTS RETR \r\n"),
        (b"ERET p 010 5 a.dat", b"ERET P 10 5 a.dat\r\n"),
        (b"RETR a\xffb", b"RETR a\xff\xffb\r\n"),
        (b"RETR a\xff\xff\xffb", b"RETR a\xff\xff\xff\xffb\r\n"),
    ];
    for (i, (line, text)) in rows.into_iter().enumerate() {
        let written = written(&rt, rt.alloc(), line)?;
        assert!(rt; written.as_slice() == text, "row {i}");
    }
    Ok(())
}

#[test]
fn a_line_is_refused_by_name(rt: HostRuntime) {
    let rows: [(&'static [u8], CommandError); 24] = [
        (b"XYZ", CommandError::UnknownVerb),
        (b"", CommandError::UnknownVerb),
        (b" NOOP", CommandError::UnknownVerb),
        (b"RETR\t/a.dat", CommandError::UnknownVerb),
        (b"SITE HELP", CommandError::UnknownVerb),
        (b"EPSV", CommandError::UnknownVerb),
        (b"NOOP\xff\xf4", CommandError::UnknownVerb),
        (b"RETR", CommandError::MissingParameter),
        (b"RETR ", CommandError::MissingParameter),
        (b"ALLO", CommandError::MissingParameter),
        (b"PORT 1,2", CommandError::BadParameter),
        (b"NOOP x", CommandError::BadParameter),
        (b"SBUF 9 ", CommandError::BadParameter),
        (b"SBUF 18446744073709551616", CommandError::BadParameter),
        (b"ALLO 10R", CommandError::BadParameter),
        (b"TYPE IN", CommandError::BadParameter),
        (b"TYPE 1", CommandError::BadParameter),
        (b"REST 0-5 ", CommandError::BadParameter),
        (b"REST 5-0", CommandError::BadParameter),
        (b"OPTS RETR", CommandError::BadParameter),
        (b"OPTS STOR ", CommandError::BadParameter),
        (b"OPTS RETR Parallelism=4,5,8;", CommandError::BadParameter),
        (b"ERET P 10 5 a b", CommandError::BadParameter),
        (b"ESTO B 5 a.dat", CommandError::BadParameter),
    ];
    for (i, (line, refusal)) in rows.into_iter().enumerate() {
        match parse(rt.alloc(), line) {
            Ok(_) => assert!(rt; false, "row {i}"),
            Err(error) => assert_eq!(rt; error, refusal, "row {i}"),
        }
    }
}

#[test]
fn a_command_carries_what_the_line_says(rt: HostRuntime) -> Result<(), Fail> {
    let alloc = rt.alloc();
    let path = Words::from_bytes(alloc, b"a\xffb")?;
    let at = HostPort {
        host: [127, 0, 0, 1],
        port: 51210,
    };
    let part = Esto {
        offset: 5,
        path: Words::from_bytes(alloc, b"a.dat")?,
    };
    assert!(rt; parse(alloc, b"type i n")? == Command::SetType(b'I'));
    assert!(rt; parse(alloc, b"ALLO 10 R 5")? == Command::Allo(10));
    assert!(rt; parse(alloc, b"ALLO 10 R 5")? != Command::Sbuf(10));
    assert!(rt; parse(alloc, b"RETR a\xff\xffb")? == Command::Retr(path));
    assert!(rt; parse(alloc, b"PORT 127,0,0,1,200,10")? == Command::Port(at));
    assert!(rt; parse(alloc, b"ESTO A 5 a.dat")? == Command::Esto(part));
    Ok(())
}

#[test]
fn a_command_fits_where_it_has_a_line(rt: HostRuntime) -> Result<(), Fail> {
    let alloc = rt.alloc();
    let rows: [(&'static [u8], bool); 5] = [
        (b"a", true),
        (b"", false),
        (b"a\n", false),
        (b"a\r", true),
        (b"\xff\xf4", true),
    ];
    for (i, (path, fits)) in rows.into_iter().enumerate() {
        let command = Command::Retr(Words::from_bytes(alloc, path)?);
        assert_eq!(rt; command.fits(), fits, "row {i}");
    }
    let long = vec![in alloc; b'a'; 65530]?;
    let most = Words::from_bytes(alloc, &long[1..])?;
    assert!(rt; Command::Retr(most).fits());
    assert!(rt; !Command::Retr(Words::from_bytes(alloc, &long)?).fits());
    assert!(rt; Command::Cwd(Words::from_bytes(alloc, &long)?).fits());
    let doubled = vec![in alloc; 255u8; 32765]?;
    assert!(rt; !Command::Retr(Words::from_bytes(alloc, &doubled)?).fits());
    assert!(rt; Command::Retr(Words::from_bytes(alloc, &doubled[1..])?).fits());
    assert!(rt; !Command::SetType(b'i').fits());
    Ok(())
}
