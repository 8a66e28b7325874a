//! Transfers that are begun again behind a failure or a crash.

use super::*;
use gft_drive::{CallKind, CrashChoice, FailAt};
use std::process::Abort;

/// What a crash may leave of what isn't synced.
const CHOICES: [CrashChoice; 5] = [
    CrashChoice::Old,
    CrashChoice::New,
    CrashChoice::Half,
    CrashChoice::Fill(0xff),
    CrashChoice::Fill(1),
];

/// A library whose drives take so many calls, and fail these.
fn files_over(alloc: Global, calls: u32, failing: Vec<FailAt>) -> Files {
    let shelf = MemoryShelf::new(Vec::new(alloc), 64, calls, failing, Vec::new(alloc));
    Library::new(alloc, shelf)
}

/// Stores `helloworld` in two blocks, with a mark for each, and says what is put behind the listening.
fn store_halves<R: Threads + Wait + Sync>(
    rt: &R,
    alloc: Global,
    files: &Files,
) -> Result<Vec<u8>, Fail> {
    let lane = whole_lane(alloc, &[(0, b"hello"), (5, b"world")])?;
    let mut link = link_over(alloc, vec![in alloc; lane]?)?;
    let (said, _) = marked(rt, alloc, files, &mut link, b"PASV\r\nSTOR a.dat\r\n", 5)?;
    let behind = said.strip_prefix(LISTENING).unwrap_or(b"");
    Ok(Vec::from_slice(alloc, behind)?)
}

/// Restarts behind the first block, with the second, and asserts that the file is whole then.
fn restart<R: Threads + Wait + Sync + Abort>(
    rt: &R,
    alloc: Global,
    files: Files,
) -> Result<(), Fail> {
    let lane = whole_lane(alloc, &[(5, b"world")])?;
    let mut link = link_over(alloc, vec![in alloc; lane]?)?;
    let script = b"PASV\r\nREST 0-5\r\nSTOR a.dat\r\nSIZE a.dat\r\n";
    let (said, _) = stored(rt, alloc, &files, &mut link, script)?;
    let want =
        b"350 Restart list noted.\r\n150 Opening data connections.\r\n111 Range Marker 0-10\r\n\
226 Transfer complete.\r\n213 10\r\n";
    assert_eq!(rt;
        said.strip_prefix(LISTENING).unwrap_or(b""),
        want.as_slice()
    );
    let drive = files.into_drive(&read_name(alloc, b"a.dat")?);
    let bytes = drive.as_ref().map(|drive| drive.bytes());
    assert_eq!(rt; bytes, Some(b"helloworld".as_slice()));
    Ok(())
}

const HALF_STORED: &[u8] = b"150 Opening data connections.\r\n111 Range Marker 0-5\r\n\
111 Range Marker 0-5\r\n451 Drive failed.\r\n";

/// Stops the drive behind so many calls, and restarts over each image that the crash may leave.
fn stop<R: Threads + Wait + Sync + Abort>(rt: &R, alloc: Global, calls: u32) -> Result<(), Fail> {
    for choice in CHOICES {
        let files = files_over(alloc, calls, Vec::new(alloc));
        let said = store_halves(rt, alloc, &files)?;
        assert_eq!(rt; said.as_slice(), HALF_STORED, "behind {calls}");
        let name = read_name(alloc, b"a.dat")?;
        let Some(drive) = files.into_drive(&name) else {
            return Err(OutOfMemory.into());
        };
        let left = NamedDrive::new(name, drive.crash(choice));
        let files = files_of(alloc, vec![in alloc; left]?, Vec::new(alloc));
        restart(rt, alloc, files)?;
    }
    Ok(())
}

// 262 calls attach, 263 begin, and 6 store the first block. Then two write the second one and sync it, two
// its slot in the journal, and two its gate.
#[test]
fn a_crash_in_the_data_of_the_next_store(rt: HostRuntime) -> Result<(), Fail> {
    for calls in 531..533 {
        stop(&rt, rt.alloc(), calls)?;
    }
    Ok(())
}

#[test]
fn a_crash_in_the_slot_of_the_next_store(rt: HostRuntime) -> Result<(), Fail> {
    for calls in 533..535 {
        stop(&rt, rt.alloc(), calls)?;
    }
    Ok(())
}

#[test]
fn a_crash_in_the_gate_of_the_next_store(rt: HostRuntime) -> Result<(), Fail> {
    for calls in 535..537 {
        stop(&rt, rt.alloc(), calls)?;
    }
    Ok(())
}

// The fourth sync of the data is that of the second store.
#[test]
fn a_sync_fails(rt: HostRuntime) -> Result<(), Fail> {
    let alloc = rt.alloc();
    let fourth = FailAt {
        call: CallKind::Sync,
        part: Part::Bytes,
        number: 4,
    };
    let files = files_over(alloc, u32::MAX, vec![in alloc; fourth]?);
    let said = store_halves(&rt, alloc, &files)?;
    assert_eq!(rt; said.as_slice(), HALF_STORED);
    restart(&rt, alloc, files)
}

// 64 bytes of a file came, and then its data connection was lost.
#[test]
fn a_restart_names_what_is_not_stored(rt: HostRuntime) -> Result<(), Fail> {
    let alloc = rt.alloc();
    let files = files_of(alloc, Vec::new(alloc), Vec::new(alloc));
    let lanes = vec![in alloc;
        lane_of(alloc, &[(0, &[7; 64])], None, Vec::new(alloc))?,
        whole_lane(alloc, &[])?,
    ]?;
    let mut link = link_over(alloc, lanes)?;
    let (said, _) = stored(&rt, alloc, &files, &mut link, b"PASV\r\nSTOR a.dat\r\n")?;
    let want = b"150 Opening data connections.\r\n111 Range Marker 0-64\r\n\
426 Channel lost: lane 0, channel 0, 81 bytes taken.\r\n";
    assert_eq!(rt;
        said.strip_prefix(LISTENING).unwrap_or(b""),
        want.as_slice()
    );
    let script = b"PASV\r\nREST 0-100\r\nSTOR a.dat\r\nSIZE a.dat\r\nREST 0-64\r\nSTOR a.dat\r\n";
    let (said, _) = stored(&rt, alloc, &files, &mut link, script)?;
    let want = b"350 Restart list noted.\r\n554 REST names 64-100, which is not stored.\r\n\
550 Not complete.\r\n350 Restart list noted.\r\n150 Opening data connections.\r\n\
111 Range Marker 0-64\r\n226 Transfer complete.\r\n";
    assert_eq!(rt;
        said.strip_prefix(LISTENING).unwrap_or(b""),
        want.as_slice()
    );
    Ok(())
}
