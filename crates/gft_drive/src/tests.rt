use crate::RANGES_LEN;
use crate::crash::CrashChoice;
use crate::drive::{Drive, Part};
use crate::failures::{CallKind, DriveCall, FailAt};
use crate::file::FileDrive;
use crate::memory::MemoryDrive;
use crate::memory_sink::MemorySink;
use crate::memory_source::MemorySource;
use crate::sink::Sink;
use crate::source::Source;
use crate::streams::{ReadSource, WriteSink};
use std::alloc::Global;
use std::fs::File;
use std::io::{ErrorKind, Read, Write};
use std::test::Fail;
use std::{fs, io, thread};

fn made(alloc: Global, capacity: u64, calls: u32, failing: &[FailAt]) -> Result<MemoryDrive, Fail> {
    Ok(MemoryDrive::new(alloc, b"name", capacity, calls, failing)?)
}

#[test]
fn a_drive_fills_a_gap_and_is_cut(rt: HostRuntime) -> Result<(), Fail> {
    let mut drive = made(rt.alloc(), 16, 100, &[])?;
    assert!(rt; drive.write_at(Part::Bytes, 5, b"abc").is_ok());
    assert_eq!(rt; drive.bytes(), b"\0\0\0\0\0abc".as_slice());
    let mut buf = [9u8; 10];
    assert_eq!(rt; drive.read(Part::Bytes, 4, &mut buf), Ok(4));
    assert_eq!(rt; &buf[..5], b"\0abc\x09".as_slice());
    assert!(rt; drive.cut(Part::Bytes, 6).is_ok());
    assert!(rt; drive.cut(Part::Bytes, 7).is_ok());
    assert_eq!(rt; drive.len(Part::Bytes), Ok(6));
    assert_eq!(rt; drive.len(Part::Ranges), Ok(RANGES_LEN));
    assert!(rt; drive.ranges_part().iter().all(|&byte| byte == 0));
    Ok(())
}

#[test]
fn a_drive_fails_where_it_is_told_to(rt: HostRuntime) -> Result<(), Fail> {
    let second_sync = FailAt {
        call: CallKind::Sync,
        part: Part::Bytes,
        number: 2,
    };
    let mut drive = made(rt.alloc(), 4, 9, &[second_sync])?;
    assert!(rt; drive.sync(Part::Bytes).is_ok());
    assert!(rt; drive.sync(Part::Ranges).is_ok());
    assert!(rt; drive.sync(Part::Bytes).is_err());
    assert!(rt; drive.sync(Part::Bytes).is_ok());
    assert!(rt; drive.write_at(Part::Bytes, 1, b"abc").is_ok());
    assert!(rt; drive.write_at(Part::Bytes, 2, b"abc").is_err());
    assert!(rt; drive.write_at(Part::Bytes, u64::MAX, b"abc").is_err());
    assert!(rt; drive.write_at(Part::Ranges, RANGES_LEN - 1, b"z").is_ok());
    assert!(rt; drive.write_at(Part::Ranges, RANGES_LEN, b"z").is_err());
    assert!(rt; drive.sync(Part::Bytes).is_err());
    assert_eq!(rt; drive.bytes(), b"\0abc".as_slice());
    assert_eq!(rt; drive.ranges_part().last(), Some(&b'z'));
    assert_eq!(rt; drive.count(), 9);
    let kept = DriveCall {
        call: CallKind::Write,
        part: Part::Bytes,
        at: 1,
        len: 3,
    };
    assert_eq!(rt; drive.call(4), Some(kept));
    assert!(rt; drive.call(9).is_none());
    Ok(())
}

// "abcd" is synced. "XYZ" is written from its third byte on, and a write of "PQ" at its front fails.
#[test]
fn a_crash_leaves_what_it_may(rt: HostRuntime) -> Result<(), Fail> {
    let fails = FailAt {
        call: CallKind::Write,
        part: Part::Bytes,
        number: 3,
    };
    let cases: [(CrashChoice, &[u8], &[u8]); 4] = [
        (CrashChoice::Old, b"abcd", b"\0\0"),
        (CrashChoice::New, b"abXYZ", b"\x07\0"),
        (CrashChoice::Half, b"PbXd", b"\0\0"),
        (CrashChoice::Fill(b'.'), b".....", b".\0"),
    ];
    for (choice, bytes, ranges) in cases {
        let mut drive = made(rt.alloc(), 16, 9, &[fails])?;
        assert!(rt; drive.write_at(Part::Bytes, 0, b"abcd").is_ok());
        assert!(rt; drive.write_at(Part::Ranges, 0, b"\x07").is_ok());
        assert!(rt; drive.sync(Part::Bytes).is_ok());
        assert!(rt; drive.write_at(Part::Bytes, 2, b"XYZ").is_ok());
        assert!(rt; drive.write_at(Part::Bytes, 0, b"PQ").is_err());
        let mut left = drive.crash(choice);
        assert_eq!(rt; left.bytes(), bytes, "at {choice:?}");
        let front = left.ranges_part().get(..2).unwrap_or(&[]);
        assert_eq!(rt; front, ranges, "at {choice:?}");
        assert_eq!(rt; left.count(), 0);
        assert!(rt; left.sync(Part::Bytes).is_ok());
    }
    Ok(())
}

#[test]
fn a_twin_reads_what_the_drive_read(rt: HostRuntime) -> Result<(), Fail> {
    let third_write = FailAt {
        call: CallKind::Write,
        part: Part::Bytes,
        number: 3,
    };
    let mut drive = made(rt.alloc(), 8, 9, &[third_write])?;
    assert!(rt; drive.write_at(Part::Bytes, 0, b"hello").is_ok());
    let mut twin = drive.twin(rt.alloc())?;
    assert!(rt; drive.write_at(Part::Bytes, 0, b"J").is_ok());
    assert_eq!(rt; drive.bytes(), b"Jello".as_slice());
    let mut buf = [9u8; 6];
    assert_eq!(rt; twin.read(Part::Bytes, 0, &mut buf), Ok(5));
    assert_eq!(rt; buf, *b"hello\x09");
    assert_eq!(rt; (drive.count(), twin.count()), (2, 2));
    assert!(rt; twin.write_at(Part::Bytes, 0, b"B").is_ok());
    assert!(rt; twin.write_at(Part::Bytes, 0, b"C").is_err());
    assert_eq!(rt; twin.crash(CrashChoice::Old).bytes(), b"hello".as_slice());
    Ok(())
}

// A drive may be handed to a thread.
#[test]
fn two_threads_write_their_drives(rt: HostRuntime) -> Result<(), Fail> {
    let mut one = made(rt.alloc(), 4, 9, &[])?;
    let path = String::from_str(rt.alloc(), "threads.dat")?;
    let mut two = FileDrive::at(rt.clone()?, path)?;
    let (first, second) = thread::join(
        &rt,
        || one.write_at(Part::Bytes, 0, b"one").is_ok(),
        || two.write_at(Part::Bytes, 0, b"two").is_ok(),
    );
    assert!(rt; first && second);
    assert_eq!(rt; one.bytes(), b"one".as_slice());
    fs::remove_file(&rt, "threads.dat")?;
    Ok(())
}

#[test]
fn a_source_gives_its_bytes_one_at_a_time(rt: HostRuntime) -> Result<(), Fail> {
    let bytes = Vec::from_slice(rt.alloc(), b"ab")?;
    let mut source = MemorySource::new(bytes, 1, vec![in rt.alloc(); 2]?);
    let mut buf = [0u8; 4];
    assert_eq!(rt; source.read(&mut buf), Ok(1));
    assert!(rt; source.read(&mut buf).is_err());
    assert_eq!(rt; source.rest(), b"b".as_slice());
    assert_eq!(rt; source.read(&mut buf), Ok(1));
    assert_eq!(rt; source.read(&mut buf), Ok(0));
    assert_eq!(rt; buf[0], b'b');
    assert_eq!(rt; source.reads(), 4);
    Ok(())
}

#[test]
fn a_sink_ends_at_a_put_that_fails(rt: HostRuntime) -> Result<(), Fail> {
    for (room, failing, want) in [(4, 9, "ab"), (5, 9, "abcde"), (5, 2, "ab")] {
        let mut sink = MemorySink::new(rt.alloc(), room, vec![in rt.alloc(); failing]?)?;
        if let Ok(()) = sink.put(b"ab") {
            let is_put = sink.put(b"cde").is_ok();
            assert_eq!(rt; is_put, want.len() == 5, "at {room}, {failing}");
        }
        assert_eq!(rt; sink.bytes(), want.as_bytes(), "at {room}, {failing}");
    }
    Ok(())
}

/// Interrupts each read once, and fails once it has given its two bytes.
#[derive(Drop)]
struct Interrupted {
    reads: u8,
}

impl Read for Interrupted {
    fn read(&mut self, buf: &mut [u8]) -> io::Result<usize> {
        self.reads = self.reads.saturating_add(1);
        match self.reads {
            2 | 4 if !buf.is_empty() => {
                buf[0] = self.reads;
                Ok(1)
            }
            6.. => Err(io::Error::from(ErrorKind::ConnectionReset)),
            _ => Err(io::Error::from(ErrorKind::Interrupted)),
        }
    }
}

/// Holds bytes until it is flushed: how many wait, and how many were passed on.
#[derive(Drop)]
struct Held {
    waiting: usize,
    passed: usize,
}

impl Write for Held {
    fn write(&mut self, buf: &[u8]) -> io::Result<usize> {
        self.waiting = self.waiting.saturating_add(buf.len());
        Ok(buf.len())
    }

    fn flush(&mut self) -> io::Result<()> {
        self.passed = self.passed.saturating_add(self.waiting);
        self.waiting = 0;
        Ok(())
    }
}

#[test]
fn a_stream_is_read_and_written(rt: HostRuntime) -> Result<(), Fail> {
    let mut buf = [0u8; 4];
    let mut source = ReadSource::new(b"abcdef".as_slice());
    assert_eq!(rt; source.read(&mut buf), Ok(4));
    assert_eq!(rt; source.read(&mut buf), Ok(2));
    assert_eq!(rt; source.read(&mut buf), Ok(0));
    assert_eq!(rt; buf, *b"efcd");
    let mut interrupted = ReadSource::new(Interrupted { reads: 0 });
    assert_eq!(rt; interrupted.read(&mut buf), Ok(1));
    assert_eq!(rt; interrupted.read(&mut buf), Ok(1));
    assert_eq!(rt; buf[0], 4);
    assert!(rt; interrupted.read(&mut buf).is_err());
    let mut written = Vec::new(rt.alloc());
    let mut sink = WriteSink::new(&mut written);
    if let Ok(()) = sink.put(b"ab") {
        assert!(rt; sink.put(b"cd").is_ok());
    }
    drop(sink);
    assert_eq!(rt; written.as_slice(), b"abcd".as_slice());
    let mut held = Held {
        waiting: 0,
        passed: 0,
    };
    let mut sink = WriteSink::new(&mut held);
    assert!(rt; sink.put(b"abc").is_ok());
    drop(sink);
    assert_eq!(rt; (held.waiting, held.passed), (0, 3));
    Ok(())
}

#[test]
fn a_file_is_a_drive(rt: HostRuntime) -> Result<(), Fail> {
    let path = String::from_str(rt.alloc(), "file.dat")?;
    let mut drive = FileDrive::at(rt.clone()?, path)?;
    assert!(rt; File::open(&rt, "file.dat").is_err());
    assert!(rt; drive.write_at(Part::Bytes, 3, b"xyz").is_ok());
    assert!(rt; drive.sync(Part::Bytes).is_ok());
    let mut buf = [9u8; 8];
    assert_eq!(rt; drive.read(Part::Bytes, 2, &mut buf), Ok(4));
    assert_eq!(rt; buf, *b"\0xyz\x09\x09\x09\x09");
    let mut twin = drive.twin(rt.alloc())?;
    assert_eq!(rt; twin.len(Part::Bytes), Ok(6));
    assert!(rt; drive.cut(Part::Bytes, 9).is_ok());
    assert_eq!(rt; drive.len(Part::Bytes), Ok(6));
    assert!(rt; drive.cut(Part::Bytes, 4).is_ok());
    assert_eq!(rt; drive.len(Part::Bytes), Ok(4));
    fs::remove_file(&rt, "file.dat")?;
    let absent = String::from_str(rt.alloc(), "absent/file.dat")?;
    assert!(rt;
        FileDrive::at(rt.clone()?, absent)?
            .len(Part::Bytes)
            .is_err()
    );
    // A folder that can't be synced: the file opens, and each call fails, not the first alone.
    let unsynced = "/proc/self/comm";
    let opened = File::options().read(true).write(true).open(&rt, unsynced);
    assert!(rt; opened.is_ok());
    let path = String::from_str(rt.alloc(), unsynced)?;
    let mut drive = FileDrive::at(rt.clone()?, path)?;
    for _ in 0..2 {
        assert!(rt; drive.len(Part::Bytes).is_err());
    }
    Ok(())
}

#[test]
fn the_second_file_is_made_whole(rt: HostRuntime) -> Result<(), Fail> {
    let path = String::from_str(rt.alloc(), "two.dat")?;
    let mut drive = FileDrive::at(rt.clone()?, path)?;
    assert!(rt; File::open(&rt, "two.dat.gfr").is_err());
    assert_eq!(rt; drive.len(Part::Ranges), Ok(RANGES_LEN));
    assert!(rt; File::open(&rt, ".two.dat.new.gfr").is_err());
    assert!(rt; drive.write_at(Part::Ranges, 64, b"\x01").is_ok());
    let mut buf = [9u8; 4];
    assert_eq!(rt; drive.read(Part::Ranges, 63, &mut buf), Ok(4));
    assert_eq!(rt; buf, *b"\0\x01\0\0");
    fs::remove_file(&rt, "two.dat.gfr")?;
    Ok(())
}
