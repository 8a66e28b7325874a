ghost use Rattle.std.specs.Prelude.{◌≡◌, true, MatchResult};
ghost use Rattle.std.specs.Io.{ReadsAtMost};
ghost use Rattle.std.specs.Io.KnownBytes.{Appends, ReadConsumes};
ghost use Rattle.gft_drive.specs.Sink.{AppendsPart};

use crate::sink::Sink;
use crate::source::Source;
use gft_base::{Failed, Faults};
use std::io;
use std::io::{ErrorKind, Read, Write};
use std::marker::Model;

/// A source over a reader, which tells what the reader tells. A read that was interrupted is tried
/// again; another error is a fault.
#[derive(Drop)]
pub struct ReadSource<R: Read + Drop> {
    reader: R,
    faults: Faults,
}

impl<R: Read + Drop> Model for ReadSource<R> {
    ghost use Rattle.gft_drive.specs.Streams.{OnReader};

    ghost Value = { OnReader };

    ghost view = { λ s. record { left = R.remaining s.reader; faults = s.faults } };
}

impl<R: Read + Drop> ReadSource<R> {
    /// A source of what this reader gives from now on.
    pub fn new(reader: R) -> Self
        ensures { result ≡ record { left = R.remaining reader; faults = 0 } }
    {
        ReadSource {
            reader,
            faults: Faults::new(),
        }
    }
}

impl<R: Read + Drop> Source for ReadSource<R> {
    ghost left = { λ source. source.left };

    ghost faults = { λ source. source.faults };

    fn read(&mut self, buf: &mut [u8]) -> Result<usize, Failed> {
        match read_once(&mut self.reader, buf) {
            Ok(count) => Ok(count),
            Err(_) => Err(self.faults.rise()),
        }
    }
}

/// A sink over a writer, which tells what the writer tells. Each put is flushed. A write that was
/// interrupted is tried again; another error, or a write that takes nothing, is a fault.
#[derive(Drop)]
pub struct WriteSink<W: Write + Drop> {
    writer: W,
    is_open: bool,
    faults: Faults,
}

impl<W: Write + Drop> Model for WriteSink<W> {
    ghost use Rattle.gft_drive.specs.Streams.{OnWriter};

    ghost Value = { OnWriter };

    ghost view = { λ s. record { written = W.contents s.writer; is_open = s.is_open; faults = s.faults } };
}

impl<W: Write + Drop> WriteSink<W> {
    /// A sink that writes behind what the writer holds.
    pub fn new(writer: W) -> Self
        ensures { result ≡ record { written = W.contents writer; is_open = true; faults = 0 } }
    {
        WriteSink {
            writer,
            is_open: true,
            faults: Faults::new(),
        }
    }
}

impl<W: Write + Drop> Sink for WriteSink<W> {
    ghost use Rattle.std.specs.Prelude.{true};

    ghost written = { λ sink. sink.written };

    ghost is_open = { λ sink. sink.is_open ≡ true };

    ghost faults = { λ sink. sink.faults };

    fn put(&mut self, bytes: &[u8]) -> Result<(), Failed> {
        match write_whole(&mut self.writer, bytes) {
            Ok(()) => Ok(()),
            Err(_) => {
                self.is_open = false;
                Err(self.faults.rise())
            }
        }
    }
}

// Reads, and tries again if it was interrupted.
fn read_once<R: Read>(reader: &mut R, buf: &mut [u8]) -> io::Result<usize>
    ensures bound { ReadsAtMost result buf.new }
    ensures bytes { ReadConsumes (R.remaining reader.old) (R.remaining reader.new) result buf.new }
{
    for _ in 0..u64::MAX {
        match reader.read(buf) {
            Err(e) if e.kind() == ErrorKind::Interrupted => {}
            done => return done,
        }
    }
    Err(io::Error::from(ErrorKind::Interrupted))
}

// Writes all bytes and flushes; if it fails, a part of them is written from the front.
fn write_whole<W: Write>(writer: &mut W, bytes: &[u8]) -> io::Result<()>
    ensures { MatchResult result
        (λ _. Appends (W.contents writer.old) (W.contents writer.new) bytes.now)
        (λ _. AppendsPart (W.contents writer.old) (W.contents writer.new) bytes.now) }
{
    let mut done = 0;
    for _ in 0..u64::MAX {
        if done >= bytes.len() {
            return writer.flush();
        }
        match writer.write(&bytes[done..]) {
            Ok(0) => return Err(io::Error::from(ErrorKind::WriteZero)),
            Ok(count) => done += count,
            Err(e) if e.kind() == ErrorKind::Interrupted => {}
            Err(e) => return Err(e),
        }
    }
    Err(io::Error::from(ErrorKind::Interrupted))
}
