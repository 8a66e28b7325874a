ghost use Rattle.std.specs.Prelude.{◌≡◌, ◌≤◌, length, string_bytes, IfOk, IsOk};
ghost use Rattle.gft_base.specs.Words.{HasCause};

use crate::RANGES_LEN;
use crate::drive::{Drive, Part};
use crate::error::TwinError;
use gft_base::{Failed, Faults, OutOfMemory};
use std::alloc::{AllocError, Global};
use std::fs::{File, Files};
use std::io::ErrorKind;
use std::marker::Model;
use std::os::unix::fs::FileExt;
use std::path::Path;
use std::{fs, io};

/// The drive over the files `path` and `path.gfr`: the trusted edge, which tells no contents. Its
/// label is its path's bytes.
///
/// It touches no file before its first call, opens a part's file at each call, and makes it if it
/// is absent: the second file whole, under a name that no client can give, which is then changed.
#[derive(Drop)]
pub struct FileDrive<R: Files<File = File> + Alloc<A = Global> + Clone + Drop> {
    rt: R,
    path: String,
    ranges_path: String,
    // where the second file is made
    making_path: String,
    // the folder was synced since the files in use are known to be there
    is_folder_synced: bool,
    faults: Faults,
}

impl<R: Files<File = File> + Alloc<A = Global> + Clone + Drop> Model for FileDrive<R> {
    ghost use Rattle.std.specs.Prelude.{string_bytes};
    ghost use Rattle.gft_drive.specs.File.{OnFile};

    ghost Value = { OnFile };

    ghost view = { λ d. record { label = string_bytes d.path; faults = d.faults } };
}

impl<R: Files<File = File> + Alloc<A = Global> + Clone + Drop> FileDrive<R> {
    /// A drive over the file at this path, and over the one beside it, whose name ends in `.gfr`.
    pub fn at(rt: R, path: String) -> Result<FileDrive<R>, OutOfMemory>
        ensures { IfOk result (λ drive. drive ≡ record { label = string_bytes path; faults = 0 }) }
    {
        let alloc = rt.alloc();
        let ranges_path = format!(in alloc; "{path}.gfr")?;
        let making_path = making_path(alloc, path.as_str())?;
        Ok(FileDrive {
            rt,
            path,
            ranges_path,
            making_path,
            is_folder_synced: false,
            faults: Faults::new(),
        })
    }

    // Opens a part's file, and makes it if it is absent. A name that was made stays after a
    // crash only once its folder is synced: so that is done before the first use.
    fn open(&mut self, part: Part) -> io::Result<File>
        ensures { self.new ≡ self.old }
    {
        let path = path_of(self.path.as_str(), self.ranges_path.as_str(), part);
        let file = match open_both_ways(&self.rt, path) {
            Err(e) if e.kind() == ErrorKind::NotFound => {
                self.is_folder_synced = false;
                match part {
                    Part::Bytes => open_or_make(&self.rt, path)?,
                    Part::Ranges => make_ranges(&self.rt, self.making_path.as_str(), path)?,
                }
            }
            other => other?,
        };
        if !self.is_folder_synced {
            sync_folder(&self.rt, path)?;
            self.is_folder_synced = true;
        }
        Ok(file)
    }

    // What the caller is told.
    fn told<T>(&mut self, done: io::Result<T>) -> Result<T, Failed>
        ensures label { self.new.label ≡ self.old.label }
        ensures value { IfOk result (λ value. done ≡ Ok value) }
        ensures variant { IsOk done → IsOk result }
        ensures cause { HasCause self.old.faults self.new.faults result }
    {
        match done {
            Ok(value) => Ok(value),
            Err(_) => Err(self.faults.rise()),
        }
    }
}

impl<R: Files<File = File> + Alloc<A = Global> + Clone + Drop + Send> Drive for FileDrive<R> {
    ghost use Rattle.std.specs.Prelude.{None};
    ghost use Rattle.gft_drive.specs.File.{file_state, file_lawful};

    ghost state = { λ drive. file_state drive };

    ghost lawful = { λ drive. file_lawful drive };

    fn len(&mut self, part: Part) -> Result<u64, Failed> {
        let done = self.open(part).and_then(|file| Ok(file.metadata()?.len()));
        self.told(done)
    }

    fn read(&mut self, part: Part, at: u64, buf: &mut [u8]) -> Result<usize, Failed> {
        let Ok(file) = self.open(part) else {
            return Err(self.faults.rise());
        };
        let Ok(count) = read_whole(&file, at, buf) else {
            return Err(self.faults.rise());
        };
        Ok(count)
    }

    fn write_at(&mut self, part: Part, at: u64, bytes: &[u8]) -> Result<(), Failed> {
        let done = self
            .open(part)
            .and_then(|file| file.write_all_at(bytes, at));
        self.told(done)
    }

    fn cut(&mut self, part: Part, len: u64) -> Result<(), Failed> {
        let done = self.open(part).and_then(|file| shorten(&file, len));
        self.told(done)
    }

    fn sync(&mut self, part: Part) -> Result<(), Failed> {
        let done = self.open(part).and_then(|file| file.sync_data());
        self.told(done)
    }

    /// A drive over the same files, which nobody may write meanwhile. It touches none.
    fn twin(&mut self, _alloc: Global) -> Result<FileDrive<R>, TwinError> {
        let rt = self.rt.clone()?;
        let path = self.path.clone()?;
        Ok(FileDrive::at(rt, path)?)
    }
}

fn path_of<'x>(bytes: &'x str, ranges: &'x str, part: Part) -> &'x str {
    match part {
        Part::Bytes => bytes,
        Part::Ranges => ranges,
    }
}

fn open_both_ways<R: Files>(rt: &R, path: &str) -> io::Result<R::File> {
    File::options().read(true).write(true).open(rt, path)
}

fn open_or_make<R: Files>(rt: &R, path: &str) -> io::Result<R::File> {
    File::options()
        .read(true)
        .write(true)
        .create(true)
        .open(rt, path)
}

// The name under which the second file of `path` is made: no client can give one that begins so.
fn making_path(alloc: Global, path: &str) -> Result<String, AllocError> {
    let name = Path::new(path).file_name().unwrap_or("");
    match Path::new(path).parent() {
        Some(folder) if !folder.as_str().is_empty() => {
            format!(in alloc; "{}/.{name}.new.gfr", folder.as_str())
        }
        _ => format!(in alloc; ".{name}.new.gfr"),
    }
}

// Makes the second file whole: under another name, and once it is on the disk under its own.
fn make_ranges<R: Files<File = File>>(rt: &R, making: &str, path: &str) -> io::Result<File> {
    let file = File::options()
        .write(true)
        .create(true)
        .truncate(true)
        .open(rt, making)?;
    file.set_len(RANGES_LEN)?;
    file.sync_all()?;
    fs::rename(rt, making, path)?;
    open_both_ways(rt, path)
}

// What was made beside `path` stays after a crash.
fn sync_folder<R: Files<File = File>>(rt: &R, path: &str) -> io::Result<()> {
    let folder = match Path::new(path).parent() {
        Some(parent) if !parent.as_str().is_empty() => parent.as_str(),
        _ => ".",
    };
    File::open(rt, folder)?.sync_all()
}

fn shorten(file: &File, len: u64) -> io::Result<()> {
    if file.metadata()?.len() > len {
        file.set_len(len)?;
    }
    Ok(())
}

// Reads until the buffer is full or the file ends.
fn read_whole(file: &File, at: u64, buf: &mut [u8]) -> io::Result<usize>
    ensures { IfOk result (λ count. count ≤ length buf.new) }
{
    let mut count = 0;
    for _ in 0..u64::MAX {
        let Some(place) = at.checked_add(count as u64) else {
            break;
        };
        if count >= buf.len() {
            break;
        }
        match file.read_at(&mut buf[count..], place) {
            Ok(0) => break,
            Ok(more) => count += more,
            Err(e) if e.kind() == ErrorKind::Interrupted => {}
            Err(e) => return Err(e),
        }
    }
    Ok(count.min(buf.len()))
}
