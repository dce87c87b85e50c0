//! The folder and the sink of the system. Over the files and the standard output of `std::rt`.

ghost use Rattle.std.specs.Prelude.{◌≡◌, ◌≢◌, ◌≤◌, Option, None, IfOk, IsErr, vec_len};
ghost use Rattle.amber_io.specs.Counts.{HasCause};
ghost use Rattle.amber_io.specs.Folder.{Named, Lacks, Gives, Creates, Extends, IsThere};
ghost use Rattle.amber_io.specs.Sink.{LeavesPiece};
ghost use Rattle.amber_io.specs.Real.{failed_loads, failed_writes, failed_puts, IsCounted};

use crate::error::IoErr;
use crate::folder::Folder;
use crate::sink::Sink;
use std::alloc::Global;
use std::fs::{Metadata, OpenFile, OpenOptions};
use std::io::{ErrorKind, Read, Write};
use std::os::unix::fs::MetadataExt;
use std::rt::Files;
use std::{fs, io};

/// Which file it is, by whatever path it was reached.
#[derive(Clone, Copy, PartialEq, Eq)]
struct FileId {
    device: u64,
    number: u64,
}

impl FileId {
    fn new(metadata: &Metadata) -> FileId {
        FileId {
            device: metadata.dev(),
            number: metadata.ino(),
        }
    }
}

/// The files of the system, by their paths. What they hold is not known. A file that it has loaded it
/// never makes empty, also where another path or a link leads to it.
#[derive(Drop)]
pub struct RealFolder<'r, R> {
    rt: &'r R,
    loaded: Vec<FileId>,
    load_faults: u64,
    write_faults: u64,
}

impl<'r, R: Files> RealFolder<'r, R> {
    /// The files that `rt` reaches, with no fault counted yet. It notes on `alloc` which files it has loaded.
    pub fn new(alloc: Global, rt: &'r R) -> RealFolder<'r, R>
        ensures load_faults { failed_loads result ≡ 0 }
        ensures write_faults { failed_writes result ≡ 0 }
    {
        RealFolder {
            rt,
            loaded: Vec::new(alloc),
            load_faults: 0,
            write_faults: 0,
        }
    }
}

// Reads a file, and notes which one it is before it does.
fn read_file<R: Files>(
    rt: &R,
    alloc: Global,
    name: &str,
    most: u64,
    loaded: &mut Vec<FileId>,
) -> io::Result<Vec<u8>>
    ensures { IfOk result (λ bytes. vec_len bytes ≤ most) }
{
    let file = fs::open(rt, name)?;
    loaded.push(FileId::new(&file.metadata()?))?;
    let mut bytes = Vec::new(alloc);
    file.take(most).read_to_end(&mut bytes)?;
    // It reads no more than that, but no clause of `take` says so.
    bytes.truncate(most as usize);
    Ok(bytes)
}

// Makes a file or empties one, unless it is one of those that were loaded. What the path leads to is asked of
// the opened file, before anything is cut off.
fn create_file<R: Files>(rt: &R, name: &str, loaded: &[FileId]) -> io::Result<()> {
    let mut options = OpenOptions::new();
    options.write(true);
    options.create(true);
    let file = options.open(rt, name)?;
    let metadata = file.metadata()?;
    if loaded.contains(&FileId::new(&metadata)) {
        return Err(io::Error::from(ErrorKind::AlreadyExists));
    }
    // A device has no length, and none can be set.
    if metadata.len() > 0 {
        file.set_len(0)?;
    }
    Ok(())
}

fn append_to_file<R: Files>(rt: &R, name: &str, bytes: &[u8]) -> io::Result<()> {
    let mut options = OpenOptions::new();
    options.append(true);
    options.open(rt, name)?.write_all(bytes)
}

impl<R: Files> Folder for RealFolder<'_, R> {
    ghost files = { λ _. None };

    ghost load_faults = { failed_loads };

    ghost write_faults = { failed_writes };

    /// As the trait says; each failure is counted.
    fn load(&mut self, alloc: Global, name: &str, most: u64) -> Result<Vec<u8>, IoErr>
        ensures same { ◌≡◌ {A = Option Named} None None }
        ensures gives { IfOk result (λ bytes. Gives None name.now most bytes.items) }
        ensures short { IfOk result (λ bytes. vec_len bytes ≤ most) }
        ensures cause { HasCause result (Lacks None name.now) (failed_loads self.old)
            (failed_loads self.new) }
        ensures absent { Lacks None name.now
            → IsErr result × (failed_loads self.new ≡ failed_loads self.old) }
        ensures writes { failed_writes self.new ≡ failed_writes self.old }
        ensures counted { IsCounted result (failed_loads self.old) (failed_loads self.new) }
    {
        match read_file(self.rt, alloc, name, most, &mut self.loaded) {
            Ok(bytes) => Ok(bytes),
            Err(error) if error.kind() == ErrorKind::OutOfMemory => Err(IoErr::NoMemory),
            Err(_) => {
                self.load_faults = self.load_faults.saturating_add(1);
                Err(IoErr::Failed)
            }
        }
    }

    /// As the trait says; each failure is counted. A file that was loaded stays as it is, and the create
    /// fails. The file may have been emptied when memory runs out, so that is a failure too.
    #[tactic(auto, unfolding(crate::specs::Folder::with_file))]
    fn create(&mut self, name: &str) -> Result<(), IoErr>
        ensures creates { Creates result None None name.now }
        ensures cause { HasCause result ⊥ (failed_writes self.old) (failed_writes self.new) }
        ensures loads { failed_loads self.new ≡ failed_loads self.old }
        ensures memory { result ≢ Err IoErr.NoMemory }
        ensures counted { IsCounted result (failed_writes self.old) (failed_writes self.new) }
    {
        match create_file(self.rt, name, self.loaded.as_slice()) {
            Ok(()) => Ok(()),
            Err(_) => {
                self.write_faults = self.write_faults.saturating_add(1);
                Err(IoErr::Failed)
            }
        }
    }

    /// As the trait says; each failure is counted. A part of the piece may have been written when memory
    /// runs out, so that is a failure too.
    #[tactic(auto, unfolding(crate::specs::Folder::with_more))]
    fn append(&mut self, name: &str, bytes: &[u8]) -> Result<(), IoErr>
        requires { IsThere None name.now }
        ensures extends { Extends result None None (record { name = name.now; bytes = bytes.now }) }
        ensures cause { HasCause result ⊥ (failed_writes self.old) (failed_writes self.new) }
        ensures loads { failed_loads self.new ≡ failed_loads self.old }
        ensures memory { result ≢ Err IoErr.NoMemory }
        ensures counted { IsCounted result (failed_writes self.old) (failed_writes self.new) }
    {
        // A write that takes nothing of a piece that is not empty is an error of `write_all`.
        match append_to_file(self.rt, name, bytes) {
            Ok(()) => Ok(()),
            Err(_) => {
                self.write_faults = self.write_faults.saturating_add(1);
                Err(IoErr::Failed)
            }
        }
    }
}

/// The standard output. What was written is not known.
#[derive(Drop)]
pub struct RealSink<'r, R> {
    rt: &'r R,
    faults: u64,
}

impl<'r, R: Print> RealSink<'r, R> {
    /// The standard output of `rt`, with no fault counted yet.
    pub fn new(rt: &'r R) -> RealSink<'r, R>
        ensures { failed_puts result ≡ 0 }
    {
        RealSink { rt, faults: 0 }
    }
}

impl<R: Print> Sink for RealSink<'_, R> {
    ghost written = { λ _. None };

    ghost faults = { failed_puts };

    /// As the trait says; each failure is counted. A part of the piece may have been written when memory
    /// runs out, so that is a failure too.
    fn put(&mut self, bytes: &[u8]) -> Result<(), IoErr>
        ensures leaves { LeavesPiece result None None bytes.now }
        ensures cause { HasCause result ⊥ (failed_puts self.old) (failed_puts self.new) }
        ensures memory { result ≢ Err IoErr.NoMemory }
        ensures counted { IsCounted result (failed_puts self.old) (failed_puts self.new) }
    {
        // A write that takes nothing of a piece that is not empty is an error of `write_all`.
        match io::writer(self.rt).write_all(bytes) {
            Ok(()) => Ok(()),
            Err(_) => {
                self.faults = self.faults.saturating_add(1);
                Err(IoErr::Failed)
            }
        }
    }
}
