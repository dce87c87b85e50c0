//! A folder and a sink, worked with as one: the trait `Outside`, and `FolderAndSink` over any two.

ghost use Rattle.std.specs.Prelude.{◌≡◌, ◌≤◌, IsErr, IfOk, vec_len};
ghost use Rattle.amber_io.specs.Counts.{HasCause};
ghost use Rattle.amber_io.specs.Folder.{Lacks, Gives, Creates, Extends, IsThere};
ghost use Rattle.amber_io.specs.Sink.{LeavesPiece};
ghost use Rattle.amber_io.specs.World.{Held, LoadsOnly, PutsOnly, World, WritesOnly};

use crate::error::IoErr;
use crate::folder::Folder;
use crate::sink::Sink;
use std::alloc::Global;

/// All that a call works with outside itself: a folder of files, and a sink for its output.
pub trait Outside {
    // The files, what the sink has got, and the counts of what failed.
    ghost world: { Self → World };

    // Which folder and which sink these are.
    ghost held: { Self → Held };

    /// Reads the first `most` bytes of a file, as `Folder::load` does.
    ///
    /// # Errors
    ///
    /// As `Folder::load`.
    fn load(&mut self, alloc: Global, name: &str, most: u64) -> Result<Vec<u8>, IoErr>
        ensures only { LoadsOnly (world self.old) (world self.new) }
        ensures gives { IfOk result
            (λ bytes. Gives (world self.old).files name.now most bytes.items) }
        ensures short { IfOk result (λ bytes. vec_len bytes ≤ most) }
        ensures cause { HasCause result (Lacks (world self.old).files name.now)
            (world self.old).loads (world self.new).loads }
        ensures absent { Lacks (world self.old).files name.now
            → IsErr result × ((world self.new).loads ≡ (world self.old).loads) }
        ensures held { held self.new ≡ held self.old };

    /// Makes the file of this name empty, or makes an empty one, as `Folder::create` does.
    ///
    /// # Errors
    ///
    /// As `Folder::create`.
    fn create(&mut self, name: &str) -> Result<(), IoErr>
        ensures only { WritesOnly (world self.old) (world self.new) }
        ensures creates { Creates result (world self.old).files (world self.new).files name.now }
        ensures cause { HasCause result ⊥ (world self.old).writes (world self.new).writes }
        ensures held { held self.new ≡ held self.old };

    /// Appends a piece to a file, which has to be there, as `Folder::append` does.
    ///
    /// # Errors
    ///
    /// As `Folder::append`.
    fn append(&mut self, name: &str, bytes: &[u8]) -> Result<(), IoErr>
        requires { IsThere (world self.old).files name.now }
        ensures only { WritesOnly (world self.old) (world self.new) }
        ensures extends { Extends result (world self.old).files (world self.new).files
            (record { name = name.now; bytes = bytes.now }) }
        ensures cause { HasCause result ⊥ (world self.old).writes (world self.new).writes }
        ensures held { held self.new ≡ held self.old };

    /// Writes a piece after all earlier ones, as `Sink::put` does.
    ///
    /// # Errors
    ///
    /// As `Sink::put`.
    fn put(&mut self, bytes: &[u8]) -> Result<(), IoErr>
        ensures only { PutsOnly (world self.old) (world self.new) }
        ensures leaves { LeavesPiece result (world self.old).got (world self.new).got bytes.now }
        ensures cause { HasCause result ⊥ (world self.old).puts (world self.new).puts }
        ensures held { held self.new ≡ held self.old };
}

/// A folder and a sink, worked with as one.
pub struct FolderAndSink<'a, F: Folder, O: Sink> {
    pub folder: &'a mut F,
    pub out: &'a mut O,
}

impl<'a, F: Folder, O: Sink> FolderAndSink<'a, F, O> {
    /// This folder and this sink.
    pub fn new(folder: &'a mut F, out: &'a mut O) -> FolderAndSink<'a, F, O>
        ensures same_folder { result.folder.ghost_name ≡ folder.entry.ghost_name }
        ensures same_out { result.out.ghost_name ≡ out.entry.ghost_name }
        ensures folder { result.folder.now ≡ folder.old }
        ensures out { result.out.now ≡ out.old }
    {
        FolderAndSink { folder, out }
    }
}

impl<'a, F: Folder, O: Sink> Drop for FolderAndSink<'a, F, O> {
    fn drop(self)
        ensures folder { self.exit.0.now ≡ self.entry.folder.now }
        ensures out { self.exit.1.0.now ≡ self.entry.out.now }
    {
        let FolderAndSink { folder: _, out: _ } = self;
    }
}

impl<'a, F: Folder, O: Sink> Outside for FolderAndSink<'a, F, O> {
    ghost world = { λ both. record {
      files = F.files both.folder.now;
      got = O.written both.out.now;
      loads = F.load_faults both.folder.now;
      writes = F.write_faults both.folder.now;
      puts = O.faults both.out.now;
    } };

    ghost held = { λ both. record {
      folder = both.folder.ghost_name;
      out = both.out.ghost_name;
    } };

    fn load(&mut self, alloc: Global, name: &str, most: u64) -> Result<Vec<u8>, IoErr> {
        self.folder.load(alloc, name, most)
    }

    fn create(&mut self, name: &str) -> Result<(), IoErr> {
        self.folder.create(name)
    }

    fn append(&mut self, name: &str, bytes: &[u8]) -> Result<(), IoErr> {
        self.folder.append(name, bytes)
    }

    fn put(&mut self, bytes: &[u8]) -> Result<(), IoErr> {
        self.out.put(bytes)
    }
}
