//! The trait of a folder of named files. Its errors are `IoErr`.

ghost use Rattle.std.specs.Prelude.{◌≡◌, ℕ, ◌≤◌, Option, Some, IsErr, IfOk, vec_len};
ghost use Rattle.amber_io.specs.Counts.{HasCause};
ghost use Rattle.amber_io.specs.Folder.{Named, Lacks, Gives, Creates, Extends, IsThere};

use crate::error::IoErr;
use std::alloc::Global;

/// A folder of files, each under a name. Two different names mean two different files.
pub trait Folder {
    // What each file holds, where that is known.
    ghost files: { Self → Option Named };

    // How many loads failed, and how many writes. Neither falls, and each stands still at `u64::MAX`.
    ghost load_faults: { Self → ℕ };

    ghost write_faults: { Self → ℕ };

    /// Reads the first `most` bytes of a file, or all of them where it has fewer. It changes no file.
    ///
    /// # Errors
    ///
    /// `NoMemory` may come at any load. `Failed` comes only where `load_faults` rose in this call, or the
    /// folder's files are known and none has this name; that absence leaves the count as it was.
    fn load(&mut self, alloc: Global, name: &str, most: u64) -> Result<Vec<u8>, IoErr>
        ensures same { files self.new ≡ files self.old }
        ensures gives { IfOk result (λ bytes. Gives (files self.old) name.now most bytes.items) }
        ensures short { IfOk result (λ bytes. vec_len bytes ≤ most) }
        ensures cause { HasCause result (Lacks (files self.old) name.now) (load_faults self.old)
            (load_faults self.new) }
        ensures absent { Lacks (files self.old) name.now
            → IsErr result × (load_faults self.new ≡ load_faults self.old) }
        ensures writes { write_faults self.new ≡ write_faults self.old };

    /// Makes the file of this name empty, or makes an empty one. All other files stay.
    ///
    /// # Errors
    ///
    /// After `NoMemory` the file is as before. `Failed` comes only where `write_faults` rose in this call;
    /// then the file is as before, absent or empty.
    fn create(&mut self, name: &str) -> Result<(), IoErr>
        ensures creates { Creates result (files self.old) (files self.new) name.now }
        ensures cause { HasCause result ⊥ (write_faults self.old) (write_faults self.new) }
        ensures loads { load_faults self.new ≡ load_faults self.old };

    /// Appends a piece to a file, which has to be there. All other files stay.
    ///
    /// # Errors
    ///
    /// After `NoMemory` the file is as before. `Failed` comes only where `write_faults` rose in this call;
    /// then a front part of the piece follows the old end, perhaps nothing or all of it.
    fn append(&mut self, name: &str, bytes: &[u8]) -> Result<(), IoErr>
        requires { IsThere (files self.old) name.now }
        ensures extends { Extends result (files self.old) (files self.new)
            (record { name = name.now; bytes = bytes.now }) }
        ensures cause { HasCause result ⊥ (write_faults self.old) (write_faults self.new) }
        ensures loads { load_faults self.new ≡ load_faults self.old };
}
