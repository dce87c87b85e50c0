//! The trait of a source of bytes. Its errors are `IoErr`.

ghost use Rattle.std.specs.Prelude.{ℕ, ◌<◌, ◌≤◌, List, Option, IfErr, IfOk, vec_len};
ghost use Rattle.std.specs.Io.KnownBytes.{Keeps};
ghost use Rattle.amber_io.specs.Counts.{HasCause};
ghost use Rattle.amber_io.specs.Source.{TakesNext};

use crate::error::IoErr;
use std::alloc::Global;

/// Where input comes from, piece after piece.
pub trait Source {
    // The bytes that were not read yet, where they are known.
    ghost left: { Self → Option (List ℕ) };

    // How many reads failed. It never falls, and stands still at `u64::MAX`.
    ghost faults: { Self → ℕ };

    /// Reads the next bytes, at least one and at most `most`; none exactly at the end.
    ///
    /// # Errors
    ///
    /// After `NoMemory` nothing was read. `Failed` comes only where `faults` rose in this call, and nothing
    /// was read then either.
    fn read(&mut self, alloc: Global, most: u32) -> Result<Vec<u8>, IoErr>
        requires { 0 < most }
        ensures takes { IfOk result
            (λ bytes. TakesNext (left self.old) (left self.new) bytes.items) }
        ensures few { IfOk result (λ bytes. vec_len bytes ≤ most) }
        ensures keeps { IfErr result (λ _. Keeps (left self.old) (left self.new)) }
        ensures cause { HasCause result ⊥ (faults self.old) (faults self.new) };
}
