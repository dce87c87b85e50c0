//! The trait of a sink of bytes. Its errors are `IoErr`.

ghost use Rattle.std.specs.Prelude.{ℕ, List, Option};
ghost use Rattle.amber_io.specs.Counts.{HasCause};
ghost use Rattle.amber_io.specs.Sink.{LeavesPiece};

use crate::error::IoErr;

/// Where output goes, piece after piece.
pub trait Sink {
    // All that was written so far, where that is known.
    ghost written: { Self → Option (List ℕ) };

    // How many puts failed. It never falls, and stands still at `u64::MAX`.
    ghost faults: { Self → ℕ };

    /// Writes a piece after all earlier ones.
    ///
    /// # Errors
    ///
    /// After `NoMemory` nothing was written. `Failed` comes only where `faults` rose in this call, and then
    /// a front part of the piece was written, perhaps all of it.
    fn put(&mut self, bytes: &[u8]) -> Result<(), IoErr>
        ensures leaves { LeavesPiece result (written self.old) (written self.new) bytes.now }
        ensures cause { HasCause result ⊥ (faults self.old) (faults self.new) };
}
