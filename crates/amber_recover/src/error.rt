//! Why a run cannot be rebuilt. Over `AllocError` alone.

ghost use Rattle.std.specs.Prelude.{◌≡◌};
ghost use Rattle.amber_recover.specs.declared.error.RebuildErr.TheVariants as rebuild_err;

use std::alloc::AllocError;

/// Why a run cannot be rebuilt from its log.
#[derive(Clone, Copy, Debug)]
pub enum RebuildErr {
    /// The file of the scan with this number does not begin with the names of its columns; it is the first
    /// such scan.
    Header(u32),
    /// The run cannot have written the line with this number, counted from 1 with the head; it is the first such line.
    Illegal { line: u64 },
    /// Memory ran out.
    NoMemory,
}

impl From<AllocError> for RebuildErr {
    ghost from_gives = { λ _ e. e ≡ rebuild_err.NoMemory };

    fn from(_error: AllocError) -> RebuildErr {
        RebuildErr::NoMemory
    }
}
