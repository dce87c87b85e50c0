//! What comes of a command, and why one was not done. Over `Bytes` and `Rows` of `amber_rows`.

ghost use Rattle.std.specs.Prelude.{◌≡◌};
ghost use Rattle.amber_debug.specs.declared.done.DebugErr.TheVariants as debug_err;
ghost use Rattle.amber_debug.specs.declared.done.EndErr.TheVariants as end_err;

use amber_rows::{Bytes, Rows};
use std::alloc::AllocError;

/// What came of a command.
#[derive(Drop)]
pub struct Done {
    /// The text of the item by which the log grew.
    pub item: Bytes,
    /// The text that is printed.
    pub reply: Bytes,
    /// The rows of the answer, where the reply has them. Freeing a million rows takes longer than printing
    /// them, so the caller may let them go later, or never.
    pub rows: Option<Rows>,
}

/// Why a command was not done.
#[derive(Drop)]
pub enum DebugErr {
    /// The run has made as many steps as it may. The leg stands in the log; this is its text. Nothing may
    /// follow.
    Long { item: Bytes },
    /// Memory ran out at an earlier command to run, and the run cannot go on.
    Spent,
    /// Memory ran out.
    NoMemory,
}

impl From<AllocError> for DebugErr {
    ghost from_gives = { λ _ e. e ≡ debug_err.NoMemory };

    fn from(_error: AllocError) -> DebugErr {
        DebugErr::NoMemory
    }
}

// Why a command to run was not done.
#[derive(Drop)]
pub(crate) enum EndErr {
    // The leg stands in the log, closed as too long; this is its text.
    Long { item: Bytes },
    // Memory ran out.
    NoMemory,
}

impl From<AllocError> for EndErr {
    ghost from_gives = { λ _ e. e ≡ end_err.NoMemory };

    fn from(_error: AllocError) -> EndErr {
        EndErr::NoMemory
    }
}
