//! Why a leg did not come to its end. Over `AllocError` alone.

ghost use Rattle.std.specs.Prelude.{◌≡◌};
ghost use Rattle.amber_leg.specs.declared.error.LegErr.TheVariants as leg_err;

use std::alloc::AllocError;

/// Why a leg did not come to its end.
#[derive(Clone, Copy, Debug, PartialEq, Eq)]
pub enum LegErr {
    /// The run has made as many steps as it may, and no stop stands, or to the end somebody has not finished. The leg stands
    /// in the log.
    Long,
    /// Memory ran out. The log is as before, and the run cannot go on.
    NoMemory,
}

impl From<AllocError> for LegErr {
    ghost from_gives = { λ _ e. e ≡ leg_err.NoMemory };

    fn from(_error: AllocError) -> LegErr {
        LegErr::NoMemory
    }
}
