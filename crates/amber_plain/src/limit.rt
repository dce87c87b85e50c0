//! Why rows fell short of an answer. Over `AllocError` alone.

ghost use Rattle.std.specs.Prelude.{◌≡◌};
ghost use Rattle.amber_plain.specs.declared.limit.LimitErr.TheVariants as limit_err;

use std::alloc::AllocError;

/// Why a query whose files were checked has no answer.
#[derive(Clone, Copy, Debug)]
pub enum LimitErr {
    /// The operators give more rows together than may be.
    Long,
    /// Memory ran out.
    NoMemory,
}

impl From<AllocError> for LimitErr {
    ghost from_gives = { λ _ e. e ≡ limit_err.NoMemory };

    fn from(_error: AllocError) -> LimitErr {
        LimitErr::NoMemory
    }
}
