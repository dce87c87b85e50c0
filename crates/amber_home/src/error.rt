//! Why a home cannot begin. Over `AllocError` alone.

ghost use Rattle.std.specs.Prelude.{◌≡◌};
ghost use Rattle.amber_home.specs.declared.error.HomeErr.TheVariants as home_err;

use std::alloc::AllocError;

/// Why a run cannot begin.
#[derive(Clone, Copy, Debug)]
pub enum HomeErr {
    /// The file of the scan with this number does not begin with the names of its columns; it is the first
    /// such scan.
    Header(u32),
    /// Memory ran out.
    NoMemory,
}

impl From<AllocError> for HomeErr {
    ghost from_gives = { λ _ e. e ≡ home_err.NoMemory };

    fn from(_error: AllocError) -> HomeErr {
        HomeErr::NoMemory
    }
}
