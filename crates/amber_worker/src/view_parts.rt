//! The parts of what a worker shows. Over `Flags` and `Pending`; they are put together in `views`.

ghost use Rattle.std.specs.Prelude.{◌≡◌, IfOk, if◌then◌else◌};
ghost use Rattle.amber_rows.specs.Lists.{first_of};

use crate::flags::Flags;
use amber_meaning::Stand;
use amber_operators::Pending;
use amber_rows::Row;
use std::alloc::AllocError;

// A copy of the row that is emitted next, if there is one.
pub(crate) fn first_copy(pending: &Pending) -> Result<Option<Row>, AllocError>
    ensures { IfOk result (λ first. first ≡ first_of pending.now) }
{
    match pending.front() {
        None => Ok(None),
        Some(row) => Ok(Some(row.clone()?)),
    }
}

// How a worker stands.
pub(crate) fn stand_of(finished: bool, flags: Flags) -> Stand
    ensures { result ≡ (if finished then Stand.Finished else (if flags.held then Stand.Held
        else Stand.Ready)) }
{
    if finished {
        Stand::Finished
    } else if flags.held {
        Stand::Held
    } else {
        Stand::Ready
    }
}
