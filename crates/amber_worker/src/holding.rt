//! Which row holds a worker. Over `Pending`, and `Cond` of `amber_rows`.

ghost use Rattle.std.specs.Prelude.{◌≡◌};
ghost use Rattle.amber_meaning.specs.Rules.{first_is_watched};

use amber_operators::Pending;
use amber_rows::{Cond, holds};

// Whether the row that is emitted next meets the condition.
#[inline(always)]
pub(crate) fn is_first_watched(when: &Option<Cond>, pending: &Pending) -> bool
    ensures { result ≡ first_is_watched when.now pending.now }
{
    let Some(cond) = when else {
        return false;
    };
    match pending.front() {
        None => false,
        Some(row) => holds(cond, row),
    }
}
