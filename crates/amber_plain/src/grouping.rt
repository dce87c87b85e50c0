//! The state of a group, which is fed row by row. Over `GroupState` of `amber_group`.

ghost use Rattle.std.specs.Prelude.{◌≡◌, ◌++◌, ◌∷◌, [], IfOk, List, OnOk};
ghost use Rattle.amber_rows.specs.declared.value.Value.{Value as Cell};
ghost use Rattle.amber_group.specs.Group.{IsFedWith};

use amber_group::GroupState;
use amber_rows::{Aggs, Cols, Row};
use std::alloc::{AllocError, Global};

/// The state of a group by these keys with these aggregates, which has no row yet.
pub fn empty_group(alloc: Global, keys: &Cols, aggs: &Aggs) -> Result<GroupState, AllocError>
    ensures keys { IfOk result (λ state. state.keys ≡ keys.now) }
    ensures aggs { IfOk result (λ state. state.aggs ≡ aggs.now) }
    ensures rows { IfOk result (λ state. IsFedWith state []) }
{
    let keys = keys.clone()?;
    let aggs = aggs.clone()?;
    Ok(GroupState::new(alloc, keys, aggs))
}

/// Feeds a group a row. More rows than it counts are as running out of memory.
pub fn add_row(state: &mut GroupState, row: &Row) -> Result<(), AllocError>
    ensures ok { OnOk result ((rows : List (List Cell)) → IsFedWith state.old rows
        → IsFedWith state.new (rows ++ row.now ∷ [])) }
    ensures keys { state.new.keys ≡ state.old.keys }
    ensures aggs { state.new.aggs ≡ state.old.aggs }
{
    if state.fed() >= 1 << 40 {
        return Err(AllocError);
    }
    state.feed(row)
}
