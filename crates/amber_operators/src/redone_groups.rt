//! The rows that a line of a log feeds to groups, which can be taken out of them again. Rests on `readied`, and on
//! `GroupState` of `amber_group`.

ghost use Rattle.std.specs.Prelude.{IfOk, true, OnErr, OnOk, filter, length, take, ◌+◌, ◌^◌, ◌≡◌, ◌≤◌};
ghost use Rattle.amber_rows.specs.Suits.{suits_of};
ghost use Rattle.amber_group.specs.Feeding.{FeedsEach};
ghost use Rattle.amber_group.specs.Lines.{TakesLineBack};
ghost use Rattle.amber_group.specs.Group.{Group};
ghost use Rattle.amber_operators.specs.Keeping.{GivesGroups};
ghost use Rattle.amber_operators.specs.ManyRows.{FeedsGroups, TakesFedBack};
ghost use Rattle.amber_operators.specs.Kept.{Closes, is_group};
ghost use Rattle.amber_operators.specs.declared.operator_state.OperatorState.{OperatorState as OneState};

use crate::operator_state::OperatorState;
use crate::readied::rows_once_over;
use amber_group::{GroupState, TakenLine};
use amber_rows::{Row, Schema};
use std::alloc::{AllocError, Global};
use std::collections::VecDeque;

/// What takes the rows of a line out of the groups again, and the rows that are given at the end.
#[derive(Drop)]
pub struct Fed {
    pub taken: TakenLine,
    pub made: VecDeque<Row>,
}

// Feeds the first rows of a batch to the groups, where they suit, and makes the rows that come once nothing more can come.
fn feed_rows(
    alloc: Global,
    rows: &VecDeque<Row>,
    columns: &Schema,
    count: usize,
    over: bool,
    state: &mut GroupState,
) -> Result<Fed, AllocError>
    requires there { count ≤ length rows.now.items }
    requires few { state.old.fed + count ≤ 2 ^ 40 }
    ensures each { OnOk result
        (FeedsEach (filter (suits_of columns.now) (take count rows.now.items)) state.old state.new) }
    ensures fed { OnOk result (state.new.fed ≤ state.old.fed + count) }
    ensures back { IfOk result (λ fed. TakesLineBack fed.taken state.old state.new) }
    ensures closes { IfOk result (λ fed. GivesGroups state.new over fed.made.items) }
    ensures err { OnErr result (state.new ≡ state.old) }
{
    let taken = state.take_line(alloc, rows, count, columns)?;
    match rows_once_over(alloc, state, over) {
        Ok(made) => Ok(Fed { taken, made }),
        Err(error) => {
            state.undo_line(taken);
            Err(error)
        }
    }
}

/// Feeds the first rows of a batch to the groups that are kept, where they suit, and makes the rows that come once nothing
/// more can come. If memory runs out nothing changes.
pub fn feed_groups(
    alloc: Global,
    rows: &VecDeque<Row>,
    columns: &Schema,
    count: usize,
    over: bool,
    operator_state: &mut OperatorState,
) -> Result<Fed, AllocError>
    requires groups { is_group operator_state.old ≡ true }
    requires there { count ≤ length rows.now.items }
    requires few { (state : Group) → operator_state.old ≡ OperatorState.Group state
        → state.fed + count ≤ 2 ^ 40 }
    ensures feeds { OnOk result (FeedsGroups
        (filter (suits_of columns.now) (take count rows.now.items))
        operator_state.old operator_state.new) }
    ensures back { IfOk result (λ fed.
        TakesFedBack fed.taken operator_state.old operator_state.new) }
    ensures closes { IfOk result (λ fed. Closes operator_state.new over fed.made.items) }
    ensures err { OnErr result (operator_state.new ≡ operator_state.old) }
{
    let OperatorState::Group(state) = operator_state else {
        unreachable!()
    };
    feed_rows(alloc, rows, columns, count, over, state)
}

/// Takes the rows out of the groups again that were fed last. It wants no memory.
pub fn unfeed_groups(taken: TakenLine, operator_state: &mut OperatorState)
    requires { (state : OneState) × TakesFedBack taken state operator_state.old }
    ensures { (state : OneState) → TakesFedBack taken state operator_state.old
        → operator_state.new ≡ state }
{
    let OperatorState::Group(state) = operator_state else {
        unreachable!()
    };
    state.undo_line(taken);
}
