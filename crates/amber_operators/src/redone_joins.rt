//! How the rows of a batch that a line of a log takes are probed, without a change, or kept of the build side. Rests on
//! `UsedRows`, and on `JoinState` of `amber_join`.

ghost use Rattle.std.specs.Prelude.{Ok, ◌≡◌, ◌-◌, ◌≤◌, ◌++◌, false, true, filter, length, take, drop, IfOk, OnErr, OnOk};
ghost use Rattle.amber_rows.specs.Suits.{suits_of};
ghost use Rattle.amber_meaning.specs.Task.{row_in};
ghost use Rattle.amber_operators.specs.ManyRows.{yielded_of};
ghost use Rattle.amber_operators.specs.RowsTaken.{gives_if};

use crate::operator_state::OperatorState;
use crate::used_rows::UsedRows;
use amber_join::{JoinState, stage_all};
use amber_rows::{Row, Schema, suits};
use std::alloc::{AllocError, Global};
use std::collections::VecDeque;

/// The rows that come of some rows, and how many come of all of these but the last.
#[derive(Drop)]
pub struct MadeRows {
    pub rows: VecDeque<Row>,
    pub before: u64,
}

// Adds the matches of a row of the probe side, if it suits.
fn probe_one(
    state: &JoinState,
    columns: &Schema,
    row: &Row,
    free: &mut UsedRows,
    made: &mut VecDeque<Row>,
) -> Result<(), AllocError>
    requires sealed { state.now.sealed ≡ true }
    ensures { OnOk result (made.new.items ≡ made.old.items
        ++ gives_if (OperatorState.Join state.now) false (row_in columns.now (Ok row.now))) }
{
    if !suits(row, columns) {
        return Ok(());
    }
    let found = free.probe(state, *made.allocator(), row)?;
    made.append(&mut VecDeque::from_vec(found.into_inner()))
}

// The matches of the first rows of a batch, which is of the probe side. Nothing is taken.
pub(crate) fn probe_rows(
    alloc: Global,
    state: &JoinState,
    columns: &Schema,
    rows: &VecDeque<Row>,
    count: usize,
    free: &mut UsedRows,
) -> Result<MadeRows, AllocError>
    requires sealed { state.now.sealed ≡ true }
    requires there { count ≤ length rows.now.items }
    ensures yields { IfOk result (λ made. made.rows.items
        ≡ yielded_of (OperatorState.Join state.now) columns.now (take count rows.now.items)) }
    ensures before { IfOk result (λ made. made.before ≡ length
        (yielded_of (OperatorState.Join state.now) columns.now (take (count - 1) rows.now.items))) }
{
    let mut made = VecDeque::new(alloc);
    let mut before: u64 = 0;
    for i in 0..count {
        before = made.len() as u64;
        probe_one(state, columns, &rows[i], free, &mut made)?;
    }
    Ok(MadeRows { rows: made, before })
}

// Keeps those of the first rows of a batch of the build side that suit. If memory runs out all is as before.
pub(crate) fn build_rows(
    alloc: Global,
    state: &mut JoinState,
    rows: &mut VecDeque<Row>,
    count: usize,
    columns: &Schema,
) -> Result<(), AllocError>
    requires unsealed { state.old.sealed ≡ false }
    requires there { count ≤ length rows.old.items }
    ensures state { OnOk result (state.new ≡ record state.old {
      rows = state.old.rows ++ filter (suits_of columns.now) (take count rows.old.items);
    }) }
    ensures rows { OnOk result (rows.new.items ≡ drop count rows.old.items) }
    ensures state_on_err { OnErr result (state.new ≡ state.old) }
    ensures rows_on_err { OnErr result (rows.new.items ≡ rows.old.items) }
{
    let _moved = stage_all(alloc, state, rows, count, columns)?;
    Ok(())
}
