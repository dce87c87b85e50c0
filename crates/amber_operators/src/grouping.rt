//! How a group takes rows, and what it gives at the end. Rests on `GroupState` of `amber_group`.

ghost use Rattle.std.specs.Prelude.{◌≡◌, ◌^◌, ◌<◌, Ok, true, IfOk, OnErr, OnOk};
ghost use Rattle.amber_meaning.specs.Task.{row_in};
ghost use Rattle.amber_link.specs.Links.{has_some};
ghost use Rattle.amber_operators.specs.RowsTaken.{AddsGroups, GroupsRow};
ghost use Rattle.amber_operators.specs.Keeping.{Feeds, GivesGroups};

use crate::used_rows::UsedRows;
use amber_group::GroupState;
use amber_rows::{Row, Schema, Value, suits};
use std::alloc::{AllocError, Global};
use std::collections::VecDeque;

// How many rows are looked at ahead.
const AHEAD: usize = 16;

// How many of a row's first and last cell are numbers.
fn outer_numbers_of(row: &Row) -> usize {
    let cells = row.get();
    let first = matches!(cells.first(), Some(Value::Int(_)));
    let last = matches!(cells.last(), Some(Value::Int(_)));
    usize::from(first) + usize::from(last)
}

// Feeds a row, if it suits.
fn feed(state: &mut GroupState, columns: &Schema, row: &Row) -> Result<(), AllocError>
    requires few { state.old.fed < 2 ^ 40 }
    ensures ok { OnOk result (Feeds (row_in columns.now (Ok row.now)) state.old state.new) }
    ensures err { OnErr result (state.new ≡ state.old) }
{
    if !suits(row, columns) {
        return Ok(());
    }
    state.feed(row)
}

// The rows of the groups.
pub(crate) fn rows_of_groups(alloc: Global, state: &GroupState) -> Result<VecDeque<Row>, AllocError>
    ensures { IfOk result (λ rows. GivesGroups state.now true rows.items) }
{
    let group_result = state.finish(alloc)?;
    Ok(VecDeque::from_vec(group_result.rows.into_inner()))
}

// The rows of the groups are pending too.
fn add_groups(state: &GroupState, pending: &mut VecDeque<Row>) -> Result<(), AllocError>
    ensures ok { OnOk result (AddsGroups state.now true pending.old.items pending.new.items) }
    ensures err { OnErr result (pending.new.items ≡ pending.old.items) }
{
    let mut last = rows_of_groups(*pending.allocator(), state)?;
    pending.append(&mut last)
}

// Feeds the last row, if it suits: the rows of the groups are pending. If memory runs out nothing changes.
fn feed_last(
    state: &mut GroupState,
    columns: &Schema,
    row: &Row,
    pending: &mut VecDeque<Row>,
) -> Result<(), AllocError>
    requires few { state.old.fed < 2 ^ 40 }
    ensures fed { OnOk result (Feeds (row_in columns.now (Ok row.now)) state.old state.new) }
    ensures ok { OnOk result (AddsGroups state.new true pending.old.items pending.new.items) }
    ensures state_on_err { OnErr result (state.new ≡ state.old) }
    ensures pending_on_err { OnErr result (pending.new.items ≡ pending.old.items) }
{
    if !suits(row, columns) {
        return add_groups(state, pending);
    }
    state.feed_last(row, pending)
}

// Feeds a row, the last one where nothing more can come.
fn feed_next(
    state: &mut GroupState,
    columns: &Schema,
    row: &Row,
    over: bool,
    pending: &mut VecDeque<Row>,
) -> Result<(), AllocError>
    requires few { state.old.fed < 2 ^ 40 }
    ensures fed { OnOk result (Feeds (row_in columns.now (Ok row.now)) state.old state.new) }
    ensures ok { OnOk result (AddsGroups state.new over pending.old.items pending.new.items) }
    ensures state_on_err { OnErr result (state.new ≡ state.old) }
    ensures pending_on_err { OnErr result (pending.new.items ≡ pending.old.items) }
{
    if over {
        return feed_last(state, columns, row, pending);
    }
    feed(state, columns, row)
}

// How many of the first and last cells of the next rows are numbers. The rows of one worker of several lie apart in
// memory, so each would wait for its cells; looking at those of several rows together, from time to time, lets these
// waits overlap. The sum is of no use, but a caller has to ask for it, since reads that nobody asks for are left out of
// the program.
fn look_ahead(rows: &VecDeque<Row>) -> usize {
    if rows.len() % AHEAD != 0 {
        return 0;
    }
    let mut total: usize = 0;
    for row in rows.iter().take(AHEAD) {
        total = total.saturating_add(outer_numbers_of(row));
    }
    total
}

// Takes the first of these rows, the last one where nothing more can come.
pub(crate) fn take_grouped(
    rows: &mut VecDeque<Row>,
    columns: &Schema,
    over: bool,
    state: &mut GroupState,
    pending: &mut VecDeque<Row>,
    done: &mut UsedRows,
) -> Result<(), AllocError>
    requires some { has_some rows.old.items ≡ true }
    requires few { state.old.fed < 2 ^ 40 }
    ensures ok { OnOk result (GroupsRow columns.now over
        (record { rows = rows.old.items; state = state.old; pending = pending.old.items })
        (record { rows = rows.new.items; state = state.new; pending = pending.new.items })) }
    ensures rows_on_err { OnErr result (rows.new.items ≡ rows.old.items) }
    ensures state_on_err { OnErr result (state.new ≡ state.old) }
    ensures pending_on_err { OnErr result (pending.new.items ≡ pending.old.items) }
{
    if look_ahead(rows) == usize::MAX {
        // There are never so many; room for a row more changes nothing.
        pending.reserve(1)?;
    }
    let Some(next) = rows.front() else {
        unreachable!()
    };
    feed_next(state, columns, next, over, pending)?;
    if let Some(row) = rows.pop_front() {
        done.keep(row);
    }
    Ok(())
}
