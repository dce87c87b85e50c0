//! How a join takes rows. Rests on `JoinState` of `amber_join`.

ghost use Rattle.std.specs.Prelude.{◌≡◌, [], not, true, false, OnErr, OnOk};
ghost use Rattle.amber_link.specs.Links.{has_some};
ghost use Rattle.amber_operators.specs.RowsTaken.{Builds, JoinsRow, Probes};

use crate::used_rows::UsedRows;
use amber_join::JoinState;
use amber_rows::{Row, Schema, suits};
use std::alloc::AllocError;
use std::collections::VecDeque;

// Keeps the first of these rows, which is of the build side.
fn build_first(rows: &mut VecDeque<Row>, state: &mut JoinState) -> Result<(), AllocError>
    requires some { has_some rows.old.items ≡ true }
    requires unsealed { state.old.sealed ≡ false }
    ensures ok { OnOk result (Builds rows.old.items state.old rows.new.items state.new) }
    ensures rows_on_err { OnErr result (rows.new.items ≡ rows.old.items) }
    ensures state_on_err { OnErr result (state.new ≡ state.old) }
{
    let Some(row) = rows.pop_front() else {
        unreachable!()
    };
    if let Err(row) = state.build(row) {
        rows.push_front_reserved(row);
        return Err(AllocError);
    }
    Ok(())
}

// Takes the first of these rows, which is of the probe side: its matches are pending.
fn probe_first(
    rows: &mut VecDeque<Row>,
    state: &JoinState,
    pending: &mut VecDeque<Row>,
    done: &mut UsedRows,
    free: &mut UsedRows,
) -> Result<(), AllocError>
    requires some { has_some rows.old.items ≡ true }
    requires sealed { state.now.sealed ≡ true }
    requires none { pending.old.items ≡ [] }
    ensures ok { OnOk result (Probes
        (record { rows = rows.old.items; state = state.now; pending = pending.old.items })
        (record { rows = rows.new.items; state = state.now; pending = pending.new.items })) }
    ensures rows_on_err { OnErr result (rows.new.items ≡ rows.old.items) }
    ensures pending_on_err { OnErr result (pending.new.items ≡ pending.old.items) }
{
    let Some(next) = rows.front() else {
        unreachable!()
    };
    let found = free.probe(state, *pending.allocator(), next)?;
    *pending = VecDeque::from_vec(found.into_inner());
    if let Some(row) = rows.pop_front() {
        done.keep(row);
    }
    Ok(())
}

// Takes the first of these rows; one that does not suit the columns of its side is dropped.
pub(crate) fn take_joined(
    rows: &mut VecDeque<Row>,
    columns: &Schema,
    builds: bool,
    state: &mut JoinState,
    pending: &mut VecDeque<Row>,
    done: &mut UsedRows,
    free: &mut UsedRows,
) -> Result<(), AllocError>
    requires some { has_some rows.old.items ≡ true }
    requires side { state.old.sealed ≡ not builds }
    requires none { pending.old.items ≡ [] }
    ensures ok { OnOk result (JoinsRow columns.now builds
        (record { rows = rows.old.items; state = state.old; pending = pending.old.items })
        (record { rows = rows.new.items; state = state.new; pending = pending.new.items })) }
    ensures rows_on_err { OnErr result (rows.new.items ≡ rows.old.items) }
    ensures state_on_err { OnErr result (state.new ≡ state.old) }
    ensures pending_on_err { OnErr result (pending.new.items ≡ pending.old.items) }
{
    let Some(next) = rows.front() else {
        unreachable!()
    };
    if !suits(next, columns) {
        if let Some(row) = rows.pop_front() {
            done.keep(row);
        }
        return Ok(());
    }
    if builds {
        return build_first(rows, state);
    }
    probe_first(rows, state, pending, done, free)
}
