//! Several build rows that are moved out of a list into a join, all or none, and that can be moved back. Over `JoinState`
//! and `Staged` of `state`.

ghost use Rattle.std.specs.Prelude.{◌≡◌, ◌+◌, ◌≤◌, ◌<◌, ◌++◌, ◌∷◌, [], false, IfOk, OnErr, OnOk, drop, filter, length, take};
ghost use Rattle.std.specs.VecDeque.{deque_capacity, deque_len};
ghost use Rattle.amber_rows.specs.Suits.{suits_of};
ghost use Rattle.amber_join.specs.Moving.{CanMoveAllBack, CanMoveBack, MoveAllBack, MovesBack, all_moved_back, moved_back};

use crate::state::{JoinState, Staged};
use amber_rows::{Row, Schema, suits};
use std::alloc::{AllocError, Global};
use std::collections::VecDeque;

/// A row that was moved out of a list.
#[derive(Drop)]
pub enum Moved {
    /// A join keeps it.
    Kept(Staged),
    /// It does not suit the columns, and is set aside.
    Aside(Row),
}

// Moves the first of these rows into a join, if it suits the columns, and else aside.
fn move_first(
    state: &mut JoinState,
    rows: &mut VecDeque<Row>,
    columns: &Schema,
) -> Result<Moved, AllocError>
    requires unsealed { state.old.sealed ≡ false }
    requires some { 0 < length rows.old.items }
    ensures state { OnOk result (state.new ≡ record state.old {
      rows = state.old.rows ++ filter (suits_of columns.now) (take 1 rows.old.items);
    }) }
    ensures rows { OnOk result (rows.new.items ≡ drop 1 rows.old.items) }
    ensures back { IfOk result (λ moved. MovesBack moved
        (record { state = state.old; rows = rows.old.items })
        (record { state = state.new; rows = rows.new.items })) }
    ensures slots { deque_capacity rows.new ≡ deque_capacity rows.old }
    ensures shorter { OnOk result (deque_len rows.new + 1 ≡ deque_len rows.old) }
    ensures shorter_on_err { OnErr result (deque_len rows.new ≡ deque_len rows.old) }
    ensures state_on_err { OnErr result (state.new ≡ state.old) }
    ensures rows_on_err { OnErr result (rows.new.items ≡ rows.old.items) }
{
    let Some(row) = rows.pop_front() else {
        unreachable!()
    };
    if !suits(&row, columns) {
        return Ok(Moved::Aside(row));
    }
    match state.stage(row) {
        Ok(staged) => Ok(Moved::Kept(staged)),
        Err(row) => {
            rows.push_front_reserved(row);
            Err(AllocError)
        }
    }
}

// Moves the row that was moved last back to the front of the list, which has room for it.
fn move_back(state: &mut JoinState, rows: &mut VecDeque<Row>, moved: Moved)
    requires can { CanMoveBack moved (record { state = state.old; rows = rows.old.items }) }
    requires room { deque_len rows.old < deque_capacity rows.old }
    ensures back { record { state = state.new; rows = rows.new.items }
        ≡ moved_back moved (record { state = state.old; rows = rows.old.items }) }
    ensures slots { deque_capacity rows.new ≡ deque_capacity rows.old }
    ensures longer { deque_len rows.new ≡ deque_len rows.old + 1 }
{
    let row = match moved {
        Moved::Kept(staged) => state.unstage(staged),
        Moved::Aside(row) => row,
    };
    rows.push_front_reserved(row);
}

/// Moves the first `count` rows out of a list: a join keeps those that suit the columns, as `build` does with one after
/// the other, and the others are set aside. It gives what moves them back as long as no other row has come after them.
/// If memory runs out all is as before.
pub fn stage_all(
    alloc: Global,
    state: &mut JoinState,
    rows: &mut VecDeque<Row>,
    count: usize,
    columns: &Schema,
) -> Result<Vec<Moved>, AllocError>
    requires unsealed { state.old.sealed ≡ false }
    requires there { count ≤ length rows.old.items }
    ensures state { OnOk result (state.new ≡ record state.old {
      rows = state.old.rows ++ filter (suits_of columns.now) (take count rows.old.items);
    }) }
    ensures rows { OnOk result (rows.new.items ≡ drop count rows.old.items) }
    ensures back { IfOk result (λ all. MoveAllBack all.items
        (record { state = state.old; rows = rows.old.items })
        (record { state = state.new; rows = rows.new.items })) }
    ensures room { IfOk result
        (λ all. deque_len rows.new + length all.items ≤ deque_capacity rows.new) }
    ensures state_on_err { OnErr result (state.new ≡ state.old) }
    ensures rows_on_err { OnErr result (rows.new.items ≡ rows.old.items) }
{
    let mut all = Vec::with_capacity(alloc, count)?;
    for _ in 0..count {
        match move_first(state, rows, columns) {
            Ok(moved) => all.push_reserved(moved),
            Err(error) => {
                unstage_all(state, rows, all);
                return Err(error);
            }
        }
    }
    Ok(all)
}

/// Moves the rows that were moved last back to the front of the list, in their order. It takes no memory.
#[tactic(auto, unfolding(crate::specs::Moving::all_moved_back, crate::specs::Moving::CanMoveAllBack))]
pub fn unstage_all(state: &mut JoinState, rows: &mut VecDeque<Row>, mut all: Vec<Moved>)
    requires can { CanMoveAllBack all.items
        (record { state = state.old; rows = rows.old.items }) }
    requires room { deque_len rows.old + length all.items ≤ deque_capacity rows.old }
    ensures { record { state = state.new; rows = rows.new.items }
        ≡ all_moved_back all.items (record { state = state.old; rows = rows.old.items }) }
{
    while let Some(moved) = all.pop() {
        move_back(state, rows, moved);
    }
}
