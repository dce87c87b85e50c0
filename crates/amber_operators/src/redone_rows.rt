//! How the rows of a batch that a line of a log takes are judged, without a change, and then taken without memory. Rests on
//! `taking_rows`.

ghost use Rattle.std.specs.Prelude.{Ok, ◌≡◌, ◌+◌, ◌-◌, ◌<◌, ◌≤◌, ◌++◌, [], true, length, take, drop, vec_capacity, vec_len, IfOk};
ghost use Rattle.std.specs.VecDeque.{deque_capacity, deque_len};
ghost use Rattle.amber_operators.specs.ManyRows.{kept_among, passed_by, yielded_of};
ghost use Rattle.amber_meaning.specs.Task.{row_in};
ghost use Rattle.amber_operators.specs.Kept.{is_plain};
ghost use Rattle.amber_operators.specs.RowsTaken.{keeps_if, passed_of};

use crate::operator_state::OperatorState;
use crate::pending::Pending;
use crate::taking_rows::{Fate, fate_of};
use crate::used_rows::UsedRows;
use amber_rows::{Row, Schema, suits};
use std::alloc::{AllocError, Global};
use std::collections::VecDeque;

/// What becomes of some rows: of each its fate, how many rows come of all of them, and how many of all but the last.
#[derive(Drop)]
pub struct Fates {
    pub each: Vec<Fate>,
    pub before: u64,
    pub made: u64,
}

// How many rows come of a row of which this becomes.
fn made_of(fate: &Fate, row: &Row) -> u64
    ensures is { result ≡ length (passed_of fate.now row.now) }
    ensures one { result ≤ 1 }
{
    let _row = row;
    match fate {
        Fate::Dropped => 0,
        Fate::Passed | Fate::Made(_) => 1,
    }
}

// What becomes of the first rows of a batch. Nothing is taken.
pub(crate) fn fates_of(
    alloc: Global,
    operator_state: &OperatorState,
    columns: &Schema,
    rows: &VecDeque<Row>,
    count: usize,
    free: &mut UsedRows,
) -> Result<Fates, AllocError>
    requires plain { is_plain operator_state.now ≡ true }
    requires there { count ≤ length rows.now.items }
    ensures each { IfOk result (λ fates. length fates.each.items ≡ count) }
    ensures yields { IfOk result (λ fates. passed_by fates.each.items rows.now.items
        ≡ yielded_of operator_state.now columns.now (take count rows.now.items)) }
    ensures made { IfOk result (λ fates. fates.made
        ≡ length (yielded_of operator_state.now columns.now (take count rows.now.items))) }
    ensures before { IfOk result (λ fates. fates.before
        ≡ length (yielded_of operator_state.now columns.now (take (count - 1) rows.now.items))) }
{
    let mut each = Vec::with_capacity(alloc, count)?;
    let mut before: u64 = 0;
    let mut made: u64 = 0;
    for i in 0..count {
        let row = &rows[i];
        let fate = fate_of(operator_state, columns, row, free)?;
        before = made;
        made += made_of(&fate, row);
        each.push_reserved(fate);
    }
    Ok(Fates { each, before, made })
}

// Puts a row where it goes, for which there is room.
fn place(fate: Fate, row: Row, pending: &mut VecDeque<Row>, done: &mut UsedRows)
    requires room { deque_len pending.old < deque_capacity pending.old }
    ensures goes { pending.new.items ≡ pending.old.items ++ passed_of fate row }
    ensures slots { deque_capacity pending.new ≡ deque_capacity pending.old }
    ensures longer { deque_len pending.new ≤ deque_len pending.old + 1 }
{
    match fate {
        Fate::Dropped => done.keep(row),
        Fate::Passed => pending.push_back_reserved(row),
        Fate::Made(other) => {
            pending.push_back_reserved(other);
            done.keep(row);
        }
    }
}

// Takes the first rows of a batch, of which this becomes. There is room for what comes of them.
pub(crate) fn take_all(
    fates: Vec<Fate>,
    rows: &mut VecDeque<Row>,
    pending: &mut VecDeque<Row>,
    done: &mut UsedRows,
)
    requires there { length fates.items ≤ length rows.old.items }
    requires room { deque_len pending.old + length fates.items ≤ deque_capacity pending.old }
    ensures rows { rows.new.items ≡ drop (length fates.items) rows.old.items }
    ensures pending { pending.new.items
        ≡ pending.old.items ++ passed_by fates.items rows.old.items }
{
    let mut left = VecDeque::from_vec(fates);
    while let Some(fate) = left.pop_front() {
        let Some(row) = rows.pop_front() else {
            unreachable!()
        };
        place(fate, row, pending, done);
    }
}

// Keeps a row for the answer, if it suits the columns. There is room for it.
fn keep_one(row: Row, columns: &Schema, kept: &mut Vec<Row>)
    requires room { vec_len kept.old < vec_capacity kept.old }
    ensures keeps { kept.new.items
        ≡ kept.old.items ++ keeps_if OperatorState.Sink (row_in columns.now (Ok row)) }
    ensures slots { vec_capacity kept.new ≡ vec_capacity kept.old }
    ensures longer { vec_len kept.new ≤ vec_len kept.old + 1 }
{
    if suits(&row, columns) {
        kept.push_reserved(row);
    }
}

// Keeps those of the first rows of a batch for the answer that suit the columns. There is room for them.
pub(crate) fn keep_all(
    rows: &mut VecDeque<Row>,
    columns: &Schema,
    count: usize,
    kept: &mut Vec<Row>,
)
    requires there { count ≤ length rows.old.items }
    requires room { vec_len kept.old + count ≤ vec_capacity kept.old }
    ensures rows { rows.new.items ≡ drop count rows.old.items }
    ensures kept { kept.new.items
        ≡ kept.old.items ++ kept_among OperatorState.Sink columns.now (take count rows.old.items) }
{
    for _ in 0..count {
        let Some(row) = rows.pop_front() else {
            unreachable!()
        };
        keep_one(row, columns, kept);
    }
}

/// Puts the pending rows behind these, so that none is pending. There is room for them.
pub fn move_all(pending: &mut Pending, rows: &mut VecDeque<Row>)
    requires { deque_len rows.old + length pending.old ≤ deque_capacity rows.old }
    ensures pending { pending.new ≡ [] }
    ensures rows { rows.new.items ≡ rows.old.items ++ pending.old }
    ensures len { deque_len rows.new ≡ deque_len rows.old + length pending.old }
    ensures slots { deque_capacity rows.new ≡ deque_capacity rows.old }
{
    while let Some(row) = pending.pop_front() {
        rows.push_back_reserved(row);
    }
}

/// Takes the first rows of a batch, which are done with.
pub fn drop_all(rows: &mut VecDeque<Row>, count: usize, done: &mut UsedRows)
    requires { count ≤ length rows.old.items }
    ensures { rows.new.items ≡ drop count rows.old.items }
{
    for _ in 0..count {
        let Some(row) = rows.pop_front() else {
            unreachable!()
        };
        done.keep(row);
    }
}

/// Puts these rows behind others. There is room for them.
pub fn join_rows(mut made: VecDeque<Row>, rows: &mut VecDeque<Row>)
    requires { deque_len rows.old + length made.items ≤ deque_capacity rows.old }
    ensures { rows.new.items ≡ rows.old.items ++ made.items }
{
    while let Some(row) = made.pop_front() {
        rows.push_back_reserved(row);
    }
}
