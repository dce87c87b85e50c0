//! How the records of a scan's share that a line of a log takes are judged and taken, once they were read ahead. Rests on
//! `letting_by`, and on `Share` of `amber_scan`.

ghost use Rattle.std.specs.Prelude.{false, ◌≡◌, ◌+◌, ◌-◌, ◌<◌, ◌≤◌, ◌++◌, ◌&&◌, List, None, Some, length, take, drop, vec_capacity, vec_len, MatchOption};
ghost use Rattle.std.specs.VecDeque.{deque_capacity, deque_len};
ghost use Rattle.amber_rows.specs.declared.value.Value.{Value as Cell};
ghost use Rattle.amber_rows.specs.declared.column.Column.{Column};
ghost use Rattle.amber_meaning.specs.Refused.{refusal_in};
ghost use Rattle.amber_meaning.specs.Task.{row_in};
ghost use Rattle.amber_scan.specs.Shares.{Suits};
ghost use Rattle.amber_operators.specs.ManyRows.{lets_by, scan_refused, yielded_records};
ghost use Rattle.amber_operators.specs.RowsTaken.{gives_if};

use crate::letting_by::Gate;
use crate::operator_state::OperatorState;
use amber_meaning::Refusal;
use amber_rows::{Cond, Row, Schema, suits};
use amber_scan::{Scanned, Share};
use std::collections::VecDeque;

// The row of a record, if it is one and suits the columns.
fn row_of<'a>(one: &'a Scanned, columns: &Schema) -> Option<&'a Row>
    ensures { MatchOption result (row_in columns.now one.now.what ≡ None)
        (λ row. row_in columns.now one.now.what ≡ Some row.now) }
{
    match &one.what {
        Ok(row) => { if suits(row, columns) { Some(row) } else { None } }
        Err(_) => None,
    }
}

// How many rows come of a record.
fn made_of(one: &Scanned, columns: &Schema) -> u64
    ensures is { result ≡ length
        (gives_if OperatorState.Scan false (row_in columns.now one.now.what)) }
    ensures one { result ≤ 1 }
{
    match row_of(one, columns) {
        Some(_) => 1,
        None => 0,
    }
}

// How many rows come of some records: of all of them but the last, and of all of them.
#[derive(Clone, Copy)]
pub(crate) struct Counted {
    pub before: u64,
    pub made: u64,
}

// How many rows come of the first records of those that were read ahead.
pub(crate) fn count_rows(share: &Share, columns: &Schema, count: usize) -> Counted
    requires ready { count ≤ share.now.ready }
    requires there { count ≤ length share.now.left }
    ensures before { result.before
        ≡ length (yielded_records columns.now (take (count - 1) share.now.left)) }
    ensures made { result.made
        ≡ length (yielded_records columns.now (take count share.now.left)) }
{
    let mut before: u64 = 0;
    let mut made: u64 = 0;
    for i in 0..count {
        before = made;
        made += made_of(share.at(i), columns);
    }
    Counted { before, made }
}

// Whether a record does not hold the worker, if a row comes of it.
fn lets_record_by(gate: &mut Gate, when: &Option<Cond>, one: &Scanned, columns: &Schema) -> bool
    ensures { (later : List (List Cell)) → (result && lets_by when.now gate.new later)
        ≡ lets_by when.now gate.old
        (gives_if OperatorState.Scan false (row_in columns.now one.now.what) ++ later) }
{
    match row_of(one, columns) {
        Some(row) => gate.lets_by(when, row),
        None => true,
    }
}

// Whether none of the rows holds the worker that come of the first records.
pub(crate) fn lets_records_by(
    gate: &mut Gate,
    when: &Option<Cond>,
    share: &Share,
    columns: &Schema,
    count: usize,
) -> bool
    requires ready { count ≤ share.now.ready }
    requires there { count ≤ length share.now.left }
    ensures { (later : List (List Cell)) → (result && lets_by when.now gate.new later)
        ≡ lets_by when.now gate.old
        (yielded_records columns.now (take count share.now.left) ++ later) }
{
    for i in 0..count {
        if !lets_record_by(gate, when, share.at(i), columns) {
            return false;
        }
    }
    true
}

// Puts a record where it goes: a row is pending, a fault is kept for the answer. There is room.
fn place_record(one: Scanned, op: u32, pending: &mut VecDeque<Row>, refused: &mut Vec<Refusal>)
    requires room { deque_len pending.old < deque_capacity pending.old }
    requires room_refused { vec_len refused.old < vec_capacity refused.old }
    ensures pending { (columns : List Column) → Suits columns one.what → pending.new.items
        ≡ pending.old.items ++ gives_if OperatorState.Scan false (row_in columns one.what) }
    ensures refused { refused.new.items ≡ refused.old.items ++ refusal_in op one.number one.what }
    ensures slots { deque_capacity pending.new ≡ deque_capacity pending.old }
    ensures longer { deque_len pending.new ≤ deque_len pending.old + 1 }
    ensures slots_refused { vec_capacity refused.new ≡ vec_capacity refused.old }
    ensures longer_refused { vec_len refused.new ≤ vec_len refused.old + 1 }
{
    match one.what {
        Ok(row) => pending.push_back_reserved(row),
        Err(fault) => refused.push_reserved(Refusal::Record {
            op,
            number: one.number,
            fault,
        }),
    }
}

// Takes the first records of those that were read ahead. There is room for what comes of them.
pub(crate) fn take_records(
    share: &mut Share,
    op: u32,
    count: usize,
    pending: &mut VecDeque<Row>,
    refused: &mut Vec<Refusal>,
)
    requires there { count ≤ share.old.ready }
    requires room { deque_len pending.old + count ≤ deque_capacity pending.old }
    requires room_refused { vec_len refused.old + count ≤ vec_capacity refused.old }
    ensures left { share.new.left ≡ drop count share.old.left }
    ensures pending { pending.new.items ≡ pending.old.items
        ++ yielded_records share.old.columns (take count share.old.left) }
    ensures refused { refused.new.items
        ≡ refused.old.items ++ scan_refused op (take count share.old.left) }
    ensures columns { share.new.columns ≡ share.old.columns }
{
    for _ in 0..count {
        let one = share.take_ready();
        place_record(one, op, pending, refused);
    }
}
