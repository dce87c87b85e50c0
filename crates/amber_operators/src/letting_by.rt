//! Whether rows that are to be emitted, one after the other, hold a worker. Over `Pending` and `Fate`, and `Cond` of
//! `amber_rows`.

ghost use Rattle.std.specs.Prelude.{◌≡◌, ◌++◌, ◌∷◌, ◌&&◌, ◌≤◌, List, length};
ghost use Rattle.amber_rows.specs.declared.value.Value.{Value as Cell};
ghost use Rattle.amber_meaning.specs.Rules.{is_watched};
ghost use Rattle.amber_operators.specs.ManyRows.{lets_by, passed_by};
ghost use Rattle.amber_operators.specs.RowsTaken.{passed_of};

use crate::pending::Pending;
use crate::taking_rows::Fate;
use amber_rows::{Cond, Row, holds};
use std::collections::VecDeque;

/// So many rows are still to be emitted, and the first of them is waved on or not.
#[derive(Clone, Copy)]
pub struct Gate {
    pub left: u64,
    pub waved: bool,
}

// Whether a row meets the condition in force.
fn is_met(when: &Option<Cond>, row: &Row) -> bool
    ensures { result ≡ is_watched when.now row.now }
{
    match when {
        None => false,
        Some(cond) => holds(cond, row),
    }
}

impl Gate {
    /// Whether the next row does not hold the worker.
    pub fn lets_by(&mut self, when: &Option<Cond>, row: &Row) -> bool
        ensures { (later : List (List Cell)) → (result && lets_by when.now self.new later)
            ≡ lets_by when.now self.old (row.now ∷ later) }
    {
        if self.left == 0 {
            return true;
        }
        let passes = self.waved || !is_met(when, row);
        self.left -= 1;
        self.waved = false;
        passes
    }

    // The same of a row of which this becomes, if one comes of it.
    fn lets_fate_by(&mut self, when: &Option<Cond>, fate: &Fate, row: &Row) -> bool
        ensures { (later : List (List Cell)) → (result && lets_by when.now self.new later)
            ≡ lets_by when.now self.old (passed_of fate.now row.now ++ later) }
    {
        match fate {
            Fate::Dropped => true,
            Fate::Passed => self.lets_by(when, row),
            Fate::Made(other) => self.lets_by(when, other),
        }
    }
}

/// Whether none of the pending rows holds the worker.
pub fn lets_pending_by(gate: &mut Gate, when: &Option<Cond>, pending: &Pending) -> bool
    ensures { (later : List (List Cell)) → (result && lets_by when.now gate.new later)
        ≡ lets_by when.now gate.old (pending.now ++ later) }
{
    let count = pending.len() as usize;
    for i in 0..count {
        if !gate.lets_by(when, pending.at(i)) {
            return false;
        }
    }
    true
}

// Whether none of the rows holds the worker that come of rows of which this becomes.
pub(crate) fn lets_fates_by(
    gate: &mut Gate,
    when: &Option<Cond>,
    fates: &[Fate],
    rows: &VecDeque<Row>,
) -> bool
    requires there { length fates.now ≤ length rows.now.items }
    ensures { (later : List (List Cell)) → (result && lets_by when.now gate.new later)
        ≡ lets_by when.now gate.old (passed_by fates.now rows.now.items ++ later) }
{
    for i in 0..fates.len() {
        if !gate.lets_fate_by(when, &fates[i], &rows[i]) {
            return false;
        }
    }
    true
}

/// Whether none of these rows holds the worker.
pub fn lets_rows_by(gate: &mut Gate, when: &Option<Cond>, rows: &VecDeque<Row>) -> bool
    ensures { (later : List (List Cell)) → (result && lets_by when.now gate.new later)
        ≡ lets_by when.now gate.old (rows.now.items ++ later) }
{
    for i in 0..rows.len() {
        if !gate.lets_by(when, &rows[i]) {
            return false;
        }
    }
    true
}
