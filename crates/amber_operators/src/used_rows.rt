//! Rows that a worker is done with, over which the next ones are written. What they hold means nothing, so nothing is
//! said of them: all such lists look the same. Rests on `JoinState` of `amber_join` and the way back of `amber_link`.

ghost use Rattle.std.specs.Prelude.{◌≡◌, true, IfOk};
ghost use Rattle.amber_rows.specs.Operators.{matches_of};

use amber_join::JoinState;
use amber_link::{Downstream, trade_back};
use amber_rows::{Row, Rows};
use std::alloc::{AllocError, Global};
use std::marker::Model;
use std::mem;

// So many times nobody looks for rows that have come back after that was in vain.
const WAIT: u32 = 15;
// How many rows are kept at most: those of the largest batch.
const MOST: usize = 1 << 16;

/// A list of rows that are done with.
pub struct UsedRows {
    rows: Vec<Row>,
    // How many times more nobody looks for rows that have come back.
    wait: u32,
}

impl Drop for UsedRows {
    fn drop(self) {
        let UsedRows { rows: _, wait: _ } = self;
    }
}

impl Model for UsedRows {
    ghost Value = { Unit {0} };

    ghost view = { λ _. tt };
}

impl UsedRows {
    /// No row.
    pub fn new(alloc: Global) -> Self {
        UsedRows {
            rows: Vec::new(alloc),
            wait: 0,
        }
    }

    /// Whether there is no row.
    pub fn is_empty(&self) -> bool {
        self.rows.is_empty()
    }

    /// Whether it is time to look for rows that have come back: none is left, and the last look in vain was not just now.
    #[inline(always)]
    pub fn is_due(&mut self) -> bool {
        if !self.rows.is_empty() {
            return false;
        }
        if self.wait > 0 {
            self.wait -= 1;
            return false;
        }
        self.wait = WAIT;
        true
    }

    /// Keeps a row, or drops it where there is no space.
    #[inline(always)]
    pub fn keep(&mut self, row: Row) {
        if self.rows.len() < MOST {
            let _ = self.rows.push(row);
        }
    }

    /// The row that was kept last, if there is one.
    #[inline(always)]
    pub fn take(&mut self) -> Option<Row> {
        self.rows.pop()
    }

    /// Has a list of rows that a receiver is done with, if one has come back, in place of its own.
    pub fn trade(&mut self, outs: &mut Vec<Downstream>)
        ensures { outs.new.items ≡ outs.old.items }
    {
        trade_back(outs.as_mut_slice(), &mut self.rows);
        if !self.rows.is_empty() {
            self.wait = 0;
        }
    }

    /// The matches of a row, written over the rows that are kept.
    pub fn probe(&mut self, state: &JoinState, alloc: Global, row: &Row) -> Result<Rows, AllocError>
        requires { state.now.sealed ≡ true }
        ensures { IfOk result
            (λ rows. rows ≡ matches_of state.now.build_keys state.now.probe_keys
            state.now.rows row.now) }
    {
        state.probe_over(alloc, row, &mut self.rows)
    }

    /// Has this list in place of its own, which it gives away.
    pub fn exchange(&mut self, rows: Vec<Row>) -> Vec<Row> {
        mem::replace(&mut self.rows, rows)
    }

    /// Has this list in place of its own, where that holds nothing.
    pub fn fill(&mut self, rows: Vec<Row>) {
        if self.rows.is_empty() {
            self.rows = rows;
        }
    }
}
