//! A line of a log that takes rows, done again. Rests on `readied_rows`, `taking_ready`, `emitting` and
//! `journal` of the crate.

ghost use Rattle.std.specs.Prelude.{false, true, IfOk, OnErr, ◌&&◌, ◌+◌, ◌==◌, ◌^◌, ◌≡◌, ◌≤◌};
ghost use Rattle.amber_worker.specs.RedoneRows.{GoesOrNot};
ghost use Rattle.amber_operators.specs.Kept.{is_group};
ghost use Rattle.amber_worker.specs.WorkerState.{steps_made};

use super::Worker;
use crate::emitting::emit_many;
use crate::line_judging::{may_go, reserve_line};
use crate::redone_rows::RowsLine;
use amber_log::Entry;
use amber_operators::{feed_rows, move_all, ready_rows, side_columns, take_rows};
use std::alloc::AllocError;

// Whether the next row is waved on still, once so many rows were emitted.
pub(super) fn stays_waved(waved: bool, outs: u64) -> bool
    ensures { result ≡ (waved && (outs == 0)) }
{
    waved && outs == 0
}

impl Worker {
    // Takes so many rows and emits so many, which is one entry, where that may come; a worker that keeps no groups.
    fn redo_rows(&mut self, line: RowsLine) -> Result<bool, AllocError>
        requires apart { is_group self.old.operator_state ≡ false }
        requires few { steps_made self.old + (line.rows + line.outs) ≤ 2 ^ 40 }
        requires unfinished { self.old.finished ≡ false }
        ensures ok { IfOk result (GoesOrNot line self.old self.new) }
        ensures err { OnErr result (self.new ≡ self.old) }
    {
        let RowsLine { rows, outs, .. } = line;
        if rows > self.rest.left() {
            return Ok(false);
        }
        let side = self.building;
        let columns = side_columns(side, &self.build_columns, &self.columns);
        let (when, waved) = (&self.when, self.flags.waved);
        let (count, state) = (rows as usize, &mut self.operator_state);
        let (rest, gains) = (&mut self.rest, &mut self.gains);
        let used = &mut gains.free;
        let readied = ready_rows(self.alloc, rest, columns, side, state, count, used)?;
        let pending = &gains.pending;
        if !may_go(line, when, waved, pending, &readied, rest, columns) {
            return Ok(false);
        }
        let links = self.outs.as_mut_slice();
        let mut room = reserve_line(self.alloc, &readied, line, gains, links, &mut self.journal)?;
        feed_rows(self.alloc, &readied, rest, columns, state, count)?;
        move_all(&mut gains.pending, &mut room);
        take_rows(readied, rest, columns, self.op, count, &mut room, gains);
        gains.pending.fill(room);
        emit_many(&self.route, &mut gains.pending, links, outs);
        self.journal.push(Entry::Go { rows, outs });
        self.taken += rows;
        self.emitted += outs;
        self.flags.waved = stays_waved(waved, outs);
        Ok(true)
    }

    // Takes so many rows and emits so many, which is one entry, where that may come.
    pub(super) fn redo_line(&mut self, line: RowsLine) -> Result<bool, AllocError>
        requires few { steps_made self.old + (line.rows + line.outs) ≤ 2 ^ 40 }
        requires unfinished { self.old.finished ≡ false }
        ensures ok { IfOk result (GoesOrNot line self.old self.new) }
        ensures err { OnErr result (self.new ≡ self.old) }
    {
        if self.operator_state.is_group() {
            return self.redo_grouped(line);
        }
        self.redo_rows(line)
    }
}
