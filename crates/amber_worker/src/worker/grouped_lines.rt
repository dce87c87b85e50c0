//! A line of a log that takes rows of a group, done again: the rows are fed first, and taken out again where the line may not
//! be done. Rests on `redone_made`, and on `feed_groups` of `amber_operators`.

ghost use Rattle.std.specs.Prelude.{false, true, IfOk, OnErr, ◌+◌, ◌^◌, ◌≡◌, ◌≤◌};
ghost use Rattle.amber_worker.specs.RedoneRows.{GoesOrNot};
ghost use Rattle.amber_operators.specs.Kept.{is_group};
ghost use Rattle.amber_worker.specs.WorkerState.{steps_made};

use super::Worker;
use super::taking_lines::stays_waved;
use crate::redone_made::{Offering, ends_with, hand_line, is_done, settle};
use crate::redone_rows::RowsLine;
use amber_log::Entry;
use amber_operators::{Fed, drop_all, feed_groups, side_columns, unfeed_groups};
use std::alloc::AllocError;
use std::collections::VecDeque;

impl Worker {
    // Takes so many rows of a group and emits so many, which is one entry, where that may come.
    pub(super) fn redo_grouped(&mut self, line: RowsLine) -> Result<bool, AllocError>
        requires groups { is_group self.old.operator_state ≡ true }
        requires few { steps_made self.old + (line.rows + line.outs) ≤ 2 ^ 40 }
        requires unfinished { self.old.finished ≡ false }
        ensures ok { IfOk result (GoesOrNot line self.old self.new) }
        ensures err { OnErr result (self.new ≡ self.old) }
    {
        let RowsLine { rows, outs, .. } = line;
        let left = self.rest.left();
        if rows > left {
            return Ok(false);
        }
        let state = &mut self.operator_state;
        let over = ends_with(rows, &self.rest, self.ins.as_slice());
        let columns = side_columns(self.building, &self.build_columns, &self.columns);
        let (batch, count) = (&mut self.rest.rows, rows as usize);
        let Fed { taken, made } = feed_groups(self.alloc, batch, columns, count, over, state)?;
        let (gains, waved) = (&mut self.gains, self.flags.waved);
        let links = self.outs.as_mut_slice();
        let journal = &mut self.journal;
        let mut room = VecDeque::new(self.alloc);
        let offering = Offering::new(left, &gains.pending, &made, &self.when, waved);
        let may = settle(line, &offering, links, journal, &mut room);
        if !is_done(&may) {
            unfeed_groups(taken, state);
            return may;
        }
        drop_all(batch, count, &mut gains.done);
        hand_line(line, made, room, &mut gains.pending, &self.route, links);
        journal.push(Entry::Go { rows, outs });
        self.taken += rows;
        self.emitted += outs;
        self.flags.waved = stays_waved(waved, outs);
        Ok(true)
    }
}
