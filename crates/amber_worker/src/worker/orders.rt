//! What else is asked of a worker, within a leg and between legs: room in its journal, a seat, a condition, that it goes
//! on, and that the row is dropped before which it is held. Rests on `journal` and `counting`.

ghost use Rattle.std.specs.Prelude.{None, OnErr, OnOk, Some, [], false, option_map, true, ◌≡◌, ◌<◌};
ghost use Rattle.amber_board.specs.Seats.{IsSeatOf, work_view};
ghost use Rattle.amber_worker.specs.AtPosition.{KeepsUnder};
ghost use Rattle.amber_worker.specs.Changes.{ShowsDropped, ShowsWatching, armed_at, disarmed_at, held_dropped, resumed_at, row_held};
ghost use Rattle.amber_worker.specs.Counting.{GivesBack, IsBoardOf};
ghost use Rattle.amber_worker.specs.WorkerState.{is_armed, needs_unit};

use super::Worker;
use crate::counting::{give_all, hand_of, is_starved};
use amber_board::{Board, WorkSeat};
use amber_log::Entry;
use amber_rows::{Cond, Row};
use std::alloc::AllocError;

impl Worker {
    /// Makes room in the journal for an entry, which is kept from now on: by every call but `disarm`, `arm` of a seat
    /// with units in hand, and `take_journal`.
    pub fn reserve(&mut self) -> Result<(), AllocError>
        ensures ok { OnOk result (self.new ≡ record self.old { reserved = true }) }
        ensures err { OnErr result (self.new ≡ self.old) }
    {
        self.journal.keep_room()
    }

    /// Arms the worker with a seat that has counted nothing. Units that are in its hand are journalled as granted, which
    /// uses up the room that was reserved.
    pub fn arm(&mut self, seat: WorkSeat)
        requires unarmed { self.old.seat ≡ None }
        requires none { (work_view seat).mine ≡ 0 }
        requires unfinished { 0 < (work_view seat).hand → self.old.finished ≡ false }
        requires reserved { 0 < (work_view seat).hand → self.old.reserved ≡ true }
        ensures only { self.new ≡ armed_at seat self.old }
        ensures keeps { KeepsUnder true self.old self.new }
    {
        let hand = seat.hand();
        if hand != 0 {
            self.journal.use_room(Entry::Grant { n: hand });
        }
        self.seat = Some(seat);
    }

    /// Gives the hand back to the board and hands out the seat. Units that were in the hand are journalled, in the room
    /// that was reserved, which is kept no longer. No memory is wanted.
    pub fn disarm(&mut self, board: &Board) -> WorkSeat
        requires own { IsBoardOf (Some board.now) self.old.seat }
        requires reserved { self.old.reserved ≡ true }
        ensures gives { GivesBack self.old.seat (Some result) }
        ensures own { IsSeatOf board.now result }
        ensures only { self.new ≡ disarmed_at self.old }
        ensures keeps { KeepsUnder true self.old self.new }
    {
        let hand = hand_of(&self.seat);
        if hand == 0 {
            self.journal.drop_room();
        } else {
            self.journal.use_room(Entry::Back { n: hand });
        }
        give_all(&mut self.seat, Some(board));
        let Some(seat) = self.seat.take() else {
            unreachable!()
        };
        seat
    }

    /// Puts a condition in place of the earlier one, or none: before a row that meets it the worker is held. Within a leg
    /// the condition stays, so nothing was done yet.
    pub fn watch_for(&mut self, when: Option<Cond>)
        requires { self.old.journal ≡ [] }
        ensures only { self.new ≡ record self.old { when = when } }
        ensures shows { ShowsWatching when self.old self.new }
    {
        self.when = when;
    }

    /// Ends a pause within a leg. After want of memory the worker is paused still.
    pub fn resume(&mut self) -> Result<(), AllocError>
        requires paused { self.old.restraint.paused ≡ true }
        requires loose { self.old.restraint.held ≡ false }
        ensures ok { OnOk result (self.new ≡ resumed_at self.old) }
        ensures err { OnErr result (self.new ≡ self.old) }
        ensures keeps { KeepsUnder (is_armed self.old) self.old self.new }
    {
        self.journal.reserve(1)?;
        self.journal.push(Entry::Resume);
        self.flags.paused = false;
        Ok(())
    }

    /// Drops the row before which the worker is held, and hands it out. Where it is not held there is none, and nothing
    /// changes.
    pub fn drop_held(&mut self) -> Option<Row>
        ensures row { result ≡ row_held self.old }
        ensures only { self.new ≡ held_dropped self.old }
        ensures shows { ShowsDropped self.old self.new }
    {
        if !self.flags.held {
            return None;
        }
        self.flags.held = false;
        self.gains.pending.pop_front()
    }

    /// Whether a count is armed at the worker.
    pub fn is_armed(&self) -> bool
        ensures { result ≡ is_armed self.now }
    {
        self.seat.is_some()
    }

    /// Whether the worker needs a unit for its next row, and has none in hand.
    pub fn needs_unit(&self) -> bool
        ensures { result ≡ needs_unit self.now }
    {
        is_starved(&self.seat) && (self.has_pending() || self.has_rest())
    }

    /// Whether the worker is paused.
    pub fn is_paused(&self) -> bool
        ensures { result ≡ self.now.restraint.paused }
    {
        self.flags.paused
    }

    /// Whether the worker is held before its next row.
    pub fn is_held(&self) -> bool
        ensures { result ≡ self.now.restraint.held }
    {
        self.flags.held
    }

    /// The row before which the worker is held, if it is.
    pub fn held_row(&self) -> Option<&Row>
        ensures { option_map (λ row. row.now) result ≡ row_held self.now }
    {
        if !self.flags.held {
            return None;
        }
        self.gains.pending.front()
    }
}
