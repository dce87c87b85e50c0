//! The steps that a worker makes, each after it has dealt with its hand of units, and the turn that makes one of them.
//! Rests on `standing`, `links`, `counting` and `journal`, and on what `amber_operators` does with rows.

ghost use Rattle.std.specs.Prelude.{false, true, IfNone, IfSome, length, slice_index_or, IfOk, OnErr, OnOk, ◌≡◌, ◌≢◌, ◌^◌, ◌<◌, ℕ};
ghost use Rattle.std.specs.Option.{option_copied};
ghost use Rattle.amber_link.specs.Links.{has_some};
ghost use Rattle.amber_link.specs.Sides.{have_all_ended};
ghost use Rattle.amber_link.specs.declared.upstreams.Upstream.{Upstream as OneUpstream};
ghost use Rattle.amber_worker.specs.Acting.{MayDeal};
ghost use Rattle.amber_worker.specs.Counting.{IsBoardOf};
ghost use Rattle.amber_worker.specs.WorkerState.{IsUnrestrained, has_ready, must_hold, steps_made};
ghost use Rattle.amber_worker.specs.Steps.{TakesRow};
ghost use Rattle.amber_worker.specs.AtPosition.{IsLookedAt};
ghost use Rattle.amber_worker.specs.Links.{MayTakeAt};
ghost use Rattle.amber_worker.specs.Turning.{FinishesDealing, TakesDealing, TurnsDealing};

use super::Worker;
use crate::counting::{Dealing, count_one, deal, is_starved};
use crate::holding::is_first_watched;
use crate::links::{emit_first, end_streams, first_place, give_rows_back, rows_back};
use crate::turn::Turn;
use amber_board::Board;
use amber_link::{Found, have_built, have_ended, ready_place, take_at};
use amber_log::Entry;
use amber_operators::{
    close, closes_at, closing_of, is_last, leave_readied, ready_next, side_columns, take_next,
    take_readied, turn_to,
};
use std::alloc::AllocError;
use std::collections::VecDeque;
use std::mem;

impl Worker {
    // Whether a row is pending.
    pub(super) fn has_pending(&self) -> bool
        ensures { result ≡ has_some self.now.pending }
    {
        !self.gains.pending.is_empty()
    }

    // Whether something is left that was handed.
    pub(super) fn has_rest(&self) -> bool
        ensures { result ≡ has_some self.now.rest }
    {
        !self.rest.is_empty()
    }

    // Has rows that a receiver is done with, to write over, where none is left and it is time to look.
    #[inline(always)]
    fn fetch_used(&mut self)
        ensures { self.new ≡ self.old }
    {
        if self.gains.free.is_empty()
            && self.operator_state.makes_rows()
            && self.gains.free.is_due()
        {
            self.gains.free.trade(&mut self.outs);
        }
    }

    // Gives the rows that are done with back to the sender of the batch that was at hand.
    pub(super) fn return_used(&mut self)
        ensures { self.new ≡ self.old }
    {
        let from = self.rest.from;
        if !self.gains.done.is_empty() {
            let rows = self.gains.done.exchange(Vec::new(self.alloc));
            give_rows_back(&mut self.ins, from, rows);
        }
    }

    // What passes rows hands those on with which a receiver of its own is done.
    pub(super) fn pass_used(&mut self)
        ensures { self.new ≡ self.old }
    {
        if !self.operator_state.passes_rows() {
            return;
        }
        let from = self.rest.from;
        if let Some(rows) = rows_back(&mut self.outs) {
            give_rows_back(&mut self.ins, from, rows);
        }
    }

    // Whether the next row holds the worker: it meets the condition, and was not waved on.
    #[inline(always)]
    pub(super) fn must_hold(&self) -> bool
        ensures { result ≡ must_hold self.now }
    {
        is_first_watched(&self.when, &self.gains.pending) && !self.flags.waved
    }

    // Deals with the hand so, and stands before the next row, which meets the condition.
    fn hold(&mut self, board: Option<&Board>, how: Dealing) -> Result<Turn, AllocError>
        requires own { IsBoardOf (option_copied board) self.old.seat }
        requires may { MayDeal how self.old }
        requires free { IsUnrestrained self.old }
        requires some { has_some self.old.pending ≡ true }
        requires must { must_hold self.old ≡ true }
        ensures own { IsBoardOf (option_copied board.entry) self.new.seat }
        ensures ok { IfOk result (TurnsDealing how self.old self.new) }
        ensures err { OnErr result (self.new ≡ self.old) }
    {
        self.journal.reserve(2)?;
        deal(how, &mut self.seat, &mut self.journal, board);
        if is_starved(&self.seat) {
            return Ok(Turn::Starved);
        }
        self.journal.push(Entry::Hold);
        self.flags.held = true;
        Ok(Turn::Held)
    }

    // Deals with the hand so, and emits the first pending row, where it has a unit for it.
    fn emit_row(&mut self, board: Option<&Board>, how: Dealing) -> Result<Turn, AllocError>
        requires few { steps_made self.old < 2 ^ 40 }
        requires own { IsBoardOf (option_copied board) self.old.seat }
        requires may { MayDeal how self.old }
        requires free { IsUnrestrained self.old }
        requires some { has_some self.old.pending ≡ true }
        requires must { must_hold self.old ≡ false }
        ensures own { IsBoardOf (option_copied board.entry) self.new.seat }
        ensures ok { IfOk result (TurnsDealing how self.old self.new) }
        ensures err { OnErr result (self.new ≡ self.old) }
    {
        self.journal.reserve(2)?;
        let outs = self.outs.as_mut_slice();
        let place = first_place(&self.route, &self.gains.pending, outs)?;
        deal(how, &mut self.seat, &mut self.journal, board);
        if is_starved(&self.seat) {
            return Ok(Turn::Starved);
        }
        emit_first(place, &mut self.gains.pending, outs);
        count_one(&mut self.seat, board);
        self.journal.note_go(0, 1);
        self.emitted += 1;
        self.flags.waved = false;
        Ok(Turn::Moved)
    }

    // Takes the next of what is left, over the used rows that it has.
    fn take_left(&mut self) -> Result<(), AllocError>
        requires few { steps_made self.old < 2 ^ 40 }
        requires some { has_some self.old.rest ≡ true }
        requires none { has_some self.old.pending ≡ false }
        ensures ok { OnOk result (TakesRow self.old self.new) }
        ensures err { OnErr result (self.new ≡ self.old) }
    {
        self.journal.reserve(1)?;
        let over = is_last(&self.operator_state, &self.rest, self.ins.as_slice());
        let columns = side_columns(self.building, &self.build_columns, &self.columns);
        take_next(
            &mut self.rest,
            self.op,
            columns,
            self.building,
            over,
            &mut self.operator_state,
            &mut self.gains,
        )?;
        self.journal.note_go(1, 0);
        self.taken += 1;
        Ok(())
    }

    // The place of a sender from which a batch may be taken. None is taken, but more may be known.
    fn ready(&mut self) -> Option<usize>
        ensures looked { IsLookedAt self.old self.new }
        ensures none { IfNone result (has_ready self.new.ins ≡ false) }
        ensures some { IfSome result (λ _. has_ready self.new.ins ≡ true) }
        ensures there { IfSome result (λ place. place < length self.new.ins) }
        ensures may { IfSome result (λ place. MayTakeAt self.new.ins place) }
    {
        let built = have_built(self.ins.as_slice());
        ready_place(self.ins.as_mut_slice(), built)
    }

    // Deals with the hand so, and takes the first batch of the sender at this place.
    pub(super) fn take_from(
        &mut self,
        board: Option<&Board>,
        how: Dealing,
        place: usize,
    ) -> Result<(), AllocError>
        requires few { steps_made self.old < 2 ^ 40 }
        requires own { IsBoardOf (option_copied board) self.old.seat }
        requires none { has_some self.old.pending ≡ false }
        requires used { has_some self.old.rest ≡ false }
        requires there { place < length self.old.ins }
        requires from { MayTakeAt self.old.ins place }
        requires ready { has_ready self.old.ins ≡ true }
        ensures own { IsBoardOf (option_copied board.entry) self.new.seat }
        ensures ok { OnOk result (TakesDealing how self.old self.new) }
        ensures others { OnOk result ((other : ℕ) (d : OneUpstream) → other ≢ place
            → slice_index_or self.new.ins other d ≡ slice_index_or self.old.ins other d) }
        ensures err { OnErr result (self.new ≡ self.old) }
    {
        let asked = closes_at(self.ins.as_slice(), place);
        self.journal.reserve(2)?;
        let last = closing_of(self.alloc, &self.operator_state, asked)?;
        deal(how, &mut self.seat, &mut self.journal, board);
        let Found {
            from,
            builds,
            seq,
            batch,
        } = take_at(self.ins.as_mut_slice(), place);
        close(&mut self.gains.pending, last, self.ins.as_slice());
        turn_to(&mut self.operator_state, builds);
        self.building = builds;
        self.journal.push(Entry::Take { from, batch: seq });
        self.rest.from = from;
        let rows = VecDeque::from_vec(batch.rows.into_inner());
        let emptied = mem::replace(&mut self.rest.rows, rows);
        self.gains.done.fill(Vec::from(emptied));
        self.batches += 1;
        Ok(())
    }

    // Deals with the hand so, and finishes, where the last batches of all senders were taken.
    pub(super) fn finish(&mut self, board: Option<&Board>, how: Dealing) -> Result<(), AllocError>
        requires few { steps_made self.old < 2 ^ 40 }
        requires own { IsBoardOf (option_copied board) self.old.seat }
        requires free { IsUnrestrained self.old }
        requires none { has_some self.old.pending ≡ false }
        requires used { has_some self.old.rest ≡ false }
        requires ended { have_all_ended self.old.ins ≡ true }
        ensures own { IsBoardOf (option_copied board.entry) self.new.seat }
        ensures ok { OnOk result (FinishesDealing how self.old self.new) }
        ensures err { OnErr result (self.new ≡ self.old) }
    {
        self.journal.reserve(2)?;
        end_streams(self.outs.as_mut_slice())?;
        deal(how, &mut self.seat, &mut self.journal, board);
        self.journal.push(Entry::Finish);
        self.finished = true;
        Ok(())
    }

    // Deals with the hand so, and takes a batch where one is known, or finishes where nothing more can come.
    fn go_on(&mut self, board: Option<&Board>, how: Dealing) -> Result<Turn, AllocError>
        requires few { steps_made self.old < 2 ^ 40 }
        requires own { IsBoardOf (option_copied board) self.old.seat }
        requires may { MayDeal how self.old }
        requires free { IsUnrestrained self.old }
        requires none { has_some self.old.pending ≡ false }
        requires used { has_some self.old.rest ≡ false }
        ensures own { IsBoardOf (option_copied board.entry) self.new.seat }
        ensures ok { IfOk result (TurnsDealing how self.old self.new) }
        ensures err { OnErr result (IsLookedAt self.old self.new) }
    {
        if let Some(place) = self.ready() {
            self.return_used();
            self.pass_used();
            self.take_from(board, how, place)?;
            return Ok(Turn::Moved);
        }
        if have_ended(self.ins.as_slice()) {
            self.finish(board, how)?;
            return Ok(Turn::Moved);
        }
        self.deal_with(board, how)?;
        Ok(Turn::Idle)
    }

    // Claims, and takes the next of what is left, where it has a unit then.
    fn take_claiming(&mut self, board: Option<&Board>) -> Result<Turn, AllocError>
        requires few { steps_made self.old < 2 ^ 40 }
        requires own { IsBoardOf (option_copied board) self.old.seat }
        requires may { MayDeal Dealing.Claims self.old }
        requires free { IsUnrestrained self.old }
        requires none { has_some self.old.pending ≡ false }
        requires some { has_some self.old.rest ≡ true }
        ensures own { IsBoardOf (option_copied board.entry) self.new.seat }
        ensures ok { IfOk result (TurnsDealing Dealing.Claims self.old self.new) }
        ensures err { OnErr result (self.new ≡ self.old) }
    {
        self.journal.reserve(2)?;
        let over = is_last(&self.operator_state, &self.rest, self.ins.as_slice());
        let columns = side_columns(self.building, &self.build_columns, &self.columns);
        let readied = ready_next(
            &mut self.rest,
            columns,
            self.building,
            over,
            &mut self.operator_state,
            &mut self.gains,
        )?;
        deal(Dealing::Claims, &mut self.seat, &mut self.journal, board);
        if is_starved(&self.seat) {
            leave_readied(
                readied,
                &mut self.rest,
                &mut self.operator_state,
                &mut self.gains,
            );
            return Ok(Turn::Starved);
        }
        take_readied(readied, &mut self.rest, self.op, &mut self.gains);
        self.journal.note_go(1, 0);
        self.taken += 1;
        Ok(Turn::Moved)
    }

    // Deals with the hand so, and takes the next of what is left, where it has a unit.
    #[inline(always)]
    fn take_row(&mut self, board: Option<&Board>, how: Dealing) -> Result<Turn, AllocError>
        requires few { steps_made self.old < 2 ^ 40 }
        requires own { IsBoardOf (option_copied board) self.old.seat }
        requires may { MayDeal how self.old }
        requires free { IsUnrestrained self.old }
        requires none { has_some self.old.pending ≡ false }
        requires some { has_some self.old.rest ≡ true }
        ensures own { IsBoardOf (option_copied board.entry) self.new.seat }
        ensures ok { IfOk result (TurnsDealing how self.old self.new) }
        ensures err { OnErr result (self.new ≡ self.old) }
    {
        match how {
            Dealing::Nothing => {
                if is_starved(&self.seat) {
                    return Ok(Turn::Starved);
                }
                self.fetch_used();
                self.take_left()?;
                Ok(Turn::Moved)
            }
            Dealing::Claims => self.take_claiming(board),
            Dealing::Returns => {
                self.deal_with(board, how)?;
                Ok(Turn::Starved)
            }
        }
    }

    // Deals with the hand so, and makes one step, if there is one to make. The journal says which.
    #[inline(always)]
    pub(super) fn make_turn(
        &mut self,
        board: Option<&Board>,
        how: Dealing,
    ) -> Result<Turn, AllocError>
        requires few { steps_made self.old < 2 ^ 40 }
        requires own { IsBoardOf (option_copied board) self.old.seat }
        requires may { MayDeal how self.old }
        ensures own { IsBoardOf (option_copied board.entry) self.new.seat }
        ensures ok { IfOk result (TurnsDealing how self.old self.new) }
        ensures err { OnErr result (IsLookedAt self.old self.new) }
    {
        if self.stands_still() {
            return self.stand(board, how);
        }
        if self.has_pending() {
            if self.must_hold() {
                return self.hold(board, how);
            }
            return self.emit_row(board, how);
        }
        if self.has_rest() {
            return self.take_row(board, how);
        }
        self.go_on(board, how)
    }
}
