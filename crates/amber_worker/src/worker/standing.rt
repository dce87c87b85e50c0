//! What stands still: why a worker does whatever comes, and a turn that deals with the hand of units and makes no step.
//! Rests on `counting` and `journal`.

ghost use Rattle.std.specs.Prelude.{false, true, IfOk, OnErr, OnOk, ◌≡◌};
ghost use Rattle.std.specs.Option.{option_copied};
ghost use Rattle.amber_worker.specs.Acting.{DealsAt};
ghost use Rattle.amber_worker.specs.Counting.{IsBoardOf};
ghost use Rattle.amber_worker.specs.WorkerState.{IsUnrestrained, StandsStill, WorkerState, stands_still};
ghost use Rattle.amber_worker.specs.Turning.{TurnsDealing};

use super::Worker;
use crate::counting::{Dealing, deal};
use crate::turn::Turn;
use amber_board::Board;
use std::alloc::AllocError;

impl Worker {
    // Whether the worker stands still whatever comes: it has finished, it is paused, or it is held.
    #[inline(always)]
    pub(super) fn stands_still(&self) -> bool
        ensures still { result ≡ stands_still self.now }
        ensures free { result ≡ false → IsUnrestrained self.now }
    {
        self.finished | self.flags.paused | self.flags.held
    }

    // Why the worker stands still.
    fn standing(&self) -> Turn
        requires { stands_still self.now ≡ true }
        ensures { StandsStill self.now result }
    {
        if self.finished {
            return Turn::Ended;
        }
        if self.flags.paused {
            return Turn::Paused;
        }
        Turn::Held
    }

    // Deals with the hand so, and makes no step.
    pub(super) fn deal_with(
        &mut self,
        board: Option<&Board>,
        how: Dealing,
    ) -> Result<(), AllocError>
        requires { IsBoardOf (option_copied board) self.old.seat }
        ensures own { IsBoardOf (option_copied board.entry) self.new.seat }
        ensures ok { OnOk result (DealsAt how self.old self.new) }
        ensures err { OnErr result (self.new ≡ self.old) }
    {
        self.journal.reserve(2)?;
        deal(how, &mut self.seat, &mut self.journal, board);
        Ok(())
    }

    // Deals with the hand so, where the worker stands still.
    pub(super) fn stand(&mut self, board: Option<&Board>, how: Dealing) -> Result<Turn, AllocError>
        requires own { IsBoardOf (option_copied board) self.old.seat }
        requires still { stands_still self.old ≡ true }
        ensures own { IsBoardOf (option_copied board.entry) self.new.seat }
        ensures ok { IfOk result (TurnsDealing how self.old self.new) }
        ensures err { OnErr result (self.new ≡ self.old) }
    {
        let turn = self.standing();
        self.deal_with(board, how)?;
        Ok(turn)
    }
}
