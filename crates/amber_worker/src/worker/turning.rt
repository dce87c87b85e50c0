//! What a worker does that is told something, and the turn that it makes then. Rests on `make_turn` of `stepping`.

ghost use Rattle.std.specs.Prelude.{IfNone, IfOk, IfSome, None, OnErr, Some, ◌≡◌, ◌^◌, ◌<◌};
ghost use Rattle.std.specs.Option.{option_copied};
ghost use Rattle.amber_worker.specs.Acting.{IsDealingUnder, MayDeal, paused_at};
ghost use Rattle.amber_worker.specs.AtPosition.{HasSameEnds, IsLookedAt, KeepsUnder};
ghost use Rattle.amber_worker.specs.Counting.{IsBoardOf};
ghost use Rattle.amber_worker.specs.Fields.{AreShort};
ghost use Rattle.amber_worker.specs.Links.{HaveSentNothing};
ghost use Rattle.amber_worker.specs.Turning.{MakesTurn, TurnsUnder};
ghost use Rattle.amber_worker.specs.WorkerState.{is_armed, steps_made};

use super::Worker;
use crate::counting::{Dealing, hand_of};
use crate::turn::Turn;
use amber_board::Board;
use amber_log::Entry;
use amber_mail::Control;
use std::alloc::AllocError;

impl Worker {
    // The worker is paused, where it has not finished, and makes no step.
    fn pause(&mut self) -> Result<Turn, AllocError>
        ensures ok { IfOk result (MakesTurn (paused_at self.old) self.new) }
        ensures seat { self.new.seat ≡ self.old.seat }
        ensures err { OnErr result (self.new ≡ self.old) }
    {
        if self.finished {
            return Ok(Turn::Ended);
        }
        if !self.flags.paused {
            self.journal.reserve(1)?;
            self.journal.push(Entry::Pause);
            self.flags.paused = true;
        }
        Ok(Turn::Paused)
    }

    // What the worker does with its hand that is told this; nothing where it is told to pause.
    pub(super) fn dealing_told(&self, control: Control) -> Option<Dealing>
        ensures pause { IfNone result (control ≡ Control.Pause) }
        ensures is { IfSome result (IsDealingUnder (Some control) self.now) }
        ensures may { IfSome result (λ how. MayDeal how self.now) }
    {
        match control {
            Control::Pause => None,
            Control::Claim => {
                if self.seat.is_some() && !self.finished {
                    Some(Dealing::Claims)
                } else {
                    Some(Dealing::Nothing)
                }
            }
            Control::Return => {
                if hand_of(&self.seat) > 0 {
                    Some(Dealing::Returns)
                } else {
                    Some(Dealing::Nothing)
                }
            }
        }
    }

    // The same, and nothing is done where nothing is told.
    #[inline(always)]
    fn dealing_under(&self, control: Option<Control>) -> Option<Dealing>
        ensures pause { IfNone result (control ≡ Some Control.Pause) }
        ensures is { IfSome result (IsDealingUnder control self.now) }
        ensures may { IfSome result (λ how. MayDeal how self.now) }
        ensures short { AreShort self.now.journal }
    {
        self.show_short();
        match control {
            None => Some(Dealing::Nothing),
            Some(control) => self.dealing_told(control),
        }
    }

    // What the entries of the journal move is little. It does nothing.
    #[inline(always)]
    pub(super) fn show_short(&self)
        ensures { AreShort self.now.journal }
    {
        let _journal = &self.journal;
    }

    // The turn of a worker that is told to pause, as `turn` makes it.
    #[inline(always)]
    pub(super) fn turn_paused(&mut self) -> Result<Turn, AllocError>
        ensures keeps { KeepsUnder (is_armed self.old) self.old self.new }
        ensures turned { IfOk result (TurnsUnder (Some Control.Pause) self.old self.new) }
        ensures err { OnErr result (IsLookedAt self.old self.new) }
        ensures ends { HasSameEnds self.old self.new }
        ensures seat { self.new.seat ≡ self.old.seat }
    {
        self.show_short();
        self.pause()
    }

    // The turn of a worker that is told nothing, as `turn` makes it. No call of it deals with units, so none is compiled into it.
    #[inline(always)]
    pub(super) fn turn_untold(&mut self, board: Option<&Board>) -> Result<Turn, AllocError>
        requires few { steps_made self.old < 2 ^ 40 }
        requires own { IsBoardOf (option_copied board) self.old.seat }
        ensures own { IsBoardOf (option_copied board.entry) self.new.seat }
        ensures keeps { KeepsUnder (is_armed self.old) self.old self.new }
        ensures turned { IfOk result (TurnsUnder None self.old self.new) }
        ensures err { OnErr result (IsLookedAt self.old self.new) }
        ensures ends { HasSameEnds self.old self.new }
    {
        self.show_short();
        self.make_turn(board, Dealing::Nothing)
    }

    /// Does what the worker is told, and makes one step, if there is one to make; the journal says what it did. The
    /// board is that of its operator's count, and is there exactly where one is armed. If memory runs out all is as
    /// before, but for batches that were seen in a ring: what it was told is not done.
    #[inline(always)]
    pub fn turn(
        &mut self,
        board: Option<&Board>,
        control: Option<Control>,
    ) -> Result<Turn, AllocError>
        requires few { steps_made self.old < 2 ^ 40 }
        requires own { IsBoardOf (option_copied board) self.old.seat }
        ensures own { IsBoardOf (option_copied board.entry) self.new.seat }
        ensures keeps { KeepsUnder (is_armed self.old) self.old self.new }
        ensures turned { IfOk result (TurnsUnder control self.old self.new) }
        ensures err { OnErr result (IsLookedAt self.old self.new) }
        ensures ends { HasSameEnds self.old self.new }
        ensures unsent { HaveSentNothing self.old.outs self.new.outs }
    {
        let Some(how) = self.dealing_under(control) else {
            return self.pause();
        };
        self.make_turn(board, how)
    }
}
