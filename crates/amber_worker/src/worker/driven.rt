//! Many turns of a worker in one call, each under what a mail says, and what waits sent between them. Rests on
//! `Worker::turn` of `turning` and on `driving`.

ghost use Rattle.std.specs.Prelude.{All, IfOk, IfSome, OnErr, OnOk, Some, [], ℕ, true, ◌≡◌, ◌+◌, ◌^◌, ◌<◌, ◌≤◌};
ghost use Rattle.std.specs.Option.{option_copied};
ghost use Rattle.amber_link.specs.Sides.{CanSendNoMore};
ghost use Rattle.amber_worker.specs.Counting.{IsBoardOf};
ghost use Rattle.amber_worker.specs.Driving.{BreaksOff, CountsTurns, Drives, DrivesOnce, HasSent, OnlyLooks, StandsAfter, was_stopped, with_turns};
ghost use Rattle.amber_worker.specs.Turning.{IsCalm, MakesTurns, StaysCalm};
ghost use Rattle.amber_worker.specs.WorkerState.{steps_made};

use super::Worker;
use crate::driving::{Drove, Noted, stops};
use crate::turn::Turn;
use amber_board::Board;
use amber_link::send_all;
use amber_mail::{Gate, Mail, is_pause};
use std::alloc::AllocError;

// After so many turns of a drive what waits is sent at the latest.
const SENDS: u32 = 32;

impl Worker {
    // Sends what waits for the receivers, as far as their rings have room.
    fn send(&mut self)
        ensures sends { HasSent self.old self.new }
        ensures all { All CanSendNoMore self.new.outs }
    {
        send_all(self.outs.as_mut_slice());
    }

    // So many turns more were driven.
    fn count_turns(&mut self, turns: u32)
        ensures { self.new ≡ with_turns turns self.old }
    {
        self.turned = self.turned.saturating_add(u64::from(turns));
    }

    // Sends what waits, where no turn more may pass before. The answer is how many turns may pass then.
    #[inline(always)]
    fn send_after(&mut self, turns: u32) -> u32
        requires { 0 < turns }
        ensures sends { HasSent self.old self.new }
        ensures some { 0 < result }
    {
        if turns > 1 {
            return turns - 1;
        }
        self.send();
        SENDS
    }

    // One turn of a drive, so many before which are not counted yet: the gate is passed, a look is made, and a turn is
    // made under its answer.
    #[inline(always)]
    fn drive_once<M: Mail, G: Gate>(
        &mut self,
        board: Option<&Board>,
        mail: &mut M,
        gate: &G,
        made: u32,
    ) -> Result<Turn, AllocError>
        requires looks { M.looks mail.old + 1 < 2 ^ 64 }
        requires few { steps_made self.old < 2 ^ 40 }
        requires own { IsBoardOf (option_copied board) self.old.seat }
        ensures own { IsBoardOf (option_copied board.entry) self.new.seat }
        ensures drives { IfOk result (DrivesOnce
            (record {
              worker = self.old;
              looks = M.looks mail.old;
              pauses = M.pauses mail.old;
              plan = M.plan mail.old;
            })
            (record {
              worker = self.new;
              looks = M.looks mail.new;
              pauses = M.pauses mail.new;
              plan = M.plan mail.new;
            })) }
        ensures breaks { OnErr result (OnlyLooks
            (record {
              worker = self.old;
              looks = M.looks mail.old;
              pauses = M.pauses mail.old;
              plan = M.plan mail.old;
            })
            (record {
              worker = self.new;
              looks = M.looks mail.new;
              pauses = M.pauses mail.new;
              plan = M.plan mail.new;
            })) }
    {
        gate.pass(self.number(), self.turned().saturating_add(u64::from(made)));
        let deals = mail.may_deal();
        let control = mail.look();
        if deals {
            let turn = self.turn(board, control)?;
            return Ok(turn);
        }
        if is_pause(control) {
            let turn = self.turn_paused()?;
            return Ok(turn);
        }
        let turn = self.turn_untold(board)?;
        Ok(turn)
    }

    // The end of a drive of so many turns: they are counted, and what waits is sent.
    fn end_drive(&mut self, turns: u32, last: Option<Turn>) -> Drove
        ensures sends { HasSent (with_turns turns self.old) self.new }
        ensures all { All CanSendNoMore self.new.outs }
        ensures turns { result.turns ≡ turns }
        ensures last { result.last ≡ last }
    {
        self.count_turns(turns);
        self.send();
        Drove { turns, last }
    }

    /// Makes turns, at most `budget`. For each the gate is passed, with the worker's running number and the turns that
    /// it was driven for since its leg began, one look is made into the mail, and one turn is made under its answer.
    /// It ends early exactly where a turn comes to `Ended`, `Held` or `Paused`. What waits for receivers is sent after
    /// every 32 turns and at the end. If memory runs out the looks made stand, the worker is as the turns before left
    /// it, and what the last look answered was not done.
    pub fn drive<M: Mail, G: Gate>(
        &mut self,
        board: Option<&Board>,
        mail: &mut M,
        gate: &G,
        budget: u32,
    ) -> Result<Drove, AllocError>
        requires looks { M.looks mail.old + budget < 2 ^ 64 }
        requires few { steps_made self.old + budget ≤ 2 ^ 40 }
        requires own { IsBoardOf (option_copied board) self.old.seat }
        ensures own { IsBoardOf (option_copied board.entry) self.new.seat }
        ensures drives { IfOk result (Drives
            (record {
              worker = self.old;
              looks = M.looks mail.old;
              pauses = M.pauses mail.old;
              plan = M.plan mail.old;
            })
            (record {
              worker = self.new;
              looks = M.looks mail.new;
              pauses = M.pauses mail.new;
              plan = M.plan mail.new;
            })) }
        ensures counts { IfOk result (λ drove. CountsTurns drove.turns self.old self.new) }
        ensures some { IfOk result (λ drove. 0 < budget → 0 < drove.turns) }
        ensures within { IfOk result (λ drove. drove.turns ≤ budget) }
        ensures early { IfOk result
            (λ drove. drove.turns < budget → was_stopped drove.last ≡ true) }
        ensures stands { IfOk result (λ drove. IfSome drove.last (StandsAfter self.new)) }
        ensures sends { OnOk result (All CanSendNoMore self.new.outs) }
        ensures breaks { OnErr result (BreaksOff
            (record {
              worker = self.old;
              looks = M.looks mail.old;
              pauses = M.pauses mail.old;
              plan = M.plan mail.old;
            })
            (record {
              worker = self.new;
              looks = M.looks mail.new;
              pauses = M.pauses mail.new;
              plan = M.plan mail.new;
            })) }
        ensures makes { (n : ℕ)
            → n + M.looks mail.old + M.pauses mail.new ≡ M.looks mail.new + M.pauses mail.old
            → MakesTurns n self.old self.new }
        ensures calm { IsCalm self.old → M.plan mail.old ≡ Some []
            → StaysCalm self.old self.new }
    {
        let mut noted = Noted::nothing(self.emitted());
        let mut last = None;
        let mut unsent = SENDS;
        'turns: for made in 0..budget {
            let turn = match self.drive_once(board, mail, gate, made) {
                Ok(turn) => turn,
                Err(error) => {
                    self.count_turns(made);
                    return Err(error);
                }
            };
            noted.note(mail, turn, self.is_finished(), self.emitted());
            last = Some(turn);
            if stops(turn) {
                return Ok(self.end_drive(made + 1, last));
            }
            unsent = self.send_after(unsent);
        }
        Ok(self.end_drive(budget, last))
    }

    /// For how many turns the worker was driven since its leg began.
    pub fn turned(&self) -> u64
        ensures { result ≡ self.now.turned }
    {
        self.turned
    }
}
