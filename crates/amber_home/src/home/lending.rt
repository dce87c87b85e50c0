//! The workers of an open leg that get units, are lent out, come back and are settled, and what ends a pause within it.
//! Over `Crew`, `Dataflow`, `Boards`, and what `feeding` does.

ghost use Rattle.std.specs.Prelude.{◌≡◌, OnErr, OnOk, [], true};
ghost use Rattle.amber_dataflow.specs.AtWork.{steps_by, turned_by};
ghost use Rattle.amber_dataflow.specs.Parts.{parts_from};
ghost use Rattle.amber_meaning.specs.State.{steps_in};
ghost use Rattle.amber_home.specs.HomeState.{AreArmed, FeedsLeg, IsWorkedLeg, NoneIsHeld, ResumesLeg};
ghost use Rattle.amber_home.specs.HomeState.{counts_in, is_lent, is_open, has_leg_crew, runs_to_end, spent_at, state_of};
ghost use Rattle.amber_home.specs.Lent.{IsLent};

use super::Home;
use crate::crew::Crew;
use crate::feeding::feed_each;
use crate::phase::{Counts, Phase};
use amber_boards::Boards;
use std::alloc::{AllocError, Global};
use std::mem;

impl Home {
    /// Hands units to one worker of each operator whose count is armed, where it needs one and has none: all that are left
    /// there. It is the worker whose place among those of its operator is what is left of `round` divided by their number, so
    /// that over as many rounds each has its turn. After running out of memory the log is as before, and the run cannot go on.
    pub fn feed(&mut self, round: u64) -> Result<(), AllocError>
        requires within { is_open self.old.phase ≡ true }
        requires armed { counts_in self.old.phase ≡ Counts.Armed }
        ensures ok { OnOk result (FeedsLeg self.old self.new) }
        ensures err { OnErr result
            (self.new ≡ spent_at self.old) }
    {
        let phase = self.phase;
        self.phase = Phase::Spent;
        feed_each(&self.arms, &mut self.boards, &mut self.dataflow, round)?;
        self.phase = phase;
        Ok(())
    }

    /// Hands out all workers of the leg that is open, whose counts are armed, with the boards of these and their chiefs.
    /// Until they come back the home can do nothing else. It takes no memory.
    pub fn lend(&mut self, alloc: Global) -> Crew
        requires within { is_open self.old.phase ≡ true }
        requires armed { counts_in self.old.phase ≡ Counts.Armed }
        ensures home { self.new ≡ record self.old {
          phase = Phase.Lent (runs_to_end self.old.phase);
          parts = [];
          turned = [];
        } }
        ensures lent { IsLent self.new result }
        ensures parts { self.old.parts ≡ parts_from 0 result.workers.items }
        ensures turned { self.old.turned ≡ turned_by result.workers.items }
        ensures steps { steps_by result.workers.items ≡ steps_in (state_of self.old) }
        ensures worked { IsWorkedLeg self.old }
    {
        self.phase = Phase::Lent {
            to_end: self.phase.runs_to_end(),
        };
        let (boards, chiefs) = mem::replace(&mut self.boards, Boards::new(alloc)).lend();
        Crew {
            workers: self.dataflow.lend(alloc),
            boards,
            chiefs,
        }
    }

    /// Takes workers of the leg in again, with its boards and their chiefs, whose hands are empty, wherever they stand by now.
    /// What they have sent may still be on its way: nothing can be done but `settle`. It takes no memory.
    pub fn take_back(&mut self, crew: Crew)
        requires away { is_lent self.old.phase ≡ true }
        requires crew { IsLent self.old crew }
        ensures { self.new ≡ record self.old {
          phase = Phase.Unsettled (runs_to_end self.old.phase);
          parts = parts_from 0 crew.workers.items;
          turned = turned_by crew.workers.items;
        } }
    {
        self.back = crew.workers;
        self.boards = Boards::take_back(crew.boards, crew.chiefs);
        self.phase = Phase::Unsettled {
            to_end: self.phase.runs_to_end(),
        };
    }

    /// Moves all that the workers have sent into the inboxes of its receivers. After running out of memory the log is as
    /// before, and the run cannot go on.
    pub fn settle(&mut self, alloc: Global) -> Result<(), AllocError>
        requires back { has_leg_crew self.old.phase ≡ true }
        ensures ok { OnOk result (self.new ≡ record self.old {
          phase = Phase.Open (runs_to_end self.old.phase) (counts_in self.old.phase);
        }) }
        ensures worked { OnOk result (IsWorkedLeg self.new) }
        ensures err { OnErr result
            (self.new ≡ spent_at self.old) }
    {
        if self.phase.is_open() {
            return Ok(());
        }
        let phase = Phase::Open {
            to_end: self.phase.runs_to_end(),
            counts: Counts::Armed,
        };
        self.phase = Phase::Spent;
        let workers = mem::replace(&mut self.back, Vec::new(alloc));
        self.dataflow.take_back(workers)?;
        self.phase = phase;
        Ok(())
    }

    /// Each worker goes on that was paused, where nobody is held. After running out of memory the log is as before, and the
    /// run cannot go on.
    pub fn resume(&mut self) -> Result<(), AllocError>
        requires within { is_open self.old.phase ≡ true }
        requires loose { NoneIsHeld self.old }
        requires armed { AreArmed self.old }
        ensures ok { OnOk result (ResumesLeg self.old self.new) }
        ensures err { OnErr result
            (self.new ≡ spent_at self.old) }
    {
        let phase = self.phase;
        self.phase = Phase::Spent;
        self.dataflow.resume()?;
        self.phase = phase;
        Ok(())
    }

    /// Ends the run in whatever phase it is, where memory ran out outside of the home. It cannot go on after that, and
    /// workers that are away do not come back.
    pub fn give_up(&mut self)
        ensures { self.new ≡ spent_at self.old }
    {
        self.phase = Phase::Spent;
    }
}
