//! The home of a run: what it keeps, and its calls. Over `Dataflow`, `Boards`, `InForce` and the functions of the other
//! files.

ghost use Rattle.std.specs.Prelude.{◌≡◌, ◌+◌, ◌^◌, ◌<◌, ◌≤◌, ◌≢◌, ℕ, [], IfOk, None, OnErr, OnOk, false, true, length, replicate};
ghost use Rattle.amber_rows.specs.Topology.{crew_of};
ghost use Rattle.amber_log.specs.Fits.{fits_of};
ghost use Rattle.amber_log.specs.Grammar.{ends_over};
ghost use Rattle.amber_log.specs.declared.log.Item.TheVariants as item;
ghost use Rattle.amber_meaning.specs.Legal.{leg_start};
ghost use Rattle.amber_meaning.specs.Plain.{scan_count, wrong_header};
ghost use Rattle.amber_meaning.specs.State.{emitted_by, have_finished, steps_in};
ghost use Rattle.amber_meaning.specs.Views.{answer_in};
ghost use Rattle.amber_home.specs.Beginning.{BeginsOrNames};
ghost use Rattle.amber_home.specs.HomeState.{AreArmed, ClosesIn, DisarmsLeg, MayClose, MovesOrHolds, NoneIsPaused, StepsOn};
ghost use Rattle.amber_home.specs.HomeState.{counts_in, dropped_by, is_done_at_rest, is_open, query_of, rest_state, runs_to_end, spent_at, state_of};
ghost use Rattle.amber_home.specs.HomeState.{stops_of_home, with_item, with_closed_leg};

mod lending;
mod reading;
mod redoing;
mod replacing;

use crate::applying::{condition_for, conditions_for, copies_for, push_command, put_in_force};
use crate::error::HomeErr;
use crate::in_force::InForce;
use crate::leg_item::push_leg;
use crate::phase::{Counts, Phase};
use crate::stepping::step_next;
use crate::stopping::close_arms;
use crate::stops::stops_of;
use amber_boards::Boards;
use amber_dataflow::Dataflow;
use amber_log::{Action, Close, Command, Items, Leg, Log, commands_have_text};
use amber_meaning::{Answer, Stops, wrong_header};
use amber_rows::{Files, Flow, Row};
use amber_worker::Worker;
use std::alloc::{AllocError, Global};
use std::marker::Model;
use std::thread::Threads;

/// The home of a run, seen as a `HomeState`.
#[derive(Drop)]
pub struct Home {
    dataflow: Dataflow,
    files: Files,
    most: u64,
    log: Log,
    // Within a call that may want memory in a leg it is `Spent`, and so it stays if the call breaks off.
    phase: Phase,
    arms: InForce,
    // Those of the leg that is open, once its counts are armed.
    boards: Boards,
    // The stops of the last leg, as they stood before its end took any away.
    stops: Stops,
    // The workers of a leg that have come back, until they are settled.
    back: Vec<Worker>,
    // For how many steps `home_step` was called since a leg was last opened.
    alone: u64,
}

impl Model for Home {
    ghost use Rattle.amber_home.specs.HomeState.{HomeState};
    ghost use Rattle.amber_home.specs.Parts.{open_parts, open_turned};

    ghost Value = { HomeState };

    ghost view = { λ a. record {
      flow = a.dataflow.flow;
      files = a.files;
      most = a.most;
      log = a.log;
      phase = a.phase;
      parts = open_parts a.phase (record {
        dataflow = a.dataflow;
        arms = a.arms;
        boards = a.boards;
        stops = a.stops;
        back = a.back.items;
      });
      alone = a.alone;
      turned = open_turned a.phase (record {
        dataflow = a.dataflow;
        arms = a.arms;
        boards = a.boards;
        stops = a.stops;
        back = a.back.items;
      });
    } };

    ghost use Rattle.amber_home.specs.Kept.{IsHomeOf};

    ghost invariant = { λ a. IsHomeOf
        (λ live. record {
          flow = a.dataflow.flow;
          files = a.files;
          most = a.most;
          log = a.log;
          phase = a.phase;
          parts = open_parts a.phase live;
          alone = a.alone;
          turned = open_turned a.phase live;
        })
        (record {
          dataflow = a.dataflow;
          arms = a.arms;
          boards = a.boards;
          stops = a.stops;
          back = a.back.items;
        }) };
}

impl Home {
    /// The home of a run that has not begun: of a workflow over the files of its scans, with this many rows
    /// in a batch, 1 to 65,536, and at most `most` steps, 2^40 or fewer. Where the lines of the files begin is
    /// noted on so many threads, 0 counted as 1.
    ///
    /// # Errors
    ///
    /// `Header` with the first scan whose file does not begin with the names of its columns.
    pub fn new<R: Threads + Sync>(
        rt: &R,
        alloc: Global,
        flow: Flow,
        files: Files,
        batch_size: u32,
        most: u64,
        threads: u32,
    ) -> Result<Home, HomeErr>
        requires one_each { length files ≡ scan_count flow }
        requires some { 0 < batch_size }
        requires few { batch_size ≤ 65536 }
        requires steps { most ≤ 2 ^ 40 }
        ensures begins { IfOk result (λ home. home ≡ record {
          flow = flow;
          files = files;
          most = most;
          log = record { batch = batch_size; items = [] };
          phase = Phase.Resting;
          parts = [];
          alone = 0;
          turned = home.turned;
        }) }
        ensures header { BeginsOrNames result flow files }
    {
        if let Some(op) = wrong_header(alloc, &flow, &files)? {
            return Err(HomeErr::Header(op));
        }
        Ok(Home::start_checked(rt, alloc, flow, files, batch_size, most, threads)?)
    }

    /// The same, where each file is known to begin with the names of its columns.
    pub fn start_checked<R: Threads + Sync>(
        rt: &R,
        alloc: Global,
        flow: Flow,
        files: Files,
        batch_size: u32,
        most: u64,
        threads: u32,
    ) -> Result<Home, AllocError>
        requires one_each { length files ≡ scan_count flow }
        requires headers { wrong_header 1 files flow ≡ None }
        requires some { 0 < batch_size }
        requires few { batch_size ≤ 65536 }
        requires steps { most ≤ 2 ^ 40 }
        ensures begins { IfOk result (λ home. home ≡ record {
          flow = flow;
          files = files;
          most = most;
          log = record { batch = batch_size; items = [] };
          phase = Phase.Resting;
          parts = [];
          alone = 0;
          turned = home.turned;
        }) }
    {
        let dataflow = Dataflow::new(rt, alloc, flow, &files, batch_size, threads)?;
        let arms = InForce::new(alloc, dataflow.flow())?;
        Ok(Home {
            dataflow,
            files,
            most,
            log: Log {
                batch: batch_size,
                items: Items::new(Vec::new(alloc)),
            },
            phase: Phase::Resting,
            arms,
            boards: Boards::new(alloc),
            stops: Stops::new(Vec::new(alloc)),
            back: Vec::new(alloc),
            alone: 0,
        })
    }

    /// Does a command that is no leg: a pause, a count or a condition to stop at, another constant, a look, a row that is
    /// dropped, a worker that is lost, or taking back all that was asked to stop at an operator. The log grows by it, and
    /// what it names changes. The answer is the row that it drops: none where it drops none, or where
    /// the worker that it names is not held. If memory runs out all is as before.
    pub fn apply(&mut self, alloc: Global, command: &Command) -> Result<Option<Row>, AllocError>
        requires resting { self.old.phase ≡ Phase.Resting }
        requires open { ends_over false self.old.log.items ≡ false }
        requires fits { fits_of self.old.flow command.now ≡ true }
        requires at_rest { is_done_at_rest command.now ≡ true }
        ensures row { IfOk result (λ row. row ≡ dropped_by self.old command.now) }
        ensures ok { OnOk result (self.new ≡ record self.old {
          log = with_item self.old.log (item.Do command.now);
        }) }
        ensures err { OnErr result (self.new ≡ self.old) }
    {
        let Action::AtRest(effect) = command.action() else {
            unreachable!()
        };
        commands_have_text(command);
        let copies = copies_for(alloc, &effect.arming.constant, &self.dataflow)?;
        let when = condition_for(&effect.arming.when)?;
        let conditions = conditions_for(alloc, &effect.arming.when, &self.dataflow)?;
        push_command(command, &mut self.log.items)?;
        Ok(put_in_force(
            &effect,
            copies,
            when,
            conditions,
            &mut self.arms,
            &mut self.dataflow,
        ))
    }

    /// Opens a leg, up to a stop or to the end. To the end nothing is armed any more.
    pub fn open_leg(&mut self, to_end: bool)
        requires resting { self.old.phase ≡ Phase.Resting }
        requires open { ends_over false self.old.log.items ≡ false }
        ensures opens { self.new ≡ record self.old {
          phase = Phase.Open to_end Counts.Unarmed;
          parts = [];
          alone = 0;
          turned = replicate (crew_of self.old.flow) 0;
        } }
        ensures begins { state_of self.new ≡ leg_start to_end (rest_state self.old) }
    {
        self.dataflow.begin(to_end);
        self.arms.begin_leg(to_end);
        self.phase = Phase::Open {
            to_end,
            counts: Counts::Unarmed,
        };
        self.alone = 0;
    }

    /// Makes a board for each count that is in force, with a unit for each row that is left to its target, and arms the
    /// workers of its operator with empty hands. After running out of memory the log is as before, and the run cannot go
    /// on.
    pub fn arm_leg(&mut self, alloc: Global) -> Result<(), AllocError>
        requires within { is_open self.old.phase ≡ true }
        requires unarmed { counts_in self.old.phase ≡ Counts.Unarmed }
        ensures ok { OnOk result (self.new ≡ record self.old {
          phase = Phase.Open (runs_to_end self.old.phase) Counts.Armed;
        }) }
        ensures err { OnErr result
            (self.new ≡ spent_at self.old) }
    {
        let to_end = self.phase.runs_to_end();
        self.phase = Phase::Spent;
        let counts = self.arms.counts(alloc)?;
        self.boards.arm(counts.as_slice(), &mut self.dataflow)?;
        self.phase = Phase::Open {
            to_end,
            counts: Counts::Armed,
        };
        Ok(())
    }

    /// Closes the boards: each worker gives its hand back, and no count has counted more rows than it asks for. It takes no
    /// memory.
    pub fn disarm_leg(&mut self)
        requires within { is_open self.old.phase ≡ true }
        requires armed { counts_in self.old.phase ≡ Counts.Armed }
        ensures { DisarmsLeg self.old self.new }
    {
        self.boards.disarm(&mut self.dataflow);
        self.phase = Phase::Open {
            to_end: self.phase.runs_to_end(),
            counts: Counts::Disarmed,
        };
    }

    /// One step of the unfinished worker with the smallest number, where no stop stands. Where its next row meets its
    /// operator's condition it is held before that row instead. Where it needs a unit of a count and has none, all that
    /// are left were handed to it before. After running out of memory the log is as before, and the run cannot go on.
    pub fn home_step(&mut self) -> Result<(), AllocError>
        requires within { is_open self.old.phase ≡ true }
        requires none { stops_of_home self.old ≡ [] }
        requires running { NoneIsPaused self.old }
        requires armed { AreArmed self.old }
        requires few { steps_in (state_of self.old) < self.old.most }
        ensures ok { OnOk result (StepsOn self.old self.new) }
        ensures rows { OnOk result ((op : ℕ) → emitted_by self.new.flow (state_of self.new) op
            ≤ emitted_by self.old.flow (state_of self.old) op + 1) }
        ensures moves { OnOk result (MovesOrHolds self.old self.new) }
        ensures err { OnErr result
            (self.new ≡ spent_at self.old) }
    {
        let phase = self.phase;
        self.phase = Phase::Spent;
        step_next(&self.arms, &mut self.boards, &mut self.dataflow)?;
        self.alone = self.alone.saturating_add(1);
        self.phase = phase;
        Ok(())
    }

    /// Closes the leg that is open: as cut where a stop stands, or to the end all have finished; as long
    /// where that is not so, and the run has made as many steps as it may. The pauses and the counts that stand are
    /// taken away after a leg up to a stop; who is held stays so until the next leg. After running out of memory the
    /// log is as before, and the run cannot go on.
    pub fn close_leg(&mut self, alloc: Global, close: Close) -> Result<(), AllocError>
        requires within { is_open self.old.phase ≡ true }
        requires disarmed { counts_in self.old.phase ≢ Counts.Armed }
        requires closes { MayClose (runs_to_end self.old.phase) self.old close }
        ensures ok { OnOk result (self.new ≡ with_closed_leg self.old close) }
        ensures so { OnOk result (ClosesIn (runs_to_end self.old.phase) (query_of self.old)
            (state_of self.old) close) }
        ensures err { OnErr result
            (self.new ≡ spent_at self.old) }
    {
        let to_end = self.phase.runs_to_end();
        self.phase = Phase::Spent;
        self.stops = stops_of(alloc, &self.arms, &self.dataflow)?;
        close_arms(to_end, close, &mut self.arms, &self.dataflow);
        push_leg(
            alloc,
            to_end,
            close,
            &mut self.log.items,
            &mut self.dataflow,
        )?;
        self.phase = Phase::Resting;
        Ok(())
    }

    /// The answer, once all have finished, which the workers give away: they are no longer there then.
    ///
    /// # Errors
    ///
    /// After `NoMemory` the workers are no longer there either. The home is over, its log is as before, and
    /// no call gives the answer any more.
    pub fn take_answer(&mut self, alloc: Global) -> Result<Answer, AllocError>
        requires resting { self.old.phase ≡ Phase.Resting }
        requires finished { have_finished (state_of self.old) ≡ true }
        ensures answer { IfOk result
            (λ answer. answer ≡ answer_in (query_of self.old) (state_of self.old)) }

        // Whatever the call answers.
        ensures over { self.new ≡ record self.old { phase = Phase.Over; turned = [] } }
    {
        self.phase = Phase::Over;
        self.dataflow.take_answer(alloc)
    }
}
