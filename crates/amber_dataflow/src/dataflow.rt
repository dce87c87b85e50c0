//! The workers of a run and their workflow: how they begin, what a step does, and what is read of them. Over
//! the functions of the other files, each of which does one of these for all workers.

ghost use Rattle.std.specs.Prelude.{◌≡◌, ◌+◌, ◌^◌, ◌<◌, ◌≤◌, ℕ, IfOk, None, OnErr, OnOk, Some, false, length, option_map, replicate};
ghost use Rattle.std.specs.Option.{option_copied};
ghost use Rattle.amber_worker.specs.Counting.{IsBoardOf};
ghost use Rattle.amber_rows.specs.Topology.{crew_of};
ghost use Rattle.amber_meaning.specs.Legal.{query_over};
ghost use Rattle.amber_meaning.specs.Plain.{wrong_header};
ghost use Rattle.amber_meaning.specs.Position.{origin};
ghost use Rattle.amber_meaning.specs.State.{start_of};
ghost use Rattle.amber_dataflow.specs.Dataflow as dataflow;
ghost use Rattle.amber_dataflow.specs.AtWork.{steps_by};
ghost use Rattle.amber_dataflow.specs.Dataflow.{AreAllThere, AreInArmedLeg, AreBack, AreCrewOf, AreFree, AreHeldByRows, HaveDoneNothing, IsAnswerOf, IsFirst, ShowAt, StandAgain, StandAt, StandsUnder, StepsAt};
ghost use Rattle.amber_dataflow.specs.Dataflow.{all_resumed, constant_put, handed_out, is_armed_at, is_short, leg_begun, leg_parts, row_dropped, seat_of, step_count, when_put, without_workers};

mod replacing;
mod units;

use crate::counts::{emitted_by, have_finished, steps_of};
use crate::gathering::{gather, gather_all};
use crate::journals::take_parts;
use crate::new_workers::start_crew;
use crate::setting::{
    begin_all, conditions_of, copies_of, resume_all, set_workers, unwatch_workers, watch_workers,
};
use crate::settling::settle_all;
use crate::stepping::{first_unfinished, step_worker};
use crate::views::views_of;
use amber_board::Board;
use amber_log::Parts;
use amber_meaning::{Answer, Views};
use amber_rows::{Cond, Files, Flow, Row, Value};
use amber_worker::Worker;
use std::alloc::{AllocError, Global};
use std::marker::Model;
use std::mem;
use std::thread::Threads;

/// All workers of a run, with the workflow that they carry out, seen as a `DataflowState`. Operators are
/// numbered from 1, workers from 0 over all operators.
#[derive(Drop)]
pub struct Dataflow {
    flow: Flow,
    // By their numbers. None are left once memory ran out among them, or once they gave their answer away.
    workers: Vec<Worker>,
}

impl Model for Dataflow {
    ghost use Rattle.amber_dataflow.specs.Dataflow.{DataflowState, IsDataflow};

    ghost Value = { DataflowState };

    ghost view = { λ a. record { flow = a.flow; workers = a.workers.items } };

    ghost invariant = { λ a. IsDataflow (record { flow = a.flow; workers = a.workers.items }) };
}

impl Dataflow {
    /// The workers of a workflow over the files of its scans, each of which is known to begin with the names
    /// of its columns, at the start of a run, with this many rows in a batch, 1 to 65,536. Where the lines of
    /// the files begin is noted on so many threads, 0 counted as 1.
    pub fn new<R: Threads + Sync>(
        rt: &R,
        alloc: Global,
        flow: Flow,
        files: &Files,
        batch_size: u32,
        threads: u32,
    ) -> Result<Dataflow, AllocError>
        requires some { 0 < batch_size }
        requires few { batch_size ≤ 65536 }
        requires headers { wrong_header 1 files.now flow ≡ None }
        ensures flow { IfOk result (λ made. made.flow ≡ flow) }
        ensures start { IfOk result (λ made. (most : ℕ) → StandAt
            (query_over flow files.now batch_size most) (start_of flow) made (λ _. origin)) }
        ensures journals { IfOk result HaveDoneNothing }
        ensures unarmed { IfOk result (λ made. (worker : ℕ) → seat_of made worker ≡ None) }
    {
        let workers = start_crew(rt, alloc, &flow, files, batch_size, threads)?;
        Ok(Dataflow { flow, workers })
    }

    /// The workflow.
    pub fn flow(&self) -> &Flow
        ensures { result.now ≡ self.now.flow }
    {
        &self.flow
    }

    // ---- a leg

    /// Each worker begins a leg: pauses end, a held row may go, and nothing was done since. In a leg to the end no
    /// condition is in force any more.
    pub fn begin(&mut self, to_end: bool)
        ensures { self.new ≡ leg_begun to_end self.old }
    {
        begin_all(to_end, self.workers.as_mut_slice());
    }

    /// The number of the first worker that has not finished.
    pub fn first_unfinished(&self) -> u32
        requires workers { AreAllThere self.now }
        requires unfinished { dataflow.have_all_finished self.now ≡ false }
        ensures { IsFirst self.now result }
    {
        first_unfinished(self.workers.as_slice()) as u32
    }

    /// One step of the first worker that has not finished; where its next row meets the condition there and was not waved
    /// on, the worker is held before it instead. The board is that of its operator's count, and is there exactly where one is
    /// armed at the worker. What it has made goes on to its receivers. After running out of memory no worker is left.
    pub fn step(&mut self, worker: u32, board: Option<&Board>) -> Result<(), AllocError>
        requires workers { AreAllThere self.old }
        requires first { IsFirst self.old worker }
        requires free { AreFree self.old }
        requires fed { is_short self.old worker ≡ false }
        requires own { IsBoardOf (option_copied board) (seat_of self.old worker) }
        requires under { StandsUnder (is_armed_at self.old worker) self.old worker }
        requires few { step_count self.old < 2 ^ 40 }
        ensures steps { OnOk result (StepsAt self.old self.new worker) }
        ensures own { OnOk result (IsBoardOf (option_copied board.entry) (seat_of self.new worker)) }
        ensures err { OnErr result (self.new ≡ without_workers self.old) }
    {
        match step_worker(self.workers.as_mut_slice(), worker as usize, board) {
            Ok(()) => Ok(()),
            Err(error) => {
                self.workers.clear();
                Err(error)
            }
        }
    }

    /// Hands out what the workers have done, as the parts of a leg. After running out of memory no worker is
    /// left.
    pub fn take_parts(&mut self, alloc: Global) -> Result<Parts, AllocError>
        requires { AreAllThere self.old }
        ensures parts { IfOk result (λ parts. parts ≡ leg_parts self.old) }
        ensures ok { OnOk result (self.new ≡ handed_out self.old) }
        ensures err { OnErr result (self.new ≡ without_workers self.old) }
    {
        match take_parts(alloc, self.workers.as_mut_slice()) {
            Ok(parts) => Ok(parts),
            Err(error) => {
                self.workers.clear();
                Err(error)
            }
        }
    }

    /// Each worker goes on that was paused. After running out of memory no worker is left.
    pub fn resume(&mut self) -> Result<(), AllocError>
        requires loose { (worker : ℕ) → dataflow.is_held self.old worker ≡ false }
        requires armed { AreInArmedLeg self.old }
        ensures ok { OnOk result (self.new ≡ all_resumed self.old) }
        ensures stand { OnOk result (StandAgain self.old self.new) }
        ensures err { OnErr result (self.new ≡ without_workers self.old) }
    {
        match resume_all(self.workers.as_mut_slice()) {
            Ok(()) => Ok(()),
            Err(error) => {
                self.workers.clear();
                Err(error)
            }
        }
    }

    // ---- workers that are away

    /// Hands the workers out, in the order of their numbers, and keeps none. It takes no memory.
    pub fn lend(&mut self, alloc: Global) -> Vec<Worker>
        ensures workers { result.items ≡ self.old.workers }
        ensures none { self.new ≡ without_workers self.old }
    {
        mem::replace(&mut self.workers, Vec::new(alloc))
    }

    /// The same, into a list that is emptied before.
    pub fn lend_to(&mut self, others: &mut Vec<Worker>)
        ensures workers { others.new.items ≡ self.old.workers }
        ensures none { self.new ≡ without_workers self.old }
    {
        mem::swap(&mut self.workers, others);
        self.workers.clear();
    }

    /// Takes workers of this workflow in, wherever they stand. All that they have made goes on to its receivers. After
    /// running out of memory no worker is left.
    pub fn take_back(&mut self, workers: Vec<Worker>) -> Result<(), AllocError>
        requires joined { AreCrewOf self.old.flow workers.items }
        requires few { steps_by workers.items ≤ 2 ^ 40 }
        ensures back { OnOk result (AreBack workers.items self.new) }
        ensures flow { self.new.flow ≡ self.old.flow }
        ensures err { OnErr result (self.new ≡ without_workers self.old) }
    {
        let mut workers = workers;
        self.workers.clear();
        settle_all(workers.as_mut_slice())?;
        self.workers = workers;
        Ok(())
    }

    // ---- conditions

    /// A copy of a condition for each worker.
    pub fn conditions_of(&self, alloc: Global, cond: &Cond) -> Result<Vec<Cond>, AllocError>
        ensures { IfOk result
            (λ copies. copies.items ≡ replicate (length self.now.workers) cond.now) }
    {
        conditions_of(alloc, cond, self.workers.len())
    }

    /// Puts a condition in place of that of an operator's workers: before a row that meets it they are held. It takes no
    /// memory: the copies are those of `conditions_of`.
    pub fn watch(&mut self, op: u32, cond: &Cond, copies: Vec<Cond>)
        requires copies { copies.items ≡ replicate (length self.old.workers) cond.now }
        requires rest { HaveDoneNothing self.old }
        ensures { self.new ≡ when_put op (Some cond.now) self.old }
    {
        watch_workers(op, cond, copies, self.workers.as_mut_slice());
    }

    /// Takes back the condition of an operator's workers. Who is held stays so.
    pub fn unwatch(&mut self, op: u32)
        requires rest { HaveDoneNothing self.old }
        ensures { self.new ≡ when_put op None self.old }
    {
        unwatch_workers(op, self.workers.as_mut_slice());
    }

    /// Drops the row before which a worker is held, and hands it out. Where it is not held there is none, and nothing
    /// changes.
    pub fn drop_held(&mut self, worker: u32) -> Option<Row>
        requires workers { AreAllThere self.old }
        requires there { worker < crew_of self.old.flow }
        requires rest { HaveDoneNothing self.old }
        requires rows { AreHeldByRows self.old }
        ensures row { result ≡ dataflow.row_held_at self.old worker }
        ensures only { self.new ≡ row_dropped worker self.old }
    {
        self.workers[worker as usize].drop_held()
    }

    /// The row before which a worker is held, if it is.
    pub fn held_row(&self, worker: u32) -> Option<&Row>
        requires workers { AreAllThere self.now }
        requires there { worker < crew_of self.now.flow }
        ensures { option_map (λ row. row.now) result ≡ dataflow.row_held_at self.now worker }
    {
        self.workers[worker as usize].held_row()
    }

    /// Whether a worker is held before its next row.
    pub fn is_held(&self, worker: u32) -> bool
        requires workers { AreAllThere self.now }
        requires there { worker < crew_of self.now.flow }
        ensures { result ≡ dataflow.is_held self.now worker }
    {
        self.workers[worker as usize].is_held()
    }

    /// Whether a worker is paused.
    pub fn is_paused(&self, worker: u32) -> bool
        requires workers { AreAllThere self.now }
        requires there { worker < crew_of self.now.flow }
        ensures { result ≡ dataflow.is_paused self.now worker }
    {
        self.workers[worker as usize].is_paused()
    }

    // ---- another constant

    /// A copy of a value for each worker.
    pub fn copies_of(&self, alloc: Global, value: &Value) -> Result<Vec<Value>, AllocError>
        ensures { IfOk result
            (λ copies. copies.items ≡ replicate (length self.now.workers) value.now) }
    {
        copies_of(alloc, value, self.workers.len())
    }

    /// Puts a value in place of the constant of an operator's workers, for rows that are taken from here on.
    /// It takes no memory: the copies are those of `copies_of`.
    pub fn set(&mut self, op: u32, value: &Value, copies: Vec<Value>)
        requires copies { copies.items ≡ replicate (length self.old.workers) value.now }
        requires rest { HaveDoneNothing self.old }
        ensures { self.new ≡ constant_put op value.now self.old }
    {
        set_workers(op, value, copies, self.workers.as_mut_slice());
    }

    // ---- what is read of them

    /// How many steps the workers have made together.
    pub fn steps(&self) -> u64
        ensures { result ≡ step_count self.now }
    {
        steps_of(self.workers.as_slice())
    }

    /// How many rows an operator has emitted.
    pub fn rows_emitted(&self, op: u32) -> u64
        requires workers { AreAllThere self.now }
        requires some { 0 < op }
        requires within { op ≤ length self.now.flow }
        ensures { result ≡ dataflow.rows_emitted self.now op }
    {
        emitted_by(&self.flow, self.workers.as_slice(), op)
    }

    /// Whether a worker has finished.
    pub fn has_finished(&self, worker: u32) -> bool
        requires workers { AreAllThere self.now }
        requires there { worker < crew_of self.now.flow }
        ensures { result ≡ dataflow.has_finished self.now worker }
    {
        self.workers[worker as usize].is_finished()
    }

    /// Whether all workers have finished.
    pub fn have_all_finished(&self) -> bool
        ensures { result ≡ dataflow.have_all_finished self.now }
    {
        have_finished(self.workers.as_slice())
    }

    /// What each worker of an operator shows.
    pub fn views(&self, alloc: Global, op: u32) -> Result<Views, AllocError>
        requires workers { AreAllThere self.now }
        requires some { 0 < op }
        requires within { op ≤ length self.now.flow }
        ensures { IfOk result (ShowAt self.now op) }
    {
        views_of(alloc, &self.flow, self.workers.as_slice(), op)
    }

    /// The answer, where all have finished.
    pub fn answer(&self, alloc: Global) -> Result<Answer, AllocError>
        ensures { IfOk result (IsAnswerOf self.now) }
    {
        gather(alloc, &self.flow, self.workers.as_slice())
    }

    /// The same answer, which the workers give away: none is left then, whatever the call answers.
    pub fn take_answer(&mut self, alloc: Global) -> Result<Answer, AllocError>
        ensures answer { IfOk result (IsAnswerOf self.old) }
        ensures over { self.new ≡ without_workers self.old }
    {
        let workers = mem::replace(&mut self.workers, Vec::new(alloc));
        gather_all(alloc, &self.flow, workers)
    }
}
