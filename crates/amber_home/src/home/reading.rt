//! What is read of a home: its stops, what operators show, its answer, its log, and how far its workers are.

ghost use Rattle.std.specs.Prelude.{◌≡◌, ◌^◌, ◌<◌, ◌≤◌, ◌≢◌, ℕ, [], IfOk, None, Some, false, is_some, length, option_map, true};
ghost use Rattle.amber_log.specs.Fits.{fits_of};
ghost use Rattle.amber_log.specs.Grammar.{ends_over};
ghost use Rattle.amber_meaning.specs.Legal.{IsLegal};
ghost use Rattle.amber_meaning.specs.Plain.{scan_count, wrong_header};
ghost use Rattle.amber_meaning.specs.State.{arms_at, emitted_by, have_finished, position_at, steps_in};
ghost use Rattle.amber_meaning.specs.Views.{answer_in, inspected_of};
ghost use Rattle.amber_home.specs.HomeState.{IsEarly, NoneIsHeld, NoneIsPaused, dropped_by, has_crew, is_open, query_of, runs_to_end};
ghost use Rattle.amber_home.specs.HomeState.{state_of, stops_of_home};

use super::Home;
use crate::applying::row_to_drop;
use crate::inspection::inspect;
use crate::leg_item::is_last;
use crate::phase::Phase;
use crate::stopping::{any_held, any_paused};
use crate::stops::stops_of;
use amber_log::{Action, Command, Log};
use amber_meaning::{Answer, Inspected, Stops};
use amber_rows::{Files, Flow, Row};
use std::alloc::{AllocError, Global};

impl Home {
    /// The stops that stand within a leg. Outside of one those of the last leg, as they stood before its end
    /// took any away, whatever commands followed; none before the first leg. Where none stands within a leg no operator
    /// has emitted as many rows as its pause asks for, and not all workers have finished. In a leg to the end one stands
    /// only once all have.
    pub fn stops(&self, alloc: Global) -> Result<Stops, AllocError>
        requires there { has_crew self.now.phase ≡ true }
        ensures stops { IfOk result (λ stops. stops ≡ stops_of_home self.now) }
        ensures early { IfOk result (λ stops. is_open self.now.phase ≡ true → stops ≡ []
            → IsEarly self.now) }
        ensures ends { IfOk result (λ stops. is_open self.now.phase ≡ true
            → runs_to_end self.now.phase ≡ true → stops ≢ []
            → have_finished (state_of self.now) ≡ true) }
        ensures unfinished { IfOk result (λ stops. is_open self.now.phase ≡ true → stops ≡ []
            → have_finished (state_of self.now) ≡ false) }
    {
        if self.phase.is_open() {
            stops_of(alloc, &self.arms, &self.dataflow)
        } else {
            self.stops.clone()
        }
    }

    /// What the workers of an operator show, and what is in force there.
    pub fn inspect(&self, alloc: Global, op: u32) -> Result<Inspected, AllocError>
        requires there { has_crew self.now.phase ≡ true }
        requires some { 0 < op }
        requires within { op ≤ length self.now.flow }
        ensures { IfOk result
            (λ shown. shown ≡ inspected_of (query_of self.now) (state_of self.now) op) }
    {
        inspect(alloc, &self.arms, &self.dataflow, op)
    }

    /// The row that a command would drop: the one before which the worker is held that it names. None where it drops
    /// none, or where that worker is not held.
    pub fn row_to_drop(&self, command: &Command) -> Option<&Row>
        requires resting { self.now.phase ≡ Phase.Resting }
        requires fits { fits_of self.now.flow command.now ≡ true }
        ensures { option_map (λ row. row.now) result ≡ dropped_by self.now command.now }
    {
        match command.action() {
            Action::Leg { to_end: _ } => None,
            Action::AtRest(effect) => row_to_drop(&effect, &self.dataflow),
        }
    }

    /// The answer, once all have finished.
    pub fn answer(&self, alloc: Global) -> Result<Answer, AllocError>
        requires there { has_crew self.now.phase ≡ true }
        requires finished { have_finished (state_of self.now) ≡ true }
        ensures { IfOk result
            (λ answer. answer ≡ answer_in (query_of self.now) (state_of self.now)) }
    {
        self.dataflow.answer(alloc)
    }

    /// How many steps the workers have made.
    pub fn steps(&self) -> u64
        requires there { has_crew self.now.phase ≡ true }
        ensures steps { result ≡ steps_in (state_of self.now) }
        ensures few { result ≤ self.now.most }
    {
        self.dataflow.steps()
    }

    /// How many rows the workers of an operator have emitted.
    pub fn rows_emitted(&self, op: u32) -> u64
        requires there { has_crew self.now.phase ≡ true }
        requires some { 0 < op }
        requires within { op ≤ length self.now.flow }
        ensures { result ≡ emitted_by self.now.flow (state_of self.now) op }
    {
        self.dataflow.rows_emitted(op)
    }

    /// Whether all workers have finished.
    pub fn have_finished(&self) -> bool
        requires there { has_crew self.now.phase ≡ true }
        ensures { result ≡ have_finished (state_of self.now) }
    {
        self.dataflow.have_all_finished()
    }

    /// Whether no worker is paused.
    pub fn are_running(&self) -> bool
        requires there { has_crew self.now.phase ≡ true }
        ensures running { result ≡ true → NoneIsPaused self.now }
        ensures paused { result ≡ false → (worker : ℕ)
            × ((position_at (state_of self.now).positions worker).restraint.paused ≡ true) }
    {
        !any_paused(&self.dataflow)
    }

    /// Whether no worker is held.
    pub fn are_loose(&self) -> bool
        requires there { has_crew self.now.phase ≡ true }
        ensures loose { result ≡ true → NoneIsHeld self.now }
        ensures held { result ≡ false → (worker : ℕ)
            × ((position_at (state_of self.now).positions worker).restraint.held ≡ true) }
        ensures stands { result ≡ false → is_open self.now.phase ≡ true
            → stops_of_home self.now ≢ [] }
    {
        !any_held(&self.dataflow)
    }

    /// Whether an operator's pause is in force.
    pub fn has_pause(&self) -> bool
        requires there { has_crew self.now.phase ≡ true }
        ensures none { result ≡ false → (op : ℕ)
            → (arms_at (state_of self.now) op).pause ≡ None }
        ensures some { result ≡ true → (op n : ℕ)
            × ((arms_at (state_of self.now) op).pause ≡ Some n) }
    {
        self.arms.has_pause()
    }

    /// Whether an operator's count is in force.
    pub fn has_count(&self) -> bool
        requires there { has_crew self.now.phase ≡ true }
        ensures none { result ≡ false → (op : ℕ)
            → (arms_at (state_of self.now) op).count ≡ None }
        ensures some { result ≡ true → (op : ℕ)
            × (is_some (arms_at (state_of self.now) op).count ≡ true) }
    {
        self.arms.has_count()
    }

    /// Whether a condition to stop at is in force at an operator.
    pub fn has_condition(&self) -> bool
        requires there { has_crew self.now.phase ≡ true }
        ensures none { result ≡ false → (op : ℕ)
            → (arms_at (state_of self.now) op).when ≡ None }
        ensures some { result ≡ true → (op : ℕ)
            × (is_some (arms_at (state_of self.now) op).when ≡ true) }
    {
        self.arms.has_condition()
    }

    /// The rows after which an operator pauses, where its pause is in force.
    pub fn pause_at(&self, op: u32) -> Option<u64>
        requires there { has_crew self.now.phase ≡ true }
        ensures { result ≡ (arms_at (state_of self.now) op).pause }
    {
        self.arms.pause_at(op)
    }

    /// The log of the run so far.
    pub fn log(&self) -> &Log
        ensures log { result.now ≡ self.now.log }
        ensures legal { IsLegal (query_of self.now) self.now.log }
    {
        &self.log
    }

    /// Whether nothing may follow: the last leg was one to the end, or was closed as too long.
    pub fn closed(&self) -> bool
        ensures { result ≡ ends_over false self.now.log.items }
    {
        match self.log.items.get().last() {
            Some(item) => is_last(item),
            None => false,
        }
    }

    /// The workflow that is run.
    pub fn flow(&self) -> &Flow
        ensures { result.now ≡ self.now.flow }
    {
        self.dataflow.flow()
    }

    /// The files of the scans, in the order of the operators. Each begins with the names of its columns.
    pub fn files(&self) -> &Files
        ensures files { result.now ≡ self.now.files }
        ensures one_each { length self.now.files ≡ scan_count self.now.flow }
        ensures headers { wrong_header 1 self.now.files self.now.flow ≡ None }
    {
        &self.files
    }

    /// The most steps that the run may make.
    pub fn most(&self) -> u64
        ensures most { result ≡ self.now.most }
        ensures few { result ≤ 2 ^ 40 }
    {
        self.most
    }

    /// For how many steps `home_step` was called since a leg was last opened.
    pub fn alone(&self) -> u64
        ensures { result ≡ self.now.alone }
    {
        self.alone
    }

    /// Where the run is.
    pub fn phase(&self) -> Phase
        ensures { result ≡ self.now.phase }
    {
        self.phase
    }
}
