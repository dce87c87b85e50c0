//! A worker: what it keeps, how it is made, and what it says of itself. Its steps, links and views stand in
//! the modules below it.

ghost use Rattle.std.specs.Prelude.{All, false, true, IfNone, IfSome, None, is_some, map, length, nat_lt, slice_index_or, IfOk, ◌≡◌, ◌^◌, ◌<◌, ◌≤◌, ◌==◌, []};
ghost use Rattle.std.specs.List.{list_any};
ghost use Rattle.amber_rows.specs.Topology.{crew_of, op_of, receivers_of, senders_of, what_at};
ghost use Rattle.amber_rows.specs.Kinds.{is_scan};
ghost use Rattle.amber_rows.specs.Columns.{columns_at};
ghost use Rattle.amber_link.specs.Links.{has_some};
ghost use Rattle.amber_link.specs.declared.downstreams.Downstream.{Downstream as OneDownstream};
ghost use Rattle.amber_link.specs.declared.upstreams.Upstream.{Upstream as OneUpstream};
ghost use Rattle.amber_worker.specs.WorkerState.{steps_made};
ghost use Rattle.amber_worker.specs.Made.{IsFreshIn, IsFreshOut, end_of, link_of, roomless};
ghost use Rattle.amber_worker.specs.Changes.{ShowsSet, StandsAtLeg, StandsNew, at_leg_start};
ghost use Rattle.amber_operators.specs.States.{with_value};

mod beginning;
mod driven;
mod grouped_lines;
mod heeding;
mod linking;
mod orders;
mod redoing;
mod replacing;
mod standing;
mod stepping;
mod taking_lines;
mod turning;
mod views;

use crate::flags::Flags;
use crate::journal::Journal;
use crate::new_worker::{ends_of, task_of};
use crate::route::Route;
use amber_board::WorkSeat;
use amber_link::{Downstream, In, Out, Upstream, has_receiver, waiting_at};
use amber_log::{Entries, Entry};
use amber_operators::{Gains, OperatorState, Rest, set_value};
use amber_rows::{Cond, Flow, Schema, Value};
use amber_scan::Share;
pub use linking::settle_workers;
use std::alloc::{AllocError, Global};
use std::marker::Model;

// How many steps a worker makes at most.
const MOST_STEPS: u64 = 1 << 40;

/// A worker at rest or in a leg, seen as a `WorkerState`.
pub struct Worker {
    alloc: Global,
    op: u32,
    number: u32,
    operator_state: OperatorState,
    columns: Schema,
    build_columns: Schema,
    building: bool,
    rest: Rest,
    taken: u64,
    emitted: u64,
    batches: u64,
    gains: Gains,
    // The condition in force, and the seat where a count is armed.
    when: Option<Cond>,
    seat: Option<WorkSeat>,
    flags: Flags,
    finished: bool,
    ins: Vec<Upstream>,
    outs: Vec<Downstream>,
    route: Route,
    journal: Journal,
    // How many turns it was driven for since its leg began.
    turned: u64,
}

impl Drop for Worker {
    fn drop(self) {
        let Worker {
            alloc: _,
            op: _,
            number: _,
            operator_state: _,
            columns: _,
            build_columns: _,
            building: _,
            rest: _,
            taken: _,
            emitted: _,
            batches: _,
            gains: _,
            when: _,
            seat: _,
            flags: _,
            finished: _,
            ins: _,
            outs: _,
            route: _,
            journal: _,
            turned: _,
        } = self;
    }
}

impl Model for Worker {
    ghost use Rattle.std.specs.Prelude.{map};
    ghost use Rattle.amber_link.specs.Sides.{without_room};
    ghost use Rattle.amber_worker.specs.WorkerState.{WorkerState};

    ghost Value = { WorkerState };

    ghost use Rattle.std.specs.Prelude.{if◌then◌else◌};
    ghost use Rattle.amber_worker.specs.Counting.{hand_in};
    ghost use Rattle.amber_worker.specs.Fields.{AreFew, restraint_of};
    ghost use Rattle.amber_operators.specs.Handed.{arrivals_in};

    ghost view = { λ a. record {
      op = a.op;
      number = a.number;
      operator_state = a.operator_state;
      columns = a.columns;
      build_columns = a.build_columns;
      building = a.building;
      rest = arrivals_in a.rest;
      pending = a.gains.pending;
      taken = a.taken;
      emitted = a.emitted;
      batches = a.batches;
      refused = a.gains.refused.items;
      kept = a.gains.kept.items;
      when = a.when;
      seat = a.seat;
      restraint = restraint_of (hand_in a.seat) a.flags;
      finished = a.finished;
      ins = a.ins.items;
      outs = map without_room a.outs.items;
      route = a.route;
      journal = a.journal.entries;
      reserved = a.journal.reserved;
      turned = a.turned;
    } };

    ghost invariant = { λ a. AreFew (record {
      operator_state = a.operator_state;
      columns = if a.building then a.build_columns else a.columns;
      building = a.building;
      share = a.rest.share;
      taken = a.taken;
      emitted = a.emitted;
      batches = a.batches;
      paused = a.flags.paused;
      finished = a.finished;
      ins = a.ins.items;
      outs = a.outs.items;
      route = a.route;
      journal = a.journal.entries;
    }) };
}

impl Worker {
    /// The worker of a workflow before it has done anything, by its running number. The rows of a
    /// batch are 1 to 65,536. A scan's worker is given its share of the records, typed by the columns of
    /// the scan. Each worker is given the end of a link for each of its receivers and for each of its senders, by rising
    /// numbers, through which nothing has gone.
    pub fn new(
        alloc: Global,
        flow: &Flow,
        worker: u32,
        batch_size: u32,
        share: Option<Share>,
        outs: Vec<Out>,
        ins: Vec<In>,
    ) -> Result<Worker, AllocError>
        requires there { worker < crew_of flow.now }
        requires some { 0 < batch_size }
        requires few { batch_size ≤ 65536 }
        requires shared { is_some share ≡ is_scan (what_at flow.now (op_of flow.now worker)) }
        requires typed { IfSome share
            (λ share. share.columns ≡ columns_at flow.now (op_of flow.now worker)) }
        requires all_outs { length outs.items ≡ length (receivers_of flow.now worker) }
        requires all_ins { length ins.items ≡ length (senders_of flow.now worker) }
        requires fresh_outs { All (IsFreshOut batch_size) outs.items }
        requires fresh_ins { All IsFreshIn ins.items }
        ensures stands { IfOk result (StandsNew
            (record { flow = flow.now; number = worker; batch_size = batch_size; share = share })) }
        ensures outs { IfOk result (λ made. map link_of made.outs ≡ map roomless outs.items) }
        ensures ins { IfOk result (λ made. map end_of made.ins ≡ ins.items) }
        ensures journal { IfOk result (λ made. made.journal ≡ []) }
        ensures unarmed { IfOk result (λ made. made.seat ≡ None) }
    {
        let ends = ends_of(alloc, flow, worker, outs, ins)?;
        let task = task_of(alloc, flow, worker)?;
        Ok(Self::fresh(alloc, worker, share, task, ends))
    }

    /// How many steps the worker has made: rows and batches taken, rows emitted, and the end.
    pub fn steps(&self) -> u64
        ensures { result ≡ steps_made self.now }
    {
        self.taken + self.emitted + self.batches + u64::from(self.finished)
    }

    /// Whether the worker has nothing more to do.
    pub fn is_finished(&self) -> bool
        ensures { result ≡ self.now.finished }
    {
        self.finished
    }

    /// The operator whose worker it is, from 1.
    pub fn op(&self) -> u32
        ensures { result ≡ self.now.op }
    {
        self.op
    }

    /// The running number of the worker in its workflow, from 0.
    pub fn number(&self) -> u32
        ensures { result ≡ self.now.number }
    {
        self.number
    }

    /// Whether the worker sends to the worker with this number.
    pub fn sends_to(&self, worker: u32) -> bool
        ensures { result ≡ list_any (λ one. one.to == worker) self.now.outs }
    {
        has_receiver(self.outs.as_slice(), worker)
    }

    /// Whether the worker may make another turn: its steps are not yet 2^40.
    pub fn may_turn(&self) -> bool
        ensures { result ≡ nat_lt (steps_made self.now) (2 ^ 40) }
    {
        self.steps() < MOST_STEPS
    }

    /// How many workers send to the worker.
    pub fn senders(&self) -> usize
        ensures { result ≡ length self.now.ins }
    {
        self.ins.len()
    }

    /// The running number of the sender at a place.
    pub fn sender_at(&self, place: usize) -> u32
        requires { place < length self.now.ins }
        ensures { (d : OneUpstream) → result ≡ (slice_index_or self.now.ins place d).from }
    {
        self.ins[place].from()
    }

    /// To how many workers the worker sends.
    pub fn receivers(&self) -> usize
        ensures { result ≡ length self.now.outs }
    {
        self.outs.len()
    }

    /// The running number of the receiver at a place, if a batch waits to be sent to it.
    pub fn waiting_at(&self, place: usize) -> Option<u32>
        requires { place < length self.now.outs }
        ensures none { IfNone result ((d : OneDownstream)
            → has_some (slice_index_or self.now.outs place d).link.kept.waiting ≡ false) }
        ensures some { IfSome result
            (λ to. (d : OneDownstream) → (slice_index_or self.now.outs place d).to ≡ to) }
        ensures waits { IfSome result (λ _. (d : OneDownstream)
            → has_some (slice_index_or self.now.outs place d).link.kept.waiting ≡ true) }
    {
        waiting_at(self.outs.as_slice(), place)
    }

    /// How many rows the worker has emitted.
    pub fn emitted(&self) -> u64
        ensures { result ≡ self.now.emitted }
    {
        self.emitted
    }

    /// What the worker has done since its journal was handed out.
    pub fn journal(&self) -> &[Entry]
        ensures { result.now ≡ self.now.journal }
    {
        self.journal.entries()
    }

    /// Hands out what the worker has done since its journal was handed out last. No room is kept for an entry then.
    pub fn take_journal(&mut self) -> Entries
        ensures journal { result ≡ self.old.journal }
        ensures rest { self.new ≡ record self.old { journal = []; reserved = false } }
    {
        self.journal.take(self.alloc)
    }

    /// Puts a value in place of the constant of a filter. Other operators have none, and nothing changes.
    pub fn set(&mut self, value: Value)
        ensures only { self.new
            ≡ record self.old { operator_state = with_value value self.old.operator_state } }
        ensures shows { ShowsSet value self.old self.new }
    {
        set_value(&mut self.operator_state, value);
    }

    /// Begins a leg: pauses end, a row before which the worker is held may go, the journal is empty, and no turn was
    /// driven.
    pub fn begin(&mut self)
        ensures only { self.new ≡ at_leg_start self.old }
        ensures stands { StandsAtLeg self.old self.new }
    {
        self.flags.release();
        self.journal.clear();
        self.turned = 0;
    }
}
