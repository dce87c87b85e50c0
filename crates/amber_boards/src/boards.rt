//! The boards of a leg with their chiefs: one for each operator whose count is in force. Over `Counter` of `counter`, which
//! has one board.

ghost use Rattle.std.specs.Prelude.{◌≡◌, ◌≢◌, ℕ, ◌+◌, ◌-◌, ◌<◌, ◌≤◌, IfOk, OnOk, [], ◌∷◌, ◌++◌, false, is_some, length, option_map, true};
ghost use Rattle.amber_dataflow.specs.Dataflow.{AreAllThere, has_finished, is_short, journal_of, rows_emitted};
ghost use Rattle.amber_log.specs.declared.entry.Entry.TheVariants as entry;
ghost use Rattle.amber_rows.specs.Topology.{crew_of, op_of};
ghost use Rattle.amber_boards.specs.Boards.{AreBelow, AreCounted, AreLedBy, AreUnarmed, AreUnarmedAt, ArmsAll, ChangesAt, DisarmsAll, DisarmsOperator, GrantsAllLeft, HasLeft, IsBelow, IsCountedAt, IsCountedOn, IsLedBy, IsWithinTarget, IsWorkerOf, StandInForce, StandsCounted, WritesBack, board_at, has_board, has_target, targets_of};

use crate::counter::{Counter, arm_operator, disarm_operator, find_board};
use crate::lent::LentBoards;
use crate::target::Target;
use amber_board::{Board, ChiefSeat};
use amber_dataflow::Dataflow;
use std::alloc::{AllocError, Global};
use std::marker::Model;

/// The board of each operator whose count is in force, by the operator's number, and the seat of each board's chief; none
/// before counts are armed and once they are disarmed.
#[derive(Drop)]
pub struct Boards {
    alloc: Global,
    counters: Vec<Option<Counter>>,
    // Their chiefs, who have no unit in hand.
    chiefs: Vec<Option<ChiefSeat>>,
    // What their counts ask for.
    targets: Vec<Option<Target>>,
}

impl Model for Boards {
    ghost use Rattle.std.specs.Prelude.{List, Option};
    ghost use Rattle.amber_boards.specs.Boards.{AreLedBy, CounterState, KeepsTargets};

    ghost Value = { List (Option CounterState) };

    ghost view = { λ a. a.counters.items };

    ghost invariant = { λ a. KeepsTargets a.targets.items a.counters.items
        × AreLedBy a.counters.items a.chiefs.items };
}

// Makes a board for an operator's count, if it has one, and arms its workers on it.
fn arm_one(
    alloc: Global,
    count: Option<Target>,
    dataflow: &mut Dataflow,
    op: u32,
) -> Result<(Option<Counter>, Option<ChiefSeat>), AllocError>
    requires workers { AreAllThere dataflow.old }
    requires some { 0 < op }
    requires there { op ≤ length dataflow.old.flow }
    requires below { IsBelow count (rows_emitted dataflow.old op) }
    requires unarmed { AreUnarmedAt op dataflow.old }
    requires stand { is_some count ≡ true → StandsCounted op dataflow.old }
    ensures change { OnOk result (ChangesAt op dataflow.old dataflow.new) }
    ensures none { is_some count ≡ false → dataflow.new ≡ dataflow.old }
    ensures counted { IfOk result (λ made. IsCountedAt made.0 op dataflow.new) }
    ensures led { IfOk result (λ made. IsLedBy made.0 made.1) }
    ensures target { IfOk result (λ made. option_map (λ counter. counter.target) made.0 ≡ count) }
    ensures journals { OnOk result ((worker : ℕ)
        → journal_of dataflow.new worker ≡ journal_of dataflow.old worker) }
    ensures flow { dataflow.new.flow ≡ dataflow.old.flow }
{
    let Some(target) = count else {
        return Ok((None, None));
    };
    let units = target.left(dataflow.rows_emitted(op));
    let workers = dataflow.flow().worker_count(op);
    let (counter, chief, dealt) = Counter::open(alloc, target, units, workers)?;
    arm_operator(dataflow, op, dealt)?;
    Ok((Some(counter), Some(chief)))
}

// Disarms an operator's workers and closes their board, if there is one.
fn disarm_one(counter: Option<Counter>, chief: Option<ChiefSeat>, dataflow: &mut Dataflow, op: u32)
    requires workers { AreAllThere dataflow.old }
    requires some { 0 < op }
    requires there { op ≤ length dataflow.old.flow }
    requires counted { IsCountedAt counter op dataflow.old }
    requires led { IsLedBy counter chief }
    requires stand { is_some counter ≡ true → StandsCounted op dataflow.old }
    ensures change { ChangesAt op dataflow.old dataflow.new }
    ensures disarms { is_some counter ≡ true → DisarmsOperator op dataflow.old dataflow.new }
    ensures none { is_some counter ≡ false → dataflow.new ≡ dataflow.old }
    ensures unarmed { AreUnarmedAt op dataflow.new }
    ensures within { IsWithinTarget (option_map (λ counter. counter.target) counter)
        (rows_emitted dataflow.new op) }
{
    let Some(counter) = counter else {
        return;
    };
    let Some(chief) = chief else { unreachable!() };
    disarm_operator(counter, chief, dataflow, op);
}

// Hands all units that are left at a worker's operator to it, on a board that takes the place of this one.
fn hand_to(
    alloc: Global,
    target: Target,
    counter: Counter,
    chief: ChiefSeat,
    dataflow: &mut Dataflow,
    worker: u32,
) -> Result<(Counter, ChiefSeat), AllocError>
    requires target { counter.target ≡ target }
    requires workers { AreAllThere dataflow.old }
    requires there { worker < crew_of dataflow.old.flow }
    requires unfinished { has_finished dataflow.old worker ≡ false }
    requires short { is_short dataflow.old worker ≡ true }
    requires left { HasLeft (Some counter)
        (rows_emitted dataflow.old (op_of dataflow.old.flow worker)) }
    requires counted { IsCountedOn counter (op_of dataflow.old.flow worker) dataflow.old }
    requires led { IsLedBy (Some counter) (Some chief) }
    requires stand { StandsCounted (op_of dataflow.old.flow worker) dataflow.old }
    ensures change { OnOk result
        (ChangesAt (op_of dataflow.old.flow worker) dataflow.old dataflow.new) }
    ensures counted { IfOk result
        (λ made. IsCountedOn made.0 (op_of dataflow.old.flow worker) dataflow.new) }
    ensures led { IfOk result (λ made. IsLedBy (Some made.0) (Some made.1)) }
    ensures target { IfOk result (λ made. made.0.target ≡ target) }
    ensures fed { OnOk result (is_short dataflow.new worker ≡ false) }
    ensures grant { OnOk result (journal_of dataflow.new worker
        ≡ journal_of dataflow.old worker ++ entry.Grant (target.target + target.since
        - rows_emitted dataflow.old (op_of dataflow.old.flow worker)) ∷ []) }
    ensures own { OnOk result ((other : ℕ)
        → IsWorkerOf dataflow.old (op_of dataflow.old.flow worker) other → other ≢ worker
        → WritesBack dataflow.old dataflow.new other) }
    ensures flow { dataflow.new.flow ≡ dataflow.old.flow }
{
    let op = dataflow.flow().op_of(worker);
    let place = worker - dataflow.flow().first_worker(op);
    let workers = dataflow.flow().worker_count(op);
    disarm_operator(counter, chief, dataflow, op);
    let rest = target.left(dataflow.rows_emitted(op));
    let (counter, chief, dealt) = Counter::for_one(alloc, target, rest, workers, place)?;
    arm_operator(dataflow, op, dealt)?;
    Ok((counter, chief))
}

impl Boards {
    /// No boards.
    pub fn new(alloc: Global) -> Boards
        ensures { result ≡ [] }
    {
        Boards {
            alloc,
            counters: Vec::new(alloc),
            chiefs: Vec::new(alloc),
            targets: Vec::new(alloc),
        }
    }

    /// The board of an operator's count, where there is one.
    pub fn board_at(&self, op: u32) -> Option<&Board>
        ensures { option_map (λ board. board.now) result
            ≡ option_map (λ counter. counter.board) (board_at self.now op) }
    {
        find_board(self.counters.as_slice(), op)
    }

    /// The boards, and by the numbers of their operators the seats of their chiefs, who have no unit in hand. It takes no
    /// memory.
    pub fn lend(self) -> (LentBoards, Vec<Option<ChiefSeat>>)
        ensures boards { result.0 ≡ self }
        ensures led { AreLedBy self result.1.items }
    {
        let Boards {
            alloc,
            counters,
            chiefs,
            targets,
        } = self;
        let boards = LentBoards {
            alloc,
            counters,
            targets,
        };
        (boards, chiefs)
    }

    /// Boards with the seats of their chiefs, who have no unit in hand, put together again. It takes no memory.
    pub fn take_back(boards: LentBoards, chiefs: Vec<Option<ChiefSeat>>) -> Boards
        requires led { AreLedBy boards chiefs.items }
        ensures { result ≡ boards }
    {
        let LentBoards {
            alloc,
            counters,
            targets,
        } = boards;
        Boards {
            alloc,
            counters,
            chiefs,
            targets,
        }
    }

    /// Makes a board for each of these counts, by the numbers of their operators, with a unit for each row that is left to
    /// its target, and arms its operator's workers with empty hands. After running out of memory some may be armed.
    pub fn arm(
        &mut self,
        counts: &[Option<Target>],
        dataflow: &mut Dataflow,
    ) -> Result<(), AllocError>
        requires workers { AreAllThere dataflow.old }
        requires all { length counts.now ≡ length dataflow.old.flow }
        requires below { AreBelow counts.now dataflow.old }
        requires unarmed { AreUnarmed dataflow.old }
        requires stand { StandInForce (has_target counts.now) dataflow.old }
        ensures arms { OnOk result (ArmsAll counts.now dataflow.old dataflow.new) }
        ensures counted { OnOk result (AreCounted self.new dataflow.new) }
        ensures targets { OnOk result (targets_of self.new ≡ counts.now) }
        ensures flow { dataflow.new.flow ≡ dataflow.old.flow }
    {
        let mut targets = Vec::with_capacity(self.alloc, counts.len())?;
        let mut counters = Vec::with_capacity(self.alloc, counts.len())?;
        let mut chiefs = Vec::with_capacity(self.alloc, counts.len())?;
        'operators: for place in 0..counts.len() {
            let (counter, chief) = arm_one(self.alloc, counts[place], dataflow, place as u32 + 1)?;
            counters.push_reserved(counter);
            chiefs.push_reserved(chief);
            targets.push_reserved(counts[place]);
        }
        self.counters = counters;
        self.chiefs = chiefs;
        self.targets = targets;
        Ok(())
    }

    /// Disarms all workers, and closes the boards. It takes no memory.
    pub fn disarm(&mut self, dataflow: &mut Dataflow)
        requires workers { AreAllThere dataflow.old }
        requires counted { AreCounted self.old dataflow.old }
        requires stand { StandInForce (has_board self.old) dataflow.old }
        ensures disarms { DisarmsAll self.old dataflow.old dataflow.new }
        ensures none { self.new ≡ [] }
    {
        'operators: for place in 0..self.counters.len() {
            let counter = self.counters[place].take();
            let chief = self.chiefs[place].take();
            disarm_one(counter, chief, dataflow, place as u32 + 1);
        }
        self.counters.clear();
        self.chiefs.clear();
    }

    /// Hands all units that are left at its operator to a worker that needs one and has none: the operator's workers are
    /// disarmed, their board is closed, and they are armed again on a new one. After running out of memory some may be
    /// armed.
    pub fn hand_out(&mut self, dataflow: &mut Dataflow, worker: u32) -> Result<(), AllocError>
        requires workers { AreAllThere dataflow.old }
        requires there { worker < crew_of dataflow.old.flow }
        requires unfinished { has_finished dataflow.old worker ≡ false }
        requires short { is_short dataflow.old worker ≡ true }
        requires left { HasLeft (board_at self.old (op_of dataflow.old.flow worker))
            (rows_emitted dataflow.old (op_of dataflow.old.flow worker)) }
        requires counted { AreCounted self.old dataflow.old }
        requires stand { StandInForce (has_board self.old) dataflow.old }
        ensures hands { OnOk result (GrantsAllLeft self.old dataflow.old dataflow.new worker) }
        ensures counted { OnOk result (AreCounted self.new dataflow.new) }
        ensures targets { OnOk result (targets_of self.new ≡ targets_of self.old) }
        ensures flow { dataflow.new.flow ≡ dataflow.old.flow }
    {
        let place = dataflow.flow().op_of(worker) as usize - 1;
        let Some(counter) = self.counters[place].take() else {
            unreachable!()
        };
        let Some(chief) = self.chiefs[place].take() else {
            unreachable!()
        };
        let Some(target) = self.targets[place] else {
            unreachable!()
        };
        let (refilled, next) = hand_to(self.alloc, target, counter, chief, dataflow, worker)?;
        self.counters[place] = Some(refilled);
        self.chiefs[place] = Some(next);
        Ok(())
    }
}
