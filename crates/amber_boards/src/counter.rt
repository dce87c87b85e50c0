//! The board of an operator's count, and how its workers are armed on it and disarmed. The chief of a board has a seat of its
//! own, which stands apart from it. Over `Board` of `amber_board`, and the calls of `Dataflow` that arm and disarm one worker.

ghost use Rattle.std.specs.Prelude.{◌≡◌, ◌+◌, ◌<◌, ◌≤◌, ℕ, All, IfOk, None, OnOk, Some, false, length, option_map, true};
ghost use Rattle.amber_board.specs.Opening.{AreDealt, all_unassigned, all_with};
ghost use Rattle.amber_board.specs.Seats.{target_of, work_view};
ghost use Rattle.amber_board.specs.declared.TheConstants.{LARGEST_TARGET, MOST_WORKERS};
ghost use Rattle.amber_dataflow.specs.Dataflow.{AreAllThere, MovesUnder, StandsUnder, has_finished, room_kept, seat_of, units_counted, worker_armed};
ghost use Rattle.amber_rows.specs.Topology.{crew_of, worker_count};
ghost use Rattle.amber_boards.specs.Boards.{AreForWorking, AreUnarmedAt, ArmsOperator, DisarmsOperator, HoldsSeats, IsCountedOn, IsLedBy, IsMadeSo, Seating, StandsCounted, board_at};

use crate::target::Target;
use amber_board::{Board, ChiefSeat, WorkSeat, close};
use amber_dataflow::Dataflow;
use std::alloc::{AllocError, Global};
use std::marker::Model;

/// A board with a place for the seats of its workers, seen as a `CounterState`.
#[derive(Drop)]
pub(crate) struct Counter {
    target: Target,
    board: Board,
    // None is here while the workers have them, and there is room for all.
    seats: Vec<WorkSeat>,
}

impl Model for Counter {
    ghost use Rattle.std.specs.Prelude.{vec_capacity};
    ghost use Rattle.amber_boards.specs.Boards.{CounterState};

    ghost Value = { CounterState };

    ghost view = { λ a. record {
      target = a.target;
      board = a.board;
      seats = a.seats.items;
      room = vec_capacity a.seats;
    } };
}

impl Counter {
    /// A board with so many units, all unassigned, and the seats of its chief and of its workers.
    pub fn open(
        alloc: Global,
        target: Target,
        units: u64,
        workers: u32,
    ) -> Result<(Counter, ChiefSeat, Vec<WorkSeat>), AllocError>
        requires units { (1 ≤ units) × (units ≤ LARGEST_TARGET) }
        requires workers { (1 ≤ workers) × (workers ≤ MOST_WORKERS) }
        ensures made { IfOk result
            (λ made. IsMadeSo made.0 made.1 made.2.items (all_unassigned units workers)) }
        ensures target { IfOk result (λ made. made.0.target ≡ target) }
    {
        let (board, chief, dealt) = Board::new(alloc, units, workers)?;
        let seats = Vec::with_capacity(alloc, workers as usize)?;
        Ok((
            Counter {
                target,
                board,
                seats,
            },
            chief,
            dealt,
        ))
    }

    /// The same with all units in the hand of one of the workers.
    pub fn for_one(
        alloc: Global,
        target: Target,
        units: u64,
        workers: u32,
        worker: u32,
    ) -> Result<(Counter, ChiefSeat, Vec<WorkSeat>), AllocError>
        requires units { (1 ≤ units) × (units ≤ LARGEST_TARGET) }
        requires workers { (1 ≤ workers) × (workers ≤ MOST_WORKERS) }
        requires worker { worker < workers }
        ensures made { IfOk result
            (λ made. IsMadeSo made.0 made.1 made.2.items (all_with worker units workers)) }
        ensures target { IfOk result (λ made. made.0.target ≡ target) }
    {
        let (board, chief, dealt) = Board::for_one(alloc, units, workers, worker)?;
        let seats = Vec::with_capacity(alloc, workers as usize)?;
        Ok((
            Counter {
                target,
                board,
                seats,
            },
            chief,
            dealt,
        ))
    }

    /// The board.
    pub fn board(&self) -> &Board
        ensures { result.now ≡ self.now.board }
    {
        &self.board
    }

    // Closes the board, whose seats are all back.
    fn close(self, chief: ChiefSeat)
        requires seats { (units : ℕ) × HoldsSeats self units }
        requires led { IsLedBy (Some self) (Some chief) }
        ensures { (units : ℕ) → HoldsSeats self units → units ≤ target_of self.board }
    {
        let Counter {
            target: _,
            board,
            seats,
        } = self;
        let _totals = close(board, chief, seats);
    }
}

/// The board of an operator among these, by the operators' numbers, where there is one.
pub(crate) fn find_board(counters: &[Option<Counter>], op: u32) -> Option<&Board>
    ensures { option_map (λ board. board.now) result
        ≡ option_map (λ counter. counter.board) (board_at counters.now op) }
{
    if op == 0 {
        return None;
    }
    match counters.get(op as usize - 1) {
        Some(Some(counter)) => Some(counter.board()),
        Some(None) | None => None,
    }
}

// Arms one worker with its seat. Room is kept in its journal, before and after.
fn arm_worker(dataflow: &mut Dataflow, worker: u32, seat: WorkSeat) -> Result<(), AllocError>
    requires workers { AreAllThere dataflow.old }
    requires there { worker < crew_of dataflow.old.flow }
    requires unarmed { seat_of dataflow.old worker ≡ None }
    requires none { (work_view seat).mine ≡ 0 }
    requires unfinished { 0 < (work_view seat).hand → has_finished dataflow.old worker ≡ false }
    requires under { StandsUnder true dataflow.old worker }
    ensures armed { OnOk result
        (dataflow.new ≡ room_kept worker (worker_armed worker seat dataflow.old)) }
    ensures stand { OnOk result (MovesUnder true dataflow.old dataflow.new worker) }
    ensures flow { dataflow.new.flow ≡ dataflow.old.flow }
{
    dataflow.reserve(worker)?;
    dataflow.arm(worker, seat);
    dataflow.reserve(worker)
}

/// Arms an operator's workers, each with its seat, and keeps room in their journals.
pub(crate) fn arm_operator(
    dataflow: &mut Dataflow,
    op: u32,
    dealt: Vec<WorkSeat>,
) -> Result<(), AllocError>
    requires workers { AreAllThere dataflow.old }
    requires some { 0 < op }
    requires there { op ≤ length dataflow.old.flow }
    requires unarmed { AreUnarmedAt op dataflow.old }
    requires all { length dealt.items ≡ worker_count dataflow.old.flow op }
    requires none { All (λ seat. (work_view seat).mine ≡ 0) dealt.items }
    requires hands { AreForWorking dataflow.old op dealt.items }
    requires stand { StandsCounted op dataflow.old }
    ensures arms { OnOk result ((seating : Seating) → seating.op ≡ op
        → AreDealt seating.board dealt.items seating.given
        → ArmsOperator seating dataflow.old dataflow.new) }
    ensures flow { dataflow.new.flow ≡ dataflow.old.flow }
{
    let first = dataflow.flow().first_worker(op);
    let mut place = 0;
    'seats: for seat in dealt {
        arm_worker(dataflow, first + place, seat)?;
        place += 1;
    }
    Ok(())
}

// Disarms an operator's workers, whose seats come back.
fn take_seats(counter: &mut Counter, dataflow: &mut Dataflow, op: u32)
    requires workers { AreAllThere dataflow.old }
    requires some { 0 < op }
    requires there { op ≤ length dataflow.old.flow }
    requires counted { IsCountedOn counter.old op dataflow.old }
    requires stand { StandsCounted op dataflow.old }
    ensures disarms { DisarmsOperator op dataflow.old dataflow.new }
    ensures seats { HoldsSeats counter.new (units_counted dataflow.old op) }
    ensures board { counter.new.board ≡ counter.old.board }
    ensures target { counter.new.target ≡ counter.old.target }
{
    let first = dataflow.flow().first_worker(op);
    let workers = dataflow.flow().get()[op as usize - 1].workers;
    'workers: for place in 0..workers {
        let seat = dataflow.disarm(first + place, &counter.board);
        counter.seats.push_reserved(seat);
    }
}

/// Disarms an operator's workers and closes their board: they have counted no more units than it had.
pub(crate) fn disarm_operator(counter: Counter, chief: ChiefSeat, dataflow: &mut Dataflow, op: u32)
    requires workers { AreAllThere dataflow.old }
    requires some { 0 < op }
    requires there { op ≤ length dataflow.old.flow }
    requires counted { IsCountedOn counter op dataflow.old }
    requires led { IsLedBy (Some counter) (Some chief) }
    requires stand { StandsCounted op dataflow.old }
    ensures disarms { DisarmsOperator op dataflow.old dataflow.new }
    ensures within { units_counted dataflow.old op ≤ target_of counter.board }
{
    let mut counter = counter;
    take_seats(&mut counter, dataflow, op);
    counter.close(chief);
}
