//! Workers that have no seat hold no unit: each takes a seat with nothing in hand and gives it back. Over `Worker::arm` and
//! `Worker::disarm` of `amber_worker`.

ghost use Rattle.std.specs.Prelude.{◌≡◌, IfOk, None, OnOk, map};
ghost use Rattle.amber_dataflow.specs.Redoing.{HaveNoSeats, IsBareSeat, emptied};

use amber_board::{Board, WorkSeat};
use amber_worker::Worker;
use std::alloc::{AllocError, Global};

// Takes the seat and gives it back.
fn take_and_give(worker: &mut Worker, board: &Board, seat: WorkSeat) -> Result<WorkSeat, AllocError>
    requires unarmed { worker.old.seat ≡ None }
    requires bare { IsBareSeat board.now seat }
    ensures emptied { OnOk result (worker.new ≡ emptied worker.old) }
    ensures bare { IfOk result (IsBareSeat board.now) }
{
    worker.reserve()?;
    worker.arm(seat);
    Ok(worker.disarm(board))
}

// Each of them takes the seat and gives it back.
fn empty_each(crew: &mut [Worker], board: &Board, seat: WorkSeat) -> Result<(), AllocError>
    requires seats { HaveNoSeats crew.old }
    requires bare { IsBareSeat board.now seat }
    ensures { OnOk result (crew.new ≡ map emptied crew.old) }
{
    let mut seat = seat;
    'workers: for number in 0..crew.len() {
        seat = take_and_give(&mut crew[number], board, seat)?;
    }
    Ok(())
}

/// No hand holds a unit, where nobody has a seat.
pub fn empty_hands(alloc: Global, crew: &mut [Worker]) -> Result<(), AllocError>
    requires { HaveNoSeats crew.old }
    ensures { OnOk result (crew.new ≡ map emptied crew.old) }
{
    let (board, _, mut seats) = Board::new(alloc, 1, 1)?;
    match seats.pop() {
        Some(seat) => empty_each(crew, &board, seat),
        None => unreachable!(),
    }
}
