//! What the tests do at the seats of a board.

ghost use Rattle.std.specs.Prelude.{◌≡◌, ◌-◌, ◌≤◌, All, IsTrue};
ghost use Rattle.amber_board.specs.Seats.{IsSeatOf, work_view};

use amber_board::{Board, WorkSeat};

/// Counts `times` units of the hand.
pub fn count_times(board: &Board, seat: &mut WorkSeat, times: u64)
    requires own { IsSeatOf board.now seat.old }
    requires has { times ≤ (work_view seat.old).hand }
    ensures own { IsSeatOf board.now seat.new }
    ensures hand { (work_view seat.new).hand ≡ (work_view seat.old).hand - times }
{
    for _ in 0..times {
        seat.count(board);
    }
}

/// A worker claims, and counts each unit of its hand. How many units it has claimed.
pub fn claim_and_count(board: &Board, seat: &mut WorkSeat) -> u64
    requires { IsSeatOf board.now seat.old }
    ensures { IsSeatOf board.now seat.new }
{
    let claimed = seat.claim(board);
    let all = seat.hand();
    count_times(board, seat, all);
    claimed
}

/// Whether no seat has a unit in hand.
pub fn all_empty(seats: &[WorkSeat]) -> bool
    ensures { IsTrue result → All (λ seat. (work_view seat).hand ≡ 0) seats.now }
{
    seats.iter().all(|seat| seat.hand() == 0)
}
