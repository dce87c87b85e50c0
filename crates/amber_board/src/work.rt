//! What a worker does at its seat. Rests on the steps of `kinds` and the words of `words`.

ghost use Rattle.std.specs.Prelude.{◌≡◌, ◌<◌};
ghost use Rattle.amber_board.specs.Moves.{after_claim, counted_one, given_back};
ghost use Rattle.amber_board.specs.Seats.{IsSeatOf, work_view, worker_of};

use crate::kinds;
use crate::types::{Board, WorkSeat};
use crate::words::{ALLOTMENTS, APART, COUNTS, UNASSIGNED};

impl WorkSeat {
    /// Moves the allotment into the hand, and says how many units it had: 0 where it was empty at that step.
    pub fn claim(&mut self, board: &Board) -> u64
        requires { IsSeatOf board.now self.old }
        ensures own { IsSeatOf board.now self.new }
        ensures claimed { work_view self.new
            ≡ after_claim (work_view self.old) (worker_of self.old) result }
    {
        let found = board
            .table
            .shared
            .swap::<kinds::Claim>(&mut self.seat, ALLOTMENTS + self.number as usize, 0);
        self.hand += found;
        found
    }

    /// Turns one unit of the hand into a counted one.
    pub fn count(&mut self, board: &Board)
        requires own { IsSeatOf board.now self.old }
        requires has { 0 < (work_view self.old).hand }
        ensures own { IsSeatOf board.now self.new }
        ensures counted { work_view self.new
            ≡ counted_one (work_view self.old) (worker_of self.old) }
    {
        board
            .table
            .shared
            .fetch_add::<kinds::Count>(&mut self.seat, COUNTS + APART * self.number as usize, 1);
        self.hand -= 1;
        self.mine += 1;
    }

    /// Makes the hand unassigned.
    pub fn give_back(&mut self, board: &Board)
        requires { IsSeatOf board.now self.old }
        ensures own { IsSeatOf board.now self.new }
        ensures given_back { work_view self.new
            ≡ given_back (work_view self.old) (worker_of self.old) }
    {
        board
            .table
            .shared
            .fetch_add::<kinds::GiveBack>(&mut self.seat, UNASSIGNED, self.hand);
        self.hand = 0;
    }

    /// The units in the hand.
    pub fn hand(&self) -> u64
        ensures { result ≡ (work_view self.now).hand }
    {
        self.hand
    }
}
