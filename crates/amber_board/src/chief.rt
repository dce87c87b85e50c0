//! What the chief does at its seat. Rests on the steps of `kinds` and the words of `words`.

ghost use Rattle.std.specs.Prelude.{◌≡◌, ℕ, ◌^◌, ◌≤◌, ◌<◌, ◌↔◌, IsTrue, sum};
ghost use Rattle.amber_board.specs.Ledger.{IsExact};
ghost use Rattle.amber_board.specs.Moves.{drawn, after_grant, put_back_of, swept, after_watch};
ghost use Rattle.amber_board.specs.Seats.{IsChiefOf, chief_view, board_workers};

use crate::kinds;
use crate::types::{Board, ChiefSeat};
use crate::words::{ALLOTMENTS, APART, COUNTS, UNASSIGNED};

fn total_of(counts: &[u64]) -> u64
    requires { sum counts.now < 2 ^ 64 }
    ensures { result ≡ sum counts.now }
{
    counts.iter().sum()
}

impl ChiefSeat {
    /// Moves all unassigned units into the hand.
    pub fn draw(&mut self, board: &Board)
        requires { IsChiefOf board.now self.old }
        ensures own { IsChiefOf board.now self.new }
        ensures drew { (n : ℕ) × (chief_view self.new ≡ drawn (chief_view self.old) n) }
    {
        self.take_unassigned(board);
    }

    // As `draw`, for a chief whose workers may have no seats yet. Then all units come.
    pub(crate) fn take_unassigned(&mut self, board: &Board)
        requires { self.old.seat.table_id ≡ board.now.table.shared.table_id }
        ensures table { self.new.seat.table_id ≡ self.old.seat.table_id }
        ensures drew { (n : ℕ) × (chief_view self.new ≡ drawn (chief_view self.old) n) }
        ensures all { (chief_view self.old).made ≡ 0
            → (chief_view self.new).hand ≡ (chief_view self.old).target }
    {
        let found = board
            .table
            .shared
            .swap::<kinds::Draw>(&mut self.seat, UNASSIGNED, 0);
        self.hand += found;
    }

    /// Moves `n` units of the hand to the allotment of `worker`.
    pub fn grant(&mut self, board: &Board, worker: u32, n: u64)
        requires own { IsChiefOf board.now self.old }
        requires worker { worker < board_workers board.now }
        requires has { n ≤ (chief_view self.old).hand }
        ensures own { IsChiefOf board.now self.new }
        ensures granted { chief_view self.new ≡ after_grant (chief_view self.old) worker n }
    {
        board
            .table
            .shared
            .fetch_add::<kinds::Grant>(&mut self.seat, ALLOTMENTS + worker as usize, n);
        self.hand -= n;
    }

    /// Makes the hand unassigned.
    pub fn put_back(&mut self, board: &Board)
        requires { IsChiefOf board.now self.old }
        ensures own { IsChiefOf board.now self.new }
        ensures put_back { chief_view self.new ≡ put_back_of (chief_view self.old) }
    {
        board
            .table
            .shared
            .fetch_add::<kinds::PutBack>(&mut self.seat, UNASSIGNED, self.hand);
        self.hand = 0;
    }

    /// Moves what `worker` has not claimed of its allotment back into the hand.
    pub fn sweep(&mut self, board: &Board, worker: u32)
        requires own { IsChiefOf board.now self.old }
        requires worker { worker < board_workers board.now }
        ensures own { IsChiefOf board.now self.new }
        ensures swept { (n : ℕ) × (chief_view self.new ≡ swept (chief_view self.old) worker n) }
    {
        let recalled = board
            .table
            .shared
            .swap::<kinds::Sweep>(&mut self.seat, ALLOTMENTS + worker as usize, 0);
        self.hand += recalled;
    }

    /// How many units `worker` has counted, which the chief remembers.
    pub fn watch(&mut self, board: &Board, worker: u32) -> u64
        requires own { IsChiefOf board.now self.old }
        requires worker { worker < board_workers board.now }
        ensures own { IsChiefOf board.now self.new }
        ensures watched { chief_view self.new ≡ after_watch (chief_view self.old) worker result }
    {
        let counted = board
            .table
            .shared
            .load::<kinds::Watch>(&mut self.seat, COUNTS + APART * worker as usize);
        self.seen[worker as usize] = counted;
        counted
    }

    /// Whether the counts that the chief saw add up to the target.
    /// If so, every unit is counted, and none is anywhere else.
    pub fn hit(&self) -> bool
        ensures hit { IsTrue result
            ↔ (sum (chief_view self.now).seen ≡ (chief_view self.now).target) }
        ensures exact { IsTrue result → IsExact (chief_view self.now) }
    {
        total_of(&self.seen) == self.target
    }

    /// The units in the hand.
    pub fn hand(&self) -> u64
        ensures { result ≡ (chief_view self.now).hand }
    {
        self.hand
    }

    /// How many workers' seats were made: those of all workers of its board.
    pub fn workers(&self) -> u32
        ensures { result ≡ (chief_view self.now).made }
    {
        self.workers
    }
}
