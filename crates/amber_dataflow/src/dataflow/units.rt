//! The units of a count: room in a worker's journal, a seat that it is given and gives back, and whether it needs a unit.
//! Over the calls of `Worker` that do it for one.

ghost use Rattle.std.specs.Prelude.{◌≡◌, ◌<◌, None, OnErr, OnOk, Some, false, true};
ghost use Rattle.amber_board.specs.Seats.{IsSeatOf, work_view};
ghost use Rattle.amber_rows.specs.Topology.{crew_of};
ghost use Rattle.amber_worker.specs.Counting.{GivesBack, IsBoardOf};
ghost use Rattle.amber_dataflow.specs.Dataflow as dataflow;
ghost use Rattle.amber_dataflow.specs.Dataflow.{AreAllThere, MovesUnder, StandsUnder, has_room, room_kept, seat_of, worker_armed, worker_disarmed};

use super::Dataflow;
use amber_board::{Board, WorkSeat};
use std::alloc::AllocError;

impl Dataflow {
    /// Makes room in a worker's journal for an entry, which is kept from now on: by every call but `disarm`, `arm` of a
    /// seat with units in hand, and `take_parts`. After running out of memory all is as before.
    pub fn reserve(&mut self, worker: u32) -> Result<(), AllocError>
        requires workers { AreAllThere self.old }
        requires there { worker < crew_of self.old.flow }
        ensures ok { OnOk result (self.new ≡ room_kept worker self.old) }
        ensures err { OnErr result (self.new ≡ self.old) }
    {
        self.workers[worker as usize].reserve()
    }

    /// Arms a worker with a seat that has counted nothing. Units that are in its hand are journalled as granted, which
    /// uses up the room that was reserved. It takes no memory.
    pub fn arm(&mut self, worker: u32, seat: WorkSeat)
        requires workers { AreAllThere self.old }
        requires there { worker < crew_of self.old.flow }
        requires unarmed { seat_of self.old worker ≡ None }
        requires none { (work_view seat).mine ≡ 0 }
        requires unfinished { 0 < (work_view seat).hand
            → dataflow.has_finished self.old worker ≡ false }
        requires reserved { 0 < (work_view seat).hand → has_room self.old worker ≡ true }
        requires under { StandsUnder true self.old worker }
        ensures only { self.new ≡ worker_armed worker seat self.old }
        ensures stand { MovesUnder true self.old self.new worker }
    {
        self.workers[worker as usize].arm(seat);
    }

    /// Gives a worker's hand back to the board and hands out its seat. Units that were in the hand are journalled, in the
    /// room that was reserved, which is kept no longer. It takes no memory.
    pub fn disarm(&mut self, worker: u32, board: &Board) -> WorkSeat
        requires workers { AreAllThere self.old }
        requires there { worker < crew_of self.old.flow }
        requires own { IsBoardOf (Some board.now) (seat_of self.old worker) }
        requires reserved { has_room self.old worker ≡ true }
        requires under { StandsUnder true self.old worker }
        ensures gives { GivesBack (seat_of self.old worker) (Some result) }
        ensures own { IsSeatOf board.now result }
        ensures only { self.new ≡ worker_disarmed worker self.old }
        ensures stand { MovesUnder true self.old self.new worker }
    {
        self.workers[worker as usize].disarm(board)
    }

    /// Whether a worker needs a unit for its next row, and has none in hand.
    pub fn is_short(&self, worker: u32) -> bool
        requires workers { AreAllThere self.now }
        requires there { worker < crew_of self.now.flow }
        ensures { result ≡ dataflow.is_short self.now worker }
    {
        self.workers[worker as usize].needs_unit()
    }
}
