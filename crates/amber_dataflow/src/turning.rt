//! A turn of a worker that is told nothing, on the board of its operator's count where one is armed. Over `Worker::turn` of
//! `amber_worker`.

ghost use Rattle.std.specs.Prelude.{IfOk, OnOk, ◌≡◌, ◌^◌, ◌<◌};
ghost use Rattle.std.specs.Option.{option_copied};
ghost use Rattle.amber_worker.specs.Counting.{IsBoardOf};
ghost use Rattle.amber_worker.specs.Links.{HaveSentNothing};
ghost use Rattle.amber_worker.specs.Turning.{MakesTurn, MakesTurns};
ghost use Rattle.amber_worker.specs.WorkerState.{steps_made};
ghost use Rattle.amber_dataflow.specs.AtWork.{WritesHolds};

use amber_board::Board;
use amber_worker::{Turn, Worker};
use std::alloc::AllocError;

/// One turn of a worker.
#[inline(always)]
pub(crate) fn make_turn(worker: &mut Worker, board: Option<&Board>) -> Result<Turn, AllocError>
    requires own { IsBoardOf (option_copied board) worker.old.seat }
    requires few { steps_made worker.old < 2 ^ 40 }
    ensures makes { OnOk result (MakesTurns 1 worker.old worker.new) }
    ensures unsent { OnOk result (HaveSentNothing worker.old.outs worker.new.outs) }
    ensures writes { OnOk result (WritesHolds worker.old.journal worker.new.journal) }
    ensures turned { IfOk result (MakesTurn worker.old worker.new) }
    ensures uncounted { OnOk result (worker.new.turned ≡ worker.old.turned) }
    ensures own { IsBoardOf (option_copied board.entry) worker.new.seat }
{
    worker.turn(board, None)
}
