//! A turn of one worker, after which its links are settled again. Over `make_turn` of `turning`, and `settling`.

ghost use Rattle.std.specs.Prelude.{◌≡◌, ◌⊎◌, ◌^◌, ◌<◌, OnOk, false, length};
ghost use Rattle.std.specs.List.{list_all};
ghost use Rattle.std.specs.Option.{option_copied};
ghost use Rattle.amber_worker.specs.Counting.{IsBoardOf};
ghost use Rattle.amber_worker.specs.WorkerState.{IsUnrestrained, is_armed, needs_unit, steps_made};
ghost use Rattle.amber_dataflow.specs.AtWork.{HaveFinished, IsCrewUnder, IsHeldAt, MakesStepAt, MakesTurnsAt, worker_state_at};

use crate::settling::settle_worker;
use crate::turning::make_turn;
use amber_board::Board;
use amber_worker::Worker;
use std::alloc::AllocError;

/// One step of a worker whose senders have all finished, or its next row holds it. What it has made goes on to its
/// receivers.
pub(crate) fn step_worker(
    crew: &mut [Worker],
    number: usize,
    board: Option<&Board>,
) -> Result<(), AllocError>
    requires there { number < length crew.old }
    requires crew { IsCrewUnder (is_armed (worker_state_at crew.old number)) number crew.old }
    requires first { HaveFinished number crew.old }
    requires free { IsUnrestrained (worker_state_at crew.old number) }
    requires fed { needs_unit (worker_state_at crew.old number) ≡ false }
    requires own { IsBoardOf (option_copied board) (worker_state_at crew.old number).seat }
    requires few { steps_made (worker_state_at crew.old number) < 2 ^ 40 }
    ensures turns { OnOk result (MakesTurnsAt 1 crew.old crew.new number) }
    ensures does { OnOk result
        (MakesStepAt crew.old crew.new number ⊎ IsHeldAt crew.old crew.new number) }
    ensures own { OnOk result
        (IsBoardOf (option_copied board.entry) (worker_state_at crew.new number).seat) }
{
    make_turn(&mut crew[number], board)?;
    settle_worker(crew, number)
}

/// The number of the first worker that has not finished.
pub(crate) fn first_unfinished(crew: &[Worker]) -> usize
    requires unfinished { list_all (λ w. w.finished) crew.now ≡ false }
    ensures there { result < length crew.now }
    ensures first { HaveFinished result crew.now }
    ensures unfinished { (worker_state_at crew.now result).finished ≡ false }
{
    'workers: for number in 0..crew.len() {
        if !crew[number].is_finished() {
            return number;
        }
    }
    unreachable!()
}
