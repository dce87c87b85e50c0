//! Units for the workers of a leg before a round of it: of each operator one worker gets all that are left there, where it
//! needs one and has none. Over what `stepping` does for one worker.

ghost use Rattle.std.specs.Prelude.{◌≡◌, ◌+◌, ◌%◌, ◌<◌, ◌≤◌, OnOk, length};
ghost use Rattle.amber_boards.specs.Boards.{StandInForce};
ghost use Rattle.amber_dataflow.specs.Dataflow.{AreAllThere};
ghost use Rattle.amber_home.specs.Going.{AreAsFar, AreReady, GoOn};
ghost use Rattle.amber_home.specs.Leg.{is_count_asked};
ghost use Rattle.amber_rows.specs.Topology.{crew_of, first_worker_of, worker_count};

use crate::in_force::InForce;
use crate::stepping::feed_in_turn;
use amber_boards::Boards;
use amber_dataflow::Dataflow;
use amber_rows::Flow;
use std::alloc::AllocError;

// The worker of an operator whose turn it is in this round: each has its own over as many rounds as they are.
fn worker_in_turn(flow: &Flow, op: u32, round: u64) -> u32
    requires some { 0 < op }
    requires within { op ≤ length flow.now }
    ensures which { result
        ≡ first_worker_of flow.now op + round % worker_count flow.now op }
    ensures there { result < crew_of flow.now }
{
    let place = round % u64::from(flow.worker_count(op));
    flow.first_worker(op) + place as u32
}

/// Hands units to one worker of each operator, where it needs one and has none: all that are left there. Which of an
/// operator's workers it is goes round with the number of the round.
pub(crate) fn feed_each(
    arms: &InForce,
    boards: &mut Boards,
    dataflow: &mut Dataflow,
    round: u64,
) -> Result<(), AllocError>
    requires workers { AreAllThere dataflow.old }
    requires counted { AreReady arms.now boards.old dataflow.old }
    requires stand { StandInForce (is_count_asked arms.now) dataflow.old }
    ensures on { OnOk result (GoOn arms.now dataflow.old dataflow.new) }
    ensures far { OnOk result (AreAsFar arms.now dataflow.old dataflow.new) }
    ensures counted { OnOk result (AreReady arms.now boards.new dataflow.new) }
    ensures flow { dataflow.new.flow ≡ dataflow.old.flow }
{
    let count = dataflow.flow().get().len() as u32;
    'operators: for before in 0..count {
        let worker = worker_in_turn(dataflow.flow(), before + 1, round);
        feed_in_turn(arms, boards, dataflow, worker)?;
    }
    Ok(())
}
