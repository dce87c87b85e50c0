//! Units for a worker that needs one and has none, and the step that comes next: of the first worker that has not finished,
//! which is handed units first where it needs them. Over `Dataflow::step` and `Boards::hand_out`.

ghost use Rattle.std.specs.Prelude.{◌≡◌, ◌^◌, ◌<◌, OnErr, OnOk, false, true};
ghost use Rattle.amber_boards.specs.Boards.{StandInForce, targets_of};
ghost use Rattle.amber_dataflow.specs.Dataflow.{AreAllThere, AreFree, has_finished, have_all_finished, is_short, step_count};
ghost use Rattle.amber_home.specs.Going.{AreReady, GoOn, IsFedAt, MayStarve, StepsNext};
ghost use Rattle.amber_home.specs.Leg.{NoneStands, is_count_asked, is_stopped};
ghost use Rattle.amber_rows.specs.Topology.{crew_of, op_of};

use crate::in_force::InForce;
use crate::stopping::is_stopped;
use amber_boards::Boards;
use amber_dataflow::Dataflow;
use std::alloc::AllocError;

// Hands units to a worker where it needs one and has none.
fn feed(
    arms: &InForce,
    boards: &mut Boards,
    dataflow: &mut Dataflow,
    worker: u32,
) -> Result<(), AllocError>
    requires workers { AreAllThere dataflow.old }
    requires there { worker < crew_of dataflow.old.flow }
    requires unfinished { has_finished dataflow.old worker ≡ false }
    requires none { is_stopped arms.now dataflow.old (op_of dataflow.old.flow worker) ≡ false }
    requires counted { AreReady arms.now boards.old dataflow.old }
    requires stand { StandInForce (is_count_asked arms.now) dataflow.old }
    ensures fed { OnOk result (IsFedAt boards.old dataflow.old dataflow.new worker) }
    ensures short { OnOk result (is_short dataflow.new worker ≡ false) }
    ensures counted { OnOk result (AreReady arms.now boards.new dataflow.new) }
    ensures targets { OnOk result (targets_of boards.new ≡ targets_of boards.old) }
    ensures flow { dataflow.new.flow ≡ dataflow.old.flow }
{
    if !dataflow.is_short(worker) {
        return Ok(());
    }
    boards.hand_out(dataflow, worker)
}

/// Hands units to a worker where it needs one and has none: all that are left at its operator. One that has finished gets
/// none, nor does any where a stop stands at its operator.
pub(crate) fn feed_in_turn(
    arms: &InForce,
    boards: &mut Boards,
    dataflow: &mut Dataflow,
    worker: u32,
) -> Result<(), AllocError>
    requires workers { AreAllThere dataflow.old }
    requires there { worker < crew_of dataflow.old.flow }
    requires counted { AreReady arms.now boards.old dataflow.old }
    requires stand { StandInForce (is_count_asked arms.now) dataflow.old }
    ensures fed { OnOk result (IsFedAt boards.old dataflow.old dataflow.new worker) }
    ensures short { OnOk result (is_short dataflow.new worker ≡ true
        → MayStarve arms.now dataflow.new worker) }
    ensures counted { OnOk result (AreReady arms.now boards.new dataflow.new) }
    ensures flow { dataflow.new.flow ≡ dataflow.old.flow }
{
    if dataflow.has_finished(worker) {
        return Ok(());
    }
    let op = dataflow.flow().op_of(worker);
    if is_stopped(arms, dataflow, op) {
        return Ok(());
    }
    feed(arms, boards, dataflow, worker)
}

/// One step of the first worker that has not finished, or its next row holds it. Where it needs a unit and has none, all
/// units that are left at its operator were handed to it before.
pub(crate) fn step_next(
    arms: &InForce,
    boards: &mut Boards,
    dataflow: &mut Dataflow,
) -> Result<(), AllocError>
    requires workers { AreAllThere dataflow.old }
    requires unfinished { have_all_finished dataflow.old ≡ false }
    requires free { AreFree dataflow.old }
    requires none { NoneStands arms.now dataflow.old }
    requires few { step_count dataflow.old < 2 ^ 40 }
    requires counted { AreReady arms.now boards.old dataflow.old }
    requires stand { StandInForce (is_count_asked arms.now) dataflow.old }
    ensures on { OnOk result (GoOn arms.now dataflow.old dataflow.new) }
    ensures steps { OnOk result (StepsNext boards.old dataflow.old dataflow.new) }
    ensures counted { OnOk result (AreReady arms.now boards.new dataflow.new) }
    ensures targets { OnOk result (targets_of boards.new ≡ targets_of boards.old) }
    ensures flow { OnErr result (dataflow.new.flow ≡ dataflow.old.flow) }
{
    let worker = dataflow.first_unfinished();
    feed(arms, boards, dataflow, worker)?;
    let op = dataflow.flow().op_of(worker);
    dataflow.step(worker, boards.board_at(op))
}
