//! The stops that stand, in their order: held workers, counts, pauses and the end. Over `InForce`, which has
//! the counts and the pauses, and what `Dataflow` tells of its workers.

ghost use Rattle.std.specs.Prelude.{◌≡◌, ◌++◌, ◌<◌, ◌≤◌, IfOk, OnOk, length};
ghost use Rattle.amber_rows.specs.Topology.{crew_of};
ghost use Rattle.amber_dataflow.specs.Dataflow.{AreAllThere, rows_emitted};
ghost use Rattle.amber_home.specs.Leg.{count_at, counts_of, held_of, pause_at, pauses_of};
ghost use Rattle.amber_home.specs.Leg.{stop_of_count, stop_of_pause, stop_of_worker, stops_by};

use crate::in_force::InForce;
use amber_dataflow::Dataflow;
use amber_meaning::{Stop, Stops};
use std::alloc::{AllocError, Global};

// Appends the stop of a worker to the others, if it is held.
fn add_worker(dataflow: &Dataflow, worker: u32, stops: &mut Vec<Stop>) -> Result<(), AllocError>
    requires workers { AreAllThere dataflow.now }
    requires there { worker < crew_of dataflow.now.flow }
    ensures { OnOk result
        (stops.new.items ≡ stops.old.items ++ stop_of_worker dataflow.now worker) }
{
    let Some(row) = dataflow.held_row(worker) else {
        return Ok(());
    };
    let op = dataflow.flow().op_of(worker);
    stops.push(Stop::Held {
        op,
        worker: worker - dataflow.flow().first_worker(op),
        row: row.clone()?,
    })?;
    Ok(())
}

// Appends the stops of held workers, by their numbers.
fn add_held(dataflow: &Dataflow, stops: &mut Vec<Stop>) -> Result<(), AllocError>
    requires workers { AreAllThere dataflow.now }
    ensures { OnOk result (stops.new.items ≡ stops.old.items ++ held_of dataflow.now) }
{
    'workers: for worker in 0..dataflow.flow().workers() {
        add_worker(dataflow, worker, stops)?;
    }
    Ok(())
}

// Appends the stop of an operator's count to the others, if it stands.
fn add_count(
    arms: &InForce,
    dataflow: &Dataflow,
    op: u32,
    stops: &mut Vec<Stop>,
) -> Result<(), AllocError>
    requires workers { AreAllThere dataflow.now }
    requires some { 0 < op }
    requires within { op ≤ length dataflow.now.flow }
    ensures { OnOk result (stops.new.items ≡ stops.old.items
        ++ stop_of_count op (count_at arms.now op) (rows_emitted dataflow.now op)) }
{
    let Some(count) = arms.count_at(op) else {
        return Ok(());
    };
    if count.is_reached(dataflow.rows_emitted(op)) {
        stops.push(Stop::Count {
            op,
            target: count.target,
        })?;
    }
    Ok(())
}

// Appends the counts that stand, by their operators.
fn add_counts(arms: &InForce, dataflow: &Dataflow, stops: &mut Vec<Stop>) -> Result<(), AllocError>
    requires workers { AreAllThere dataflow.now }
    ensures { OnOk result (stops.new.items ≡ stops.old.items ++ counts_of arms.now dataflow.now) }
{
    let count = dataflow.flow().get().len() as u32;
    for before in 0..count {
        add_count(arms, dataflow, before + 1, stops)?;
    }
    Ok(())
}

// Appends the stop of an operator's pause to the others, if it stands.
fn add_pause(
    arms: &InForce,
    dataflow: &Dataflow,
    op: u32,
    stops: &mut Vec<Stop>,
) -> Result<(), AllocError>
    requires workers { AreAllThere dataflow.now }
    requires some { 0 < op }
    requires within { op ≤ length dataflow.now.flow }
    ensures { OnOk result (stops.new.items ≡ stops.old.items
        ++ stop_of_pause op (pause_at arms.now op) (rows_emitted dataflow.now op)) }
{
    let Some(n) = arms.pause_at(op) else {
        return Ok(());
    };
    let emitted = dataflow.rows_emitted(op);
    if n <= emitted {
        stops.push(Stop::Pause { op, n, emitted })?;
    }
    Ok(())
}

// Appends the pauses that stand, by their operators.
fn add_pauses(arms: &InForce, dataflow: &Dataflow, stops: &mut Vec<Stop>) -> Result<(), AllocError>
    requires workers { AreAllThere dataflow.now }
    ensures { OnOk result (stops.new.items ≡ stops.old.items ++ pauses_of arms.now dataflow.now) }
{
    let count = dataflow.flow().get().len() as u32;
    for before in 0..count {
        add_pause(arms, dataflow, before + 1, stops)?;
    }
    Ok(())
}

/// The stops that stand: the held workers by their numbers, the counts and the pauses by their operators, and
/// the end.
pub(crate) fn stops_of(
    alloc: Global,
    arms: &InForce,
    dataflow: &Dataflow,
) -> Result<Stops, AllocError>
    requires { AreAllThere dataflow.now }
    ensures { IfOk result (λ stops. stops ≡ stops_by arms.now dataflow.now) }
{
    let mut stops = Vec::new(alloc);
    add_held(dataflow, &mut stops)?;
    add_counts(arms, dataflow, &mut stops)?;
    add_pauses(arms, dataflow, &mut stops)?;
    if dataflow.have_all_finished() {
        stops.push(Stop::End)?;
    }
    Ok(Stops::new(stops))
}
