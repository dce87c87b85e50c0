//! What the workers of an operator show. Over `Worker::view` of `amber_worker`.

ghost use Rattle.std.specs.Prelude.{◌≡◌, ◌<◌, ◌≤◌, IfOk, length};
ghost use Rattle.amber_rows.specs.Topology.{crew_of, workers_of};
ghost use Rattle.amber_dataflow.specs.Answers.{ShowWorkers};

use amber_meaning::Views;
use amber_rows::Flow;
use amber_worker::Worker;
use std::alloc::{AllocError, Global};

/// What each worker of an operator shows.
pub(crate) fn views_of(
    alloc: Global,
    flow: &Flow,
    crew: &[Worker],
    op: u32,
) -> Result<Views, AllocError>
    requires some { 0 < op }
    requires within { op ≤ length flow.now }
    requires all { length crew.now ≡ crew_of flow.now }
    ensures { IfOk result (ShowWorkers crew.now (workers_of flow.now op)) }
{
    let operator = &flow.get()[op as usize - 1];
    let first = flow.first_worker(op);
    let mut views = Vec::new(alloc);
    for place in 0..operator.workers {
        views.push(crew[(first + place) as usize].view()?)?;
    }
    Ok(Views::new(views))
}
