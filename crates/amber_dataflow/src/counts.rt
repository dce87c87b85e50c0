//! What is counted of the workers: rows, steps, and whether all have finished. Over the calls of `Worker`
//! that tell it.

ghost use Rattle.std.specs.Prelude.{◌≡◌, ◌^◌, ◌<◌, ◌≤◌, length};
ghost use Rattle.std.specs.List.{list_all};
ghost use Rattle.amber_rows.specs.Topology.{crew_of, workers_of};
ghost use Rattle.amber_rows.specs.FlowRules.{IsFlow};
ghost use Rattle.amber_dataflow.specs.AtWork.{emitted_at, steps_by};

use amber_rows::Flow;
use amber_worker::Worker;

/// The rows that an operator's workers have emitted.
pub(crate) fn emitted_by(flow: &Flow, crew: &[Worker], op: u32) -> u64
    requires some { 0 < op }
    requires within { op ≤ length flow.now }
    requires all { length crew.now ≡ crew_of flow.now }
    requires few { steps_by crew.now ≤ 2 ^ 40 }
    requires flow { IsFlow flow.now }
    ensures { result ≡ emitted_at crew.now (workers_of flow.now op) }
{
    let operator = &flow.get()[op as usize - 1];
    let first = flow.first_worker(op);
    let mut rows = 0;
    for place in 0..operator.workers {
        rows += crew[(first + place) as usize].emitted();
    }
    rows
}

/// Whether all workers have finished.
pub(crate) fn have_finished(crew: &[Worker]) -> bool
    ensures { result ≡ list_all (λ worker. worker.finished) crew.now }
{
    for worker in crew {
        if !worker.is_finished() {
            return false;
        }
    }
    true
}

/// The steps that the workers have made together.
pub(crate) fn steps_of(crew: &[Worker]) -> u64
    requires { steps_by crew.now ≤ 2 ^ 40 }
    ensures { result ≡ steps_by crew.now }
{
    let mut steps = 0;
    for worker in crew {
        steps += worker.steps();
    }
    steps
}
