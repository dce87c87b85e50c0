//! What a new worker is given of its workflow: its task and the ends of its links. Over `Flow` of
//! `amber_rows` and `OperatorState` of `amber_operators`.

ghost use Rattle.std.specs.Prelude.{◌≡◌, ◌<◌, List, All, false, length, map, slice_index_or, IfOk};
ghost use Rattle.amber_rows.specs.Topology.{crew_of, op_of, receiver_of, receivers_of, senders_of, what_at};
ghost use Rattle.amber_rows.specs.Columns.{columns_at};
ghost use Rattle.amber_rows.specs.declared.value.Value.{Value as Cell};
ghost use Rattle.amber_meaning.specs.Plan.{arrival_columns, built_columns};
ghost use Rattle.amber_worker.specs.Links.{IsSoundRoute, number_to};
ghost use Rattle.amber_worker.specs.Made.{AreFreshSenders, AreNumbered, IsFreshIn, IsFreshSender, IsTaskOf, builds_for, end_of, from_of, has_build_side, out_of, to_of};

use crate::route::Route;
use amber_link::{Downstream, In, Out, Upstream};
use amber_operators::{OperatorState, keys_into, operator_state_of};
use amber_rows::{Flow, Schema, What};
use std::alloc::{AllocError, Global};

// The columns of an operator.
fn schema_of(alloc: Global, flow: &Flow, op: u32) -> Result<Schema, AllocError>
    ensures { IfOk result (λ columns. columns ≡ columns_at flow.now op) }
{
    match flow.operator(op) {
        None => Ok(Schema::new(Vec::new(alloc))),
        Some(operator) => operator.schema.clone(),
    }
}

// The columns of the rows that are handed to an operator of this kind: those of its main input, of a scan its own.
fn arrival_columns_of(
    alloc: Global,
    flow: &Flow,
    what: &What,
    op: u32,
) -> Result<Schema, AllocError>
    ensures { IfOk result (λ columns. columns ≡ arrival_columns flow.now op what.now) }
{
    schema_of(alloc, flow, what.main_input().unwrap_or(op))
}

// The columns of the rows of a build side; none where there is none.
fn build_columns_of(alloc: Global, flow: &Flow, what: &What) -> Result<Schema, AllocError>
    ensures { IfOk result (λ columns. columns ≡ built_columns flow.now what.now) }
{
    match what.build_input() {
        None => Ok(Schema::new(Vec::new(alloc))),
        Some(build) => schema_of(alloc, flow, build),
    }
}

// Whether an operator of this kind has a build side.
fn has_build_side(what: &What) -> bool
    ensures { result ≡ has_build_side what.now }
{
    what.build_input().is_some()
}

// Whether a sender is of the build side of what an operator of this kind does.
fn builds_for(flow: &Flow, what: &What, sender: u32) -> bool
    requires { sender < crew_of flow.now }
    ensures { result ≡ builds_for flow.now what.now sender }
{
    match what.build_input() {
        None => false,
        Some(build) => flow.op_of(sender) == build,
    }
}

// The sender with the number at this place.
fn upstream_at(flow: &Flow, what: &What, numbers: &[u32], place: usize, link: In) -> Upstream
    requires there { place < length numbers.now }
    requires known { All (λ number. number < crew_of flow.now) numbers.now }
    ensures there { place < length numbers.now }
    ensures from { result.from ≡ slice_index_or numbers.now place 0 }
    ensures fresh { IsFreshSender flow.now what.now result }
    ensures link { result.link ≡ link }
{
    let from = numbers[place];
    let builds = builds_for(flow, what, from);
    Upstream::new(from, builds, link)
}

// The senders of a worker, each with its end, by rising numbers.
fn upstreams_of(
    alloc: Global,
    flow: &Flow,
    worker: u32,
    what: &What,
    ins: Vec<In>,
) -> Result<Vec<Upstream>, AllocError>
    requires there { worker < crew_of flow.now }
    requires all { length ins.items ≡ length (senders_of flow.now worker) }
    requires fresh { All IsFreshIn ins.items }
    ensures numbers { IfOk result (λ made. map from_of made.items ≡ senders_of flow.now worker) }
    ensures fresh { IfOk result (λ made. AreFreshSenders flow.now what.now made.items) }
    ensures ends { IfOk result (λ made. map end_of made.items ≡ ins.items) }
{
    let found = flow.senders(alloc, worker)?;
    let numbers = found.get();
    let mut senders = Vec::new(alloc);
    let mut place: usize = 0;
    for link in ins {
        senders.push(upstream_at(flow, what, numbers, place, link))?;
        place += 1;
    }
    Ok(senders)
}

// The receiver with the number at this place.
fn downstream_at(numbers: &[u32], place: usize, link: Out) -> Downstream
    requires { place < length numbers.now }
    ensures there { place < length numbers.now }
    ensures to { result.to ≡ slice_index_or numbers.now place 0 }
    ensures link { result.link ≡ link }
{
    Downstream::new(numbers[place], link)
}

// The receivers of a worker, each with its end, by rising numbers.
fn downstreams_of(
    alloc: Global,
    flow: &Flow,
    worker: u32,
    outs: Vec<Out>,
) -> Result<Vec<Downstream>, AllocError>
    requires there { worker < crew_of flow.now }
    requires all { length outs.items ≡ length (receivers_of flow.now worker) }
    ensures numbers { IfOk result (λ made. map to_of made.items ≡ receivers_of flow.now worker) }
    ensures links { IfOk result (λ made. map out_of made.items ≡ outs.items) }
{
    let found = flow.receivers(alloc, worker)?;
    let numbers = found.get();
    let mut receivers = Vec::new(alloc);
    let mut place: usize = 0;
    for link in outs {
        receivers.push(downstream_at(numbers, place, link))?;
        place += 1;
    }
    Ok(receivers)
}

// To whom the rows of a worker go.
fn route_of(flow: &Flow, worker: u32) -> Result<Route, AllocError>
    requires { worker < crew_of flow.now }
    ensures route { IfOk result (λ route. (row : List Cell)
        → 0 < length (receivers_of flow.now worker) → number_to route row
        ≡ receiver_of flow.now worker row) }
    ensures sound { IfOk result IsSoundRoute }
{
    let op = flow.op_of(worker);
    let Some(reader) = flow.reader(op) else {
        return Ok(Route::One(0));
    };
    match keys_into(&flow.get()[reader as usize - 1].what, op) {
        None => Ok(Route::One(flow.follower(worker))),
        Some(keys) => Ok(Route::ByKeys {
            keys: keys.clone()?,
            first: flow.first_worker(reader),
            workers: flow.worker_count(reader),
        }),
    }
}

// What a worker does before it was handed anything, and to whom its rows go.
#[derive(Drop)]
pub(crate) struct WorkerTask {
    pub op: u32,
    pub operator_state: OperatorState,
    pub columns: Schema,
    pub build_columns: Schema,
    pub building: bool,
    pub route: Route,
}

// The ends of the links of a worker.
#[derive(Drop)]
pub(crate) struct WorkerEnds {
    pub ins: Vec<Upstream>,
    pub outs: Vec<Downstream>,
}

// What the operator of a worker is.
fn what_of(flow: &Flow, worker: u32) -> &What
    requires { worker < crew_of flow.now }
    ensures { result.now ≡ what_at flow.now (op_of flow.now worker) }
{
    let operators = flow.get();
    let op = flow.op_of(worker);
    &operators[op as usize - 1].what
}

// What a worker of a workflow does, by its running number.
pub(crate) fn task_of(alloc: Global, flow: &Flow, worker: u32) -> Result<WorkerTask, AllocError>
    requires { worker < crew_of flow.now }
    ensures { IfOk result (IsTaskOf flow.now worker) }
{
    let op = flow.op_of(worker);
    let what = what_of(flow, worker);
    let columns = arrival_columns_of(alloc, flow, what, op)?;
    let build_columns = build_columns_of(alloc, flow, what)?;
    let route = route_of(flow, worker)?;
    let operator_state = operator_state_of(alloc, what)?;
    Ok(WorkerTask {
        op,
        operator_state,
        columns,
        build_columns,
        building: has_build_side(what),
        route,
    })
}

// The ends of a worker of a workflow, by the numbers of those that they lead to.
pub(crate) fn ends_of(
    alloc: Global,
    flow: &Flow,
    worker: u32,
    outs: Vec<Out>,
    ins: Vec<In>,
) -> Result<WorkerEnds, AllocError>
    requires there { worker < crew_of flow.now }
    requires all_outs { length outs.items ≡ length (receivers_of flow.now worker) }
    requires all_ins { length ins.items ≡ length (senders_of flow.now worker) }
    requires fresh { All IsFreshIn ins.items }
    ensures numbers { IfOk result (AreNumbered flow.now worker) }
    ensures outs { IfOk result (λ ends. map out_of ends.outs.items ≡ outs.items) }
    ensures ins { IfOk result (λ ends. map end_of ends.ins.items ≡ ins.items) }
{
    let what = what_of(flow, worker);
    let ins = upstreams_of(alloc, flow, worker, what, ins)?;
    let outs = downstreams_of(alloc, flow, worker, outs)?;
    Ok(WorkerEnds { ins, outs })
}
