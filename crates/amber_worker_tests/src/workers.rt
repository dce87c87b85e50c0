//! Workers that are driven by hand, with the ends of their links from `ends`. Tests `amber_worker`.

ghost use Rattle.std.specs.Prelude.{◌≡◌, ◌<◌, ◌≤◌, All, IfOk, None};
ghost use Rattle.amber_rows.specs.Topology.{crew_of, op_of, what_at};
ghost use Rattle.amber_worker.specs.Changes.{StandsNew};
ghost use Rattle.amber_worker.specs.Made.{IsFreshIn, IsFreshOut};

use crate::ends::{deliver, last_end, links};
use crate::expected::expect_text;
use crate::journals::entries_text;
use amber_flow::read_flow;
use amber_link::{In, NoMemory, Out};
use amber_rows::{Flow, What};
use amber_worker::{Turn, Worker};
use std::alloc::Global;
use std::test::Fail;

// What the operator of a worker is.
fn what_of(flow: &Flow, worker: u32) -> &What
    requires { worker < crew_of flow.now }
    ensures { result.now ≡ what_at flow.now (op_of flow.now worker) }
{
    let operators = flow.get();
    let op = flow.op_of(worker);
    &operators[op as usize - 1].what
}

/// A worker of an operator that is no scan, with these ends, whose batches have so many rows.
pub fn worker_of(
    alloc: Global,
    flow: &Flow,
    number: u32,
    batch: u32,
    outs: Vec<Out>,
    ins: Vec<In>,
) -> Result<Worker, Fail>
    requires some { 0 < batch }
    requires few { batch ≤ 65536 }
    requires outs { All (IsFreshOut batch) outs.items }
    requires ins { All IsFreshIn ins.items }
    ensures stands { IfOk result (StandsNew
        (record { flow = flow.now; number = number; batch_size = batch; share = None })) }
    ensures unarmed { IfOk result (λ made. made.seat ≡ None) }
{
    if number >= flow.workers() || what_of(flow, number).is_scan() {
        return Err(Fail::new("no such worker"));
    }
    if flow.receivers(alloc, number)?.get().len() != outs.len() {
        return Err(Fail::new("receivers"));
    }
    if flow.senders(alloc, number)?.get().len() != ins.len() {
        return Err(Fail::new("senders"));
    }
    Ok(Worker::new(alloc, flow, number, batch, None, outs, ins)?)
}

// Turns until the worker moves no more.
fn drive(worker: &mut Worker) -> Result<(), Fail> {
    for _ in 0..100 {
        if !worker.may_turn() || worker.is_armed() {
            return Err(Fail::new("steps"));
        }
        if worker.turn(None, None)? != Turn::Moved {
            return Ok(());
        }
    }
    Err(Fail::new("turns"))
}

// ---- a filter that feeds a group of four

const KEYED: &str = r#"{"operators":[
{"id":"s","kind":"scan","file":"s.csv","columns":[["k","int"]]},
{"id":"f","kind":"filter","input":"s","column":"k","op":">=","constant":0},
{"id":"g","kind":"group","input":"f","keys":["k"],"aggregates":["count"],"workers":4},
{"id":"o","kind":"sink","input":"g"}]}"#;

// The filter, which has one sender.
fn filter_of(alloc: Global, ins: Vec<In>) -> Result<Worker, Fail>
    requires { All IsFreshIn ins.items }
{
    let (outs, _into) = links(alloc, 4, 1)?;
    let flow = read_flow(alloc, KEYED.as_bytes())?;
    worker_of(alloc, &flow, 1, 1, outs, ins)
}

// The filter, once it has taken a row and passed it on where it passes.
fn fed(alloc: Global, number: i64) -> Result<Worker, Fail> {
    let (mut senders, ins) = links(alloc, 1, 1)?;
    let mut filter = filter_of(alloc, ins)?;
    deliver(alloc, last_end(1, &mut senders)?, number, false)?;
    drive(&mut filter)?;
    Ok(filter)
}

// For whom a batch waits, of all receivers.
fn waiting(alloc: Global, worker: &Worker) -> Result<String, NoMemory> {
    let mut told = String::new(alloc);
    for place in 0..worker.receivers() {
        match worker.waiting_at(place) {
            Some(to) => told.push_str(&format!(in alloc; "{to} ")?)?,
            None => told.push_str("- ")?,
        }
    }
    Ok(told)
}

// The same of the filter that has taken this row.
fn waiting_after(alloc: Global, number: i64) -> Result<String, Fail> {
    let filter = fed(alloc, number)?;
    Ok(waiting(alloc, &filter)?)
}

// Each row goes by its key to one of the group's workers, which have the numbers 2 to 5; a row that does not pass to none.
#[test]
fn a_filter_feeds_a_group_of_four(rt: HostRuntime) -> Result<(), Fail> {
    let alloc = rt.alloc();
    for (number, want) in [
        (1, "2 - - - "),
        (0, "- 3 - - "),
        (3, "- - 4 - "),
        (2, "- - - 5 "),
        (-1, "- - - - "),
    ] {
        expect_text(waiting_after(alloc, number)?, want)?;
    }
    Ok(())
}

// The filter of this workflow, with links of its own, of which it has the sender too.
fn filter_in(alloc: Global, flow: &Flow) -> Result<(Worker, Vec<Out>), Fail>
    ensures stands { IfOk result (λ made. StandsNew
        (record { flow = flow.now; number = 1; batch_size = 1; share = None }) made.0) }
    ensures unarmed { IfOk result (λ made. made.0.seat ≡ None) }
    ensures senders { IfOk result (λ made. All (IsFreshOut 1) made.1.items) }
{
    let (senders, ins) = links(alloc, 1, 1)?;
    let (outs, _into) = links(alloc, 4, 1)?;
    let filter = worker_of(alloc, flow, 1, 1, outs, ins)?;
    Ok((filter, senders))
}

// For whom a batch waits once the filter has become one that was made anew, and a row came to the first one's link.
fn waiting_replaced(alloc: Global, number: i64) -> Result<String, Fail> {
    let flow = read_flow(alloc, KEYED.as_bytes())?;
    let (mut filter, mut senders) = filter_in(alloc, &flow)?;
    let (made, _others) = filter_in(alloc, &flow)?;
    filter.replace_with(made);
    deliver(alloc, last_end(1, &mut senders)?, number, false)?;
    drive(&mut filter)?;
    Ok(waiting(alloc, &filter)?)
}

#[test]
fn a_filter_that_was_replaced_keeps_its_links(rt: HostRuntime) -> Result<(), Fail> {
    let alloc = rt.alloc();
    expect_text(waiting_replaced(alloc, 1)?, "2 - - - ")?;
    expect_text(waiting_replaced(alloc, 3)?, "- - 4 - ")
}

// ---- a join with two senders a side

const JOINED: &str = r#"{"operators":[
{"id":"b","kind":"scan","file":"b.csv","columns":[["n","int"]],"workers":2},
{"id":"p","kind":"scan","file":"p.csv","columns":[["m","int"]],"workers":2},
{"id":"j","kind":"join","build":"b","probe":"p","build_keys":["n"],"probe_keys":["m"]},
{"id":"o","kind":"sink","input":"j"}]}"#;

// The join, which has four senders.
fn join_of(alloc: Global, ins: Vec<In>) -> Result<Worker, Fail>
    requires { All IsFreshIn ins.items }
{
    let (outs, _into) = links(alloc, 1, 1)?;
    let flow = read_flow(alloc, JOINED.as_bytes())?;
    worker_of(alloc, &flow, 4, 1, outs, ins)
}

// A row and the end of the last of the senders that have not ended, and what the join does then: how many
// steps it has made.
fn tell_on(
    alloc: Global,
    senders: &mut Vec<Out>,
    join: &mut Worker,
    number: i64,
    told: &mut String,
) -> Result<(), Fail>
    requires { All (IsFreshOut 1) senders.old.items }
    ensures { All (IsFreshOut 1) senders.new.items }
{
    let sender = last_end(1, senders)?;
    deliver(alloc, sender, number, true)?;
    drive(join)?;
    told.push_str(&format!(in alloc; "{} ", join.steps())?)?;
    Ok(())
}

// The same for each of these rows, a row a sender.
fn tell_all(
    alloc: Global,
    senders: &mut Vec<Out>,
    join: &mut Worker,
    numbers: &[i64],
    told: &mut String,
) -> Result<(), Fail>
    requires { All (IsFreshOut 1) senders.old.items }
{
    for number in numbers {
        tell_on(alloc, senders, join, *number, told)?;
    }
    Ok(())
}

// The steps of a join after each of these rows, a row a sender, from the last sender on; and what it has written down.
fn tell_join(
    alloc: Global,
    senders: &mut Vec<Out>,
    join: &mut Worker,
    numbers: &[i64],
    told: &mut String,
) -> Result<(), Fail>
    requires { All (IsFreshOut 1) senders.old.items }
{
    tell_all(alloc, senders, join, numbers, told)?;
    told.push_str(&entries_text(alloc, join.journal())?)?;
    Ok(())
}

// The same of the join, with its four senders.
fn join_over(alloc: Global, numbers: &[i64], told: &mut String) -> Result<(), Fail> {
    let (mut senders, ins) = links(alloc, 4, 1)?;
    let mut join = join_of(alloc, ins)?;
    tell_join(alloc, &mut senders, &mut join, numbers, told)
}

// The probe side ends first and waits; then the second sender of the build side ends, and the first one last.
#[test]
fn senders_of_a_join_end_in_any_order(rt: HostRuntime) -> Result<(), Fail> {
    let alloc = rt.alloc();
    let mut told = String::new(alloc);
    join_over(alloc, &[8, 7, 7, 8], &mut told)?;
    expect_text(
        told,
        "0 0 3 15 t 1 0 g 1 0 t 1 1 t 0 0 g 1 0 t 0 1 t 2 0 g 1 1 t 2 1 t 3 0 g 1 1 t 3 1 f 0 0 ",
    )
}
