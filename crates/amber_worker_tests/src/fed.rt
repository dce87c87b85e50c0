//! Workers in whose rings all rows stand that they are to take: of each sender one batch, which is the last. Over `ends`
//! and `workers`.

ghost use Rattle.std.specs.Prelude.{◌≡◌, ◌+◌, ◌<◌, ◌≤◌, ◌^◌, All, OnOk, false, length};
ghost use Rattle.amber_worker.specs.Made.{IsFreshOut};

use crate::ends::{last_end, links, push_row};
use crate::workers::worker_of;
use amber_flow::read_flow;
use amber_link::{NoMemory, Out};
use amber_rows::{Cmp, Cond, Value};
use amber_worker::Worker;
use std::alloc::Global;
use std::test::Fail;

/// How many rows a full batch has, the most that one may have.
pub const BATCH: u32 = 65536;

/// The workers 0 to 3: a scan, a filter that passes a row whose first number is not negative, a group, and a sink.
pub const GROUPED: &str = r#"{"operators":[
{"id":"s","kind":"scan","file":"s.csv","columns":[["k","int"],["v","int"]]},
{"id":"f","kind":"filter","input":"s","column":"k","op":">=","constant":0},
{"id":"g","kind":"group","input":"f","keys":["k"],"aggregates":["count"]},
{"id":"o","kind":"sink","input":"g"}]}"#;

/// The workers 0 to 3: two scans, their join, and a sink.
pub const JOINED: &str = r#"{"operators":[
{"id":"b","kind":"scan","file":"b.csv","columns":[["k","int"],["v","int"]]},
{"id":"p","kind":"scan","file":"p.csv","columns":[["m","int"],["w","int"]]},
{"id":"j","kind":"join","build":"b","probe":"p","build_keys":["k"],"probe_keys":["m"]},
{"id":"o","kind":"sink","input":"j"}]}"#;

// Pushes these rows.
fn push_rows(alloc: Global, out: &mut Out, rows: &[[i64; 2]]) -> Result<(), NoMemory>
    requires few { length rows.now ≤ 2 ^ 30 }
    requires made { out.old.kept.made ≡ 0 }
    requires open { out.old.kept.ended ≡ false }
    ensures made { out.new.kept.made ≤ length rows.now }
    ensures open { OnOk result (out.new.kept.ended ≡ false) }
{
    for row in rows {
        push_row(alloc, out, row)?;
    }
    Ok(())
}

// The last of the senders that have not ended sends these rows, and its end.
fn deliver_side(alloc: Global, senders: &mut Vec<Out>, rows: &[[i64; 2]]) -> Result<(), Fail>
    requires { All (IsFreshOut BATCH) senders.old.items }
    ensures { All (IsFreshOut BATCH) senders.new.items }
{
    let mut out = last_end(BATCH, senders)?;
    if rows.len() > 1 << 30 {
        return Err(Fail::new("rows"));
    }
    push_rows(alloc, &mut out, rows)?;
    out.end()?;
    out.send();
    Ok(())
}

// The same for all of them, from the last on.
fn deliver_sides(alloc: Global, senders: &mut Vec<Out>, sides: &[&[[i64; 2]]]) -> Result<(), Fail>
    requires { All (IsFreshOut BATCH) senders.old.items }
{
    for rows in sides.iter().rev() {
        deliver_side(alloc, senders, rows)?;
    }
    Ok(())
}

/// A worker of this workflow that has at most one receiver, and for each of its senders the rows that it sends.
pub fn fed_worker(
    alloc: Global,
    flow: &str,
    number: u32,
    sides: &[&[[i64; 2]]],
) -> Result<Worker, Fail> {
    if sides.len() > 16 {
        return Err(Fail::new("sides"));
    }
    let flow = read_flow(alloc, flow.as_bytes())?;
    let is_sink = number.saturating_add(1) == flow.workers();
    let receivers = if is_sink { 0 } else { 1 };
    let (mut senders, ins) = links(alloc, sides.len() as u32, BATCH)?;
    let (outs, _into) = links(alloc, receivers, BATCH)?;
    let worker = worker_of(alloc, &flow, number, BATCH, outs, ins)?;
    deliver_sides(alloc, &mut senders, sides)?;
    Ok(worker)
}

/// From now on a row holds the worker whose number in this column is this or greater. Within a leg it is an error.
pub fn watch_from(worker: &mut Worker, column: u32, number: i64) -> Result<(), Fail> {
    if !worker.journal().is_empty() {
        return Err(Fail::new("journal"));
    }
    worker.watch_for(Some(Cond {
        column,
        op: Cmp::Ge,
        constant: Value::Int(number),
    }));
    Ok(())
}
