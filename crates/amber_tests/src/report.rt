//! The texts of replies, each call once. Tests `amber_report`.

use crate::expected::expect_bytes;
use crate::written::{row, rows, two_columns};
use amber_flow::read_flow;
use amber_log::Command;
use amber_meaning::{Answer, Extra, Inspected, Refusals, Stand, Stop, Stops, Views, WorkerView};
use amber_report::{answer_lines, inspect_lines, ok_line, stop_lines};
use amber_rows::{Bytes, Flow, Rows, Value};
use std::alloc::{AllocError, Global};
use std::test::Fail;

const KEPT: &str = r#"{"operators":[
{"id":"o","kind":"scan","file":"o.csv","columns":[["id","int"],["item","text"],["qty","int"]]},
{"id":"f","kind":"filter","input":"o","column":"qty","op":">=","constant":0},
{"id":"s","kind":"sink","input":"f"}]}"#;

// A filter that stopped after two of three rows.
fn seen(alloc: Global) -> Result<Inspected, AllocError> {
    let mut workers = Vec::new(alloc);
    workers.push(WorkerView {
        taken: 3,
        rest: 2,
        out: 2,
        pending: 1,
        stand: Stand::Ready,
        next: Some(row(alloc, "4")?),
        extra: Extra::Nothing,
    })?;
    Ok(Inspected {
        op: 2,
        constant: Some(Value::Int(-1)),
        pause: Some(2),
        count: None,
        when: None,
        workers: Views::new(workers),
    })
}

// The reply to a pause.
fn pause_reply(alloc: Global, flow: &Flow) -> Result<Bytes, AllocError> {
    ok_line(alloc, flow, &Command::Pause { op: 2, n: 2 }, None)
}

// The reply to a count.
fn count_reply(alloc: Global, flow: &Flow) -> Result<Bytes, AllocError> {
    ok_line(alloc, flow, &Command::Count { op: 2, n: 3 }, None)
}

// The reply to a drop of a row.
fn drop_reply(alloc: Global, flow: &Flow) -> Result<Bytes, AllocError> {
    let dropped = row(alloc, "4")?;
    ok_line(
        alloc,
        flow,
        &Command::Drop { op: 2, worker: 0 },
        Some(&dropped),
    )
}

// The reply to a run up to that pause.
fn run_reply(alloc: Global, flow: &Flow) -> Result<Bytes, AllocError> {
    let mut stops = Vec::new(alloc);
    stops.push(Stop::Pause {
        op: 2,
        n: 2,
        emitted: 2,
    })?;
    stop_lines(alloc, flow, &Stops::new(stops))
}

// The reply to a look at the filter.
fn inspect_reply(alloc: Global, flow: &Flow) -> Result<Bytes, AllocError> {
    let seen = seen(alloc)?;
    inspect_lines(alloc, flow, &seen)
}

// Expects a reply.
fn expect(alloc: Global, found: Result<Bytes, AllocError>, want: &str) -> Result<(), Fail> {
    expect_bytes(alloc, found?.get(), want)
}

#[test]
fn replies_have_their_texts(rt: HostRuntime) -> Result<(), Fail> {
    let alloc = rt.alloc();
    let flow = read_flow(alloc, KEPT.as_bytes())?;
    expect(alloc, pause_reply(alloc, &flow), "ok pause f 2\n")?;
    expect(alloc, count_reply(alloc, &flow), "ok break count f 3\n")?;
    expect(alloc, drop_reply(alloc, &flow), "ok drop f 0 4\n")?;
    expect(alloc, run_reply(alloc, &flow), "stop pause f 2 2\n")?;
    expect(
        alloc,
        inspect_reply(alloc, &flow),
        "inspect f filter\nconstant -1\npause 2\nworker 0 taken 3 rest 2 out 2 pending 1 ready\nnext 4\n",
    )
}

// The reply of an answer of two rows.
fn answer_reply(alloc: Global, flow: &Flow) -> Result<Bytes, AllocError> {
    let columns = two_columns(alloc)?;
    let rows = Rows::new(rows(alloc, "4 'nut / 5 '")?);
    let answer = Answer {
        refused: Refusals::new(Vec::new(alloc)),
        columns,
        rows,
    };
    answer_lines(alloc, flow, &answer)
}

#[test]
fn an_answer_has_its_text(rt: HostRuntime) -> Result<(), Fail> {
    let alloc = rt.alloc();
    let flow = read_flow(alloc, KEPT.as_bytes())?;
    expect(
        alloc,
        answer_reply(alloc, &flow),
        "rows 2\nnumber,word\n4,nut\n5,\n",
    )
}
