//! Why a run has stopped, a line each. Over `Stops` of `amber_meaning`.

ghost use Rattle.std.specs.Prelude.{◌≡◌, ◌++◌, IfOk, OnOk};
ghost use Rattle.std.specs.List.{flat_map};
ghost use Rattle.amber_meaning.specs.Texts.{stop_text, stops_text};
ghost use Rattle.amber_meaning.specs.declared.view.Stop.TheVariants as stop;

use crate::words::{end_line, id_of, push_number, push_word};
use amber_meaning::{Stop, Stops};
use amber_rows::{Bytes, Flow, Row, row_text};
use std::alloc::{AllocError, Global};

// A worker is held before a row.
#[tactic(auto, unfolding(amber_meaning::specs::Texts::words_before))]
fn push_held(
    alloc: Global,
    text: &mut Vec<u8>,
    flow: &Flow,
    op: u32,
    worker: u32,
    row: &Row,
) -> Result<(), AllocError>
    ensures { OnOk result
        (text.new.items ≡ text.old.items ++ stop_text flow.now (stop.Held op worker row.now)) }
{
    text.extend_from_slice(b"stop held")?;
    push_word(text, id_of(flow, op))?;
    push_number(text, u64::from(worker))?;
    push_word(text, row_text(alloc, row)?.as_slice())
}

// An operator has emitted as many rows as its count asked for.
#[tactic(auto, unfolding(amber_meaning::specs::Texts::words_line))]
fn push_counted(text: &mut Vec<u8>, flow: &Flow, op: u32, target: u64) -> Result<(), AllocError>
    ensures { OnOk result
        (text.new.items ≡ text.old.items ++ stop_text flow.now (stop.Count op target)) }
{
    text.extend_from_slice(b"stop count")?;
    push_word(text, id_of(flow, op))?;
    push_number(text, target)?;
    end_line(text)
}

// An operator has emitted at least as many rows as its pause asked for.
#[tactic(auto, unfolding(amber_meaning::specs::Texts::words_line))]
fn push_paused(
    text: &mut Vec<u8>,
    flow: &Flow,
    op: u32,
    n: u64,
    emitted: u64,
) -> Result<(), AllocError>
    ensures { OnOk result
        (text.new.items ≡ text.old.items ++ stop_text flow.now (stop.Pause op n emitted)) }
{
    text.extend_from_slice(b"stop pause")?;
    push_word(text, id_of(flow, op))?;
    push_number(text, n)?;
    push_number(text, emitted)?;
    end_line(text)
}

#[tactic(auto, unfolding(amber_meaning::specs::Texts::words_line))]
fn push_stop(alloc: Global, text: &mut Vec<u8>, flow: &Flow, stop: &Stop) -> Result<(), AllocError>
    ensures { OnOk result (text.new.items ≡ text.old.items ++ stop_text flow.now stop.now) }
{
    match stop {
        Stop::Held { op, worker, row } => push_held(alloc, text, flow, *op, *worker, row),
        Stop::Count { op, target } => push_counted(text, flow, *op, *target),
        Stop::Pause { op, n, emitted } => push_paused(text, flow, *op, *n, *emitted),
        Stop::End => text.extend_from_slice(b"stop end\n"),
    }
}

/// The reply to a command to run: a line for each stop, in the order of the list.
#[tactic(auto, unfolding(amber_meaning::specs::Texts::stops_text))]
pub fn stop_lines(alloc: Global, flow: &Flow, stops: &Stops) -> Result<Bytes, AllocError>
    ensures { IfOk result (λ text. text ≡ stops_text flow.now stops.now) }
{
    let mut text = Vec::new(alloc);
    for stop in stops.get() {
        push_stop(alloc, &mut text, flow, stop)?;
    }
    Ok(Bytes::new(text))
}
