//! What is told of a workflow's operators. Rests on `read_flow` and on the files of the system.

use amber_flow::read_flow;
use amber_io::{Folder, RealFolder};
use amber_rows::{ColKind, Flow, Operator, What};
use itoa::Buffer;
use std::alloc::{AllocError, Global};
use std::rt::Files;

// How many bytes a workflow may have.
const MOST_TEXT: u64 = 1 << 20;

// The word for what an operator is.
fn kind_of(what: &What) -> &'static str {
    match what {
        What::Scan { .. } => "scan",
        What::Filter { .. } => "filter",
        What::Project { .. } => "project",
        What::Join { .. } => "join",
        What::Group { .. } => "group",
        What::Sink { .. } => "sink",
    }
}

// One operator: its id, its kind, and its workers where it has several.
fn add_operator(text: &mut String, operator: &Operator) -> Result<(), AllocError> {
    text.push_str("  ")?;
    text.push_str(operator.id.get())?;
    text.push_str(", a ")?;
    text.push_str(kind_of(&operator.what))?;
    if operator.workers > 1 {
        text.push_str(", its workers from 0 to ")?;
        let mut buffer = Buffer::new();
        text.push_str(buffer.format(operator.workers - 1))?;
    }
    text.push_str("\n")
}

// The columns of one operator, with their kinds.
fn add_columns(text: &mut String, operator: &Operator) -> Result<(), AllocError> {
    text.push_str("  ")?;
    text.push_str(operator.id.get())?;
    text.push_str(":")?;
    for column in operator.schema.get() {
        text.push_str(" ")?;
        text.push_str(column.name.get())?;
        text.push_str(match column.kind {
            ColKind::Int => " (int)",
            ColKind::Text => " (text)",
        })?;
    }
    text.push_str("\n")
}

/// The workflow in a file, where there is one that can be read.
pub(crate) fn flow_in<R: Files>(rt: &R, alloc: Global, workflow: &str) -> Option<Flow> {
    let mut folder = RealFolder::new(alloc, rt);
    let Ok(bytes) = folder.load(alloc, workflow, MOST_TEXT) else {
        return None;
    };
    match read_flow(alloc, bytes.as_slice()) {
        Ok(flow) => Some(flow),
        Err(_) => None,
    }
}

/// The operators of a workflow, one a line.
pub(crate) fn operators_text(alloc: Global, flow: &Option<Flow>) -> Result<String, AllocError> {
    let mut text = String::new(alloc);
    if let Some(flow) = flow {
        text.push_str("The operators are\n")?;
        for operator in flow.get() {
            add_operator(&mut text, operator)?;
        }
    }
    Ok(text)
}

/// The columns of a workflow's operators, a line each.
pub(crate) fn columns_text(alloc: Global, flow: &Option<Flow>) -> Result<String, AllocError> {
    let mut text = String::new(alloc);
    if let Some(flow) = flow {
        text.push_str("The columns are\n")?;
        for operator in flow.get() {
            add_columns(&mut text, operator)?;
        }
    }
    Ok(text)
}
