//! Copies of a workflow, and of the files of its scans. Over the types of `amber_rows`.

ghost use Rattle.std.specs.Prelude.{◌≡◌, IfOk};
ghost use Rattle.amber_rows.specs.FlowRules.{IsFlow};

use amber_rows::{FileBytes, Files, Flow, Operator, What};
use std::alloc::{AllocError, Global};

// A copy of what an operator does.
fn copy_of_what(what: &What) -> Result<What, AllocError>
    ensures { IfOk result (λ copy. copy ≡ what.now) }
{
    match what {
        What::Scan { file } => Ok(What::Scan {
            file: file.clone()?,
        }),
        What::Filter { input, cond } => Ok(What::Filter {
            input: *input,
            cond: cond.clone()?,
        }),
        What::Project { input, from } => Ok(What::Project {
            input: *input,
            from: from.clone()?,
        }),
        What::Join {
            build,
            probe,
            build_keys,
            probe_keys,
        } => Ok(What::Join {
            build: *build,
            probe: *probe,
            build_keys: build_keys.clone()?,
            probe_keys: probe_keys.clone()?,
        }),
        What::Group { input, keys, aggs } => Ok(What::Group {
            input: *input,
            keys: keys.clone()?,
            aggs: aggs.clone()?,
        }),
        What::Sink { input } => Ok(What::Sink { input: *input }),
    }
}

// A copy of an operator.
fn copy_of_operator(operator: &Operator) -> Result<Operator, AllocError>
    ensures { IfOk result (λ copy. copy ≡ operator.now) }
{
    Ok(Operator {
        id: operator.id.clone()?,
        what: copy_of_what(&operator.what)?,
        schema: operator.schema.clone()?,
        workers: operator.workers,
    })
}

// Copies of operators, in their order.
fn copies_of_operators(alloc: Global, operators: &[Operator]) -> Result<Vec<Operator>, AllocError>
    ensures { IfOk result (λ copies. copies.items ≡ operators.now) }
{
    let mut copies = Vec::with_capacity(alloc, operators.len())?;
    for operator in operators {
        copies.push(copy_of_operator(operator)?)?;
    }
    Ok(copies)
}

/// A copy of a workflow.
pub(crate) fn copy_of_flow(alloc: Global, flow: &Flow) -> Result<Flow, AllocError>
    ensures copy { IfOk result (λ copy. copy ≡ flow.now) }
    ensures flow { IsFlow flow.now }
{
    Ok(Flow::new(copies_of_operators(alloc, flow.get())?))
}

// The same files once more, in their order.
fn copies_of_files(alloc: Global, files: &[FileBytes]) -> Result<Vec<FileBytes>, AllocError>
    ensures { IfOk result (λ copies. copies.items ≡ files.now) }
{
    let mut copies = Vec::with_capacity(alloc, files.len())?;
    for file in files {
        copies.push(file.clone()?)?;
    }
    Ok(copies)
}

/// The same files once more, without a copy of their bytes.
pub(crate) fn copy_of_files(alloc: Global, files: &Files) -> Result<Files, AllocError>
    ensures { IfOk result (λ copy. copy ≡ files.now) }
{
    Ok(Files::new(copies_of_files(alloc, files.get())?))
}
