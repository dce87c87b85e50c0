//! One query, the numbers of a file that are 2 or more: a scan, a filter and a sink; and its file.

ghost use Rattle.std.specs.Prelude.{◌≡◌, ◌<◌, ◌≤◌, ◌++◌, ◌∷◌, [], codes, length, IfOk, OnOk};
ghost use Rattle.amber_meaning.specs.Plain.{scan_count};

use amber_rows::{
    Bytes, Cmp, ColKind, Column, Cond, FileBytes, Files, Flow, NoMemory, Operator, Schema, Text,
    Value, What,
};
use std::alloc::Global;

fn text(alloc: Global, written: &str) -> Result<Text, NoMemory>
    ensures { IfOk result (λ text. text ≡ written.now) }
{
    Text::new(alloc, written)
}

// One column of numbers.
fn columns(alloc: Global) -> Result<Schema, NoMemory>
    ensures { IfOk result
        (λ columns. columns ≡ record { name = codes "n"; kind = ColKind.Int } ∷ []) }
{
    let name = text(alloc, "n")?;
    let kind = ColKind::Int;
    let mut columns = Vec::new(alloc);
    columns.push(Column { name, kind })?;
    Ok(Schema::new(columns))
}

// Appends an operator with so many workers.
fn add(
    alloc: Global,
    operators: &mut Vec<Operator>,
    id: &str,
    what: What,
    workers: u32,
) -> Result<(), NoMemory>
    ensures { OnOk result (operators.new.items ≡ operators.old.items ++ record {
      id = id.now;
      what = what;
      schema = record { name = codes "n"; kind = ColKind.Int } ∷ [];
      workers = workers;
    } ∷ []) }
{
    let id = text(alloc, id)?;
    let schema = columns(alloc)?;
    operators.push(Operator {
        id,
        what,
        schema,
        workers,
    })?;
    Ok(())
}

/// The workflow, with one worker for each operator.
pub fn query(alloc: Global) -> Result<Flow, NoMemory>
    ensures { IfOk result (λ flow. scan_count flow ≡ 1) }
{
    query_by(alloc, 1)
}

/// The same with so many workers for the scan, 1 to 16.
pub fn query_by(alloc: Global, scans: u32) -> Result<Flow, NoMemory>
    requires some { 0 < scans }
    requires few { scans ≤ 16 }
    ensures { IfOk result (λ flow. scan_count flow ≡ 1) }
{
    let mut operators = Vec::new(alloc);
    let file = text(alloc, "n.csv")?;
    add(alloc, &mut operators, "all", What::Scan { file }, scans)?;
    let cond = Cond {
        column: 1,
        op: Cmp::Ge,
        constant: Value::Int(2),
    };
    add(
        alloc,
        &mut operators,
        "big",
        What::Filter { input: 1, cond },
        1,
    )?;
    add(alloc, &mut operators, "out", What::Sink { input: 2 }, 1)?;
    Ok(Flow::new(operators))
}

/// The one file of the workflow.
pub fn files_of(alloc: Global, file: &str) -> Result<Files, NoMemory>
    ensures { IfOk result (λ files. length files ≡ 1) }
{
    let bytes = Bytes::new(Vec::from_slice(alloc, file.as_bytes())?);
    let mut files = Vec::new(alloc);
    files.push(FileBytes::new(alloc, bytes)?)?;
    Ok(Files::new(files))
}
