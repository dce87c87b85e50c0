//! The operators that a command names, their workers and their columns. Over `Flow` of `amber_rows`;
//! conditions rest on `columns`, workers' numbers on `numbers`.

ghost use Rattle.std.specs.Prelude.{◌≡◌, ◌<◌, bytes_eq, length, position, true, IfOk, IfSome};
ghost use Rattle.amber_rows.specs.Lists.{nth};
ghost use Rattle.amber_rows.specs.Columns.{schema_of};
ghost use Rattle.amber_log.specs.Fits.{has_worker, is_cell_of, is_source, is_there};
ghost use Rattle.amber_script.specs.Answers.{AnswersWords};
ghost use Rattle.amber_script.specs.Commands.{condition_on, filtered_kind, operator_named, settable_kind, source_named, worker_named};

use crate::columns::{column_kind_at, read_condition};
use crate::error::{ReadErr, ScriptWhy};
use crate::numbers::{is_canonical, number_below};
use amber_log::is_source;
use amber_rows::{Cmp, ColKind, Cond, Flow, Schema, Text, What};

fn place_of(flow: &Flow, id: &str) -> Option<usize>
    ensures place { result ≡ position (λ operator. bytes_eq operator.id id.now) flow.now }
    ensures there { IfSome result (λ place. place < length flow.now) }
{
    flow.get()
        .iter()
        .position(|operator| operator.id.get() == id)
}

/// The number of the operator with this id.
#[tactic(auto, using(crate::proofs::Fitting::is_found))]
pub fn find_operator(flow: &Flow, id: &str) -> Result<u32, ScriptWhy>
    ensures number { result ≡ operator_named flow.now id.now }
    ensures there { IfOk result (λ op. is_there (nth flow.now op) ≡ true) }
{
    let _operators = flow.get();
    match place_of(flow, id) {
        None => Err(ScriptWhy::Operator),
        Some(place) => Ok(place as u32 + 1),
    }
}

/// The number of an operator with this id that emits rows.
pub fn find_source(flow: &Flow, id: &str) -> Result<u32, ScriptWhy>
    ensures number { result ≡ source_named flow.now id.now }
    ensures source { IfOk result (λ op. is_source (nth flow.now op) ≡ true) }
{
    let op = find_operator(flow, id)?;
    if !is_source(flow, op) {
        return Err(ScriptWhy::Kind);
    }
    Ok(op)
}

/// The number of a worker of this operator, within it.
#[tactic(auto, unfolding(crate::specs::Numbers::whole_number))]
pub fn find_worker(flow: &Flow, op: u32, word: &str) -> Result<u32, ScriptWhy>
    ensures number { result ≡ worker_named (nth flow.now op) word.now }
    ensures there { IfOk result (λ worker. has_worker (nth flow.now op) worker ≡ true) }
{
    if !is_canonical(word) {
        return Err(ScriptWhy::Number);
    }
    match flow.operator(op) {
        None => Err(ScriptWhy::Worker),
        Some(operator) => match number_below(word, operator.workers) {
            Some(worker) => Ok(worker),
            None => Err(ScriptWhy::Worker),
        },
    }
}

fn filtered_kind(what: &What, schema: &Schema) -> Option<ColKind>
    ensures { result ≡ filtered_kind what.now schema.now }
{
    match what.settable_cond() {
        None => None,
        Some(cond) => column_kind_at(schema.get(), cond.column),
    }
}

/// The kind of the column on whose cells a filter looks; none of another operator.
pub fn settable_kind(flow: &Flow, op: u32) -> Option<ColKind>
    ensures { result ≡ settable_kind (nth flow.now op) }
{
    match flow.operator(op) {
        None => None,
        Some(operator) => filtered_kind(&operator.what, &operator.schema),
    }
}

/// The condition on a column of this operator, where it is compared so with the constant that a word is.
#[tactic(auto, using(crate::proofs::Narrow::is_narrow))]
pub fn find_condition(
    flow: &Flow,
    op: u32,
    name: &str,
    comparison: Cmp,
    word: &Text,
) -> Result<Cond, ReadErr>
    ensures condition { AnswersWords result
        (condition_on (schema_of (nth flow.now op)) name.now comparison word.now) }
    ensures cell { IfOk result (λ cond.
        is_cell_of (nth (schema_of (nth flow.now op)) cond.column) cond.constant ≡ true) }
{
    let _operators = flow.get();
    let operator = flow.operator(op).ok_or(ScriptWhy::Column)?;
    read_condition(operator.schema.get(), name, comparison, word)
}
