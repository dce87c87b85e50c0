//! Which commands a workflow takes. Over `Command`, and `Flow` of `amber_rows`.

ghost use Rattle.std.specs.Prelude.{◌≡◌};
ghost use Rattle.amber_rows.specs.Lists.{nth};
ghost use Rattle.amber_rows.specs.Kinds.{is_sink};
ghost use Rattle.amber_log.specs.Fits.{fits_at, fits_of, has_worker, is_cell_of, is_source, is_target, is_there, may_be_set_to, takes_cond, takes_constant};

use crate::command::Command;
use crate::effect::{Action, Argument};
use amber_rows::{Cond, Flow, Schema, Value, What};

// The most rows that a pause or a count may ask for.
const MOST: u64 = 1 << 40;

fn is_target(n: u64) -> bool
    ensures { result ≡ is_target n }
{
    0 < n && n <= MOST
}

// Whether a value may stand in the column with this number.
fn is_cell_of(schema: &Schema, column: u32, value: &Value) -> bool
    ensures { result ≡ is_cell_of (nth schema.now column) value.now }
{
    if column == 0 {
        return false;
    }
    match schema.get().get(column as usize - 1) {
        None => false,
        Some(column) => column.kind.takes(value),
    }
}

/// Whether an operator is there, and not the sink.
pub fn is_source(flow: &Flow, op: u32) -> bool
    ensures { result ≡ is_source (nth flow.now op) }
{
    match flow.operator(op) {
        None => false,
        Some(operator) => !operator.what.is_sink(),
    }
}

fn is_there(flow: &Flow, op: u32) -> bool
    ensures { result ≡ is_there (nth flow.now op) }
{
    flow.operator(op).is_some()
}

fn has_worker(flow: &Flow, op: u32, worker: u32) -> bool
    ensures { result ≡ has_worker (nth flow.now op) worker }
{
    match flow.operator(op) {
        None => false,
        Some(operator) => worker < operator.workers,
    }
}

fn takes_cond(flow: &Flow, op: u32, cond: &Cond) -> bool
    ensures { result ≡ takes_cond (nth flow.now op) cond.now }
{
    match flow.operator(op) {
        None => false,
        Some(operator) => {
            !operator.what.is_sink() && is_cell_of(&operator.schema, cond.column, &cond.constant)
        }
    }
}

// Whether a value may be the constant that can be set of an operator with these columns.
fn may_be_set_to(what: &What, schema: &Schema, value: &Value) -> bool
    ensures { result ≡ may_be_set_to what.now schema.now value.now }
{
    match what.settable_cond() {
        None => false,
        Some(cond) => is_cell_of(schema, cond.column, value),
    }
}

fn takes_constant(flow: &Flow, op: u32, value: &Value) -> bool
    ensures { result ≡ takes_constant (nth flow.now op) value.now }
{
    match flow.operator(op) {
        None => false,
        Some(operator) => may_be_set_to(&operator.what, &operator.schema, value),
    }
}

// Whether an operator takes what a command says beside it.
fn fits_at(flow: &Flow, op: u32, argument: &Argument<'_>) -> bool
    ensures { result ≡ fits_at (nth flow.now op) argument.now }
{
    match argument {
        Argument::Nothing => is_there(flow, op),
        Argument::Rows(n) => is_source(flow, op) && is_target(*n),
        Argument::Worker(worker) => has_worker(flow, op, *worker),
        Argument::Constant(value) => takes_constant(flow, op, value.get()),
        Argument::Condition(cond) => takes_cond(flow, op, cond.get()),
    }
}

/// Whether a workflow takes a command: the operator, its worker and its column are there, the operator is of
/// a kind that takes it, and numbers of rows are 1 to 2^40.
#[tactic(auto, unfolding(crate::specs::Fits::fits_of))]
pub fn fits(flow: &Flow, command: &Command) -> bool
    ensures { result ≡ fits_of flow.now command.now }
{
    match command.action() {
        Action::Leg { to_end: _ } => true,
        Action::AtRest(effect) => fits_at(flow, effect.op, &effect.argument),
    }
}
