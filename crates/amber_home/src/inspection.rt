//! What an operator shows. Over `Dataflow::views`, and `InForce`.

ghost use Rattle.std.specs.Prelude.{◌≡◌, ◌<◌, ◌≤◌, IfOk, length, option_map};
ghost use Rattle.amber_dataflow.specs.Dataflow.{AreAllThere, rows_emitted};
ghost use Rattle.amber_home.specs.Asked.{asked_at};
ghost use Rattle.amber_home.specs.Leg.{ShowsAt, counted_rows};
ghost use Rattle.amber_rows.specs.Lists.{first_of};

use crate::in_force::InForce;
use amber_dataflow::Dataflow;
use amber_meaning::{Counted, Inspected};
use amber_rows::{Cond, Value};
use std::alloc::{AllocError, Global};

// A copy of the constant that is in force at an operator, if there is one.
fn constant_at(arms: &InForce, op: u32) -> Result<Option<Value>, AllocError>
    ensures { IfOk result (λ constant. constant ≡ first_of (asked_at arms.now op).constants) }
{
    let Some(armed) = arms.at(op) else {
        return Ok(None);
    };
    match armed.constant() {
        Some(value) => Ok(Some(value.clone()?)),
        None => Ok(None),
    }
}

// A copy of the condition that is in force at an operator, if there is one.
fn condition_at(arms: &InForce, op: u32) -> Result<Option<Cond>, AllocError>
    ensures { IfOk result (λ when. when ≡ (asked_at arms.now op).when) }
{
    let Some(armed) = arms.at(op) else {
        return Ok(None);
    };
    match armed.when() {
        Some(cond) => Ok(Some(cond.clone()?)),
        None => Ok(None),
    }
}

// How far the count of an operator is, if one is armed there.
fn count_at(arms: &InForce, dataflow: &Dataflow, op: u32) -> Option<Counted>
    requires workers { AreAllThere dataflow.now }
    requires some { 0 < op }
    requires within { op ≤ length dataflow.now.flow }
    ensures { result ≡ option_map (counted_rows (rows_emitted dataflow.now op))
        (asked_at arms.now op).count }
{
    match arms.count_at(op) {
        None => None,
        Some(count) => Some(Counted {
            counted: dataflow.rows_emitted(op).saturating_sub(count.since),
            target: count.target,
        }),
    }
}

/// What the workers of an operator show, and what is in force there.
pub(crate) fn inspect(
    alloc: Global,
    arms: &InForce,
    dataflow: &Dataflow,
    op: u32,
) -> Result<Inspected, AllocError>
    requires workers { AreAllThere dataflow.now }
    requires some { 0 < op }
    requires within { op ≤ length dataflow.now.flow }
    ensures { IfOk result (ShowsAt arms.now dataflow.now op) }
{
    Ok(Inspected {
        op,
        constant: constant_at(arms, op)?,
        pause: arms.pause_at(op),
        count: count_at(arms, dataflow, op),
        when: condition_at(arms, op)?,
        workers: dataflow.views(alloc, op)?,
    })
}
