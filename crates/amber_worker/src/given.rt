//! What a worker gives for the answer. Rests on `OperatorState`, and on `Refusals` of `amber_meaning`.

ghost use Rattle.std.specs.Prelude.{◌≡◌, ◌++◌, map, IfOk, OnOk};
ghost use Rattle.amber_rows.specs.Order.{sort_rows};
ghost use Rattle.amber_worker.specs.Steps.{AreKeysOf};

use amber_meaning::{Refusal, Refusals};
use amber_operators::{OperatorState, refused_keys};
use amber_rows::{Row, Rows, sort};
use std::alloc::{AllocError, Global};

/// What a worker gives for the answer: what it has refused, and of a sink the rows that it took, in
/// the order of rows.
#[derive(Drop)]
pub struct Given {
    pub refused: Refusals,
    pub rows: Rows,
}

// Appends the refused keys of a group to what was refused before.
fn add_keys(op: u32, keys: Vec<Row>, refused: &mut Vec<Refusal>) -> Result<(), AllocError>
    ensures { OnOk result (refused.new.items
        ≡ refused.old.items ++ map (Refusal.Group op) keys.items) }
{
    for key in keys {
        refused.push(Refusal::Group { op, key })?;
    }
    Ok(())
}

// The keys that a worker gives: those that it has refused once it has finished, none before.
pub(crate) fn final_keys(
    alloc: Global,
    finished: bool,
    operator_state: &OperatorState,
) -> Result<Vec<Row>, AllocError>
    ensures { IfOk result (λ keys. AreKeysOf finished operator_state.now keys.items) }
{
    if !finished {
        return Ok(Vec::new(alloc));
    }
    refused_keys(alloc, operator_state)
}

// What was refused, the keys after the records, and the rows, both in the order of rows.
pub(crate) fn given_of(
    op: u32,
    mut keys: Vec<Row>,
    mut refused: Vec<Refusal>,
    mut kept: Vec<Row>,
) -> Result<Given, AllocError>
    ensures refused { IfOk result (λ given. given.refused
        ≡ refused.items ++ map (Refusal.Group op) (sort_rows keys.items)) }
    ensures rows { IfOk result (λ given. given.rows ≡ sort_rows kept.items) }
{
    sort(&mut keys);
    add_keys(op, keys, &mut refused)?;
    sort(&mut kept);
    Ok(Given {
        refused: Refusals::new(refused),
        rows: Rows::new(kept),
    })
}
