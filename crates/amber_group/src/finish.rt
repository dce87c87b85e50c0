//! The rows that groups give at the end. Over `Groups` and `Running`.

ghost use Rattle.std.specs.Prelude.{◌≡◌, ◌++◌, ◌∷◌, [], IfOk, OnOk, option_map};
ghost use Rattle.amber_group.specs.Finished.{refused_of, finished_rows, aggregate_values};

use crate::groups::Groups;
use crate::running::Running;
use amber_rows::{Row, Rows, Value};
use std::alloc::{AllocError, Global};

/// What a group gives at the end. Both parts stand in the order in which the keys came first.
#[derive(Drop)]
pub struct Grouped {
    /// A row for each group whose numbers 64 bits hold: its key, and then its aggregates.
    pub rows: Rows,
    /// The keys of the other groups.
    pub refused: Rows,
}

// These cells, and then a value for each aggregate; nothing where one has none.
fn with_values(
    mut cells: Vec<Value>,
    runnings: &[Running],
) -> Result<Option<Vec<Value>>, AllocError>
    ensures { IfOk result
        (λ found. option_map (λ all. all.items) found
        ≡ option_map (λ values. cells.items ++ values) (aggregate_values runnings.now)) }
{
    for running in runnings {
        let value = running.value()?;
        let Some(value) = value else {
            return Ok(None);
        };
        cells.push(value)?;
    }
    Ok(Some(cells))
}

// Appends the row of a group to `rows`, or its key to `refused` where it has none.
pub(crate) fn add_group(
    alloc: Global,
    key: &Row,
    runnings: &[Running],
    rows: &mut Vec<Row>,
    refused: &mut Vec<Row>,
) -> Result<(), AllocError>
    ensures rows { OnOk result (rows.new.items
        ≡ rows.old.items ++ finished_rows ((key.now, runnings.now) ∷ [])) }
    ensures refused { OnOk result (refused.new.items
        ≡ refused.old.items ++ refused_of ((key.now, runnings.now) ∷ [])) }
{
    let width = key.len().saturating_add(runnings.len());
    let mut cells: Vec<Value> = Vec::with_capacity(alloc, width)?;
    cells.extend_from_slice(key.get())?;
    match with_values(cells, runnings)? {
        Some(cells) => rows.push(Row::new(cells))?,
        None => refused.push(key.clone()?)?,
    }
    Ok(())
}

impl Groups {
    /// The rows of the groups, and the keys of those that have none.
    pub(crate) fn finish(&self, alloc: Global) -> Result<Grouped, AllocError>
        ensures rows { IfOk result (λ grouped. grouped.rows ≡ finished_rows self.now) }
        ensures refused { IfOk result (λ grouped. grouped.refused ≡ refused_of self.now) }
    {
        let mut rows = Vec::with_capacity(alloc, self.table.len())?;
        let mut refused = Vec::new(alloc);
        for (key, totals) in self.table.iter() {
            add_group(alloc, key.row(), totals.get(), &mut rows, &mut refused)?;
        }
        Ok(Grouped {
            rows: Rows::new(rows),
            refused: Rows::new(refused),
        })
    }
}
