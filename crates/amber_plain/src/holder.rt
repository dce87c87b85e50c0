//! What stands after the last stage: a list, or a group, which keeps the rows that come.

ghost use Rattle.std.specs.Prelude.{◌≡◌, ◌∷◌, [], OnOk};
ghost use Rattle.amber_plain.specs.Holding.{Takes};

use crate::grouping::add_row;
use amber_group::GroupState;
use amber_rows::Row;
use std::alloc::{AllocError, Global};
use std::mem;

/// What keeps the rows that come.
#[derive(Drop)]
pub enum Holder {
    /// A list.
    Rows(Vec<Row>),
    /// The state of a group, which is fed them.
    Group(GroupState),
}

impl Holder {
    /// Takes in a row. What is left of it does not matter.
    pub fn take(&mut self, alloc: Global, row: &mut Row) -> Result<(), AllocError>
        ensures { OnOk result (Takes self.old self.new (row.old ∷ [])) }
    {
        match self {
            Holder::Rows(rows) => {
                let taken = mem::replace(row, Row::new(Vec::new(alloc)));
                rows.push(taken)?;
                Ok(())
            }
            Holder::Group(state) => add_row(state, row),
        }
    }
}
