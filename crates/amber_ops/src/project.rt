//! The state of a projection. Over `Cols` of `amber_rows`.

ghost use Rattle.std.specs.Prelude.{◌≡◌, IfOk};
ghost use Rattle.amber_rows.specs.Operators.{pick_cells};

use amber_rows::{Cols, Row, pick_over};
use std::alloc::{AllocError, Global};
use std::marker::Model;

/// What a projection keeps: the numbers of the columns that it takes, in the order in which it gives them.
/// The state is seen as that list.
pub struct ProjectState {
    // Each row that it gives is made anew.
    alloc: Global,
    from: Cols,
}

impl Drop for ProjectState {
    fn drop(self) {
        let ProjectState { alloc: _, from: _ } = self;
    }
}

impl Model for ProjectState {
    ghost use Rattle.std.specs.Prelude.{List, ℕ};

    ghost Value = { List ℕ };

    ghost view = { λ a. a.from };
}

impl ProjectState {
    /// The state of a projection on these columns. Columns are numbered from 1.
    pub fn new(alloc: Global, from: Cols) -> Self
        ensures { result ≡ from }
    {
        ProjectState { alloc, from }
    }

    /// A row of the cells that a row has in these columns. A column that the row does not have gives no cell.
    pub fn feed(&mut self, row: &Row) -> Result<Row, AllocError>
        ensures ok { IfOk result (λ cells. cells ≡ pick_cells self.old row.now) }
        ensures same { self.new ≡ self.old }
    {
        self.pick(row)
    }

    /// The same row, where the state is only looked at.
    pub fn pick(&self, row: &Row) -> Result<Row, AllocError>
        ensures { IfOk result (λ cells. cells ≡ pick_cells self.now row.now) }
    {
        row.pick(self.alloc, &self.from)
    }

    /// The same row, written over the cells of a row that is done with, if there is one. What that holds means nothing.
    pub fn pick_over(&self, used: Option<Row>, row: &Row) -> Result<Row, AllocError>
        ensures { IfOk result (λ cells. cells ≡ pick_cells self.now row.now) }
    {
        match used {
            Some(old) => pick_over(self.alloc, old.into_inner(), row, &self.from),
            None => self.pick(row),
        }
    }
}

impl Clone for ProjectState {
    ghost is_clone = { λ a copy. copy ≡ a };

    fn clone(&self) -> Result<Self, AllocError> {
        Ok(ProjectState {
            alloc: self.alloc,
            from: self.from.clone()?,
        })
    }
}
