//! The state of a sink. Over `Rows` of `amber_rows`, and its `sort`.

ghost use Rattle.std.specs.Prelude.{◌≡◌, ◌++◌, ◌∷◌, [], IfErr, IfOk, OnErr, OnOk};
ghost use Rattle.amber_rows.specs.Order.{sort_rows};

use amber_rows::{Row, Rows, sort};
use std::alloc::{AllocError, Global};
use std::marker::Model;

/// What a sink keeps: the rows that it was fed. The state is seen as the list of these, in that order.
pub struct SinkState {
    rows: Vec<Row>,
}

impl Drop for SinkState {
    fn drop(self) {
        let SinkState { rows: _ } = self;
    }
}

impl Model for SinkState {
    ghost use Rattle.std.specs.Prelude.{List};
    ghost use Rattle.amber_rows.specs.declared.value.Value.{Value as Cell};

    ghost Value = { List (List Cell) };

    ghost view = { λ a. a.rows.items };
}

impl SinkState {
    /// The state of a sink that was fed no row.
    pub fn new(alloc: Global) -> Self
        ensures { result ≡ [] }
    {
        SinkState {
            rows: Vec::new(alloc),
        }
    }

    /// Keeps a row. It gives the row back only where memory runs out.
    pub fn feed(&mut self, row: Row) -> Result<(), Row>
        ensures ok { OnOk result (self.new ≡ self.old ++ row ∷ []) }
        ensures err { IfErr result (λ back. back ≡ row) }
        ensures same_on_err { OnErr result (self.new ≡ self.old) }
    {
        match self.rows.push(row) {
            Ok(()) => Ok(()),
            Err(refused) => Err(refused.value),
        }
    }

    /// The rows that it was fed, in the order of rows. Equal rows all stay.
    pub fn sorted(&self, alloc: Global) -> Result<Rows, AllocError>
        ensures { IfOk result (λ rows. rows ≡ sort_rows self.now) }
    {
        let mut rows = copied(alloc, self.rows.as_slice())?;
        sort(&mut rows);
        Ok(Rows::new(rows))
    }
}

impl Clone for SinkState {
    ghost is_clone = { λ a copy. copy ≡ a };

    fn clone(&self) -> Result<Self, AllocError> {
        Ok(SinkState {
            rows: self.rows.clone()?,
        })
    }
}

// Rows equal to these, in their order.
fn copied(alloc: Global, rows: &[Row]) -> Result<Vec<Row>, AllocError>
    ensures { IfOk result (λ copies. copies.items ≡ rows.now) }
{
    let mut copies = Vec::with_capacity(alloc, rows.len())?;
    for row in rows {
        copies.push(row.clone()?)?;
    }
    Ok(copies)
}
