//! A key: the cells of a row in some columns, compared and hashed as one. Over `Row` of `amber_rows`.

ghost use Rattle.std.specs.Prelude.{◌≡◌, IfOk, fold};
ghost use Rattle.std.specs.Ordering.{eq_by_cmp};
ghost use Rattle.std.specs.Cmp.{eq_by_cmp_equiv, partial_equiv_from_equiv};
ghost use Rattle.amber_rows.specs.Operators.{pick_cells};
ghost use Rattle.amber_rows.specs.Order.{row_cmp};
ghost use Rattle.amber_rows.specs.OrderLaws.{row-total};
ghost use Rattle.amber_keys.specs.Hashing.{cell_writes, key_writes, key_writes_alike};

use amber_rows::{Cols, Row, Value, pick_over};
use std::alloc::{AllocError, Global};
use std::hash::{Hash, Hasher};
use std::marker::Model;

/// The cells of some columns of a row, seen as their list. Equal keys have equal cells in the same order.
pub struct Key {
    row: Row,
}

impl Drop for Key {
    fn drop(self) {
        let Key { row: _ } = self;
    }
}

impl Model for Key {
    ghost use Rattle.std.specs.Prelude.{List};
    ghost use Rattle.amber_rows.specs.declared.value.Value.{Value as Cell};

    ghost Value = { List Cell };

    ghost view = { λ a. a.row };
}

impl Key {
    /// The cells that a row has in these columns, in this order. Columns are numbered from 1; one that the
    /// row does not have gives no cell.
    pub fn of(alloc: Global, row: &Row, columns: &Cols) -> Result<Self, AllocError>
        ensures { IfOk result (λ key. key ≡ pick_cells columns.now row.now) }
    {
        Ok(Key {
            row: row.pick(alloc, columns)?,
        })
    }

    /// The same, in the room of cells that are done with. What they are does not matter.
    pub fn over(
        alloc: Global,
        room: Vec<Value>,
        row: &Row,
        columns: &Cols,
    ) -> Result<Self, AllocError>
        ensures { IfOk result (λ key. key ≡ pick_cells columns.now row.now) }
    {
        Ok(Key {
            row: pick_over(alloc, room, row, columns)?,
        })
    }

    /// The cells, as room for others.
    pub fn into_cells(self) -> Vec<Value>
        ensures { result.items ≡ self }
    {
        let Key { row } = self;
        row.into_inner()
    }

    /// The cells as a row.
    pub fn row(&self) -> &Row
        ensures { result.now ≡ self.now }
    {
        &self.row
    }
}

impl Clone for Key {
    ghost is_clone = { λ key copy. copy ≡ key };

    fn clone(&self) -> Result<Self, AllocError> {
        Ok(Key {
            row: self.row.clone()?,
        })
    }
}

impl PartialEq for Key {
    ghost eq = { eq_by_cmp row_cmp };

    ghost laws = { partial_equiv_from_equiv (eq_by_cmp_equiv row-total) };

    fn eq(&self, other: &Self) -> bool {
        self.row == other.row
    }
}

impl Eq for Key {
    ghost laws = { eq_by_cmp_equiv row-total };
}

impl Hash for Key {
    ghost hash_input = { key_writes };

    ghost respects_eq = { key_writes_alike };

    fn hash<H: Hasher>(&self, state: &mut H) {
        let cells = self.row.get();
        for cell in cells {
            hash_cell(cell, state);
        }
    }
}

// Feeds one cell to a hasher.
fn hash_cell<H: Hasher>(cell: &Value, state: &mut H)
    ensures { state.new ≡ fold H.write state.old (cell_writes cell.now) }
{
    match cell {
        Value::Int(number) => state.write_i64(*number),
        Value::Text(text) => text.get().hash(state),
    }
}
