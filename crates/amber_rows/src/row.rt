//! A row, and a list of rows. Rests on `Value`; comparisons rest on `sort_key` where it decides.

ghost use Rattle.std.specs.Prelude.{◌≡◌, ◌==◌, ◌++◌, ◌∷◌, [], IfOk, OnOk, length, option_map, true};
ghost use Rattle.std.specs.declared.cmp.Ordering.TheVariants.{Equal};
ghost use Rattle.std.specs.List.{filter_map};
ghost use Rattle.amber_rows.specs.Lists.{nth};
ghost use Rattle.amber_rows.specs.Operators.{pick_cells};
ghost use Rattle.amber_rows.specs.Order.{row_cmp};
ghost use Rattle.std.specs.Ordering.{as_partial_cmp, eq_by_cmp};
ghost use Rattle.std.specs.Cmp.{eq_by_cmp_equiv, partial_equiv_from_equiv, partial_order_from_total};
ghost use Rattle.std.specs.Prelude.{refl};
ghost use Rattle.amber_rows.specs.OrderLaws.{row-total};

use crate::column::Cols;
use crate::sort_key::{key_of, tells_number};
use crate::value::Value;
use std::alloc::{AllocError, Global};
use std::cmp::Ordering;
use std::marker::Model;

/// A row, seen as the list of its cells.
pub struct Row {
    // Made once from the cells, so that most comparisons look at no cell.
    key: u64,
    inner: Vec<Value>,
}

impl Drop for Row {
    fn drop(self) {
        let Row { key: _, inner: _ } = self;
    }
}

impl Model for Row {
    ghost use Rattle.std.specs.Prelude.{◌≡◌, List};
    ghost use Rattle.amber_rows.specs.SortKey.{key_of};
    ghost use Rattle.amber_rows.specs.declared.value.Value.{Value as Cell};

    ghost Value = { List Cell };

    ghost view = { λ a. a.inner.items };

    ghost invariant = { λ a. a.key ≡ key_of a.inner.items };
}

impl Row {
    /// The row of these cells.
    pub fn new(inner: Vec<Value>) -> Self
        ensures { result ≡ inner.items }
    {
        let key = key_of(inner.as_slice());
        Row { key, inner }
    }

    /// The cells in the order of the columns.
    pub fn get(&self) -> &[Value]
        ensures { result.now ≡ self.now }
    {
        self.inner.as_slice()
    }

    /// The cells as the `Vec` of which the row was made.
    pub fn into_inner(self) -> Vec<Value>
        ensures { result.items ≡ self }
    {
        let Row { key: _, inner } = self;
        inner
    }

    /// How many cells the row has.
    pub fn len(&self) -> usize
        ensures { result ≡ length self.now }
    {
        self.inner.len()
    }

    /// Whether the row has no cell.
    pub fn is_empty(&self) -> bool
        ensures { result ≡ (length self.now == 0) }
    {
        self.inner.is_empty()
    }

    /// The cell of the column with this number, if there is one. Columns are numbered from 1.
    pub fn cell(&self, column: u32) -> Option<&Value>
        ensures { option_map (λ cell. cell.now) result ≡ nth self.now column }
    {
        if column == 0 {
            return None;
        }
        self.inner.get(column as usize - 1)
    }

    // Appends the cell of a column, if there is one.
    fn add_cell(&self, column: u32, cells: &mut Vec<Value>) -> Result<(), AllocError>
        ensures { OnOk result (cells.new.items
            ≡ cells.old.items ++ filter_map (nth self.now) (column ∷ [])) }
    {
        let found = self.cell(column);
        if let Some(cell) = found {
            cells.push(cell.clone()?)?;
        }
        Ok(())
    }

    /// A row of the cells of these columns, in the order of `columns`. A column that the row does not have
    /// gives no cell.
    pub fn pick(&self, alloc: Global, columns: &Cols) -> Result<Self, AllocError>
        ensures { IfOk result (λ row. row ≡ pick_cells columns.now self.now) }
    {
        let numbers = columns.get();
        let mut cells = Vec::with_capacity(alloc, numbers.len())?;
        for column in numbers {
            self.add_cell(*column, &mut cells)?;
        }
        Ok(Row::new(cells))
    }
}

impl Clone for Row {
    ghost is_clone = { λ a copy. copy ≡ a };

    fn clone(&self) -> Result<Self, AllocError> {
        Ok(Row {
            key: self.key,
            inner: self.inner.clone()?,
        })
    }
}

// Whether the sort keys alone show that two rows are one and the same number. No cell is looked at.
fn are_one_number(a: &Row, b: &Row) -> bool
    ensures { result ≡ true → row_cmp a.now b.now ≡ Equal }
{
    if a.key != b.key {
        return false;
    }
    if !tells_number(a.key) {
        return false;
    }
    if a.len() != 1 {
        return false;
    }
    if b.len() != 1 {
        return false;
    }
    true
}

impl PartialEq for Row {
    ghost eq = { eq_by_cmp row_cmp };

    ghost laws = { partial_equiv_from_equiv (eq_by_cmp_equiv row-total) };

    fn eq(&self, other: &Self) -> bool {
        if are_one_number(self, other) {
            return true;
        }
        self.cmp(other).is_eq()
    }
}

impl Eq for Row {
    ghost laws = { eq_by_cmp_equiv row-total };
}

impl PartialOrd for Row {
    ghost partial_cmp = { as_partial_cmp row_cmp };

    ghost laws = { partial_order_from_total row-total };

    fn partial_cmp(&self, other: &Self) -> Option<Ordering> {
        Some(self.cmp(other))
    }
}

impl Ord for Row {
    ghost cmp = { row_cmp };

    ghost total = { row-total };

    ghost matches_partial_cmp = { λ _ _. refl };

    ghost matches_eq = { λ _ _. refl };

    fn cmp(&self, other: &Self) -> Ordering {
        if self.key != other.key {
            return self.key.cmp(&other.key);
        }
        self.get().cmp(other.get())
    }
}

/// Rows in a certain order, seen as a list.
pub struct Rows {
    inner: Vec<Row>,
}

impl Drop for Rows {
    fn drop(self) {
        let Rows { inner: _ } = self;
    }
}

impl Model for Rows {
    ghost use Rattle.std.specs.Prelude.{List};
    ghost use Rattle.amber_rows.specs.declared.value.Value.{Value as Cell};

    ghost Value = { List (List Cell) };

    ghost view = { λ a. a.inner.items };
}

impl Rows {
    /// The rows of a `Vec`, in its order.
    pub fn new(inner: Vec<Row>) -> Self
        ensures { result ≡ inner.items }
    {
        Rows { inner }
    }

    /// The rows as a slice.
    pub fn get(&self) -> &[Row]
        ensures { result.now ≡ self.now }
    {
        self.inner.as_slice()
    }

    /// The rows as the `Vec` of which they were made.
    pub fn into_inner(self) -> Vec<Row>
        ensures { result.items ≡ self }
    {
        let Rows { inner } = self;
        inner
    }

    /// How many rows there are.
    pub fn len(&self) -> usize
        ensures { result ≡ length self.now }
    {
        self.inner.len()
    }

    /// Whether there is no row.
    pub fn is_empty(&self) -> bool
        ensures { result ≡ (length self.now == 0) }
    {
        self.inner.is_empty()
    }
}
