//! What is kept of the rows of a group for one aggregate. Over `Row` and `Value` of `amber_rows`.

ghost use Rattle.std.specs.Prelude.{◌≡◌, ◌+◌, ◌+ℤ◌, ◌^◌, ◌<◌, [], IfOk, ℕ, option_map};
ghost use Rattle.std.specs.Ordering.{is_gt, is_lt};
ghost use Rattle.amber_rows.specs.Lists.{nth};
ghost use Rattle.amber_rows.specs.Operators.{int_value, number_of};
ghost use Rattle.amber_group.specs.Finished.{value_of};
ghost use Rattle.amber_group.specs.Running.{running_of};
ghost use Rattle.amber_group.specs.Steps.{IsSumWithin, IsWithin, addend, addend_of, change_of, first_of_both, with_best, winner};

use amber_rows::{Agg, Row, Value};
use std::alloc::AllocError;

/// What is kept of the rows of a group for one aggregate. A column is a number from 1.
pub enum Running {
    /// How many rows there are.
    Count(u64),
    /// The exact sum of a column.
    Sum { column: u32, total: i128 },
    /// The least cell of a column so far.
    Min { column: u32, best: Option<Value> },
    /// The greatest cell of a column so far.
    Max { column: u32, best: Option<Value> },
}

impl Drop for Running {
    fn drop(self) {
        match self {
            Running::Count(_) => {}
            Running::Sum {
                column: _,
                total: _,
            } => {}
            Running::Min { column: _, best: _ } => {}
            Running::Max { column: _, best: _ } => {}
        }
    }
}

impl Running {
    /// What is kept of no row.
    #[tactic(auto, unfolding(crate::specs::Running::running_of, amber_rows::specs::Operators::total_of))]
    pub fn new(agg: Agg) -> Self
        ensures { result ≡ running_of [] agg }
    {
        match agg {
            Agg::Count => Running::Count(0),
            Agg::Sum(column) => Running::Sum { column, total: 0 },
            Agg::Min(column) => Running::Min { column, best: None },
            Agg::Max(column) => Running::Max { column, best: None },
        }
    }

    /// The new best cell, where a row has one.
    #[tactic(auto, unfolding(crate::specs::Steps::change_of))]
    pub fn change(&self, row: &Row) -> Result<Option<Value>, AllocError>
        ensures { IfOk result (λ change. change ≡ change_of row.now self.now) }
    {
        match self {
            Running::Count(_) => Ok(None),
            Running::Sum { .. } => Ok(None),
            Running::Min { column, best } => lesser(best, cell_at(row, *column)),
            Running::Max { column, best } => greater(best, cell_at(row, *column)),
        }
    }

    // What a row adds to the sum, if this is one.
    fn addend(&self, row: &Row) -> i64
        ensures { result ≡ addend_of row.now self.now }
    {
        match self {
            Running::Sum { column, .. } => number_at(row, *column),
            _ => 0,
        }
    }

    /// Takes in one more row, whose new best cell this is if it has one.
    #[tactic(auto, unfolding(crate::specs::Steps::with_best, crate::specs::Steps::IsWithin))]
    pub fn settle(&mut self, row: &Row, change: Option<Value>)
        requires { (rows : ℕ) × (rows < 2 ^ 40) × IsWithin rows self.old }
        ensures value { self.new ≡ with_best row.now change self.old }
        ensures within { (rows : ℕ) → IsWithin rows self.old → IsWithin (rows + 1) self.new }
    {
        let number = self.addend(row);
        match self {
            Running::Count(rows) => *rows += 1,
            Running::Sum { total, .. } => add_to(total, number),
            Running::Min { best, .. } => replace(best, change),
            Running::Max { best, .. } => replace(best, change),
        }
    }

    /// The value of the aggregate; nothing where 64 bits do not hold a number, or where there is no cell.
    #[tactic(auto, unfolding(crate::specs::Finished::value_of))]
    pub fn value(&self) -> Result<Option<Value>, AllocError>
        ensures { IfOk result (λ value. value ≡ value_of self.now) }
    {
        match self {
            Running::Count(rows) => Ok(int_value(*rows as i128)),
            Running::Sum { total, .. } => Ok(int_value(*total)),
            Running::Min { best, .. } => copied(best),
            Running::Max { best, .. } => copied(best),
        }
    }
}

impl Clone for Running {
    ghost is_clone = { λ running copy. copy ≡ running };

    fn clone(&self) -> Result<Self, AllocError> {
        match self {
            Running::Count(rows) => Ok(Running::Count(*rows)),
            Running::Sum { column, total } => Ok(Running::Sum {
                column: *column,
                total: *total,
            }),
            Running::Min { column, best } => Ok(Running::Min {
                column: *column,
                best: copied(best)?,
            }),
            Running::Max { column, best } => Ok(Running::Max {
                column: *column,
                best: copied(best)?,
            }),
        }
    }
}

// The cell of the column with this number, if there is one.
fn cell_at(row: &Row, column: u32) -> Option<&Value>
    ensures { option_map (λ cell. cell.now) result ≡ nth row.now column }
{
    if column == 0 {
        return None;
    }
    row.get().get(column as usize - 1)
}

// What a row adds to the sum of a column. Texts are never summed.
fn number_at(row: &Row, column: u32) -> i64
    ensures { result ≡ addend (nth row.now column) }
{
    match cell_at(row, column) {
        Some(Value::Int(number)) => *number,
        Some(Value::Text(_)) => 0,
        None => 0,
    }
}

// A cell where it is less than the least so far, or the first.
fn lesser(best: &Option<Value>, cell: Option<&Value>) -> Result<Option<Value>, AllocError>
    ensures { IfOk result
        (λ change. change ≡ winner is_lt best.now (option_map (λ one. one.now) cell.entry)) }
{
    match (best, cell) {
        (_, None) => Ok(None),
        (None, Some(cell)) => Ok(Some(cell.clone()?)),
        (Some(best), Some(cell)) => {
            if cell.cmp(best).is_lt() {
                Ok(Some(cell.clone()?))
            } else {
                Ok(None)
            }
        }
    }
}

// A cell where it is greater than the greatest so far, or the first.
fn greater(best: &Option<Value>, cell: Option<&Value>) -> Result<Option<Value>, AllocError>
    ensures { IfOk result
        (λ change. change ≡ winner is_gt best.now (option_map (λ one. one.now) cell.entry)) }
{
    match (best, cell) {
        (_, None) => Ok(None),
        (None, Some(cell)) => Ok(Some(cell.clone()?)),
        (Some(best), Some(cell)) => {
            if cell.cmp(best).is_gt() {
                Ok(Some(cell.clone()?))
            } else {
                Ok(None)
            }
        }
    }
}

// Adds a number to a sum of fewer than 2^40 others.
fn add_to(total: &mut i128, number: i64)
    requires { (rows : ℕ) × (rows < 2 ^ 40) × IsSumWithin rows total.old }
    ensures value { total.new ≡ total.old +ℤ number }
    ensures within { (rows : ℕ) → IsSumWithin rows total.old → IsSumWithin (rows + 1) total.new }
{
    *total += number as i128;
}

// Puts a new best cell in the place of the old one, if there is a new one.
fn replace(best: &mut Option<Value>, change: Option<Value>)
    ensures { best.new ≡ first_of_both change best.old }
{
    if let Some(cell) = change {
        *best = Some(cell);
    }
}

// A number as a value, where 64 bits hold it.
fn int_value(number: i128) -> Option<Value>
    ensures { result ≡ int_value number }
{
    match i64::try_from(number) {
        Ok(number) => Some(Value::Int(number)),
        Err(_) => None,
    }
}

// A cell of its own, equal to one that may be there.
fn copied(cell: &Option<Value>) -> Result<Option<Value>, AllocError>
    ensures { IfOk result (λ copy. copy ≡ cell.now) }
{
    match cell {
        Some(cell) => Ok(Some(cell.clone()?)),
        None => Ok(None),
    }
}
