//! The state of a filter. Over `Cond` of `amber_rows`.

ghost use Rattle.std.specs.Prelude.{◌≡◌, IfOk, if◌then◌else◌};
ghost use Rattle.amber_rows.specs.Cond.{holds_of};

use amber_rows::{Cond, Row, Value, holds};
use std::alloc::AllocError;
use std::marker::Model;

/// What a filter keeps: its condition. The state is seen as that condition.
pub struct FilterState {
    cond: Cond,
}

impl Drop for FilterState {
    fn drop(self) {
        let FilterState { cond: _ } = self;
    }
}

impl Model for FilterState {
    ghost use Rattle.amber_rows.specs.declared.cond.Cond.{Cond as Condition};

    ghost Value = { Condition };

    ghost view = { λ a. a.cond };
}

impl FilterState {
    /// The state of a filter with this condition.
    pub fn new(cond: Cond) -> Self
        ensures { result ≡ cond }
    {
        FilterState { cond }
    }

    /// The row exactly where the condition holds of it. It does not hold of a row without the condition's
    /// column.
    pub fn feed(&mut self, row: Row) -> Option<Row>
        ensures row { result ≡ (if holds_of self.old row then Some row else None) }
        ensures same { self.new ≡ self.old }
    {
        if holds(&self.cond, &row) {
            Some(row)
        } else {
            None
        }
    }

    /// Whether the condition holds of a row, which stays where it is.
    pub fn passes(&self, row: &Row) -> bool
        ensures { result ≡ holds_of self.now row.now }
    {
        holds(&self.cond, row)
    }

    /// Puts a value in place of the condition's constant. No row is passed by one of another kind than the
    /// condition's column.
    pub fn set(&mut self, value: Value)
        ensures { self.new ≡ record self.old { constant = value } }
    {
        self.cond.constant = value;
    }
}

impl Clone for FilterState {
    ghost is_clone = { λ a copy. copy ≡ a };

    fn clone(&self) -> Result<Self, AllocError> {
        Ok(FilterState {
            cond: self.cond.clone()?,
        })
    }
}
