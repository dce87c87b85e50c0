//! Conditions on one column of a row. Rests on `Row` and the order of `Value`.

ghost use Rattle.std.specs.Prelude.{◌≡◌};
ghost use Rattle.amber_rows.specs.Cond.{holds_of, meets};

use crate::row::Row;
use crate::value::Value;
use std::alloc::AllocError;
use std::cmp::Ordering;

/// How a cell is compared with a constant.
#[derive(Clone, Copy)]
pub enum Cmp {
    Eq,
    Ne,
    Lt,
    Le,
    Gt,
    Ge,
}

impl Cmp {
    /// Whether the sign is met by a cell that compares so with the constant.
    pub fn is_met(self, found: Ordering) -> bool
        ensures { result ≡ meets self found }
    {
        match self {
            Cmp::Eq => found.is_eq(),
            Cmp::Ne => found.is_ne(),
            Cmp::Lt => found.is_lt(),
            Cmp::Le => found.is_le(),
            Cmp::Gt => found.is_gt(),
            Cmp::Ge => found.is_ge(),
        }
    }
}

/// A condition on one column of a row. Columns are numbered from 1.
pub struct Cond {
    pub column: u32,
    pub op: Cmp,
    pub constant: Value,
}

impl Drop for Cond {
    fn drop(self) {
        let Cond {
            column: _,
            op: _,
            constant: _,
        } = self;
    }
}

impl Clone for Cond {
    ghost is_clone = { λ a copy. copy ≡ a };

    fn clone(&self) -> Result<Self, AllocError> {
        Ok(Cond {
            column: self.column,
            op: self.op,
            constant: self.constant.clone()?,
        })
    }
}

/// Whether a condition holds of a row. It does not where the row has no such column.
#[tactic(auto, unfolding(crate::specs::Cond::holds_of))]
pub fn holds(cond: &Cond, row: &Row) -> bool
    ensures { result ≡ holds_of cond.now row.now }
{
    if cond.column == 0 {
        return false;
    }
    match row.get().get(cond.column as usize - 1) {
        None => false,
        Some(cell) => cond.op.is_met(cell.cmp(&cond.constant)),
    }
}
