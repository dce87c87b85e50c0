//! Columns: their kinds, schemas, and lists of column numbers. Rests on `Text` and `Value`.

ghost use Rattle.std.specs.Prelude.{◌≡◌, IfOk, length};
ghost use Rattle.amber_rows.specs.Columns.{kind_of};
ghost use Rattle.amber_rows.specs.Suits.{same_kind};

use crate::text::Text;
use crate::value::Value;
use std::alloc::{AllocError, Global};
use std::marker::Model;

/// What the cells of a column are.
#[derive(Clone, Copy, PartialEq, Eq)]
pub enum ColKind {
    Int,
    Text,
}

impl ColKind {
    /// Whether a cell may stand in a column of this kind.
    pub fn takes(self, cell: &Value) -> bool
        ensures { result ≡ same_kind self (kind_of cell.now) }
    {
        match (self, cell) {
            (ColKind::Int, Value::Int(_)) | (ColKind::Text, Value::Text(_)) => true,
            (ColKind::Int, Value::Text(_)) | (ColKind::Text, Value::Int(_)) => false,
        }
    }
}

/// A column: its name, and what its cells are.
pub struct Column {
    pub name: Text,
    pub kind: ColKind,
}

impl Drop for Column {
    fn drop(self) {
        let Column { name: _, kind: _ } = self;
    }
}

impl Clone for Column {
    ghost is_clone = { λ a copy. copy ≡ a };

    fn clone(&self) -> Result<Self, AllocError> {
        Ok(Column {
            name: self.name.clone()?,
            kind: self.kind,
        })
    }
}

/// The columns of an operator, seen as a list. They are numbered from 1.
pub struct Schema {
    inner: Vec<Column>,
}

impl Drop for Schema {
    fn drop(self) {
        let Schema { inner: _ } = self;
    }
}

impl Model for Schema {
    ghost use Rattle.std.specs.Prelude.{List};
    ghost use Rattle.amber_rows.specs.declared.column.Column.{Column as OneColumn};

    ghost Value = { List OneColumn };

    ghost view = { λ a. a.inner.items };
}

impl Schema {
    /// The columns of a `Vec`, in its order.
    pub fn new(inner: Vec<Column>) -> Self
        ensures { result ≡ inner.items }
    {
        Schema { inner }
    }

    /// The columns as a slice.
    pub fn get(&self) -> &[Column]
        ensures { result.now ≡ self.now }
    {
        self.inner.as_slice()
    }

    /// How many columns there are.
    pub fn len(&self) -> usize
        ensures { result ≡ length self.now }
    {
        self.inner.len()
    }
}

impl Clone for Schema {
    ghost is_clone = { λ a copy. copy ≡ a };

    fn clone(&self) -> Result<Self, AllocError> {
        Ok(Schema {
            inner: self.inner.clone()?,
        })
    }
}

/// Numbers of columns, seen as a list.
pub struct Cols {
    inner: Vec<u32>,
}

impl Drop for Cols {
    fn drop(self) {
        let Cols { inner: _ } = self;
    }
}

impl Model for Cols {
    ghost use Rattle.std.specs.Prelude.{List, ℕ};

    ghost Value = { List ℕ };

    ghost view = { λ a. a.inner.items };
}

impl Cols {
    /// The numbers of a `Vec`, in its order.
    pub fn new(inner: Vec<u32>) -> Self
        ensures { result ≡ inner.items }
    {
        Cols { inner }
    }

    /// The numbers as a slice.
    pub fn get(&self) -> &[u32]
        ensures { result.now ≡ self.now }
    {
        self.inner.as_slice()
    }
}

impl Clone for Cols {
    ghost is_clone = { λ a copy. copy ≡ a };

    fn clone(&self) -> Result<Self, AllocError> {
        Ok(Cols {
            inner: self.inner.clone()?,
        })
    }
}
