//! The aggregates of a group, as plain data. What they give of rows is defined in `specs/Operators.antt`.

ghost use Rattle.std.specs.Prelude.{◌≡◌, IfOk, length};

use std::alloc::AllocError;
use std::marker::Model;

/// What a group says of the rows with one key. A column is a number from 1.
#[derive(Clone, Copy)]
pub enum Agg {
    /// How many rows there are.
    Count,
    /// The sum of a column of numbers.
    Sum(u32),
    /// The least value of a column.
    Min(u32),
    /// The greatest value of a column.
    Max(u32),
}

/// The aggregates of a group, seen as a list.
pub struct Aggs {
    inner: Vec<Agg>,
}

impl Drop for Aggs {
    fn drop(self) {
        let Aggs { inner: _ } = self;
    }
}

impl Model for Aggs {
    ghost use Rattle.std.specs.Prelude.{List};
    ghost use Rattle.amber_rows.specs.declared.agg.Agg.{Agg as OneAgg};

    ghost Value = { List OneAgg };

    ghost view = { λ a. a.inner.items };
}

impl Aggs {
    /// The aggregates of a `Vec`, in its order.
    pub fn new(inner: Vec<Agg>) -> Self
        ensures { result ≡ inner.items }
    {
        Aggs { inner }
    }

    /// The aggregates as a slice.
    pub fn get(&self) -> &[Agg]
        ensures { result.now ≡ self.now }
    {
        self.inner.as_slice()
    }
}

impl Clone for Aggs {
    ghost is_clone = { λ a copy. copy ≡ a };

    fn clone(&self) -> Result<Self, AllocError> {
        Ok(Aggs {
            inner: self.inner.clone()?,
        })
    }
}
