//! What a query answers, and why it may have no answer. Over rows, columns and faults of `amber_rows`.

ghost use Rattle.std.specs.Prelude.{◌≡◌};
ghost use Rattle.amber_meaning.specs.declared.answer.PlainErr.TheVariants as plain_err;

use amber_rows::{Row, RowFault, Rows, Schema};
use std::alloc::AllocError;
use std::marker::Model;

/// Something that gave no row.
pub enum Refusal {
    /// A record of a scan: the operator's number, the record's number in its file (from 1, after the header), and
    /// why it is no row.
    Record {
        op: u32,
        number: u64,
        fault: RowFault,
    },
    /// A group of which a sum leaves 64 bits: the operator's number, and the key.
    Group {
        op: u32,
        key: Row,
    },
}

impl Drop for Refusal {
    fn drop(self) {
        match self {
            Refusal::Record {
                op: _,
                number: _,
                fault: _,
            } => {}
            Refusal::Group { op: _, key: _ } => {}
        }
    }
}

impl Clone for Refusal {
    ghost is_clone = { λ a copy. copy ≡ a };

    fn clone(&self) -> Result<Self, AllocError> {
        match self {
            Refusal::Record { op, number, fault } => Ok(Refusal::Record {
                op: *op,
                number: *number,
                fault: *fault,
            }),
            Refusal::Group { op, key } => Ok(Refusal::Group {
                op: *op,
                key: key.clone()?,
            }),
        }
    }
}

/// What a query refused, in the order of the operators and their records, seen as a list.
pub struct Refusals {
    inner: Vec<Refusal>,
}

impl Drop for Refusals {
    fn drop(self) {
        let Refusals { inner: _ } = self;
    }
}

impl Model for Refusals {
    ghost use Rattle.std.specs.Prelude.{List};
    ghost use Rattle.amber_meaning.specs.declared.answer.Refusal.{Refusal as OneRefusal};

    ghost Value = { List OneRefusal };

    ghost view = { λ a. a.inner.items };
}

impl Refusals {
    /// The refusals of a `Vec`, in its order.
    pub fn new(inner: Vec<Refusal>) -> Self
        ensures { result ≡ inner.items }
    {
        Refusals { inner }
    }

    /// The refusals as a slice.
    pub fn get(&self) -> &[Refusal]
        ensures { result.now ≡ self.now }
    {
        self.inner.as_slice()
    }

    /// The refusals as the `Vec` of which they were made.
    pub fn into_vec(self) -> Vec<Refusal>
        ensures { result.items ≡ self }
    {
        let Refusals { inner } = self;
        inner
    }
}

/// The answer of a query: what was refused, and the sink's columns and rows.
#[derive(Drop)]
pub struct Answer {
    pub refused: Refusals,
    pub columns: Schema,
    pub rows: Rows,
}

/// Why a query has no answer.
#[derive(Clone, Copy)]
pub enum PlainErr {
    /// The file of the scan with this number does not begin with the names of its columns; it is the first such scan.
    Header(u32),
    /// The operators give more rows together than may be.
    Long,
    /// Memory ran out.
    NoMemory,
}

impl From<AllocError> for PlainErr {
    ghost from_gives = { λ _ e. e ≡ plain_err.NoMemory };

    fn from(_error: AllocError) -> PlainErr {
        PlainErr::NoMemory
    }
}
