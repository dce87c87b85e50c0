//! Workflows: operators in order, and the files of their scans.
//! Rests on `Schema`, `Cond`, `Aggs`, `FileBytes` and the texts of `text`.

ghost use Rattle.std.specs.Prelude.{◌≡◌, length, option_map};
ghost use Rattle.amber_rows.specs.Lists.{nth};
ghost use Rattle.amber_rows.specs.FlowRules.{IsFlow};

use crate::agg::Aggs;
use crate::column::{Cols, Schema};
use crate::cond::Cond;
use crate::file_bytes::FileBytes;
use crate::text::Text;
use std::marker::Model;

/// What an operator does with the rows of its input. An input is an operator's number, from 1.
pub enum What {
    /// Gives the typed records of a file.
    Scan {
        file: Text,
    },
    /// Gives the rows for which the condition holds.
    Filter {
        input: u32,
        cond: Cond,
    },
    /// Gives these columns of its input's rows.
    Project {
        input: u32,
        from: Cols,
    },
    /// Gives each row of the probe side before each row of the build side with equal keys.
    Join {
        build: u32,
        probe: u32,
        build_keys: Cols,
        probe_keys: Cols,
    },
    /// Gives a row for each key: the key, and then the aggregates of the rows that have it.
    Group {
        input: u32,
        keys: Cols,
        aggs: Aggs,
    },
    /// Keeps the rows for the answer, which has them in their order.
    Sink {
        input: u32,
    },
}

impl Drop for What {
    fn drop(self) {
        match self {
            What::Scan { file: _ } => {}
            What::Filter { input: _, cond: _ } => {}
            What::Project { input: _, from: _ } => {}
            What::Join {
                build: _,
                probe: _,
                build_keys: _,
                probe_keys: _,
            } => {}
            What::Group {
                input: _,
                keys: _,
                aggs: _,
            } => {}
            What::Sink { input: _ } => {}
        }
    }
}

/// One operator of a workflow: its id, what it does, the columns that it gives, and how many workers do it.
pub struct Operator {
    pub id: Text,
    pub what: What,
    pub schema: Schema,
    pub workers: u32,
}

impl Drop for Operator {
    fn drop(self) {
        let Operator {
            id: _,
            what: _,
            schema: _,
            workers: _,
        } = self;
    }
}

/// A workflow, seen as the list of its operators.
pub struct Flow {
    inner: Vec<Operator>,
}

impl Drop for Flow {
    fn drop(self) {
        let Flow { inner: _ } = self;
    }
}

impl Model for Flow {
    ghost use Rattle.std.specs.Prelude.{List};
    ghost use Rattle.amber_rows.specs.declared.flow.Operator.{Operator as OneOperator};
    ghost use Rattle.amber_rows.specs.FlowRules.{IsFlow};

    ghost Value = { List OneOperator };

    ghost view = { λ a. a.inner.items };

    ghost invariant = { λ a. IsFlow a.inner.items };
}

impl Flow {
    /// The workflow of these operators.
    pub fn new(inner: Vec<Operator>) -> Self
        requires { IsFlow inner.items }
        ensures { result ≡ inner.items }
    {
        Flow { inner }
    }

    /// The operators in order.
    pub fn get(&self) -> &[Operator]
        ensures operators { result.now ≡ self.now }
        ensures flow { IsFlow self.now }
    {
        self.inner.as_slice()
    }

    /// The operator with this number, if there is one.
    pub fn operator(&self, op: u32) -> Option<&Operator>
        ensures { option_map (λ operator. operator.now) result ≡ nth self.now op }
    {
        if op == 0 {
            return None;
        }
        self.inner.get(op as usize - 1)
    }
}

/// The bytes of the scans' files, one for each scan in the order of the operators, seen as a list.
pub struct Files {
    inner: Vec<FileBytes>,
}

impl Drop for Files {
    fn drop(self) {
        let Files { inner: _ } = self;
    }
}

impl Model for Files {
    ghost use Rattle.std.specs.Prelude.{List, ℕ};

    ghost Value = { List (List ℕ) };

    ghost view = { λ a. a.inner.items };
}

impl Files {
    /// The files of a `Vec`, in its order.
    pub fn new(inner: Vec<FileBytes>) -> Self
        ensures { result ≡ inner.items }
    {
        Files { inner }
    }

    /// The files as a slice.
    pub fn get(&self) -> &[FileBytes]
        ensures { result.now ≡ self.now }
    {
        self.inner.as_slice()
    }
}
