//! Why a run has stopped, and what its operators and workers show. Over rows and conditions of `amber_rows`.

ghost use Rattle.std.specs.Prelude.{◌≡◌};

use amber_rows::{Cond, Row, Value};
use std::alloc::AllocError;
use std::marker::Model;

/// Why a run has stopped. Operators are numbered from 1, an operator's workers from 0.
pub enum Stop {
    /// A worker stands before this row, which meets the operator's condition.
    Held { op: u32, worker: u32, row: Row },
    /// An operator has emitted as many rows as its count asked for.
    Count { op: u32, target: u64 },
    /// An operator has emitted at least as many rows as its pause asked for.
    Pause { op: u32, n: u64, emitted: u64 },
    /// All workers have finished.
    End,
}

impl Drop for Stop {
    fn drop(self) {
        match self {
            Stop::Held {
                op: _,
                worker: _,
                row: _,
            } => {}
            Stop::Count { op: _, target: _ } => {}
            Stop::Pause {
                op: _,
                n: _,
                emitted: _,
            } => {}
            Stop::End => {}
        }
    }
}

impl Clone for Stop {
    ghost is_clone = { λ a copy. copy ≡ a };

    fn clone(&self) -> Result<Self, AllocError> {
        match self {
            Stop::Held { op, worker, row } => Ok(Stop::Held {
                op: *op,
                worker: *worker,
                row: row.clone()?,
            }),
            Stop::Count { op, target } => Ok(Stop::Count {
                op: *op,
                target: *target,
            }),
            Stop::Pause { op, n, emitted } => Ok(Stop::Pause {
                op: *op,
                n: *n,
                emitted: *emitted,
            }),
            Stop::End => Ok(Stop::End),
        }
    }
}

/// The stops of a run, seen as a list.
pub struct Stops {
    inner: Vec<Stop>,
}

impl Drop for Stops {
    fn drop(self) {
        let Stops { inner: _ } = self;
    }
}

impl Model for Stops {
    ghost use Rattle.std.specs.Prelude.{List};
    ghost use Rattle.amber_meaning.specs.declared.view.Stop.{Stop as OneStop};

    ghost Value = { List OneStop };

    ghost view = { λ a. a.inner.items };
}

impl Stops {
    /// The stops of a `Vec`, in its order.
    pub fn new(inner: Vec<Stop>) -> Self
        ensures { result ≡ inner.items }
    {
        Stops { inner }
    }

    /// The stops as a slice.
    pub fn get(&self) -> &[Stop]
        ensures { result.now ≡ self.now }
    {
        self.inner.as_slice()
    }
}

impl Clone for Stops {
    ghost is_clone = { λ a copy. copy ≡ a };

    fn clone(&self) -> Result<Self, AllocError> {
        Ok(Stops {
            inner: self.inner.clone()?,
        })
    }
}

/// How a worker stands.
#[derive(Clone, Copy)]
pub enum Stand {
    Ready,
    Held,
    Finished,
}

/// What a worker shows by the kind of its operator.
#[derive(Clone, Copy)]
pub enum Extra {
    Nothing,
    /// How many of the records taken were refused.
    Scan { refused: u64 },
    /// How many keys the build side has, and how many rows.
    Join { keys: u64, built: u64 },
    /// How many groups there are.
    Group { groups: u64 },
    /// How many rows were kept.
    Sink { kept: u64 },
}

/// What one worker shows: rows taken, rows of its batches not yet taken, rows emitted, rows produced and not yet
/// emitted, how it stands, and its first pending row.
pub struct WorkerView {
    pub taken: u64,
    pub rest: u64,
    pub out: u64,
    pub pending: u64,
    pub stand: Stand,
    pub next: Option<Row>,
    pub extra: Extra,
}

impl Drop for WorkerView {
    fn drop(self) {
        let WorkerView {
            taken: _,
            rest: _,
            out: _,
            pending: _,
            stand: _,
            next: _,
            extra: _,
        } = self;
    }
}

/// The views of an operator's workers, seen as a list.
pub struct Views {
    inner: Vec<WorkerView>,
}

impl Drop for Views {
    fn drop(self) {
        let Views { inner: _ } = self;
    }
}

impl Model for Views {
    ghost use Rattle.std.specs.Prelude.{List};
    ghost use Rattle.amber_meaning.specs.declared.view.WorkerView.{WorkerView as OneView};

    ghost Value = { List OneView };

    ghost view = { λ a. a.inner.items };
}

impl Views {
    /// The views of a `Vec`, in its order.
    pub fn new(inner: Vec<WorkerView>) -> Self
        ensures { result ≡ inner.items }
    {
        Views { inner }
    }

    /// The views as a slice.
    pub fn get(&self) -> &[WorkerView]
        ensures { result.now ≡ self.now }
    {
        self.inner.as_slice()
    }
}

/// An armed count: how many rows have been counted, and how many it asks for.
#[derive(Clone, Copy)]
pub struct Counted {
    pub counted: u64,
    pub target: u64,
}

/// What an operator shows: a filter's constant, what is armed, and its workers.
pub struct Inspected {
    pub op: u32,
    pub constant: Option<Value>,
    pub pause: Option<u64>,
    pub count: Option<Counted>,
    pub when: Option<Cond>,
    pub workers: Views,
}

impl Drop for Inspected {
    fn drop(self) {
        let Inspected {
            op: _,
            constant: _,
            pause: _,
            count: _,
            when: _,
            workers: _,
        } = self;
    }
}
