//! Why bytes are no workflow, with the word of each reason.

ghost use Rattle.std.specs.Prelude.{◌≡◌, Some};
ghost use Rattle.amber_flow.specs.Answers.{failure_at};
ghost use Rattle.amber_flow.specs.Words.{flow_reason_word};
ghost use Rattle.amber_flow.specs.declared.error.FlowErr.TheVariants as flow_err;
ghost use Rattle.amber_flow.specs.declared.error.ReadErr.TheVariants as read_err;

use std::alloc::{AllocError, AllocFailed};
use std::fmt;
use thiserror::Error;

/// Why bytes are no workflow.
#[derive(Clone, Copy, Debug)]
pub enum FlowWhy {
    /// The bytes are no JSON.
    Json,
    /// A value is absent, or has another form than it must.
    Shape,
    /// There are too few or too many operators, or too many workers.
    Count,
    /// An id is not a letter and up to 31 letters, digits and `_`.
    Name,
    /// An id or a column's name stands twice.
    Duplicate,
    /// There is no such kind of operator.
    Kind,
    /// The number of workers is not one that the operator may have.
    Workers,
    /// An input is no earlier operator.
    Forward,
    /// A column is not there.
    Column,
    /// A constant is not of its column's kind.
    Mismatch,
    /// An operator gives no column or too many.
    Wide,
    /// A sink is not the last operator, or the last operator is no sink.
    SinkPlace,
    /// An operator other than the sink is not read exactly once.
    Readers,
}

impl FlowWhy {
    /// The reason's word, as error lines have it.
    pub fn word(self) -> &'static str
        ensures { result.now ≡ flow_reason_word self }
    {
        match self {
            FlowWhy::Json => "Json",
            FlowWhy::Shape => "Shape",
            FlowWhy::Count => "Count",
            FlowWhy::Name => "Name",
            FlowWhy::Duplicate => "Duplicate",
            FlowWhy::Kind => "Kind",
            FlowWhy::Workers => "Workers",
            FlowWhy::Forward => "Forward",
            FlowWhy::Column => "Column",
            FlowWhy::Mismatch => "Mismatch",
            FlowWhy::Wide => "Wide",
            FlowWhy::SinkPlace => "SinkPlace",
            FlowWhy::Readers => "Readers",
        }
    }
}

impl fmt::Display for FlowWhy {
    ghost output = { λ why. Some (flow_reason_word why) };

    fn fmt<W: fmt::Write>(&self, f: &mut fmt::Formatter<W>) -> fmt::Result {
        f.write_str(self.word())
    }
}

/// Why no workflow was read.
#[derive(Debug, Drop, Error)]
pub enum FlowErr {
    /// The bytes are no workflow. `op` is the number of the operator at fault, from 1, or 0 where the
    /// whole is at fault.
    #[error("operator {op}: {why}")]
    Bad { op: u32, why: FlowWhy },
    /// Memory ran out.
    #[error("out of memory")]
    NoMemory,
}

impl<T: Drop> From<AllocFailed<T>> for FlowErr {
    ghost from_gives = { λ _ failure. failure ≡ flow_err.NoMemory };

    fn from(_error: AllocFailed<T>) -> FlowErr {
        FlowErr::NoMemory
    }
}

/// The first reason why bytes are no workflow, and the operator at fault, or 0.
#[derive(Clone, Copy)]
pub struct Fault {
    pub op: u32,
    pub why: FlowWhy,
}

impl From<Fault> for FlowErr {
    ghost from_gives = { λ fault failure. failure ≡ flow_err.Bad fault.op fault.why };

    fn from(fault: Fault) -> FlowErr {
        FlowErr::Bad {
            op: fault.op,
            why: fault.why,
        }
    }
}

/// Why a part of a workflow was not read.
#[derive(Clone, Copy)]
pub enum ReadErr {
    /// It is no such part.
    Bad(FlowWhy),
    /// Memory ran out.
    NoMemory,
}

impl ReadErr {
    /// The failure of the whole, where the part is the operator with this number, or, with 0, the
    /// whole.
    pub fn at(self, op: u32) -> FlowErr
        ensures { result ≡ failure_at op self }
    {
        match self {
            ReadErr::Bad(why) => FlowErr::Bad { op, why },
            ReadErr::NoMemory => FlowErr::NoMemory,
        }
    }
}

impl From<FlowWhy> for ReadErr {
    ghost from_gives = { λ why failure. failure ≡ read_err.Bad why };

    fn from(why: FlowWhy) -> ReadErr {
        ReadErr::Bad(why)
    }
}

impl From<AllocError> for ReadErr {
    ghost from_gives = { λ _ failure. failure ≡ read_err.NoMemory };

    fn from(_error: AllocError) -> ReadErr {
        ReadErr::NoMemory
    }
}

impl<T: Drop> From<AllocFailed<T>> for ReadErr {
    ghost from_gives = { λ _ failure. failure ≡ read_err.NoMemory };

    fn from(_error: AllocFailed<T>) -> ReadErr {
        ReadErr::NoMemory
    }
}
