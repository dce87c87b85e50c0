//! Why a script is refused, and why its words were not read.

ghost use Rattle.std.specs.Prelude.{◌≡◌, Some, codes};
ghost use Rattle.amber_script.specs.Reasons.{script_reason_word};
ghost use Rattle.amber_script.specs.declared.error.ReadErr.TheVariants as read_err;

use std::alloc::AllocError;
use std::fmt;
use thiserror::Error;

/// Why a line is no command, in the order in which the reasons are looked for.
#[derive(Clone, Copy, Debug, PartialEq, Eq)]
pub enum ScriptWhy {
    /// It is not UTF-8, a quote or a backslash stands wrong, or its words are no command.
    Word,
    /// There is no operator with this id.
    Operator,
    /// The operator is not of a kind that takes the command.
    Kind,
    /// A number is not written as it must be, or is out of range.
    Number,
    /// The operator has no column of this name.
    Column,
    /// The constant is not of its column's kind.
    Mismatch,
    /// The operator has no worker of this number.
    Worker,
}

impl ScriptWhy {
    /// The reason's word, as error lines have it.
    pub fn word(self) -> &'static str
        ensures { result.now ≡ script_reason_word self }
    {
        match self {
            ScriptWhy::Word => "Word",
            ScriptWhy::Operator => "Operator",
            ScriptWhy::Kind => "Kind",
            ScriptWhy::Number => "Number",
            ScriptWhy::Column => "Column",
            ScriptWhy::Mismatch => "Mismatch",
            ScriptWhy::Worker => "Worker",
        }
    }
}

impl fmt::Display for ScriptWhy {
    ghost output = { λ why. Some (script_reason_word why) };

    fn fmt<W: fmt::Write>(&self, f: &mut fmt::Formatter<W>) -> fmt::Result {
        f.write_str(self.word())
    }
}

/// Why no script was read.
#[derive(Debug, Drop, Error)]
pub enum ScriptErr {
    /// The first bad line, from 1, and its first reason.
    #[error("line {line}: {why}")]
    Bad { line: u64, why: ScriptWhy },
    /// Memory ran out.
    #[error("out of memory")]
    NoMemory,
}

/// Why words were not read: they are wrong, or memory ran out.
#[derive(Clone, Copy)]
pub(crate) enum ReadErr {
    Bad(ScriptWhy),
    NoMemory,
}

impl From<ScriptWhy> for ReadErr {
    ghost from_gives = { λ why e. e ≡ read_err.Bad why };

    fn from(why: ScriptWhy) -> ReadErr {
        ReadErr::Bad(why)
    }
}

impl From<AllocError> for ReadErr {
    ghost from_gives = { λ _ e. e ≡ read_err.NoMemory };

    fn from(_error: AllocError) -> ReadErr {
        ReadErr::NoMemory
    }
}
