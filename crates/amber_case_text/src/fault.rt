//! Why a file of cases is broken.

ghost use Rattle.std.specs.Prelude.{◌≡◌};
ghost use Rattle.amber_case_text.specs.declared.fault.Why.TheVariants.{NoMemory};

use std::alloc::{AllocError, AllocFailed};
use std::fmt;

/// Why a line of a file of cases is refused.
#[derive(Clone, Copy)]
pub enum Why {
    /// Its first word begins no kind of line.
    Word,
    /// It belongs to a case, and no case has begun.
    NoCase,
    /// It is a line of a text, and no text has begun.
    NoText,
    /// A name is missing.
    NoName,
    /// An earlier case, file or shared text has the name.
    Repeated,
    /// No shared text has the name.
    Unknown,
    /// No file that stands above it in its case has the name.
    NoFile,
    /// It asks for fronts a second time, or for calls that fail beside fronts.
    Fronts,
    /// A number is missing, has another form or is out of its range.
    Number,
    /// A backslash begins no escape, or a word is no text.
    Escape,
    /// It stands only in a text that is expected.
    NotExpected,
    /// The case that ends above it has no words.
    NoWords,
    /// Memory ran out.
    NoMemory,
}

impl fmt::Display for Why {
    fn fmt<W: fmt::Write>(&self, f: &mut fmt::Formatter<W>) -> fmt::Result {
        f.write_str(match self {
            Why::Word => "no line begins with this word",
            Why::NoCase => "no case has begun",
            Why::NoText => "no text has begun",
            Why::NoName => "a name is missing",
            Why::Repeated => "the name stands twice",
            Why::Unknown => "no shared text has this name",
            Why::NoFile => "no file above has this name",
            Why::Fronts => "a case has fronts of one file, and then no calls that fail",
            Why::Number => "a number is missing or wrong",
            Why::Escape => "there is no such escape",
            Why::NotExpected => "only an expected text has such a line",
            Why::NoWords => "the case above has no words",
            Why::NoMemory => "out of memory",
        })
    }
}

impl From<AllocError> for Why {
    ghost from_gives = { λ _ why. why ≡ NoMemory };

    fn from(_error: AllocError) -> Why {
        Why::NoMemory
    }
}

impl<T: Drop> From<AllocFailed<T>> for Why {
    ghost from_gives = { λ _ why. why ≡ NoMemory };

    fn from(_error: AllocFailed<T>) -> Why {
        Why::NoMemory
    }
}

/// Adds one more, where memory is left for it.
pub(crate) fn push<T: Drop>(all: &mut Vec<T>, item: T) -> Result<(), Why> {
    all.push(item)?;
    Ok(())
}

/// The first line that is refused, counted from 1, and why.
#[derive(Clone, Copy)]
pub struct Broken {
    pub line: u64,
    pub why: Why,
}

impl fmt::Display for Broken {
    fn fmt<W: fmt::Write>(&self, f: &mut fmt::Formatter<W>) -> fmt::Result {
        let line = self.line;
        let why = self.why;
        write!(f, "line {line}: {why}")
    }
}
