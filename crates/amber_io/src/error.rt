//! Why a call of a folder or a sink failed.

ghost use Rattle.std.specs.Prelude.{Some};
ghost use Rattle.amber_io.specs.ErrorText.{error_text};

use std::error::Error;
use std::fmt;

/// Why a call of a folder or a sink did not do its work.
#[derive(Clone, Copy, Debug, PartialEq, Eq)]
pub enum IoErr {
    /// The outside refused, or the file is not there.
    Failed,
    /// Memory ran out before anything was done.
    NoMemory,
}

impl fmt::Display for IoErr {
    ghost output = { λ error. Some (error_text error) };

    fn fmt<W: fmt::Write>(&self, f: &mut fmt::Formatter<W>) -> fmt::Result {
        match self {
            IoErr::Failed => write!(f, "the folder or the sink failed"),
            IoErr::NoMemory => write!(f, "out of memory"),
        }
    }
}

impl Error for IoErr {}
