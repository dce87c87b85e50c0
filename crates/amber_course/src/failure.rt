//! Why a call ended early, with what its error line says.
//! Rests on `FlowWhy`, `ScriptWhy` and `Status`.

ghost use Rattle.std.specs.Prelude.{◌≡◌};
ghost use Rattle.amber_course.specs.Failure.{log_reason_word, reason_word, status_of};
ghost use Rattle.amber_course.specs.declared.failure.Failure.TheVariants.{NoMemory};

use crate::status::Status;
use amber_flow::FlowWhy;
use amber_rows::Text;
use amber_script::ScriptWhy;
use std::alloc::{AllocError, AllocFailed};

/// Why a workflow is refused.
#[derive(Clone, Copy)]
pub enum Reason {
    /// Its text is no workflow.
    Flow(FlowWhy),
    /// The file of a scan does not begin with the names of the scan's columns.
    Header,
    /// The log is the file of a scan.
    LogName,
}

/// Why a log is refused.
#[derive(Clone, Copy)]
pub enum LogWhy {
    /// The line is none that may stand there in a log.
    Text,
    /// The line may not stand there in a log of this workflow over these files.
    Illegal,
    /// The line begins an item for another command than the script's next.
    Command,
}

/// Why a call ended early, with what its error line says.
#[derive(Drop)]
pub enum Failure {
    /// The words are no form of a call.
    Usage,
    /// The workflow was refused: the number of an operator, 0 for the whole, and the reason.
    BadFlow { op: u32, why: Reason },
    /// The script was refused: the number of a line, from 1, and the reason.
    BadScript { line: u64, why: ScriptWhy },
    /// The file of this name was not there, or could not be read.
    ReadFault { name: Text },
    /// The log could not be written.
    LogFault,
    /// The output could not be written.
    OutFault,
    /// A log that was to be read was refused: the number of a line, from 1, and the reason.
    BadLog { line: u64, why: LogWhy },
    /// All operators together give more rows than a query may.
    Long,
    /// The file of this name is too large, or passes what the files of all scans may have together.
    TooLarge { name: Text },
    /// Memory ran out.
    NoMemory,
}

impl Failure {
    /// The status with which the call ends.
    pub fn status(&self) -> Status
        ensures { result ≡ status_of self.now }
    {
        match self {
            Failure::Usage => Status::Usage,
            Failure::BadFlow { .. } => Status::BadFlow,
            Failure::BadScript { .. } => Status::BadScript,
            Failure::ReadFault { .. } => Status::ReadFault,
            Failure::LogFault => Status::LogFault,
            Failure::OutFault => Status::OutFault,
            Failure::BadLog { .. } => Status::BadLog,
            Failure::Long => Status::Long,
            Failure::TooLarge { .. } => Status::TooLarge,
            Failure::NoMemory => Status::NoMemory,
        }
    }
}

impl From<AllocError> for Failure {
    ghost from_gives = { λ _ failure. failure ≡ NoMemory };

    fn from(_error: AllocError) -> Failure {
        Failure::NoMemory
    }
}

impl<T: Drop> From<AllocFailed<T>> for Failure {
    ghost from_gives = { λ _ failure. failure ≡ NoMemory };

    fn from(_error: AllocFailed<T>) -> Failure {
        Failure::NoMemory
    }
}

impl LogWhy {
    /// The word for the reason in an error line.
    pub fn word(self) -> &'static str
        ensures { result.now ≡ log_reason_word self }
    {
        match self {
            LogWhy::Text => "Text",
            LogWhy::Illegal => "Illegal",
            LogWhy::Command => "Command",
        }
    }
}

impl Reason {
    /// The word for the reason in an error line.
    pub fn word(&self) -> &'static str
        ensures { result.now ≡ reason_word self.now }
    {
        match self {
            Reason::Flow(why) => why.word(),
            Reason::Header => "Header",
            Reason::LogName => "LogName",
        }
    }
}
