//! How a call ended, with the number of each status. Rests on nothing.

ghost use Rattle.std.specs.Prelude.{◌≡◌};
ghost use Rattle.amber_course.specs.Status.{code_of};

/// How a call ended.
#[derive(Clone, Copy, PartialEq, Eq)]
pub enum Status {
    /// All was done and printed.
    Ok,
    /// The words are no form of a call.
    Usage,
    /// The workflow was refused, or the header of a scan's file.
    BadFlow,
    /// The script was refused.
    BadScript,
    /// A file was not there, or could not be read.
    ReadFault,
    /// The log could not be written.
    LogFault,
    /// The output could not be written.
    OutFault,
    /// The log was refused.
    BadLog,
    /// The work went past its limit.
    Long,
    /// A file was too large.
    TooLarge,
    /// Memory ran out.
    NoMemory,
}

impl Status {
    /// The number of the status, 0 to 10, with which the program ends.
    pub fn code(&self) -> u8
        ensures { result ≡ code_of self.now }
    {
        match self {
            Status::Ok => 0,
            Status::Usage => 1,
            Status::BadFlow => 2,
            Status::BadScript => 3,
            Status::ReadFault => 4,
            Status::LogFault => 5,
            Status::OutFault => 6,
            Status::BadLog => 7,
            Status::Long => 8,
            Status::TooLarge => 9,
            Status::NoMemory => 10,
        }
    }
}
