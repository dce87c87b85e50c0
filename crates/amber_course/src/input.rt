//! How a fault of a session's input is reported: as that of a file of the name `input`.
//! Rests on `put_line`.

ghost use Rattle.std.specs.Prelude.{◌≡◌};
ghost use Rattle.amber_io.specs.World.{PutsOnly};
ghost use Rattle.amber_course.specs.Failure.{IsToldAs, error_line_of, status_of};
ghost use Rattle.amber_course.specs.SessionCourse.{failure_of_input};
ghost use Rattle.amber_course.specs.Lines.{line_bytes};
ghost use Rattle.amber_course.specs.Told.{Refuses};

use crate::line::Line;
use crate::refusal::put_line;
use crate::status::Status;
use amber_io::{IoErr, Outside};

/// Why the input of a session is refused.
#[derive(Clone, Copy)]
pub enum InputFault {
    /// It could not be read.
    Unread,
    /// There is more of it than may be.
    Large,
}

impl InputFault {
    /// The status with which the call ends.
    pub fn status(self) -> Status
        ensures { result ≡ status_of (failure_of_input self) }
    {
        match self {
            InputFault::Unread => Status::ReadFault,
            InputFault::Large => Status::TooLarge,
        }
    }

    // Its line.
    fn line(self) -> Line<'static>
        ensures { line_bytes result ≡ error_line_of (failure_of_input self) }
    {
        match self {
            InputFault::Unread => Line::unread("input"),
            InputFault::Large => Line::large("input"),
        }
    }
}

/// Prints the line of a fault of the input and answers the status, without taking memory. A put that fails
/// leaves the status as it is.
pub fn refuse_input<W: Outside>(outside: &mut W, fault: InputFault) -> Status
    ensures refuses { Refuses result (failure_of_input fault)
        (W.world outside.old) (W.world outside.new) }
    ensures told { IsToldAs (failure_of_input fault) result }
    ensures only { PutsOnly (W.world outside.old) (W.world outside.new) }
    ensures held { W.held outside.new ≡ W.held outside.old }
{
    match put_line(outside, &fault.line()) {
        Ok(()) | Err(IoErr::Failed) => fault.status(),
        Err(IoErr::NoMemory) => Status::NoMemory,
    }
}
