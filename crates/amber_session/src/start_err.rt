//! Why a session was not begun, as its caller is told. Rests on `Failure` and on `error_line`.

ghost use Rattle.std.specs.Prelude.{◌≡◌, IfOk, string_bytes};
ghost use Rattle.amber_course.specs.Failure.{error_line_of};
ghost use Rattle.amber_session.specs.Told.{IsOutOfMemory, IsToldBy};

use amber_course::{Failure, Status, error_line};
use std::alloc::{AllocError, Global};

/// Why a session was not begun.
#[derive(Drop)]
pub struct StartErr {
    /// The status that tells it.
    pub status: Status,
    /// The error line, with its line feed. It is empty where memory ran out.
    pub line: String,
}

// The error line of a failure.
fn line_of(alloc: Global, failure: &Failure) -> Result<String, AllocError>
    ensures { IfOk result (λ line. string_bytes line ≡ error_line_of failure.now) }
{
    let line = error_line(alloc, failure)?;
    String::from_str(alloc, line.get())
}

impl StartErr {
    // Memory ran out, for the line too.
    fn out_of_memory(alloc: Global) -> StartErr
        ensures { IsOutOfMemory result }
    {
        StartErr {
            status: Status::NoMemory,
            line: String::new(alloc),
        }
    }

    /// Tells a failure by its status and its error line. Where memory runs out at that, that alone is told.
    pub(crate) fn of(alloc: Global, failure: &Failure) -> StartErr
        ensures { IsToldBy failure.now result }
    {
        if let Failure::NoMemory = failure {
            return StartErr::out_of_memory(alloc);
        }
        match line_of(alloc, failure) {
            Ok(line) => StartErr {
                status: failure.status(),
                line,
            },
            Err(_) => StartErr::out_of_memory(alloc),
        }
    }
}
