//! Why a call prints no script, and how that is reported. Rests on `Failure`, and on
//! `put_reason_line` of `amber_course`.

ghost use Rattle.std.specs.Prelude.{◌≡◌};
ghost use Rattle.amber_io.specs.World.{PutsOnly};
ghost use Rattle.amber_course.specs.Told.{Reports};
ghost use Rattle.amber_commands.specs.Refusal.{TellsRefusal, refusal_line, refusal_status};
ghost use Rattle.amber_commands.specs.declared.refusal.Refusal.TheVariants.{Call};
ghost use Rattle.amber_course.specs.declared.failure.Failure.TheVariants as failure;
ghost use Rattle.amber_course.specs.declared.status.Status.TheVariants as status;

use amber_course::{Failure, LogWhy, Status, put_reason_line, refuse};
use amber_io::{IoErr, Outside};
use std::alloc::AllocError;

/// Why a call prints no script.
#[derive(Drop)]
pub enum Refusal {
    /// As any call may end early.
    Call(Failure),
    /// The log was refused: the number of a line, from 1, and the reason.
    Log { line: u64, why: LogWhy },
}

impl From<Failure> for Refusal {
    ghost from_gives = { λ failure refusal. refusal ≡ Call failure };

    fn from(failure: Failure) -> Refusal {
        Refusal::Call(failure)
    }
}

impl From<AllocError> for Refusal {
    ghost from_gives = { λ _ refusal. refusal ≡ Call failure.NoMemory };

    fn from(_error: AllocError) -> Refusal {
        Refusal::Call(Failure::NoMemory)
    }
}

// Prints the line of a log's refusal and answers the status. It takes no memory.
fn refuse_log<W: Outside>(outside: &mut W, line: u64, why: LogWhy) -> Status
    ensures reports { Reports result (refusal_line (Refusal.Log line why)) status.BadLog
        (W.world outside.old) (W.world outside.new) }
    ensures told { TellsRefusal (Refusal.Log line why) result }
    ensures only { PutsOnly (W.world outside.old) (W.world outside.new) }
{
    match put_reason_line(outside, b"error 7 log ", line, why.word()) {
        Ok(()) => Status::BadLog,
        Err(IoErr::Failed) => Status::BadLog,
        Err(IoErr::NoMemory) => Status::NoMemory,
    }
}

/// Prints the line of a refusal and answers the status. A put that fails leaves the status as it
/// is.
pub fn report<W: Outside>(outside: &mut W, refusal: &Refusal) -> Status
    ensures reports { Reports result (refusal_line refusal.now) (refusal_status refusal.now)
        (W.world outside.old) (W.world outside.new) }
    ensures told { TellsRefusal refusal.now result }
    ensures only { PutsOnly (W.world outside.old) (W.world outside.new) }
{
    match refusal {
        Refusal::Call(failure) => refuse(outside, failure),
        Refusal::Log { line, why } => refuse_log(outside, *line, *why),
    }
}
