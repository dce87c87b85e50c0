//! How a refusal is reported: its line, put piece by piece, and the status; and the output of a call.
//! Rests on `Line` and on `Outside`.

ghost use Rattle.std.specs.Prelude.{◌≡◌, ◌++◌, IsOk, codes};
ghost use Rattle.std.specs.Fmt.{decimal};
ghost use Rattle.amber_io.specs.World.{PutsOnly};
ghost use Rattle.amber_course.specs.Told.{Refuses};
ghost use Rattle.amber_course.specs.Steps.{Lined, Sent};
ghost use Rattle.amber_course.specs.Failure.{IsToldAs};
ghost use Rattle.amber_course.specs.Lines.{line_bytes};

use crate::failure::Failure;
use crate::line::Line;
use crate::status::Status;
use amber_io::{IoErr, Outside};
use itoa::Buffer;

// One piece of a line.
fn put_piece<W: Outside>(outside: &mut W, piece: &[u8]) -> Result<(), IoErr>
    ensures lined { Lined result piece.now (W.world outside.old) (W.world outside.new) }
    ensures only { PutsOnly (W.world outside.old) (W.world outside.new) }
    ensures held { W.held outside.new ≡ W.held outside.old }
{
    outside.put(piece)
}

// The line for a file, or the end of a line: these words, and a text.
fn put_text_line<W: Outside>(outside: &mut W, words: &[u8], text: &str) -> Result<(), IoErr>
    ensures lined { Lined result (words.now ++ (text.now ++ codes "\n"))
        (W.world outside.old) (W.world outside.new) }
    ensures only { PutsOnly (W.world outside.old) (W.world outside.new) }
    ensures held { W.held outside.new ≡ W.held outside.old }
{
    put_piece(outside, words)?;
    put_piece(outside, text.as_bytes())?;
    put_piece(outside, b"\n")
}

/// The line for a workflow, a script or a log: these words, a number and the reason. It takes no memory.
pub fn put_reason_line<W: Outside>(
    outside: &mut W,
    words: &[u8],
    number: u64,
    why: &str,
) -> Result<(), IoErr>
    ensures lined { Lined result
        (words.now ++ (decimal number ++ (codes " " ++ (why.now ++ codes "\n"))))
        (W.world outside.old) (W.world outside.new) }
    ensures only { PutsOnly (W.world outside.old) (W.world outside.new) }
    ensures held { W.held outside.new ≡ W.held outside.old }
{
    let mut buffer = Buffer::new();
    put_piece(outside, words)?;
    put_piece(outside, buffer.format(number).as_bytes())?;
    put_text_line(outside, b" ", why)
}

// A line, piece by piece.
pub(crate) fn put_line<W: Outside>(outside: &mut W, line: &Line<'_>) -> Result<(), IoErr>
    ensures lined { Lined result (line_bytes line.now)
        (W.world outside.old) (W.world outside.new) }
    ensures only { PutsOnly (W.world outside.old) (W.world outside.new) }
    ensures held { W.held outside.new ≡ W.held outside.old }
    ensures none { line.now ≡ Line.Nothing → IsOk result }
{
    match line {
        Line::Nothing => Ok(()),
        Line::Whole(whole) => put_piece(outside, whole.as_bytes()),
        Line::Named { words, name } => put_text_line(outside, words.as_bytes(), name),
        Line::Reason { words, number, why } => {
            put_reason_line(outside, words.as_bytes(), *number, why)
        }
    }
}

/// Prints the line of a failure and answers the status. A put that fails leaves the status as it is.
pub fn refuse<W: Outside>(outside: &mut W, failure: &Failure) -> Status
    ensures refuses { Refuses result failure.now
        (W.world outside.old) (W.world outside.new) }
    ensures told { IsToldAs failure.now result }
    ensures only { PutsOnly (W.world outside.old) (W.world outside.new) }
    ensures held { W.held outside.new ≡ W.held outside.old }
{
    match put_line(outside, &Line::of(failure)) {
        Ok(()) | Err(IoErr::Failed) => failure.status(),
        Err(IoErr::NoMemory) => Status::NoMemory,
    }
}

/// Puts the whole output in one call.
pub fn put_output<W: Outside>(outside: &mut W, text: &[u8]) -> Result<(), Failure>
    ensures sent { Sent result text.now (W.world outside.old) (W.world outside.new) }
    ensures only { PutsOnly (W.world outside.old) (W.world outside.new) }
    ensures held { W.held outside.new ≡ W.held outside.old }
{
    match outside.put(text) {
        Ok(()) => Ok(()),
        Err(IoErr::Failed) => Err(Failure::OutFault),
        Err(IoErr::NoMemory) => Err(Failure::NoMemory),
    }
}
