//! The lines of a log's text. Rests on `Command`, `Entry` and `Close`.

use crate::command::Command;
use crate::entry::Entry;
use crate::leg::Close;

/// A line of a log's text.
#[derive(Drop)]
pub enum Line {
    /// The first line: the batch size, from 1 to 65,536.
    Head(u32),
    /// A command.
    Do(Command),
    /// Opens a leg that goes on until something stops the workers.
    Run,
    /// Opens a leg that goes on to the end of the workflow.
    End,
    /// Begins the part of the worker with this number.
    Worker(u32),
    /// A step of the worker whose part it is.
    Entry(Entry),
    /// Ends a leg.
    Close(Close),
}
