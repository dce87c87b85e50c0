//! What a line of a script says.

use crate::error::ScriptWhy;
use amber_log::Command;

/// What a line of a script says.
#[derive(Drop)]
pub enum ScriptLine {
    /// Nothing: it is blank or a comment, and is skipped.
    Skipped,
    /// This command.
    Command(Command),
    /// No command, for this first reason.
    Bad(ScriptWhy),
}
