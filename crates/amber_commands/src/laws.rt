//! The law of the script of a log, as the contract of a function without a body.

ghost use Rattle.amber_commands.specs.Laws.{ScriptsReadBack};

/// Where a script for a workflow may have all commands of a log, the script of the log's items is
/// read as these commands. It does nothing; its contract is the law.
pub fn scripts_read_back()
    ensures { ScriptsReadBack }
{}
