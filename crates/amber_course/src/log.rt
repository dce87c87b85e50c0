//! The log in a file: of its bytes the whole items, and what is torn behind them is not read.
//! Rests on `load` and on `read_log`.

ghost use Rattle.std.specs.Prelude.{◌≡◌, ◌<◌, ◌≤◌, ◌^◌, length, IfErr, IfOk};
ghost use Rattle.std.specs.List.{flat_map};
ghost use Rattle.amber_io.specs.World.{LoadsOnly};
ghost use Rattle.amber_log.specs.Grammar.{IsLog};
ghost use Rattle.amber_log.specs.LogText.{item_lines};
ghost use Rattle.amber_log.specs.ReadAs.{read_of};
ghost use Rattle.amber_course.specs.Course.{log_in, log_or_line};
ghost use Rattle.amber_course.specs.Steps.{Follows, Judges, Names};

use crate::failure::{Failure, LogWhy};
use crate::loading::load;
use amber_io::Outside;
use amber_journal::{LogErr, read_log};
use amber_log::Log;
use amber_rows::Bytes;
use std::alloc::Global;

// How many bytes a log may have.
const MOST_LOG: u64 = 1 << 27;

/// The log that the whole items of these bytes are, of which each line is a byte long at least.
pub fn log_of(alloc: Global, bytes: &Bytes) -> Result<Log, Failure>
    ensures read { Judges result (log_or_line (read_of bytes.now)) }
    ensures text { IfOk result IsLog }
    ensures few { IfOk result
        (λ log. length (flat_map item_lines log.items) ≤ length bytes.now) }
{
    match read_log(alloc, bytes.get()) {
        Ok(log) => Ok(log),
        Err(LogErr::Text { line }) => Err(Failure::BadLog {
            line,
            why: LogWhy::Text,
        }),
        Err(LogErr::NoMemory) => Err(Failure::NoMemory),
    }
}

/// The log that the whole items of a file are, which has at most 2^27 bytes.
pub fn load_log<W: Outside>(alloc: Global, name: &str, outside: &mut W) -> Result<Log, Failure>
    ensures course { Follows result (log_in name.now) (W.world outside.old)
        (W.world outside.new) }
    ensures text { IfOk result IsLog }
    ensures few { IfOk result (λ log. length (flat_map item_lines log.items) < 2 ^ 32) }
    ensures named { IfErr result (λ failure. Names failure (λ file. file ≡ name.now)) }
    ensures only { LoadsOnly (W.world outside.old) (W.world outside.new) }
    ensures held { W.held outside.new ≡ W.held outside.old }
{
    let bytes = load(alloc, name, MOST_LOG, outside)?;
    log_of(alloc, &bytes)
}
