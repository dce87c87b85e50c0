//! A log's file, read back. Rests on `whole_prefix`, `splitting`, `words` and `log_reading`.

ghost use Rattle.std.specs.Prelude.{◌≡◌, ℕ, IfOk, Ok, Err, option_and_then};
ghost use Rattle.amber_log.specs.ReadAs.{IsReadAs, lines_of};
ghost use Rattle.amber_log.specs.ReadLines.{read_lines, start, step};
ghost use Rattle.amber_log.specs.ReadWords.{parse};
ghost use Rattle.amber_log.specs.declared.log.Log.{Log};
ghost use Rattle.amber_journal.specs.Answered.{GivesLog, IfText, IsBadLineOf, IsUnlessNoMemory};
ghost use Rattle.amber_journal.specs.declared.read.LogErr.TheVariants.{NoMemory, Text};

use crate::log_reading::{finish, start, step};
use crate::splitting::next_line;
use crate::whole_prefix::whole_items;
use crate::words::read_line;
use amber_log::{Items, Log, Reading};
use std::alloc::{AllocError, Global};

/// Why a log's file was not read.
#[derive(Drop)]
pub enum LogErr {
    /// The whole items are no log's text. `line` is the first line that cannot stand there, counted from 1.
    Text { line: u64 },
    /// Memory ran out.
    NoMemory,
}

impl From<AllocError> for LogErr {
    ghost from_gives = { λ _ e. e ≡ NoMemory };

    fn from(_error: AllocError) -> LogErr {
        LogErr::NoMemory
    }
}

/// After the first line, where it is a head.
fn first(alloc: Global, bytes: &[u8]) -> Result<Option<Reading>, AllocError>
    ensures { IfOk result (λ next. next ≡ option_and_then start (parse bytes.now)) }
{
    match read_line(alloc, bytes)? {
        None => Ok(None),
        Some(line) => Ok(start(alloc, line)),
    }
}

/// After one more line, where it may stand there.
fn next(alloc: Global, reading: Reading, bytes: &[u8]) -> Result<Option<Reading>, AllocError>
    ensures { IfOk result (λ next. next ≡ option_and_then (step reading) (parse bytes.now)) }
{
    match read_line(alloc, bytes)? {
        None => Ok(None),
        Some(line) => step(alloc, reading, line),
    }
}

/// The log of all these lines.
#[tactic(auto, unfolding(amber_log::specs::ReadLines::read_lines, amber_log::specs::ReadLines::read_on))]
fn read_lines(alloc: Global, bytes: &[u8]) -> Result<Log, LogErr>
    ensures { GivesLog result (read_lines (lines_of bytes.now)) }
{
    let Some((head, mut rest)) = next_line(bytes) else {
        let items = Items::new(Vec::new(alloc));
        return Ok(Log { batch: 400, items });
    };
    let Some(mut reading) = first(alloc, head)? else {
        return Err(LogErr::Text { line: 1 });
    };
    let mut line = 2;
    while let Some((text, behind)) = next_line(rest) {
        let Some(next) = next(alloc, reading, text)? else {
            return Err(LogErr::Text { line });
        };
        reading = next;
        rest = behind;
        line += 1;
    }
    match finish(reading) {
        Some(log) => Ok(log),
        None => Err(LogErr::Text { line }),
    }
}

/// The log whose text the whole items of a file are. Where not even the first line is whole it is the empty
/// log, with batches of 400 rows. Each result but `NoMemory` comes exactly where its meaning holds.
pub fn read_log(alloc: Global, bytes: &[u8]) -> Result<Log, LogErr>
    ensures found { IfOk result (λ log. IsReadAs bytes.now log) }
    ensures bad { IfText result (λ line. IsBadLineOf bytes.now line) }
    ensures reads { (log : Log) → IsReadAs bytes.now log → IsUnlessNoMemory result (Ok log) }
    ensures refuses { (line : ℕ) → IsBadLineOf bytes.now line
        → IsUnlessNoMemory result (Err (Text line)) }
{
    let whole = whole_items(bytes);
    read_lines(alloc, &bytes[..whole])
}
