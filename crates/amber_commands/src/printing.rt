//! The call: its words are read, the workflow and the log are loaded and read, and the script of
//! the log is printed. Rests on `amber_course`, `script_of_log` and `report`.

ghost use Rattle.std.specs.Prelude.{◌≡◌, ◌⊎◌, [], ◌∷◌, map, string_bytes, IfErr};
ghost use Rattle.amber_io.specs.World.{LoadsOnly};
ghost use Rattle.amber_commands.specs.Answered.{AnswersCommands, IsAsked, LeadsToScript, NamesFile, OutputOnly, Prepares};
ghost use Rattle.amber_commands.specs.Course.{script_for};

use crate::refusal::{Refusal, report};
use crate::script::script_of_log;
use amber_course::{Failure, Status, load, load_flow, put_output};
use amber_io::Outside;
use amber_rows::Bytes;
use std::alloc::Global;

// How many bytes a log may have.
const MOST_LOG: u64 = 1 << 27;

// The script of the log in a file, for the workflow in another.
fn load_script<W: Outside>(
    alloc: Global,
    workflow: &str,
    log: &str,
    outside: &mut W,
) -> Result<Bytes, Refusal>
    ensures course { LeadsToScript result (script_for workflow.now log.now) (W.world outside.old)
        (W.world outside.new) }
    ensures named { IfErr result (λ refused. NamesFile refused
        (λ file. (file ≡ workflow.now) ⊎ (file ≡ log.now))) }
    ensures only { LoadsOnly (W.world outside.old) (W.world outside.new) }
{
    let flow = load_flow(alloc, workflow, outside)?;
    let bytes = load(alloc, log, MOST_LOG, outside)?;
    script_of_log(alloc, &flow, &bytes)
}

// Puts the script of the log in a file, for the workflow in another.
fn print_script<W: Outside>(
    alloc: Global,
    workflow: &str,
    log: &str,
    outside: &mut W,
) -> Result<(), Refusal>
    ensures prepares { Prepares result (workflow.now ∷ log.now ∷ []) (W.world outside.old)
        (W.world outside.new) }
    ensures named { IfErr result (λ refused. NamesFile refused
        (λ file. (file ≡ workflow.now) ⊎ (file ≡ log.now))) }
    ensures only { OutputOnly (W.world outside.old) (W.world outside.new) }
{
    let text = load_script(alloc, workflow, log, outside)?;
    put_output(outside, text.get())?;
    Ok(())
}

// Does what the words say, up to the line that reports a refusal.
fn print<W: Outside>(alloc: Global, words: &[String], outside: &mut W) -> Result<(), Refusal>
    ensures prepares { Prepares result (map string_bytes words.now) (W.world outside.old)
        (W.world outside.new) }
    ensures named { IfErr result
        (λ refused. NamesFile refused (IsAsked (map string_bytes words.now))) }
    ensures only { OutputOnly (W.world outside.old) (W.world outside.new) }
{
    match words {
        [workflow, log] => print_script(alloc, workflow.as_str(), log.as_str(), outside),
        _ => Err(Refusal::Call(Failure::Usage)),
    }
}

/// Prints the commands of the log in the file LOG, one a line, as a script for the workflow in the
/// file WORKFLOW, by the words `WORKFLOW LOG`. What is torn behind the log's whole items is not
/// read, and a leg to the end has no line. No file is changed.
///
/// The first refusal ends the call: the words; the workflow's file, its size, its text; the log's
/// file, its size, its lines, and then its commands, each of which a script for the workflow has
/// to be able to have. After a refusal other than `OutFault` a line is put that reports it, in pieces
/// and without taking memory.
///
/// # Errors
///
/// `NoMemory` may come at any point, and may then stand in for any other refusal but `OutFault`.
pub fn print_commands<W: Outside>(alloc: Global, words: &[String], outside: &mut W) -> Status
    ensures { AnswersCommands (map string_bytes words.now) result (W.world outside.old)
        (W.world outside.new) }
{
    match print(alloc, words, outside) {
        Ok(()) => Status::Ok,
        Err(refusal) => report(outside, &refusal),
    }
}
