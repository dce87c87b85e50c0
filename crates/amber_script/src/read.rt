//! Reads a script, line by line. Rests on `lines`, `lexer` and `commands`.

ghost use Rattle.std.specs.Prelude.{◌≡◌, ◌+◌, ◌∷◌, List, ℕ, IfOk, true};
ghost use Rattle.std.specs.List.{list_all};
ghost use Rattle.amber_log.specs.Fits.{fits_of};
ghost use Rattle.std.specs.Str.Lines.{strip_carriage_return};
ghost use Rattle.amber_script.specs.Answers.{AnswersScript, AnswersWords, ForCommand, LeadsBehind, after};
ghost use Rattle.amber_script.specs.Commands.{is_scripted, read_command};
ghost use Rattle.amber_script.specs.Script.{commands_from, said_by, script_of};
ghost use Rattle.amber_script.specs.Words.{script_words_of};

use crate::commands::read_command;
use crate::error::{ReadErr, ScriptErr, ScriptWhy};
use crate::lexer::{read_texts, read_words};
use crate::lines::{next_line, says_something, without_return};
use crate::script_line::ScriptLine;
use amber_log::{Command, Commands};
use amber_rows::Flow;
use std::alloc::{AllocError, Global};

// The command of a line that says something, or the first reason why it has none.
#[tactic(auto, unfolding(crate::specs::Commands::read_command))]
fn read_said(alloc: Global, line: &[u8], flow: &Flow) -> Result<Command, ReadErr>
    ensures command { AnswersWords result (read_command flow.now (script_words_of line.now)) }
    ensures fits { IfOk result (λ command. fits_of flow.now command ≡ true) }
    ensures scripted { IfOk result (λ command. is_scripted command ≡ true) }
{
    let words = read_words(alloc, line)?.ok_or(ScriptWhy::Word)?;
    let texts = read_texts(alloc, words.as_slice())?.ok_or(ScriptWhy::Word)?;
    read_command(flow, texts.as_slice())
}

/// Reads one line, which comes without its line feed; a carriage return at its end is dropped. The
/// definition `said_by` in `specs/` says what the line means for a workflow.
#[tactic(auto, unfolding(crate::specs::Script::said_by))]
pub fn read_line(alloc: Global, line: &[u8], flow: &Flow) -> Result<ScriptLine, AllocError>
    ensures said { IfOk result
        (λ read. read ≡ said_by flow.now (strip_carriage_return line.now)) }
    ensures fits { IfOk result
        (λ read. ForCommand read (λ command. fits_of flow.now command ≡ true)) }
    ensures scripted { IfOk result
        (λ read. ForCommand read (λ command. is_scripted command ≡ true)) }
{
    let line = without_return(line);
    if !says_something(line) {
        return Ok(ScriptLine::Skipped);
    }
    match read_said(alloc, line, flow) {
        Ok(command) => Ok(ScriptLine::Command(command)),
        Err(ReadErr::Bad(why)) => Ok(ScriptLine::Bad(why)),
        Err(ReadErr::NoMemory) => Err(AllocError),
    }
}

// Adds the command of the line with this number, where it has one.
#[tactic(auto, using(crate::proofs::Leading::reads_command, crate::proofs::Leading::reads_none, crate::proofs::Leading::skips, crate::proofs::Fitting::all_fit_more))]
fn add_line(
    alloc: Global,
    line: &[u8],
    number: u64,
    flow: &Flow,
    commands: &mut Vec<Command>,
) -> Result<(), ScriptErr>
    requires fits { list_all (fits_of flow.now) commands.old.items ≡ true }
    requires scripted { list_all is_scripted commands.old.items ≡ true }
    ensures leads { (more : List (List ℕ)) → LeadsBehind result
        (after commands.old.items
        (commands_from number flow.now (strip_carriage_return line.now ∷ more)))
        (after commands.new.items (commands_from (number + 1) flow.now more)) }
    ensures fits { list_all (fits_of flow.now) commands.new.items ≡ true }
    ensures scripted { list_all is_scripted commands.new.items ≡ true }
{
    match read_line(alloc, line, flow) {
        Ok(ScriptLine::Skipped) => Ok(()),
        Ok(ScriptLine::Command(command)) => {
            commands.push(command).map_err(|_| ScriptErr::NoMemory)
        }
        Ok(ScriptLine::Bad(why)) => Err(ScriptErr::Bad { line: number, why }),
        Err(_) => Err(ScriptErr::NoMemory),
    }
}

/// Reads a script: a command a line. The definition `script_of` in `specs/` says which commands the bytes
/// mean for a workflow, or which is the first bad line and why.
#[tactic(auto, unfolding(crate::specs::Script::script_of), using(crate::proofs::Leading::after_none))]
pub fn read_script(alloc: Global, bytes: &[u8], flow: &Flow) -> Result<Commands, ScriptErr>
    ensures answer { AnswersScript result (script_of bytes.now flow.now) }
    ensures fits { IfOk result (λ commands. list_all (fits_of flow.now) commands ≡ true) }
    ensures scripted { IfOk result (λ commands. list_all is_scripted commands ≡ true) }
{
    let mut commands = Vec::new(alloc);
    let mut number: u64 = 1;
    let mut rest = bytes;
    let mut more = true;
    while more {
        let (line, behind) = next_line(rest);
        add_line(alloc, line, number, flow, &mut commands)?;
        match behind {
            Some(text) => {
                rest = text;
                number += 1;
            }
            None => more = false,
        }
    }
    Ok(Commands::new(commands))
}
