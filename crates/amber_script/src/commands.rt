//! The command that a line's words mean. Rests on `operators`, `columns` and `numbers`; gives `Command` of
//! `amber_log`.

ghost use Rattle.std.specs.Prelude.{◌≡◌, IfOk, true};
ghost use Rattle.amber_rows.specs.Lists.{nth};
ghost use Rattle.amber_log.specs.Fits.{fits_at, fits_of};
ghost use Rattle.amber_log.specs.declared.effect.Argument.TheVariants as argument;
ghost use Rattle.amber_script.specs.Answers.{AnswersWords};
ghost use Rattle.amber_script.specs.Commands.{break_by, break_said, command_by, command_said, operator_and_condition, operator_and_constant, operator_and_worker, is_scripted, nothing_behind, of_two, operator_behind, operator_and_rows};

use crate::columns::{comparison_of, read_constant};
use crate::error::{ReadErr, ScriptWhy};
use crate::numbers::read_number;
use crate::operators::{find_condition, find_operator, find_source, find_worker, settable_kind};
use amber_log::Command;
use amber_rows::{Cond, Flow, Text, Value};

// The most rows that a command may ask for.
const MOST_ROWS: u64 = 1 << 40;

// No word.
fn nothing(words: &[Text]) -> Result<(), ScriptWhy>
    ensures { result ≡ nothing_behind words.now }
{
    match words {
        [] => Ok(()),
        _ => Err(ScriptWhy::Word),
    }
}

// An operator alone.
fn operator(flow: &Flow, words: &[Text]) -> Result<u32, ScriptWhy>
    ensures operator { result ≡ operator_behind flow.now words.now }
    ensures fits { IfOk result (λ op. fits_at (nth flow.now op) argument.Nothing ≡ true) }
{
    match words {
        [id] => find_operator(flow, id.get()),
        _ => Err(ScriptWhy::Word),
    }
}

fn operator_and_rows(flow: &Flow, id: &str, word: &str) -> Result<(u32, u64), ScriptWhy>
    ensures said { result ≡ operator_and_rows flow.now id.now word.now }
    ensures fits { IfOk result (λ said.
        fits_at (nth flow.now said.0) (argument.Rows said.1) ≡ true) }
{
    let op = find_source(flow, id)?;
    let n = read_number(word, MOST_ROWS).ok_or(ScriptWhy::Number)?;
    Ok((op, n))
}

// An operator that emits rows, and a number of rows.
fn rows(flow: &Flow, words: &[Text]) -> Result<(u32, u64), ScriptWhy>
    ensures said { result ≡ of_two (operator_and_rows flow.now) words.now }
    ensures fits { IfOk result (λ said.
        fits_at (nth flow.now said.0) (argument.Rows said.1) ≡ true) }
{
    match words {
        [id, word] => operator_and_rows(flow, id.get(), word.get()),
        _ => Err(ScriptWhy::Word),
    }
}

#[tactic(auto, using(crate::proofs::Fitting::is_taken))]
fn operator_and_constant(flow: &Flow, id: &str, word: &Text) -> Result<(u32, Value), ReadErr>
    ensures said { AnswersWords result (operator_and_constant flow.now id.now word.now) }
    ensures fits { IfOk result (λ said.
        fits_at (nth flow.now said.0) (argument.Constant said.1) ≡ true) }
{
    let op = find_operator(flow, id)?;
    let kind = settable_kind(flow, op).ok_or(ScriptWhy::Kind)?;
    let value = read_constant(kind, word)?;
    Ok((op, value))
}

// A filter, and another constant for it.
fn constant(flow: &Flow, words: &[Text]) -> Result<(u32, Value), ReadErr>
    ensures said { AnswersWords result (of_two (operator_and_constant flow.now) words.now) }
    ensures fits { IfOk result (λ said.
        fits_at (nth flow.now said.0) (argument.Constant said.1) ≡ true) }
{
    match words {
        [id, word] => operator_and_constant(flow, id.get(), word),
        _ => Err(ScriptWhy::Word.into()),
    }
}

fn operator_and_worker(flow: &Flow, id: &str, word: &str) -> Result<(u32, u32), ScriptWhy>
    ensures said { result ≡ operator_and_worker flow.now id.now word.now }
    ensures fits { IfOk result (λ said.
        fits_at (nth flow.now said.0) (argument.Worker said.1) ≡ true) }
{
    let op = find_operator(flow, id)?;
    let worker = find_worker(flow, op, word)?;
    Ok((op, worker))
}

// An operator, and one of its workers.
fn worker(flow: &Flow, words: &[Text]) -> Result<(u32, u32), ScriptWhy>
    ensures said { result ≡ of_two (operator_and_worker flow.now) words.now }
    ensures fits { IfOk result (λ said.
        fits_at (nth flow.now said.0) (argument.Worker said.1) ≡ true) }
{
    match words {
        [id, word] => operator_and_worker(flow, id.get(), word.get()),
        _ => Err(ScriptWhy::Word),
    }
}

// An operator that emits rows, and a condition on one of its columns.
#[tactic(auto, using(crate::proofs::Fitting::is_tested))]
fn condition(flow: &Flow, words: &[Text]) -> Result<(u32, Cond), ReadErr>
    ensures said { AnswersWords result (operator_and_condition flow.now words.now) }
    ensures fits { IfOk result (λ said.
        fits_at (nth flow.now said.0) (argument.Condition said.1) ≡ true) }
{
    let [id, name, sign, word] = words else {
        return Err(ScriptWhy::Word.into());
    };
    let comparison = comparison_of(sign.get()).ok_or(ScriptWhy::Word)?;
    let op = find_source(flow, id.get())?;
    let cond = find_condition(flow, op, name.get(), comparison, word)?;
    Ok((op, cond))
}

// The command of `break`, this word and those after it.
#[tactic(auto, unfolding(crate::specs::Commands::break_by, amber_log::specs::Fits::fits_of))]
fn break_by(flow: &Flow, stop: &str, words: &[Text]) -> Result<Command, ReadErr>
    ensures command { AnswersWords result (break_by flow.now stop.now words.now) }
    ensures fits { IfOk result (λ command. fits_of flow.now command ≡ true) }
    ensures scripted { IfOk result (λ command. is_scripted command ≡ true) }
{
    match stop {
        "count" => Ok(rows(flow, words).map(|(op, n)| Command::Count { op, n })?),
        "when" => condition(flow, words).map(|(op, cond)| Command::When { op, cond }),
        _ => Err(ScriptWhy::Word.into()),
    }
}

// The command of `break` and these words.
fn break_said(flow: &Flow, words: &[Text]) -> Result<Command, ReadErr>
    ensures command { AnswersWords result (break_said flow.now words.now) }
    ensures fits { IfOk result (λ command. fits_of flow.now command ≡ true) }
    ensures scripted { IfOk result (λ command. is_scripted command ≡ true) }
{
    match words {
        [stop, words @ ..] => break_by(flow, stop.get(), words),
        [] => Err(ScriptWhy::Word.into()),
    }
}

// The command of this word and those after it.
#[tactic(auto, unfolding(crate::specs::Commands::command_by, amber_log::specs::Fits::fits_of))]
fn command_by(flow: &Flow, name: &str, words: &[Text]) -> Result<Command, ReadErr>
    ensures command { AnswersWords result (command_by flow.now name.now words.now) }
    ensures fits { IfOk result (λ command. fits_of flow.now command ≡ true) }
    ensures scripted { IfOk result (λ command. is_scripted command ≡ true) }
{
    match name {
        "run" => Ok(nothing(words).map(|()| Command::Run)?),
        "pause" => Ok(rows(flow, words).map(|(op, n)| Command::Pause { op, n })?),
        "break" => break_said(flow, words),
        "clear" => Ok(operator(flow, words).map(|op| Command::Clear { op })?),
        "set" => constant(flow, words).map(|(op, value)| Command::Set { op, value }),
        "drop" => Ok(worker(flow, words).map(|(op, worker)| Command::Drop { op, worker })?),
        "inspect" => Ok(operator(flow, words).map(|op| Command::Inspect { op })?),
        "lose" => Ok(worker(flow, words).map(|(op, worker)| Command::Lose { op, worker })?),
        _ => Err(ScriptWhy::Word.into()),
    }
}

/// The command of these words, or the first reason why they mean none.
pub fn read_command(flow: &Flow, words: &[Text]) -> Result<Command, ReadErr>
    ensures command { AnswersWords result (command_said flow.now words.now) }
    ensures fits { IfOk result (λ command. fits_of flow.now command ≡ true) }
    ensures scripted { IfOk result (λ command. is_scripted command ≡ true) }
{
    match words {
        [name, words @ ..] => command_by(flow, name.get(), words),
        [] => Err(ScriptWhy::Word.into()),
    }
}
