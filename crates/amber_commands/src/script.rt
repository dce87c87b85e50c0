//! The script of a log's items. Rests on `push_script_line` and on `unfit_line`.

ghost use Rattle.std.specs.Prelude.{◌≡◌, ◌++◌, ◌<◌, ◌≤◌, ◌^◌, IfOk, OnOk, length};
ghost use Rattle.std.specs.List.{flat_map};
ghost use Rattle.amber_log.specs.LogText.{item_lines};
ghost use Rattle.amber_log.specs.ReadAs.{read_of};
ghost use Rattle.amber_report.specs.Scripts.{script_line};
ghost use Rattle.amber_commands.specs.Answered.{Decides};
ghost use Rattle.amber_commands.specs.Commands.{commands_in, commands_text};
ghost use Rattle.amber_course.specs.Course.{most_log};
ghost use Rattle.amber_commands.specs.Course.{log_or_refusal, script_of_items, script_of_log};

use crate::fitting::unfit_line;
use crate::refusal::Refusal;
use amber_course::{Failure, LogWhy};
use amber_journal::{LogErr, read_log};
use amber_log::{Command, Item, Log};
use amber_report::push_script_line;
use amber_rows::{Bytes, Flow};
use std::alloc::{AllocError, Global};

// Adds the line of an item's command. A leg to the end has none: the end of a script runs to it.
fn push_item(text: &mut Vec<u8>, flow: &Flow, item: &Item) -> Result<(), AllocError>
    ensures { OnOk result (text.new.items
        ≡ text.old.items ++ flat_map (script_line flow.now) (commands_in item.now)) }
{
    match item {
        Item::Do(command) => push_script_line(text, flow, command),
        Item::Run(_) => push_script_line(text, flow, &Command::Run),
        Item::End(_) => Ok(()),
    }
}

// The script of a log's items.
#[tactic(auto, unfolding(crate::specs::Commands::commands_text))]
fn commands_text(alloc: Global, flow: &Flow, items: &[Item]) -> Result<Bytes, AllocError>
    ensures { IfOk result (λ text. text ≡ commands_text flow.now items.now) }
{
    let mut text = Vec::new(alloc);
    for item in items {
        push_item(&mut text, flow, item)?;
    }
    Ok(Bytes::new(text))
}

// The log in a file, of which each line is a byte long at least.
fn read(alloc: Global, bytes: &Bytes) -> Result<Log, Refusal>
    ensures read { Decides result (log_or_refusal (read_of bytes.now)) }
    ensures few { IfOk result
        (λ log. length (flat_map item_lines log.items) ≤ length bytes.now) }
{
    match read_log(alloc, bytes.get()) {
        Ok(log) => Ok(log),
        Err(LogErr::Text { line }) => Err(Refusal::Log {
            line,
            why: LogWhy::Text,
        }),
        Err(LogErr::NoMemory) => Err(Refusal::Call(Failure::NoMemory)),
    }
}

// The script of items, unless a script for the workflow may not have one of their commands.
fn script_of_items(alloc: Global, flow: &Flow, items: &[Item]) -> Result<Bytes, Refusal>
    requires { length (flat_map item_lines items.now) < 2 ^ 32 }
    ensures { Decides result (script_of_items flow.now items.now) }
{
    match unfit_line(flow, items) {
        Some(line) => Err(Refusal::Log {
            line,
            why: LogWhy::Illegal,
        }),
        None => Ok(commands_text(alloc, flow, items)?),
    }
}

/// The script of the whole items of a log's file.
pub fn script_of_log(alloc: Global, flow: &Flow, bytes: &Bytes) -> Result<Bytes, Refusal>
    requires { length bytes.now ≤ most_log }
    ensures { Decides result (script_of_log flow.now bytes.now) }
{
    let log = read(alloc, bytes)?;
    script_of_items(alloc, flow, log.items.get())
}
