//! Whether the items of an old log were made for the commands of a script, in their order.
//! Over `Item` of `amber_log`, and the texts of `amber_journal`.

ghost use Rattle.std.specs.Prelude.{◌≡◌, ◌<◌, ◌^◌, ◌++◌, List, None, drop, false, length, map, IfOk};
ghost use Rattle.std.specs.List.{All, flat_map};
ghost use Rattle.amber_log.specs.Grammar.{AreItems, IsItem, IsKeptAsLine, IsLine};
ghost use Rattle.amber_log.specs.Items.{command_of, is_same_command, opening_of};
ghost use Rattle.amber_log.specs.LogText.{item_lines};
ghost use Rattle.amber_course.specs.Course.{end_alone, is_for_first, strange_from};

use amber_journal::write_command;
use amber_log::{Action, Command, Item, commands_have_text, item_length};
use std::alloc::{AllocError, Global};

// An item of a command begins with a line that has a text. It does nothing; its contract is the
// law.
fn command_has_line(command: &Command)
    ensures { IsLine (opening_of command.now) }
{
    match command.action() {
        Action::Leg { to_end: _ } => {}
        Action::AtRest(_) => commands_have_text(command),
    }
}

// The same of each of these commands.
fn commands_have_lines(commands: &[Command])
    ensures { All (λ command. IsLine (opening_of command)) commands.now }
{
    for command in commands {
        command_has_line(command);
    }
}

// Whether two commands that are no legs have the same text.
fn have_same_text(alloc: Global, first: &Command, second: &Command) -> Result<bool, AllocError>
    requires first { IsKeptAsLine first.now }
    requires second { IsKeptAsLine second.now }
    ensures { IfOk result (λ same. same ≡ is_same_command first.now second.now) }
{
    commands_have_text(first);
    commands_have_text(second);
    let first = write_command(alloc, first)?;
    let second = write_command(alloc, second)?;
    Ok(first.as_slice() == second.as_slice())
}

// Whether an item was made for this command.
fn is_made_for(alloc: Global, item: &Item, command: &Command) -> Result<bool, AllocError>
    requires { IsItem item.now }
    ensures { IfOk result (λ made. made ≡ is_same_command command.now (command_of item.now)) }
{
    match item {
        Item::Run(_) => Ok(matches!(command, Command::Run)),
        Item::End(_) => Ok(matches!(command, Command::End)),
        Item::Do(done) => match command.action() {
            Action::Leg { to_end: _ } => Ok(false),
            Action::AtRest(_) => have_same_text(alloc, command, done),
        },
    }
}

// Whether an item was made for the command at a place among those of a script, with the one to run
// to the end behind them.
fn is_next(
    alloc: Global,
    item: &Item,
    commands: &[Command],
    place: usize,
) -> Result<bool, AllocError>
    requires { IsItem item.now }
    ensures { IfOk result
        (λ next. next ≡ is_for_first (drop place (commands.now ++ end_alone)) item.now) }
{
    match commands.get(place) {
        Some(command) => is_made_for(alloc, item, command),
        None => Ok(place == commands.len() && matches!(item, Item::End(_))),
    }
}

/// The line of the first item of an old log that was not made for the next command of a script,
/// where the one to run to the end comes behind them. The lines are numbered from 1 with the head.
/// Where there is none, the items' commands are the first of the script's and that one.
pub fn strange_line(
    alloc: Global,
    commands: &[Command],
    items: &[Item],
) -> Result<Option<u64>, AllocError>
    requires text { AreItems false items.now }
    requires few { length (flat_map item_lines items.now) < 2 ^ 32 }
    ensures line { IfOk result
        (λ bad. bad ≡ strange_from 2 (commands.now ++ end_alone) items.now) }
    ensures first { IfOk result (λ bad. bad ≡ None → (left : List Command)
        × (map command_of items.now ++ left ≡ commands.now ++ end_alone)) }
{
    commands_have_lines(commands);
    let mut line = 2;
    for (place, item) in items.iter().enumerate() {
        if !is_next(alloc, item, commands, place)? {
            return Ok(Some(line));
        }
        line += item_length(item);
    }
    Ok(None)
}
