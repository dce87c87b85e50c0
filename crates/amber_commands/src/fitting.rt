//! Which items of a log have a command that no script for a workflow may have. Over `Item` of
//! `amber_log`.

ghost use Rattle.std.specs.Prelude.{◌≡◌, ◌<◌, ◌^◌, length};
ghost use Rattle.std.specs.List.{flat_map};
ghost use Rattle.amber_log.specs.LogText.{item_lines};
ghost use Rattle.amber_script.specs.Commands.{is_scripted};
ghost use Rattle.amber_commands.specs.Commands.{are_scripted, commands_in, fits_script, unfit_line};

use amber_log::{Action, Command, Item, fits, item_length};
use amber_rows::Flow;

// A command as a script may have it: it is no leg to the end.
fn is_scripted(command: &Command) -> bool
    ensures { result ≡ is_scripted command.now }
{
    match command.action() {
        Action::Leg { to_end } => !to_end,
        Action::AtRest(_) => true,
    }
}

// Whether a script for the workflow may have the command.
fn fits_script(flow: &Flow, command: &Command) -> bool
    ensures { result ≡ fits_script flow.now command.now }
{
    is_scripted(command) && fits(flow, command)
}

// Whether a script for the workflow may have the command of an item, where it has one.
#[tactic(auto, unfolding(amber_log::specs::Fits::fits_of))]
fn is_fit(flow: &Flow, item: &Item) -> bool
    ensures { result ≡ are_scripted flow.now (commands_in item.now) }
{
    match item {
        Item::Do(command) => fits_script(flow, command),
        Item::Run(_) | Item::End(_) => true,
    }
}

/// The line of the first item whose command no script for the workflow may have, in a log that
/// begins with its head.
pub fn unfit_line(flow: &Flow, items: &[Item]) -> Option<u64>
    requires { length (flat_map item_lines items.now) < 2 ^ 32 }
    ensures { result ≡ unfit_line 2 flow.now items.now }
{
    let mut line = 2;
    for item in items {
        if !is_fit(flow, item) {
            return Some(line);
        }
        line += item_length(item);
    }
    None
}
