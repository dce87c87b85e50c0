//! Items that are done again with their replies. Over `redo_command` and `redo_leg`, and the texts of `amber_report`.

ghost use Rattle.std.specs.Prelude.{◌≡◌, ◌+◌, ◌++◌, ◌^◌, ◌<◌, [], IfOk, None, OnOk, false, length, true};
ghost use Rattle.amber_log.specs.Commands.{action_of};
ghost use Rattle.amber_log.specs.Fits.{fits_of};
ghost use Rattle.amber_log.specs.Grammar.{IsCommand, IsItem, IsLeg, ends_over};
ghost use Rattle.amber_log.specs.LogText.{item_lines, leg_lines};
ghost use Rattle.amber_log.specs.declared.effect.Action.TheVariants as action;
ghost use Rattle.amber_log.specs.declared.leg.Close.TheVariants as close;
ghost use Rattle.amber_log.specs.declared.log.Item.TheVariants as item;
ghost use Rattle.amber_meaning.specs.State.{have_finished};
ghost use Rattle.amber_meaning.specs.Transcript.{end_reply, reply_of};
ghost use Rattle.amber_home.specs.HomeState.{item_of_leg, query_of, rest_state, state_of};
ghost use Rattle.amber_home.specs.declared.phase.Phase.TheVariants as phase;
ghost use Rattle.amber_recover.specs.Redone.{HasRedoneItem, bad_in_item, kept_stops_text};

use crate::items::{redo_command, redo_leg};
use amber_home::Home;
use amber_log::{Action, Close, Command, Effect, Item, Leg, Reply, fits};
use amber_report::{answer_lines, inspect_lines, ok_line, stop_lines};
use amber_rows::Bytes;
use std::alloc::{AllocError, Global};

/// The reply to a command with this effect, before it is done.
pub fn reply_at_rest(
    alloc: Global,
    home: &Home,
    command: &Command,
    effect: &Effect<'_>,
) -> Result<Bytes, AllocError>
    requires resting { home.now.phase ≡ phase.Resting }
    requires fits { fits_of home.now.flow command.now ≡ true }
    requires effect { action_of command.now ≡ action.AtRest effect.now }
    ensures { IfOk result (λ reply. reply
        ≡ reply_of (query_of home.now) (rest_state home.now) (item.Do command.now)) }
{
    match effect.reply {
        Reply::Done => ok_line(alloc, home.flow(), command, None),
        Reply::Shown => {
            let seen = home.inspect(alloc, effect.op)?;
            inspect_lines(alloc, home.flow(), &seen)
        }
        Reply::Dropped => ok_line(alloc, home.flow(), command, home.row_to_drop(command)),
    }
}

// Adds the reply to a command that is no leg, before it is done, where the workflow takes it.
fn tell_command(
    alloc: Global,
    home: &Home,
    command: &Command,
    text: &mut Vec<u8>,
) -> Result<(), AllocError>
    requires resting { home.now.phase ≡ phase.Resting }
    requires text { IsCommand command.now }
    ensures { OnOk result (fits_of home.now.flow command.now ≡ true
        → text.new.items ≡ text.old.items
        ++ reply_of (query_of home.now) (rest_state home.now) (item.Do command.now)) }
{
    if !fits(home.flow(), command) {
        return Ok(());
    }
    match command.action() {
        Action::Leg { to_end: _ } => Ok(()),
        Action::AtRest(effect) => {
            let reply = reply_at_rest(alloc, home, command, &effect)?;
            text.extend_from_slice(reply.get())
        }
    }
}

// Adds the stops after a leg up to a stop; nothing where it was too long.
fn tell_stops(
    alloc: Global,
    home: &Home,
    closed: Close,
    text: &mut Vec<u8>,
) -> Result<(), AllocError>
    requires resting { home.now.phase ≡ phase.Resting }
    ensures { OnOk result (text.new.items ≡ text.old.items ++ kept_stops_text home.now closed) }
{
    if matches!(closed, Close::Long) {
        return Ok(());
    }
    let stops = home.stops(alloc)?;
    let lines = stop_lines(alloc, home.flow(), &stops)?;
    text.extend_from_slice(lines.get())
}

// Adds the answer after a leg to the end, which the workers give away; nothing where it was too long.
fn tell_answer(
    alloc: Global,
    home: &mut Home,
    closed: Close,
    text: &mut Vec<u8>,
) -> Result<(), AllocError>
    requires resting { home.old.phase ≡ phase.Resting }
    requires finished { closed ≡ close.Cut → have_finished (state_of home.old) ≡ true }
    ensures text { OnOk result (text.new.items
        ≡ text.old.items ++ end_reply (query_of home.old) (state_of home.old) closed) }
    ensures home { home.new ≡ record home.old {
      phase = home.new.phase;
      turned = home.new.turned;
    } }
{
    if matches!(closed, Close::Long) {
        return Ok(());
    }
    let answer = home.take_answer(alloc)?;
    let lines = answer_lines(alloc, home.flow(), &answer)?;
    text.extend_from_slice(lines.get())
}

// Does a leg up to a stop again, and adds its reply.
fn tell_run(
    alloc: Global,
    home: &mut Home,
    leg: &Leg,
    line: u64,
    text: &mut Vec<u8>,
) -> Result<Option<u64>, AllocError>
    requires resting { home.old.phase ≡ phase.Resting }
    requires fresh { home.old.parts ≡ [] }
    requires open { ends_over false home.old.log.items ≡ false }
    requires text { IsLeg leg.now }
    requires few { line + 1 + length (leg_lines leg.now) < 2 ^ 33 }
    ensures found { IfOk result (λ bad. bad ≡ bad_in_item home.old line (item.Run leg.now)) }
    ensures done { IfOk result (λ bad. bad ≡ None
        → HasRedoneItem (item.Run leg.now) home.old home.new) }
    ensures told { IfOk result (λ bad. bad ≡ None → text.new.items ≡ text.old.items
        ++ reply_of (query_of home.old) (rest_state home.old) (item.Run leg.now)) }
{
    let bad = redo_leg(alloc, home, false, leg, line)?;
    if bad.is_some() {
        return Ok(bad);
    }
    tell_stops(alloc, home, leg.close, text)?;
    Ok(None)
}

// Does a leg to the end again, and adds its reply.
fn tell_end(
    alloc: Global,
    home: &mut Home,
    leg: &Leg,
    line: u64,
    text: &mut Vec<u8>,
) -> Result<Option<u64>, AllocError>
    requires resting { home.old.phase ≡ phase.Resting }
    requires fresh { home.old.parts ≡ [] }
    requires open { ends_over false home.old.log.items ≡ false }
    requires text { IsLeg leg.now }
    requires few { line + 1 + length (leg_lines leg.now) < 2 ^ 33 }
    ensures found { IfOk result (λ bad. bad ≡ bad_in_item home.old line (item.End leg.now)) }
    ensures done { IfOk result (λ bad. bad ≡ None
        → HasRedoneItem (item.End leg.now) home.old home.new) }
    ensures told { IfOk result (λ bad. bad ≡ None → text.new.items ≡ text.old.items
        ++ reply_of (query_of home.old) (rest_state home.old) (item.End leg.now)) }
{
    let bad = redo_leg(alloc, home, true, leg, line)?;
    if bad.is_some() {
        return Ok(bad);
    }
    tell_answer(alloc, home, leg.close, text)?;
    Ok(None)
}

/// Does an item again, and adds its reply. The answer is its first line that cannot stand there, if there is one, where its
/// first line has this number. After a leg to the end the workers may have given their rows away.
pub(crate) fn tell_item(
    alloc: Global,
    home: &mut Home,
    item: &Item,
    line: u64,
    text: &mut Vec<u8>,
) -> Result<Option<u64>, AllocError>
    requires resting { home.old.phase ≡ phase.Resting }
    requires fresh { home.old.parts ≡ [] }
    requires open { ends_over false home.old.log.items ≡ false }
    requires text { IsItem item.now }
    requires few { line + length (item_lines item.now) < 2 ^ 33 }
    ensures found { IfOk result (λ bad. bad ≡ bad_in_item home.old line item.now) }
    ensures done { IfOk result (λ bad. bad ≡ None → HasRedoneItem item.now home.old home.new) }
    ensures told { IfOk result (λ bad. bad ≡ None → text.new.items ≡ text.old.items
        ++ reply_of (query_of home.old) (rest_state home.old) item.now) }
{
    match item {
        Item::Do(command) => {
            tell_command(alloc, home, command, text)?;
            redo_command(alloc, home, command, line)
        }
        Item::Run(leg) => tell_run(alloc, home, leg, line, text),
        Item::End(leg) => tell_end(alloc, home, leg, line, text),
    }
}
