//! The items of a log, done again. Over `apply`, `open_leg` and `close_redone` of `amber_home`, and `redo_parts`.

ghost use Rattle.std.specs.Prelude.{◌≡◌, ◌+◌, ◌^◌, ◌<◌, [], IfOk, None, false, length, true};
ghost use Rattle.amber_log.specs.Grammar.{IsCommand, IsItem, IsLeg, ends_over};
ghost use Rattle.amber_log.specs.LogText.{item_lines, leg_lines};
ghost use Rattle.amber_log.specs.declared.leg.Close.TheVariants as close;
ghost use Rattle.amber_log.specs.declared.log.Item.TheVariants as item;
ghost use Rattle.amber_meaning.specs.State.{have_finished};
ghost use Rattle.amber_home.specs.HomeState.{item_of_leg, state_of};
ghost use Rattle.amber_home.specs.declared.phase.Phase.TheVariants as phase;
ghost use Rattle.amber_recover.specs.Redone.{HasRedoneItem, bad_in_item};

use crate::parts::redo_parts;
use amber_home::Home;
use amber_log::{Command, Item, Leg, fits, leg_length};
use std::alloc::{AllocError, Global};

/// Does a command again that is no leg. The answer is its line, if the workflow does not take it.
pub(crate) fn redo_command(
    alloc: Global,
    home: &mut Home,
    command: &Command,
    line: u64,
) -> Result<Option<u64>, AllocError>
    requires resting { home.old.phase ≡ phase.Resting }
    requires fresh { home.old.parts ≡ [] }
    requires open { ends_over false home.old.log.items ≡ false }
    requires text { IsCommand command.now }
    ensures found { IfOk result (λ bad. bad ≡ bad_in_item home.old line (item.Do command.now)) }
    ensures done { IfOk result (λ bad. bad ≡ None
        → HasRedoneItem (item.Do command.now) home.old home.new) }
    ensures rests { IfOk result (λ bad. bad ≡ None → home.new.phase ≡ phase.Resting) }
{
    if !fits(home.flow(), command) {
        return Ok(Some(line));
    }
    home.apply(alloc, command)?;
    Ok(None)
}

/// Does a leg again, up to a stop or to the end. The answer is its first line that cannot stand there, if there is one,
/// where the line that opens it has this number.
pub(crate) fn redo_leg(
    alloc: Global,
    home: &mut Home,
    to_end: bool,
    leg: &Leg,
    line: u64,
) -> Result<Option<u64>, AllocError>
    requires resting { home.old.phase ≡ phase.Resting }
    requires fresh { home.old.parts ≡ [] }
    requires open { ends_over false home.old.log.items ≡ false }
    requires text { IsLeg leg.now }
    requires few { line + 1 + length (leg_lines leg.now) < 2 ^ 33 }
    ensures found { IfOk result (λ bad. bad
        ≡ bad_in_item home.old line (item_of_leg to_end leg.now.parts leg.now.close)) }
    ensures done { IfOk result (λ bad. bad ≡ None
        → HasRedoneItem (item_of_leg to_end leg.now.parts leg.now.close) home.old home.new) }
    ensures rests { IfOk result (λ bad. bad ≡ None → home.new.phase ≡ phase.Resting) }
    ensures finished { IfOk result (λ bad. bad ≡ None → to_end ≡ true → leg.now.close ≡ close.Cut
        → have_finished (state_of home.new) ≡ true) }
{
    home.open_leg(to_end);
    let bad = redo_parts(home, leg.parts.get(), line + 1)?;
    if bad.is_some() {
        return Ok(bad);
    }
    if home.close_redone(alloc, leg.close)? {
        Ok(None)
    } else {
        Ok(Some(line + leg_length(leg)))
    }
}

/// Does an item again. The answer is its first line that cannot stand there, if there is one, where its first line has this
/// number.
pub(crate) fn redo_item(
    alloc: Global,
    home: &mut Home,
    item: &Item,
    line: u64,
) -> Result<Option<u64>, AllocError>
    requires resting { home.old.phase ≡ phase.Resting }
    requires fresh { home.old.parts ≡ [] }
    requires open { ends_over false home.old.log.items ≡ false }
    requires text { IsItem item.now }
    requires few { line + length (item_lines item.now) < 2 ^ 33 }
    ensures found { IfOk result (λ bad. bad ≡ bad_in_item home.old line item.now) }
    ensures done { IfOk result (λ bad. bad ≡ None → HasRedoneItem item.now home.old home.new) }
    ensures rests { IfOk result (λ bad. bad ≡ None → home.new.phase ≡ phase.Resting) }
{
    match item {
        Item::Do(command) => redo_command(alloc, home, command, line),
        Item::Run(leg) => redo_leg(alloc, home, false, leg, line),
        Item::End(leg) => redo_leg(alloc, home, true, leg, line),
    }
}
