//! Writes the head of a log, and its items. Rests on `commands` and `legs`.

ghost use Rattle.std.specs.Prelude.{◌≡◌, [], ◌∷◌, ◌++◌, IfOk, OnOk, false};
ghost use Rattle.std.specs.List.{flat_map};
ghost use Rattle.amber_log.specs.Grammar.{AreItems, IsBatch, IsCommand, IsItem};
ghost use Rattle.amber_log.specs.LogText.{head_text, item_text};
ghost use Rattle.amber_journal.specs.Written.{leg_text};

use crate::commands::push_command;
use crate::legs::push_leg;
use crate::lines::{push_line, push_one};
use amber_log::{Command, Item, Leg};
use std::alloc::{AllocError, Global};

/// The first line of a log: the format's version and how many rows a batch has, from 1 to 65,536.
#[tactic(auto, unfolding(amber_log::specs::LogText::head_text))]
pub fn write_head(alloc: Global, batch: u32) -> Result<Vec<u8>, AllocError>
    requires { IsBatch batch }
    ensures { IfOk result (λ text. text.items ≡ head_text batch) }
{
    let mut out = Vec::new(alloc);
    push_one(&mut out, b"amber 1", u64::from(batch))?;
    Ok(out)
}

/// The line that opens a leg, then the leg.
fn push_opened(out: &mut Vec<u8>, bytes: &[u8], leg: &Leg) -> Result<(), AllocError>
    ensures { OnOk result (out.new.items
        ≡ out.old.items ++ ((bytes.now ++ 10 ∷ []) ++ leg_text leg.now)) }
{
    push_line(out, bytes)?;
    push_leg(out, leg)
}

/// The lines of an item.
#[tactic(auto, using(crate::proofs::ItemText::text_of_command, crate::proofs::ItemText::text_of_run, crate::proofs::ItemText::text_of_end))]
fn push_item(alloc: Global, out: &mut Vec<u8>, item: &Item) -> Result<(), AllocError>
    requires { IsItem item.now }
    ensures { OnOk result (out.new.items ≡ out.old.items ++ item_text item.now) }
{
    match item {
        Item::Do(command) => push_command(alloc, out, command),
        Item::Run(leg) => push_opened(out, b"run", leg),
        Item::End(leg) => push_opened(out, b"end", leg),
    }
}

/// The lines of an item: a command's one line, or a leg from the line that opens it to the one that ends it.
pub fn write_item(alloc: Global, item: &Item) -> Result<Vec<u8>, AllocError>
    requires { IsItem item.now }
    ensures { IfOk result (λ text. text.items ≡ item_text item.now) }
{
    let mut out = Vec::new(alloc);
    push_item(alloc, &mut out, item)?;
    Ok(out)
}

/// The lines of items, one after the other.
pub fn write_items(alloc: Global, items: &[Item]) -> Result<Vec<u8>, AllocError>
    requires { AreItems false items.now }
    ensures { IfOk result (λ text. text.items ≡ flat_map item_text items.now) }
{
    let mut out = Vec::new(alloc);
    for item in items {
        push_item(alloc, &mut out, item)?;
    }
    Ok(out)
}

/// The log line of a command that runs no leg, without making its item first.
#[tactic(auto, using(crate::proofs::ItemText::text_of_command))]
pub fn write_command(alloc: Global, command: &Command) -> Result<Vec<u8>, AllocError>
    requires { IsCommand command.now }
    ensures { IfOk result (λ text. text.items ≡ item_text (Item.Do command.now)) }
{
    let mut out = Vec::new(alloc);
    push_command(alloc, &mut out, command)?;
    Ok(out)
}
