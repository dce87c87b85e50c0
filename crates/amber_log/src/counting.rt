//! How many lines parts, legs and items have in a log. Over `Item`.

ghost use Rattle.std.specs.Prelude.{◌≡◌, ◌<◌, ◌^◌, length};
ghost use Rattle.amber_log.specs.LogText.{item_lines, leg_lines, part_lines};

use crate::leg::{Leg, Part};
use crate::log::Item;

/// How many lines a part has: that of its worker, and one for each entry.
pub fn part_length(part: &Part) -> u64
    requires { length (part_lines part.now) < 2 ^ 33 }
    ensures { result ≡ length (part_lines part.now) }
{
    1 + part.entries.get().len() as u64
}

/// How many lines a leg has, behind the one that opens it.
pub fn leg_length(leg: &Leg) -> u64
    requires { length (leg_lines leg.now) < 2 ^ 33 }
    ensures { result ≡ length (leg_lines leg.now) }
{
    let mut lines = 1;
    for part in leg.parts.get() {
        lines += part_length(part);
    }
    lines
}

/// How many lines an item has.
pub fn item_length(item: &Item) -> u64
    requires { length (item_lines item.now) < 2 ^ 33 }
    ensures { result ≡ length (item_lines item.now) }
{
    match item {
        Item::Do(_) => 1,
        Item::Run(leg) | Item::End(leg) => 1 + leg_length(leg),
    }
}
