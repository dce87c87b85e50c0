//! Whether a log has so few lines that it may be done again. Over `Item` of `amber_log`.

ghost use Rattle.std.specs.Prelude.{◌≡◌, ◌+◌, ◌^◌, ◌<◌, IfSome, length, true};
ghost use Rattle.std.specs.List.{flat_map};
ghost use Rattle.amber_log.specs.LogText.{item_lines, leg_lines, part_lines};

use amber_log::{Item, Leg, Part};

// A log that is done again has fewer lines than this.
const MOST_LINES: u64 = 1 << 32;

// So many lines, where they are few enough.
fn few(lines: u64) -> Option<u64>
    ensures is { IfSome result (λ all. all ≡ lines) }
    ensures few { IfSome result (λ all. all < 2 ^ 32) }
{
    if lines < MOST_LINES {
        Some(lines)
    } else {
        None
    }
}

// These lines and those of a part, where they are few enough.
fn with_part(before: u64, part: &Part) -> Option<u64>
    requires { before < 2 ^ 32 }
    ensures is { IfSome result (λ all. all ≡ before + length (part_lines part.now)) }
    ensures few { IfSome result (λ all. all < 2 ^ 32) }
{
    let entries = part.entries.get().len() as u64;
    if entries < MOST_LINES {
        few(before + 1 + entries)
    } else {
        None
    }
}

// These lines and those of parts, where they are few enough.
fn with_parts(before: u64, parts: &[Part]) -> Option<u64>
    requires { before < 2 ^ 32 }
    ensures is { IfSome result (λ all. all
        ≡ before + length (flat_map part_lines parts.now)) }
    ensures few { IfSome result (λ all. all < 2 ^ 32) }
{
    let mut lines = before;
    for part in parts {
        lines = with_part(lines, part)?;
    }
    Some(lines)
}

// These lines and those of a leg behind the one that opens it, where they are few enough.
fn with_leg(before: u64, leg: &Leg) -> Option<u64>
    requires { before < 2 ^ 32 }
    ensures is { IfSome result (λ all. all ≡ before + length (leg_lines leg.now)) }
    ensures few { IfSome result (λ all. all < 2 ^ 32) }
{
    with_parts(few(before + 1)?, leg.parts.get())
}

// These lines and those of an item, where they are few enough.
fn with_item(before: u64, item: &Item) -> Option<u64>
    requires { before < 2 ^ 32 }
    ensures is { IfSome result (λ all. all ≡ before + length (item_lines item.now)) }
    ensures few { IfSome result (λ all. all < 2 ^ 32) }
{
    match item {
        Item::Do(_) => few(before + 1),
        Item::Run(leg) | Item::End(leg) => with_leg(few(before + 1)?, leg),
    }
}

/// Whether these items have fewer than 2^32 lines.
pub(crate) fn have_few_lines(items: &[Item]) -> bool
    ensures { result ≡ true → length (flat_map item_lines items.now) < 2 ^ 32 }
{
    let mut lines = 0;
    for item in items {
        match with_item(lines, item) {
            Some(more) => lines = more,
            None => return false,
        }
    }
    true
}
