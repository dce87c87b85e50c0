//! Writes the lines of legs. Rests on `lines`; over `Leg` of `amber_log`.

ghost use Rattle.std.specs.Prelude.{◌≡◌, ◌++◌, OnOk};
ghost use Rattle.std.specs.List.{flat_map};
ghost use Rattle.amber_journal.specs.Written.{entry_text, leg_text, part_text};

use crate::lines::{push_line, push_one, push_two};
use amber_log::{Close, Entry, Leg, Part};
use std::alloc::AllocError;

/// The line of an entry.
fn push_entry(out: &mut Vec<u8>, entry: &Entry) -> Result<(), AllocError>
    ensures { OnOk result (out.new.items ≡ out.old.items ++ entry_text entry.now) }
{
    match entry {
        Entry::Take { from, batch } => push_two(out, b"t", u64::from(*from), *batch),
        Entry::Go { rows, outs } => push_two(out, b"g", *rows, *outs),
        Entry::Grant { n } => push_one(out, b"a", *n),
        Entry::Back { n } => push_one(out, b"b", *n),
        Entry::Pause => push_line(out, b"p"),
        Entry::Resume => push_line(out, b"r"),
        Entry::Hold => push_line(out, b"h"),
        Entry::Finish => push_line(out, b"f"),
    }
}

/// The lines of a worker's part.
fn push_part(out: &mut Vec<u8>, part: &Part) -> Result<(), AllocError>
    ensures { OnOk result (out.new.items ≡ out.old.items ++ part_text part.now) }
{
    push_one(out, b"w", u64::from(part.worker))?;
    let entries = part.entries.get();
    for entry in entries {
        push_entry(out, entry)?;
    }
    Ok(())
}

/// The lines of a leg after the one that opens it, and at last the one that ends it.
pub fn push_leg(out: &mut Vec<u8>, leg: &Leg) -> Result<(), AllocError>
    ensures { OnOk result (out.new.items ≡ out.old.items ++ leg_text leg.now) }
{
    let parts = leg.parts.get();
    for part in parts {
        push_part(out, part)?;
    }
    match leg.close {
        Close::Cut => push_line(out, b"cut"),
        Close::Long => push_line(out, b"long"),
    }
}
