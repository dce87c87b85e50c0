//! What workers have written down, as a text. Over `Entry` of `amber_log`.

use amber_log::Entry;
use amber_worker::NoMemory;
use std::alloc::Global;

/// Entries: each a letter and two numbers, which are 0 where it has none.
pub fn entries_text(alloc: Global, entries: &[Entry]) -> Result<String, NoMemory> {
    let mut told = String::new(alloc);
    for entry in entries {
        let (what, one, other) = match entry {
            Entry::Take { from, batch } => ("t", u64::from(*from), *batch),
            Entry::Go { rows, outs } => ("g", *rows, *outs),
            Entry::Grant { n } => ("a", *n, 0),
            Entry::Back { n } => ("b", *n, 0),
            Entry::Pause => ("p", 0, 0),
            Entry::Resume => ("r", 0, 0),
            Entry::Hold => ("h", 0, 0),
            Entry::Finish => ("f", 0, 0),
        };
        told.push_str(&format!(in alloc; "{what} {one} {other} ")?)?;
    }
    Ok(told)
}
