//! The workers hand out what they have done, as the parts of a leg. Over `Worker::take_journal` of
//! `amber_worker`.

ghost use Rattle.std.specs.Prelude.{◌≡◌, ◌++◌, ◌<◌, ◌^◌, length, map, IfOk, OnOk};
ghost use Rattle.amber_dataflow.specs.Parts.{part_if_any, parts_from, without_journal};

use amber_log::{Entries, Part, Parts};
use amber_worker::Worker;
use std::alloc::{AllocError, Global};

// Appends a worker's part to the others, if it has done something.
fn push_part(parts: &mut Vec<Part>, worker: u32, entries: Entries) -> Result<(), AllocError>
    ensures { OnOk result (parts.new.items ≡ parts.old.items ++ part_if_any worker entries) }
{
    if entries.get().is_empty() {
        return Ok(());
    }
    parts.push(Part { worker, entries })?;
    Ok(())
}

/// Takes what the workers have done, as the parts of a leg.
pub(crate) fn take_parts(alloc: Global, crew: &mut [Worker]) -> Result<Parts, AllocError>
    requires { length crew.old < 2 ^ 32 }
    ensures parts { IfOk result (λ parts. parts ≡ parts_from 0 crew.old) }
    ensures crew { OnOk result (crew.new ≡ map without_journal crew.old) }
{
    let mut parts = Vec::new(alloc);
    'workers: for number in 0..crew.len() {
        let entries = crew[number].take_journal();
        push_part(&mut parts, number as u32, entries)?;
    }
    Ok(Parts::new(parts))
}
