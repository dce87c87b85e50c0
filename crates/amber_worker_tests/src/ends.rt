//! Links of which a test holds the one end, and a worker or the test the other. Over `amber_link`.

ghost use Rattle.std.specs.Prelude.{◌≡◌, ◌+◌, ◌^◌, ◌<◌, ◌≤◌, All, IfOk, OnOk, false};
ghost use Rattle.amber_worker.specs.Made.{IsFreshIn, IsFreshOut};

use amber_link::{In, NoMemory, Out, link};
use amber_rows::{Row, Value};
use std::alloc::Global;
use std::test::Fail;

// Appends the ends of a new link.
fn add_link(
    alloc: Global,
    batch: u32,
    outs: &mut Vec<Out>,
    ins: &mut Vec<In>,
) -> Result<(), NoMemory>
    requires some { 0 < batch }
    requires few { batch ≤ 65536 }
    requires outs { All (IsFreshOut batch) outs.old.items }
    requires ins { All IsFreshIn ins.old.items }
    ensures outs { OnOk result (All (IsFreshOut batch) outs.new.items) }
    ensures ins { OnOk result (All IsFreshIn ins.new.items) }
{
    let (out, into) = link(alloc, batch)?;
    outs.push(out)?;
    ins.push(into)?;
    Ok(())
}

/// The ends of `count` links.
pub fn links(alloc: Global, count: u32, batch: u32) -> Result<(Vec<Out>, Vec<In>), NoMemory>
    requires some { 0 < batch }
    requires few { batch ≤ 65536 }
    ensures outs { IfOk result (λ ends. All (IsFreshOut batch) ends.0.items) }
    ensures ins { IfOk result (λ ends. All IsFreshIn ends.1.items) }
{
    let mut outs = Vec::new(alloc);
    let mut ins = Vec::new(alloc);
    'links: for _ in 0..count {
        add_link(alloc, batch, &mut outs, &mut ins)?;
    }
    Ok((outs, ins))
}

/// Takes the last of these ends away.
pub fn last_end(batch: u32, outs: &mut Vec<Out>) -> Result<Out, Fail>
    requires { All (IsFreshOut batch) outs.old.items }
    ensures made { IfOk result (λ out. out.kept.made ≡ 0) }
    ensures open { IfOk result (λ out. out.kept.ended ≡ false) }
    ensures left { All (IsFreshOut batch) outs.new.items }
{
    match outs.pop() {
        Some(out) => Ok(out),
        None => Err(Fail::new("no end")),
    }
}

/// Pushes a row of these numbers.
pub fn push_row(alloc: Global, out: &mut Out, numbers: &[i64]) -> Result<(), NoMemory>
    requires few { out.old.kept.made < 2 ^ 40 }
    requires open { out.old.kept.ended ≡ false }
    ensures made { out.new.kept.made ≤ out.old.kept.made + 1 }
    ensures open { OnOk result (out.new.kept.ended ≡ false) }
    ensures ring { out.new.ring ≡ out.old.ring }
{
    let mut cells = Vec::new(alloc);
    for number in numbers {
        cells.push(Value::Int(*number))?;
    }
    match out.push(Row::new(cells)) {
        Ok(()) => Ok(()),
        Err(_) => Err(NoMemory),
    }
}

/// Pushes a row of one number.
pub fn push(alloc: Global, out: &mut Out, number: i64) -> Result<(), NoMemory>
    requires few { out.old.kept.made < 2 ^ 40 }
    requires open { out.old.kept.ended ≡ false }
    ensures made { out.new.kept.made ≤ out.old.kept.made + 1 }
    ensures open { OnOk result (out.new.kept.ended ≡ false) }
    ensures ring { out.new.ring ≡ out.old.ring }
{
    push_row(alloc, out, &[number])
}

/// Sends a row of one number, and then the end, if it is to end.
pub fn deliver(alloc: Global, mut out: Out, number: i64, ends: bool) -> Result<(), NoMemory>
    requires made { out.kept.made ≡ 0 }
    requires open { out.kept.ended ≡ false }
{
    push(alloc, &mut out, number)?;
    if ends {
        out.end()?;
    }
    out.send();
    Ok(())
}
