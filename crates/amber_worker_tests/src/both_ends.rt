//! Links of which a test holds both ends. Tests `amber_link`.

ghost use Rattle.std.specs.Prelude.{◌≡◌, ◌+◌, ◌^◌, ◌<◌, ◌≤◌, All, IfOk, OnOk, false, length, slice_index_or};
ghost use Rattle.amber_link.specs.declared.downstreams.Downstream.{Downstream as OneDownstream};

use crate::ends::push;
use crate::expected::expect_text;
use amber_link::{
    Downstream, In, NoMemory, Out, Sent, link, push_at, reserve_each, reserve_rows, send_all,
    settle,
};
use amber_rows::{Batch, Row, Value};
use std::alloc::Global;
use std::test::Fail;

// The cells of a row, with a blank after each.
fn append_row(alloc: Global, told: &mut String, row: &Row) -> Result<(), NoMemory> {
    for cell in row.get() {
        told.push_str(&format!(in alloc; "{cell} ")?)?;
    }
    Ok(())
}

// The numbers of a batch, and whether it is the last.
fn append_batch(alloc: Global, told: &mut String, batch: &Batch) -> Result<(), NoMemory> {
    told.push_str(&format!(in alloc; "{}: ", batch.seq)?)?;
    for row in batch.rows.get() {
        append_row(alloc, told, row)?;
    }
    told.push_str(if batch.last { "last | " } else { "| " })
}

// The batch that an end gives next. Whether there was one.
fn append_next(alloc: Global, told: &mut String, into: &mut In) -> Result<bool, NoMemory> {
    match into.take() {
        Some(batch) => {
            append_batch(alloc, told, &batch)?;
            Ok(true)
        }
        None => Ok(false),
    }
}

// The batches that an end gives now, one after the other.
fn given(alloc: Global, into: &mut In) -> Result<String, NoMemory> {
    let mut told = String::new(alloc);
    for _round in 0..40u64 {
        if !append_next(alloc, &mut told, into)? {
            return Ok(told);
        }
    }
    Ok(told)
}

#[test]
fn a_row_is_pushed_sent_and_taken(rt: HostRuntime) -> Result<(), Fail> {
    let alloc = rt.alloc();
    let (mut out, mut into) = link(alloc, 1)?;
    let before = into.take().is_some();
    push(alloc, &mut out, 7)?;
    let unsent = into.take().is_some();
    assert!(rt; !before && !unsent && !out.is_sent());
    assert!(rt; out.send() == Sent::All && out.is_sent());
    expect_text(given(alloc, &mut into)?, "0: 7 | ")
}

/// Pushes rows of the numbers from one on.
pub fn fill(alloc: Global, out: &mut Out, count: u32) -> Result<(), NoMemory>
    requires few { out.old.kept.made ≤ 2 ^ 34 }
    requires open { out.old.kept.ended ≡ false }
    ensures few { out.new.kept.made ≤ out.old.kept.made + count }
    ensures open { OnOk result (out.new.kept.ended ≡ false) }
    ensures ring { out.new.ring ≡ out.old.ring }
{
    for number in 0..count {
        push(alloc, out, i64::from(number) + 1)?;
    }
    Ok(())
}

#[test]
fn a_full_ring_keeps_batches_in_their_order(rt: HostRuntime) -> Result<(), Fail> {
    let alloc = rt.alloc();
    let (mut out, mut into) = link(alloc, 1)?;
    fill(alloc, &mut out, 11)?;
    assert!(rt; out.send() == Sent::Kept);
    expect_text(
        given(alloc, &mut into)?,
        "0: 1 | 1: 2 | 2: 3 | 3: 4 | 4: 5 | 5: 6 | 6: 7 | 7: 8 | ",
    )?;
    assert!(rt; out.send() == Sent::All);
    expect_text(given(alloc, &mut into)?, "8: 9 | 9: 10 | 10: 11 | ")
}

#[test]
fn settling_goes_through_the_ring(rt: HostRuntime) -> Result<(), Fail> {
    let alloc = rt.alloc();
    let (mut out, mut into) = link(alloc, 2)?;
    out.reserve(25)?;
    fill(alloc, &mut out, 25)?;
    assert!(rt; out.send() == Sent::Kept);
    out.end()?;
    settle(&mut out, &mut into)?;
    assert!(rt; out.is_sent());
    expect_text(
        given(alloc, &mut into)?,
        "0: 1 2 | 1: 3 4 | 2: 5 6 | 3: 7 8 | 4: 9 10 | 5: 11 12 | 6: 13 14 | 7: 15 16 | 8: 17 18 | 9: 19 20 | 10: 21 22 | 11: 23 24 | 12: 25 last | ",
    )
}

#[test]
fn rows_that_were_given_back_come_back(rt: HostRuntime) -> Result<(), Fail> {
    let alloc = rt.alloc();
    let (mut out, mut into) = link(alloc, 1)?;
    assert!(rt; out.take_back().is_none());
    push(alloc, &mut out, 7)?;
    settle(&mut out, &mut into)?;
    let Some(batch) = into.take() else {
        return Err(Fail::from(NoMemory));
    };
    into.give_back(batch.rows.into_inner());
    let Some(rows) = out.take_back() else {
        return Err(Fail::from(NoMemory));
    };
    assert!(rt; rows.len() == 1 && out.take_back().is_none());
    out.lend(rows);
    push(alloc, &mut out, 8)?;
    settle(&mut out, &mut into)?;
    expect_text(given(alloc, &mut into)?, "1: 8 | ")
}

// Two receivers for whom nothing was made yet, and their ends.
fn two_receivers(alloc: Global) -> Result<(Vec<Downstream>, In, In), NoMemory>
    ensures two { IfOk result (λ made. length made.0.items ≡ 2) }
    ensures open { IfOk result (λ made. All (λ one. one.link.kept.ended ≡ false) made.0.items) }
    ensures none { IfOk result (λ made. All (λ one. one.link.kept.made ≡ 0) made.0.items) }
{
    let (first, to_first) = link(alloc, 1)?;
    let (second, to_second) = link(alloc, 1)?;
    let mut outs = Vec::new(alloc);
    outs.push(Downstream::new(7, first))?;
    outs.push(Downstream::new(8, second))?;
    Ok((outs, to_first, to_second))
}

// A row of one number.
fn row_of(alloc: Global, number: i64) -> Result<Row, NoMemory> {
    let mut cells = Vec::new(alloc);
    cells.push(Value::Int(number))?;
    Ok(Row::new(cells))
}

// Makes room for a row each, and then for two rows and for one.
fn make_room(outs: &mut [Downstream]) -> Result<(), NoMemory>
    requires two { length outs.old ≡ 2 }
    requires open { All (λ one. one.link.kept.ended ≡ false) outs.old }
    requires none { All (λ one. one.link.kept.made ≡ 0) outs.old }
    ensures two { length outs.new ≡ 2 }
    ensures open { All (λ one. one.link.kept.ended ≡ false) outs.new }
    ensures few { All (λ one. one.link.kept.made ≤ 0) outs.new }
    ensures first { OnOk result ((d : OneDownstream) → 2 < (slice_index_or outs.new 0 d).link.kept.room) }
    ensures second { OnOk result ((d : OneDownstream) → 1 < (slice_index_or outs.new 1 d).link.kept.room) }
{
    reserve_rows(outs, 1)?;
    reserve_each(outs, &[2, 1])
}

// Pushes three rows, two of them for the first of two receivers.
fn push_three(alloc: Global, outs: &mut [Downstream]) -> Result<(), NoMemory>
    requires two { length outs.old ≡ 2 }
    requires open { All (λ one. one.link.kept.ended ≡ false) outs.old }
    requires none { All (λ one. one.link.kept.made ≡ 0) outs.old }
{
    let first = row_of(alloc, 1)?;
    let second = row_of(alloc, 2)?;
    let third = row_of(alloc, 3)?;
    make_room(outs)?;
    push_at(outs, 0, first);
    push_at(outs, 1, second);
    push_at(outs, 0, third);
    send_all(outs);
    Ok(())
}

#[test]
fn rows_for_which_room_was_made_go_to_their_receivers(rt: HostRuntime) -> Result<(), Fail> {
    let alloc = rt.alloc();
    let (mut outs, mut to_first, mut to_second) = two_receivers(alloc)?;
    push_three(alloc, outs.as_mut_slice())?;
    expect_text(given(alloc, &mut to_first)?, "0: 1 | 1: 3 | ")?;
    expect_text(given(alloc, &mut to_second)?, "0: 2 | ")
}
