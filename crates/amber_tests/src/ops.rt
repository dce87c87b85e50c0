//! The states of filters, projections and sinks. Tests `amber_ops`.

use crate::expected::{expect_rows, expect_text};
use crate::written::{cols, row, row_text, rows, rows_text};
use amber_ops::{FilterState, NoMemory, ProjectState, SinkState};
use amber_rows::{Cmp, Cond, Value};
use std::alloc::Global;
use std::test::Fail;

// What a filter gives, always of the same rows.
fn given(alloc: Global, filter: &mut FilterState) -> Result<String, NoMemory> {
    let mut all = Vec::new(alloc);
    for row in rows(alloc, "'a 3 / 'b 1 / 'a 3 / 'c 2 / 'd")? {
        if let Some(row) = filter.feed(row) {
            all.push(row)?;
        }
    }
    rows_text(alloc, &all)
}

#[test]
fn a_filter_gives_the_rows_that_hold_under_the_constant_in_force(
    rt: HostRuntime,
) -> Result<(), Fail> {
    let alloc = rt.alloc();
    let mut filter = FilterState::new(Cond {
        column: 2,
        op: Cmp::Ge,
        constant: Value::Int(2),
    });
    expect_text(given(alloc, &mut filter)?, "'a 3 / 'a 3 / 'c 2 / ")?;
    let mut copy = filter.clone()?;
    filter.set(Value::Int(3));
    expect_text(given(alloc, &mut filter)?, "'a 3 / 'a 3 / ")?;
    expect_text(given(alloc, &mut copy)?, "'a 3 / 'a 3 / 'c 2 / ")
}

// What a projection gives of a row.
fn projected(alloc: Global, project: &mut ProjectState, fed: &str) -> Result<String, NoMemory> {
    let row = row(alloc, fed)?;
    let found = project.feed(&row)?;
    row_text(alloc, &found)
}

// The same, written over another row.
fn projected_over(
    alloc: Global,
    project: &ProjectState,
    fed: &str,
    used: &str,
) -> Result<String, NoMemory> {
    let found = project.pick_over(Some(row(alloc, used)?), &row(alloc, fed)?)?;
    row_text(alloc, &found)
}

#[test]
fn a_projection_gives_the_cells_in_the_order_of_its_columns(rt: HostRuntime) -> Result<(), Fail> {
    let alloc = rt.alloc();
    let mut project = ProjectState::new(alloc, cols(alloc, &[3, 1, 3])?);
    let mut copy = project.clone()?;
    for (fed, want) in [("7 'pear 12", "12 7 12 "), ("'x 0 'y 1", "'y 'x 'y ")] {
        expect_text(projected(alloc, &mut project, fed)?, want)?;
        expect_text(projected(alloc, &mut copy, fed)?, want)?;
        for used in ["'long-enough-to-have-room-of-its-own 2 3", "1"] {
            expect_text(projected_over(alloc, &project, fed, used)?, want)?;
        }
    }
    Ok(())
}

// Feeds a sink rows.
fn feed_all(alloc: Global, sink: &mut SinkState, written: &str) -> Result<(), NoMemory> {
    for row in rows(alloc, written)? {
        if sink.feed(row).is_err() {
            return Err(NoMemory);
        }
    }
    Ok(())
}

// Expects of a sink its rows in their order.
fn expect_sorted(alloc: Global, sink: &SinkState, want: &str) -> Result<(), Fail> {
    let found = sink.sorted(alloc)?;
    expect_rows(alloc, found.get(), want)
}

#[test]
fn a_sink_sorts_its_rows_and_keeps_equal_ones(rt: HostRuntime) -> Result<(), Fail> {
    let alloc = rt.alloc();
    let mut sink = SinkState::new(alloc);
    feed_all(alloc, &mut sink, "2 'b / 'a / 2 'b / -7")?;
    let copy = sink.clone()?;
    feed_all(alloc, &mut sink, "'a / 2")?;
    expect_sorted(alloc, &copy, "-7 / 2 'b / 2 'b / 'a / ")?;
    expect_sorted(alloc, &sink, "-7 / 2 / 2 'b / 2 'b / 'a / 'a / ")
}
