//! Lines that take a batch of many rows at once, and that emit many rows at once. Tests `Worker::redo`.

use crate::fed::{GROUPED, JOINED, fed_worker, watch_from};
use crate::redone::{expect_lines, go, take};
use amber_link::NoMemory;
use amber_log::Entry;
use std::alloc::Global;
use std::test::Fail;

// How many rows a long batch has. It is the last of its sender.
const MANY: u32 = 60_000;

// The rows of a long batch. The second number of each is its place, and the first is that too, or the same in all.
fn many_rows(alloc: Global, apart: bool) -> Result<Vec<[i64; 2]>, NoMemory> {
    let mut rows = Vec::new(alloc);
    for place in 0..MANY {
        let place = i64::from(place);
        rows.push([if apart { place } else { 7 }, place])?;
    }
    Ok(rows)
}

// The last row meets the condition.
#[test]
fn the_last_row_of_a_long_line_holds_a_filter(rt: HostRuntime) -> Result<(), Fail> {
    let alloc = rt.alloc();
    let rows = many_rows(alloc, true)?;
    let mut filter = fed_worker(alloc, GROUPED, 1, &[rows.as_slice()])?;
    watch_from(&mut filter, 2, 59_999)?;
    let lines = [
        (take(0, 0), None, Some(0)),
        (go(60_000, 60_000), None, None),
        (go(60_000, 59_998), None, None),
        (go(60_001, 59_999), None, None),
        (go(60_000, 59_999), None, Some(0)),
        (Entry::Hold, None, Some(0)),
    ];
    expect_lines(alloc, &mut filter, &lines)
}

// Each row is emitted with a unit.
#[test]
fn a_long_line_of_a_counted_filter_wants_its_units(rt: HostRuntime) -> Result<(), Fail> {
    let alloc = rt.alloc();
    let rows = many_rows(alloc, true)?;
    let mut filter = fed_worker(alloc, GROUPED, 1, &[rows.as_slice()])?;
    let lines = [
        (take(0, 0), Some(0), Some(0)),
        (go(60_000, 60_000), Some(59_999), None),
        (go(60_000, 59_999), Some(59_999), None),
        (go(60_000, 60_000), Some(60_000), Some(0)),
        (Entry::Finish, Some(0), Some(0)),
    ];
    expect_lines(alloc, &mut filter, &lines)
}

// Each probe row has two matches.
#[test]
fn a_long_line_of_a_join_emits_more_than_a_batch(rt: HostRuntime) -> Result<(), Fail> {
    let alloc = rt.alloc();
    let rows = many_rows(alloc, false)?;
    let sides = [&[[7, 1], [7, 2]], rows.as_slice()];
    let mut join = fed_worker(alloc, JOINED, 2, &sides)?;
    let lines = [
        (take(0, 0), None, Some(0)),
        (go(2, 0), None, Some(0)),
        (take(1, 0), None, Some(0)),
        (go(60_000, 119_997), None, None),
        (go(60_000, 120_001), None, None),
        (go(60_000, 120_000), Some(119_999), None),
        (go(60_000, 120_000), Some(120_000), Some(0)),
        (Entry::Finish, None, Some(0)),
    ];
    expect_lines(alloc, &mut join, &lines)
}

// Each row has a key of its own.
#[test]
fn a_long_line_of_a_group_gives_a_row_for_each_key(rt: HostRuntime) -> Result<(), Fail> {
    let alloc = rt.alloc();
    let rows = many_rows(alloc, true)?;
    let mut group = fed_worker(alloc, GROUPED, 2, &[rows.as_slice()])?;
    let lines = [
        (take(1, 0), None, Some(0)),
        (go(60_000, 60_001), None, None),
        (go(60_000, 60_000), Some(59_999), None),
        (go(60_000, 60_000), Some(60_000), Some(0)),
        (Entry::Finish, None, Some(0)),
    ];
    expect_lines(alloc, &mut group, &lines)
}

// A row is taken only with a unit in hand, which stays there.
#[test]
fn a_long_line_of_a_sink_emits_nothing(rt: HostRuntime) -> Result<(), Fail> {
    let alloc = rt.alloc();
    let rows = many_rows(alloc, true)?;
    let mut sink = fed_worker(alloc, GROUPED, 3, &[rows.as_slice()])?;
    let lines = [
        (take(2, 0), None, Some(0)),
        (go(60_000, 1), None, None),
        (go(60_000, 0), Some(0), None),
        (go(60_000, 0), Some(1), Some(1)),
        (Entry::Finish, None, Some(0)),
    ];
    expect_lines(alloc, &mut sink, &lines)
}
