//! The states of groups. Tests `amber_group`.

use crate::expected::{expect_rows, expect_text};
use crate::written::{cols, row, rows, rows_text, two_columns};
use amber_group::GroupState;
use amber_rows::{Agg, Aggs, NoMemory, Row};
use std::alloc::Global;
use std::collections::VecDeque;
use std::test::Fail;

// A group, and what it gives.
#[derive(Drop)]
struct Case {
    keys: &'static [u32],
    aggs: &'static [Agg],
    fed: &'static str,
    // The row that it is fed after these.
    last: &'static str,
    rows: &'static str,
    refused: &'static str,
    // How many groups there are.
    groups: u64,
}

// `amber_group` has more groups in `proofs/Examples.antt`, computed from the definition.
const GROUPS: [Case; 4] = [
    // Groups stand where their keys came first.
    Case {
        keys: &[1],
        aggs: &[
            Agg::Count,
            Agg::Sum(2),
            Agg::Min(3),
            Agg::Max(3),
            Agg::Min(2),
            Agg::Max(2),
        ],
        fed: "'b 5 'x / 'a 1 'y / 'b -7 'w",
        last: "'b 0 'wa",
        rows: "'b 3 -2 'w 'x -7 5 / 'a 1 1 'y 'y 1 1 / ",
        refused: "",
        groups: 2,
    },
    // Texts add nothing.
    Case {
        keys: &[1],
        aggs: &[Agg::Sum(2)],
        fed: "'a 'x / 'a 3",
        last: "'b 'y",
        rows: "'a 3 / 'b 0 / ",
        refused: "",
        groups: 2,
    },
    // No such column.
    Case {
        keys: &[1],
        aggs: &[Agg::Min(3)],
        fed: "'a 1",
        last: "'b 2 9",
        rows: "'b 9 / ",
        refused: "'a / ",
        groups: 2,
    },
    // A number against a text.
    Case {
        keys: &[1],
        aggs: &[Agg::Count],
        fed: "1 / '1",
        last: "1",
        rows: "1 2 / '1 1 / ",
        refused: "",
        groups: 2,
    },
];

// Feeds a group rows, while it has taken fewer than 2^40.
fn feed(alloc: Global, state: &mut GroupState, written: &str) -> Result<(), NoMemory> {
    for row in &rows(alloc, written)? {
        if state.fed() < 1 << 40 {
            state.feed(row)?;
        }
    }
    Ok(())
}

// The state of a group that was fed all rows but the last.
fn fed(alloc: Global, case: &Case) -> Result<GroupState, NoMemory> {
    let keys = cols(alloc, case.keys)?;
    let aggs = Aggs::new(Vec::from_slice(alloc, case.aggs)?);
    let mut state = GroupState::new(alloc, keys, aggs);
    feed(alloc, &mut state, case.fed)?;
    Ok(state)
}

// The state of a group that was fed all rows.
fn full(alloc: Global, case: &Case) -> Result<GroupState, NoMemory> {
    let mut state = fed(alloc, case)?;
    feed(alloc, &mut state, case.last)?;
    Ok(state)
}

// Expects of a group its rows, and the keys that it refuses.
fn expect_group(alloc: Global, state: &GroupState, case: &Case) -> Result<(), Fail> {
    let found = state.finish(alloc)?;
    expect_rows(alloc, found.rows.get(), case.rows)?;
    expect_rows(alloc, found.refused.get(), case.refused)
}

#[test]
fn a_group_gives_its_rows_and_refuses_keys(rt: HostRuntime) -> Result<(), Fail> {
    let alloc = rt.alloc();
    for case in &GROUPS {
        let state = full(alloc, case)?;
        assert!(rt; state.groups() == case.groups);
        expect_group(alloc, &state, case)?;
    }
    Ok(())
}

// The rows that a group gives with its last row.
fn with_last(alloc: Global, case: &Case) -> Result<Vec<Row>, NoMemory> {
    let mut state = fed(alloc, case)?;
    let last = row(alloc, case.last)?;
    let mut out = VecDeque::new(alloc);
    if state.fed() < 1 << 40 {
        state.feed_last(&last, &mut out)?;
    }
    Vec::from_iter(alloc, out)
}

#[test]
fn a_last_row_gives_the_rows_of_all_groups(rt: HostRuntime) -> Result<(), Fail> {
    let alloc = rt.alloc();
    for case in &GROUPS {
        let found = with_last(alloc, case)?;
        expect_rows(alloc, &found, case.rows)?;
    }
    Ok(())
}

// Takes in a row, and takes it out again.
fn take_once(alloc: Global, state: &mut GroupState, written: &str) -> Result<(), NoMemory> {
    if state.fed() < 1 << 40 {
        let taken = state.take(&row(alloc, written)?)?;
        state.undo(taken);
    }
    Ok(())
}

#[test]
fn a_row_that_is_taken_out_leaves_no_trace(rt: HostRuntime) -> Result<(), Fail> {
    let alloc = rt.alloc();
    for case in &GROUPS {
        let mut state = full(alloc, case)?;
        take_once(alloc, &mut state, case.last)?;
        take_once(alloc, &mut state, "'new 3 'z")?;
        assert!(rt; state.groups() == case.groups);
        expect_group(alloc, &state, case)?;
    }
    Ok(())
}

// The rows that a group gives, as a text.
fn given(alloc: Global, state: &GroupState) -> Result<String, NoMemory> {
    let found = state.finish(alloc)?;
    rows_text(alloc, found.rows.get())
}

// What a group gives with all of these rows that suit two columns. They are taken out again.
fn given_with(alloc: Global, state: &mut GroupState, written: &str) -> Result<String, NoMemory> {
    let columns = two_columns(alloc)?;
    let more = VecDeque::from_vec(rows(alloc, written)?);
    let count = more.len();
    if state.fed() > 1 << 39 || count > 1 << 39 {
        return Err(NoMemory);
    }
    let taken = state.take_all(alloc, &more, count, &columns)?;
    let text = given(alloc, state);
    state.undo_all(taken);
    text
}

#[test]
fn rows_that_were_taken_in_are_taken_out(rt: HostRuntime) -> Result<(), Fail> {
    let alloc = rt.alloc();
    let aggs = Aggs::new(Vec::from_slice(alloc, &[Agg::Count, Agg::Sum(1)])?);
    let mut state = GroupState::new(alloc, cols(alloc, &[2])?, aggs);
    feed(alloc, &mut state, "5 'a")?;
    // The third row does not suit.
    let with = given_with(alloc, &mut state, "1 'b / 2 'a / 'x 'a / 4 'b")?;
    expect_text(with, "'a 2 7 / 'b 2 5 / ")?;
    expect_text(given(alloc, &state)?, "'a 1 5 / ")
}
