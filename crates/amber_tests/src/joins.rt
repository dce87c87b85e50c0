//! The states of joins. Tests `amber_join`.

ghost use Rattle.std.specs.Prelude.{◌≡◌, false, true, IfOk};

use crate::expected::expect_text;
use crate::written::{cols, row, row_text, rows, rows_text, two_columns};
use amber_join::{JoinState, NoMemory, stage_all, unstage_all};
use amber_rows::Row;
use std::alloc::Global;
use std::collections::VecDeque;
use std::test::Fail;

// Feeds a join build rows.
fn build_all(alloc: Global, state: &mut JoinState, written: &str) -> Result<(), NoMemory>
    requires { state.old.sealed ≡ false }
    ensures { state.new.sealed ≡ false }
{
    for row in rows(alloc, written)? {
        if state.build(row).is_err() {
            return Err(NoMemory);
        }
    }
    Ok(())
}

// What a join gives of probe rows.
fn probed(alloc: Global, state: &JoinState, written: &str) -> Result<String, NoMemory>
    requires { state.now.sealed ≡ true }
{
    let mut made = String::new(alloc);
    for row in &rows(alloc, written)? {
        let found = state.probe(alloc, row)?;
        made.push_str(&rows_text(alloc, found.get())?)?;
    }
    Ok(made)
}

// The same, where matches are written over other rows.
fn probed_over(
    alloc: Global,
    state: &JoinState,
    written: &str,
    used: &mut Vec<Row>,
) -> Result<String, NoMemory>
    requires { state.now.sealed ≡ true }
{
    let mut made = String::new(alloc);
    for row in &rows(alloc, written)? {
        let found = state.probe_over(alloc, row, used)?;
        made.push_str(&rows_text(alloc, found.get())?)?;
    }
    Ok(made)
}

// A join, and what it gives.
#[derive(Drop)]
struct Case {
    build_keys: &'static [u32],
    probe_keys: &'static [u32],
    build: &'static str,
    probe: &'static str,
    matches: &'static str,
    // How many different keys the build rows have, and how many rows there are.
    keys: u64,
    rows: u64,
}

// `amber_join` has more joins in `proofs/Examples.antt`, computed from the definition.
const JOINS: [Case; 3] = [
    // Matches stand in the order of the build rows.
    Case {
        build_keys: &[1],
        probe_keys: &[1],
        build: "7 'x / 8 'y / 7 'z / 7 'x /",
        probe: "7 / 8 / 7 /",
        matches: "7 7 'x / 7 7 'z / 7 7 'x / 8 8 'y / 7 7 'x / 7 7 'z / 7 7 'x / ",
        keys: 2,
        rows: 4,
    },
    // No key column.
    Case {
        build_keys: &[],
        probe_keys: &[],
        build: "1 / 2 /",
        probe: "'a / 'b /",
        matches: "'a 1 / 'a 2 / 'b 1 / 'b 2 / ",
        keys: 1,
        rows: 2,
    },
    // A number against a text.
    Case {
        build_keys: &[2],
        probe_keys: &[1],
        build: "'number 1 / 'text '1 /",
        probe: "'1 / 1 /",
        matches: "'1 'text '1 / 1 'number 1 / ",
        keys: 2,
        rows: 2,
    },
];

// A sealed copy of a join of the build rows.
fn sealed(alloc: Global, case: &Case) -> Result<JoinState, NoMemory>
    ensures { IfOk result (λ state. state.sealed ≡ true) }
{
    let build_keys = cols(alloc, case.build_keys)?;
    let probe_keys = cols(alloc, case.probe_keys)?;
    let mut state = JoinState::new(alloc, build_keys, probe_keys);
    build_all(alloc, &mut state, case.build)?;
    let mut copy = state.clone()?;
    copy.seal();
    Ok(copy)
}

#[test]
fn a_probe_row_stands_before_each_build_row_with_its_key(rt: HostRuntime) -> Result<(), Fail> {
    let alloc = rt.alloc();
    for case in &JOINS {
        let state = sealed(alloc, case)?;
        assert!(rt; state.keys() == case.keys && state.rows() == case.rows);
        expect_text(probed(alloc, &state, case.probe)?, case.matches)?;
        let mut used = rows(
            alloc,
            "'long-enough-to-have-room-of-its-own 2 3 / 1 2 3 / 1 / 1 2 / ",
        )?;
        let over = probed_over(alloc, &state, case.probe, &mut used)?;
        expect_text(over, case.matches)?;
    }
    Ok(())
}

// A row that is staged and then unstaged comes back as it was.
fn stage_once(alloc: Global, state: &mut JoinState, written: &str) -> Result<String, NoMemory>
    requires { state.old.sealed ≡ false }
{
    let Ok(staged) = state.stage(row(alloc, written)?) else {
        return Err(NoMemory);
    };
    row_text(alloc, &state.unstage(staged))
}

#[test]
fn a_staged_row_comes_back(rt: HostRuntime) -> Result<(), Fail> {
    let alloc = rt.alloc();
    for written in ["7 'z ", "9 'z "] {
        let mut state = JoinState::new(alloc, cols(alloc, &[1])?, cols(alloc, &[1])?);
        build_all(alloc, &mut state, "7 'x / 8 'y /")?;
        expect_text(stage_once(alloc, &mut state, written)?, written)?;
        assert!(rt; state.keys() == 2 && state.rows() == 2);
        state.seal();
        let found = probed(alloc, &state, "7 / 9 /")?;
        expect_text(found, "7 7 'x / ")?;
    }
    Ok(())
}

// How many rows a join has, and how many are left, once it has the first of them that suit two columns. They go back.
fn stage_first(
    alloc: Global,
    state: &mut JoinState,
    left: &mut VecDeque<Row>,
    count: usize,
) -> Result<(u64, usize), NoMemory>
    requires unsealed { state.old.sealed ≡ false }
{
    let columns = two_columns(alloc)?;
    if count > left.len() {
        return Err(NoMemory);
    }
    let moved = stage_all(alloc, state, left, count, &columns)?;
    let found = (state.rows(), left.len());
    unstage_all(state, left, moved);
    Ok(found)
}

#[test]
fn rows_that_were_staged_go_back_to_the_front(rt: HostRuntime) -> Result<(), Fail> {
    let alloc = rt.alloc();
    let mut state = JoinState::new(alloc, cols(alloc, &[1])?, cols(alloc, &[1])?);
    build_all(alloc, &mut state, "7 'x /")?;
    let mut left = VecDeque::from_vec(rows(alloc, "1 'a / 'no 'b / 2 'c / 3 'd /")?);
    // The second row does not suit.
    let (kept, behind) = stage_first(alloc, &mut state, &mut left, 3)?;
    assert!(rt; kept == 3 && behind == 1);
    assert!(rt; state.rows() == 1 && state.keys() == 1);
    let back = Vec::from_iter(alloc, left)?;
    expect_text(rows_text(alloc, &back)?, "1 'a / 'no 'b / 2 'c / 3 'd / ")
}
