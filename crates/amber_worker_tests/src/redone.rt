//! Journals done again, line by line, each by another worker that gets the same batches; and lines that do not meet their
//! rule. Tests `Worker::redo`.

use crate::expected::expect_text;
use crate::lines::redo_line;
use crate::plans::{Case, FILTER, GROUP, JOIN, SINK, drive_or_count, letters_of, worker_in};
use crate::told::told;
use amber_log::Entry;
use amber_worker::{Drove, Worker};
use std::alloc::{AllocError, Global};
use std::test::Fail;

// What a worker shows, with its journal.
fn shown(alloc: Global, worker: &Worker) -> Result<String, Fail> {
    told(
        alloc,
        worker,
        Drove {
            turns: 0,
            last: None,
        },
    )
}

// Does these lines one after the other. Each meets its rule, and no unit is in hand at the end.
fn redo_all(worker: &mut Worker, entries: &[Entry], counted: bool) -> Result<(), Fail> {
    let mut hand: u64 = 0;
    for entry in entries {
        let armed = if counted { Some(hand) } else { None };
        let Some(left) = redo_line(worker, entry, armed)? else {
            return Err(Fail::new("illegal"));
        };
        if left > u128::from(u64::MAX) {
            return Err(Fail::new("hand"));
        }
        hand = left as u64;
    }
    if hand != 0 {
        return Err(Fail::new("hand"));
    }
    Ok(())
}

// Drives the worker of a case under a plan, and does its journal again by another one, which shows the same then.
fn expect_again(
    alloc: Global,
    case: &Case,
    watches: bool,
    units: Option<u64>,
    letters: &str,
) -> Result<(), Fail> {
    let mut first = worker_in(alloc, case, watches)?;
    drive_or_count(alloc, &mut first, units, letters)?;
    let mut second = worker_in(alloc, case, watches)?;
    redo_all(&mut second, first.journal(), units.is_some())?;
    expect_text(shown(alloc, &second)?, shown(alloc, &first)?.as_str())
}

// The same with and without a condition and a count.
fn expect_each_again(alloc: Global, case: &Case, letters: &str) -> Result<(), Fail> {
    for (watches, units) in [
        (false, None),
        (true, None),
        (false, Some(3)),
        (true, Some(5)),
        (false, Some(8)),
    ] {
        expect_again(alloc, case, watches, units, letters)?;
    }
    Ok(())
}

#[test]
fn journals_are_done_again(rt: HostRuntime) -> Result<(), Fail> {
    let alloc = rt.alloc();
    for case in [FILTER, JOIN, GROUP, SINK] {
        for seed in 0..64 {
            let letters = letters_of(alloc, seed)?;
            expect_each_again(alloc, &case, letters.as_str())?;
        }
    }
    Ok(())
}

/// A line, the hand before it where a count is armed, and the hand after it, or nothing where it is illegal.
pub type Line = (Entry, Option<u64>, Option<u64>);

// Expects what a line comes to. Where it is illegal the worker shows what it showed.
fn expect_line(alloc: Global, worker: &mut Worker, line: &Line) -> Result<(), Fail> {
    let (entry, before, after) = line;
    let old = shown(alloc, worker)?;
    let found = redo_line(worker, entry, *before)?;
    let new = shown(alloc, worker)?;
    if found != after.map(u128::from) {
        return Err(Fail::new(new));
    }
    if after.is_none() {
        return expect_text(new, old.as_str());
    }
    Ok(())
}

/// The same of these lines, one after the other.
pub fn expect_lines(alloc: Global, worker: &mut Worker, lines: &[Line]) -> Result<(), Fail> {
    for line in lines {
        expect_line(alloc, worker, line)?;
    }
    Ok(())
}

// The same of the worker of a case, with or without its condition.
fn expect_in(alloc: Global, case: &Case, watches: bool, lines: &[Line]) -> Result<(), Fail> {
    let mut worker = worker_in(alloc, case, watches)?;
    expect_lines(alloc, &mut worker, lines)
}

/// An entry that takes and emits rows.
pub const fn go(rows: u64, outs: u64) -> Entry {
    Entry::Go { rows, outs }
}

/// An entry that takes a batch of a sender.
pub const fn take(from: u32, batch: u64) -> Entry {
    Entry::Take { from, batch }
}

// Of the rows 1, -1, 2, 3 a filter passes three.
#[test]
fn a_filter_does_the_lines_that_meet_their_rule(rt: HostRuntime) -> Result<(), Fail> {
    let lines = [
        (go(0, 1), None, None),
        (go(1, 0), None, None),
        (Entry::Finish, None, None),
        (Entry::Resume, None, None),
        (Entry::Grant { n: 1 }, None, None),
        (Entry::Back { n: 1 }, None, None),
        (take(0, 1), None, None),
        (take(1, 0), None, None),
        (take(0, 0), None, Some(0)),
        (take(0, 0), None, None),
        (Entry::Hold, None, None),
        (go(5, 3), None, None),
        (go(4, 1), None, None),
        (go(4, 4), None, None),
        (go(4, 2), None, Some(0)),
        (Entry::Hold, None, None),
        (Entry::Finish, None, None),
        (Entry::Pause, None, Some(0)),
        (Entry::Pause, None, None),
        (go(0, 1), None, None),
        (Entry::Resume, None, Some(0)),
        (go(0, 2), None, None),
        (go(0, 1), None, Some(0)),
        (take(0, 1), None, None),
        (Entry::Finish, None, Some(0)),
        (Entry::Finish, None, None),
        (Entry::Pause, None, None),
    ];
    expect_in(rt.alloc(), &FILTER, false, &lines)
}

// The last of the three rows meets the condition, and each is emitted with a unit.
#[test]
fn a_counted_filter_does_the_lines_that_meet_their_rule(rt: HostRuntime) -> Result<(), Fail> {
    let lines = [
        (take(0, 0), Some(0), Some(0)),
        (go(1, 0), Some(0), None),
        (Entry::Grant { n: 2 }, Some(0), Some(2)),
        (go(4, 3), Some(4), None),
        (go(4, 2), Some(1), None),
        (go(4, 2), Some(2), None),
        (go(4, 2), Some(3), Some(1)),
        (Entry::Back { n: 2 }, Some(1), None),
        (Entry::Hold, Some(0), None),
        (Entry::Hold, Some(1), Some(1)),
        (Entry::Hold, Some(1), None),
        (Entry::Resume, Some(1), None),
        (Entry::Pause, Some(1), Some(1)),
        (Entry::Back { n: 1 }, Some(1), Some(0)),
    ];
    expect_in(rt.alloc(), &FILTER, true, &lines)
}

// Of three rows a group makes two, once it has taken the last.
#[test]
fn a_group_does_the_lines_that_meet_their_rule(rt: HostRuntime) -> Result<(), Fail> {
    let lines = [
        (take(1, 0), None, Some(0)),
        (go(4, 0), None, None),
        (go(2, 1), None, None),
        (go(3, 3), None, None),
        (go(3, 1), Some(0), None),
        (go(3, 2), Some(2), Some(0)),
        (Entry::Finish, None, Some(0)),
    ];
    expect_in(rt.alloc(), &GROUP, false, &lines)
}

// A second row of the two that a group makes meets the condition.
#[test]
fn a_group_is_held_by_a_row_of_a_line(rt: HostRuntime) -> Result<(), Fail> {
    let lines = [
        (take(1, 0), None, Some(0)),
        (go(3, 2), None, None),
        (go(3, 1), None, Some(0)),
        (Entry::Hold, None, Some(0)),
    ];
    expect_in(rt.alloc(), &GROUP, true, &lines)
}

// Of the probe rows the first has two matches, the second none, and the third one.
#[test]
fn a_join_does_the_lines_that_meet_their_rule(rt: HostRuntime) -> Result<(), Fail> {
    let lines = [
        (take(1, 0), None, None),
        (take(0, 0), None, Some(0)),
        (go(3, 1), None, None),
        (go(4, 0), None, None),
        (go(3, 0), None, Some(0)),
        (take(1, 0), None, Some(0)),
        (go(1, 3), None, None),
        (go(3, 1), None, None),
        (go(3, 4), None, None),
        (go(3, 2), None, Some(0)),
        (Entry::Pause, None, Some(0)),
        (Entry::Resume, None, Some(0)),
        (go(0, 1), None, Some(0)),
        (Entry::Finish, None, Some(0)),
    ];
    expect_in(rt.alloc(), &JOIN, false, &lines)
}

// The second match of the first probe row meets the condition.
#[test]
fn a_join_is_held_by_a_row_of_a_line(rt: HostRuntime) -> Result<(), Fail> {
    let lines = [
        (take(0, 0), None, Some(0)),
        (go(3, 0), None, Some(0)),
        (take(1, 0), None, Some(0)),
        (go(3, 2), None, None),
        (go(1, 2), None, None),
        (go(1, 1), None, Some(0)),
        (Entry::Hold, None, Some(0)),
        (go(0, 1), None, None),
    ];
    expect_in(rt.alloc(), &JOIN, true, &lines)
}
