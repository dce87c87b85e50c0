//! Drives under many plans, each against what the judge says: a filter, a join, a group and a sink, with and without a
//! condition and a count. Tests `Worker::drive`.

use crate::counted::count_under;
use crate::fed::{GROUPED, JOINED, fed_worker, watch_from};
use crate::judge::{Item, Work, judged};
use crate::told::{answers_of, drive_under};
use amber_worker::Worker;
use std::alloc::{AllocError, Global};
use std::test::Fail;

/// A worker with the rows of its senders; the items that it comes to; and the number in a column from which on a row holds it,
// with the rows that this holds of those that come of the items.
#[derive(Clone, Copy)]
pub struct Case<'a> {
    pub flow: &'a str,
    pub number: u32,
    pub sides: &'a [&'a [[i64; 2]]],
    items: &'a [Item],
    pub watched: (u32, i64),
    holds: &'a [u64],
}

/// A filter.
pub const FILTER: Case<'static> = Case {
    flow: GROUPED,
    number: 1,
    sides: &[&[[1, 0], [-1, 0], [2, 0], [3, 0]]],
    items: &[
        Item::Batch(0),
        Item::Row(1),
        Item::Row(0),
        Item::Row(1),
        Item::Row(1),
    ],
    watched: (1, 3),
    holds: &[2],
};

/// A join.
pub const JOIN: Case<'static> = Case {
    flow: JOINED,
    number: 2,
    sides: &[&[[7, 1], [7, 2], [8, 3]], &[[7, 9], [6, 9], [8, 1]]],
    items: &[
        Item::Batch(0),
        Item::Row(0),
        Item::Row(0),
        Item::Row(0),
        Item::Batch(1),
        Item::Row(2),
        Item::Row(0),
        Item::Row(1),
    ],
    watched: (4, 2),
    holds: &[1, 2],
};

/// A group.
pub const GROUP: Case<'static> = Case {
    flow: GROUPED,
    number: 2,
    sides: &[&[[5, 0], [6, 0], [6, 1]]],
    items: &[Item::Batch(1), Item::Row(0), Item::Row(0), Item::Row(2)],
    watched: (2, 2),
    holds: &[1],
};

/// A sink.
pub const SINK: Case<'static> = Case {
    flow: GROUPED,
    number: 3,
    sides: &[&[[5, 2], [6, 1]]],
    items: &[Item::Batch(2), Item::Row(0), Item::Row(0)],
    watched: (1, 0),
    holds: &[],
};

/// A plan of 40 looks, a letter each, of this seed: of 16 looks one pauses, four claim, two return, and nine say nothing.
pub fn letters_of(alloc: Global, seed: u64) -> Result<String, AllocError> {
    let mut letters = String::new(alloc);
    let mut state = seed;
    for _ in 0..40 {
        state = state
            .wrapping_mul(6364136223846793005)
            .wrapping_add(1442695040888963407);
        letters.push_str(match (state >> 40) % 16 {
            0 => "p",
            1..=4 => "c",
            5 | 6 => "r",
            _ => "-",
        })?;
    }
    Ok(letters)
}

/// The worker of a case, with or without its condition.
pub fn worker_in(alloc: Global, case: &Case, watches: bool) -> Result<Worker, Fail> {
    let mut worker = fed_worker(alloc, case.flow, case.number, case.sides)?;
    if watches {
        watch_from(&mut worker, case.watched.0, case.watched.1)?;
    }
    Ok(worker)
}

/// What a worker tells that is driven under a plan, with a count that has so many units, or without.
pub fn drive_or_count(
    alloc: Global,
    worker: &mut Worker,
    units: Option<u64>,
    letters: &str,
) -> Result<String, Fail> {
    match units {
        None => drive_under(alloc, worker, letters, 40),
        Some(units) => count_under(alloc, worker, units, letters),
    }
}

// What the worker of a case tells.
fn found(
    alloc: Global,
    case: &Case,
    watches: bool,
    units: Option<u64>,
    letters: &str,
) -> Result<String, Fail> {
    let mut worker = worker_in(alloc, case, watches)?;
    drive_or_count(alloc, &mut worker, units, letters)
}

// Expects that the worker tells what the judge says.
fn expect_judged(
    alloc: Global,
    case: &Case,
    watches: bool,
    units: Option<u64>,
    letters: &str,
) -> Result<(), Fail> {
    let answers = answers_of(alloc, letters)?;
    let work = Work {
        items: case.items,
        holds: if watches { case.holds } else { &[] },
        allotted: units,
    };
    let want = judged(alloc, work, answers.as_slice())?;
    let text = found(alloc, case, watches, units, letters)?;
    if text.as_str().starts_with(want.as_str()) {
        return Ok(());
    }
    Err(Fail::new(format!(in alloc; "{letters}: {text}, and not {want}")?))
}

// The same with and without a condition and a count.
fn expect_each(alloc: Global, case: &Case, letters: &str) -> Result<(), Fail> {
    for (watches, units) in [
        (false, None),
        (true, None),
        (false, Some(0)),
        (false, Some(3)),
        (true, Some(5)),
        (false, Some(8)),
    ] {
        expect_judged(alloc, case, watches, units, letters)?;
    }
    Ok(())
}

// The same under so many plans.
fn expect_seeds(alloc: Global, case: &Case, seeds: u64) -> Result<(), Fail> {
    for seed in 0..seeds {
        let letters = letters_of(alloc, seed)?;
        expect_each(alloc, case, letters.as_str())?;
    }
    Ok(())
}

#[test]
fn workers_do_what_the_judge_says(rt: HostRuntime) -> Result<(), Fail> {
    let alloc = rt.alloc();
    for case in [FILTER, JOIN, GROUP, SINK] {
        expect_seeds(alloc, &case, 64)?;
    }
    Ok(())
}
