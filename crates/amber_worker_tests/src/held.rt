//! Workers that are held before a row: which rows hold one, and what goes on after it. Tests conditions of `amber_worker`.

use crate::expected::expect_text;
use crate::fed::{GROUPED, JOINED, fed_worker, watch_from};
use crate::told::drive;
use amber_rows::Value;
use amber_worker::Worker;
use std::alloc::Global;
use std::test::Fail;

// What is done to a worker.
#[derive(Clone, Copy)]
enum Step {
    // It is driven until it moves no more.
    Drive,
    // A leg begins.
    Begin,
    // A leg begins, in which rows hold the worker whose number in this column is this or greater.
    Watch(u32, i64),
    // The row is dropped before which it is held.
    Drop,
    // The constant is set.
    Set(i64),
}

// Does this, and appends what a drive tells.
fn do_step(alloc: Global, worker: &mut Worker, step: Step, texts: &mut String) -> Result<(), Fail> {
    match step {
        Step::Drive => {
            texts.push_str(drive(alloc, worker, 100)?.as_str())?;
            texts.push_str("; ")?;
        }
        Step::Begin => worker.begin(),
        Step::Watch(column, number) => {
            worker.begin();
            watch_from(worker, column, number)?;
        }
        Step::Drop => {
            let _row = worker.drop_held();
        }
        Step::Set(number) => worker.set(Value::Int(number)),
    }
    Ok(())
}

// Does these steps one after the other. What the drives tell.
fn texts_after(alloc: Global, worker: &mut Worker, steps: &[Step]) -> Result<String, Fail> {
    let mut texts = String::new(alloc);
    for step in steps {
        do_step(alloc, worker, *step, &mut texts)?;
    }
    Ok(texts)
}

// What the filter tells that has these rows.
fn filter_tells(alloc: Global, rows: &[[i64; 2]], steps: &[Step]) -> Result<String, Fail> {
    let mut worker = fed_worker(alloc, GROUPED, 1, &[rows])?;
    texts_after(alloc, &mut worker, steps)
}

// One probe row has three matches, whose fourth cells are 1, 2 and 3. Emitted are those before the one that holds it.
#[test]
fn a_match_of_a_probe_row_holds_a_join(rt: HostRuntime) -> Result<(), Fail> {
    let alloc = rt.alloc();
    for (number, want) in [
        (1, "7 held | t 0 0 g 3 0 t 1 0 g 1 0 h 0 0 | 4 0 0 3; "),
        (2, "8 held | t 0 0 g 3 0 t 1 0 g 1 1 h 0 0 | 4 0 1 2; "),
        (3, "9 held | t 0 0 g 3 0 t 1 0 g 1 2 h 0 0 | 4 0 2 1; "),
        (4, "11 ended | t 0 0 g 3 0 t 1 0 g 1 3 f 0 0 | 4 0 3 0; "),
    ] {
        let sides: [&[[i64; 2]]; 2] = [&[[7, 1], [7, 2], [7, 3]], &[[7, 9]]];
        let mut join = fed_worker(alloc, JOINED, 2, &sides)?;
        let steps = [Step::Watch(4, number), Step::Drive];
        expect_text(texts_after(alloc, &mut join, &steps)?, want)?;
    }
    Ok(())
}

// Its rows are pending with its last row; the second of them counts two, which holds it.
#[test]
fn a_row_of_a_group_holds_it(rt: HostRuntime) -> Result<(), Fail> {
    let alloc = rt.alloc();
    let mut group = fed_worker(alloc, GROUPED, 2, &[&[[5, 0], [6, 0], [6, 1]]])?;
    let steps = [Step::Watch(2, 2), Step::Drive, Step::Begin, Step::Drive];
    expect_text(
        texts_after(alloc, &mut group, &steps)?,
        "6 held | t 1 0 g 3 1 h 0 0 | 3 0 1 1; 3 ended | g 0 1 f 0 0 | 3 0 2 0; ",
    )
}

// It is waved on as a leg begins, also by a condition that is new; the row behind it is not.
#[test]
fn a_waved_row_that_meets_the_condition_does_not_hold_twice(rt: HostRuntime) -> Result<(), Fail> {
    let alloc = rt.alloc();
    let steps = [
        Step::Watch(1, 2),
        Step::Drive,
        Step::Watch(1, 1),
        Step::Drive,
    ];
    expect_text(
        filter_tells(alloc, &[[2, 0], [3, 0]], &steps)?,
        "3 held | t 0 0 g 1 0 h 0 0 | 1 1 0 1; 3 held | g 1 1 h 0 0 | 2 0 1 1; ",
    )
}

// Each holds it, one after the other.
#[test]
fn each_of_rows_of_equal_cells_holds(rt: HostRuntime) -> Result<(), Fail> {
    let alloc = rt.alloc();
    let steps = [
        Step::Watch(1, 4),
        Step::Drive,
        Step::Begin,
        Step::Drive,
        Step::Drop,
        Step::Drive,
        Step::Begin,
        Step::Drive,
    ];
    expect_text(
        filter_tells(alloc, &[[4, 0], [4, 0], [4, 0]], &steps)?,
        "3 held | t 0 0 g 1 0 h 0 0 | 1 2 0 1; 3 held | g 1 1 h 0 0 | 2 1 1 1; 2 held | g 1 1 h 0 0 g 1 0 h 0 0 | 3 0 1 1; 3 ended | g 0 1 f 0 0 | 3 0 2 0; ",
    )
}

// The row that is held passed under the old constant, and goes; those after it are judged by the new one.
#[test]
fn a_constant_that_is_set_while_held_is_for_later_rows(rt: HostRuntime) -> Result<(), Fail> {
    let alloc = rt.alloc();
    let steps = [
        Step::Watch(1, 2),
        Step::Drive,
        Step::Set(5),
        Step::Begin,
        Step::Drive,
    ];
    expect_text(
        filter_tells(alloc, &[[2, 0], [3, 0], [6, 0]], &steps)?,
        "3 held | t 0 0 g 1 0 h 0 0 | 1 2 0 1; 4 held | g 2 1 h 0 0 | 3 0 1 1; ",
    )
}
