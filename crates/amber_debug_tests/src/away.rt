//! Legs whose workers go away and come back: without a turn, twice, paused, held, and up to two counts. Rests on `lent`
//! and `home_calls`.

use crate::expected::expect_text;
use crate::home_calls::{
    apply, close_leg, disarm_leg, feed, home_of, open_leg, resume, stops, written,
};
use crate::lent::go_away;
use amber_home::{Home, NoMemory};
use amber_log::Command;
use amber_rows::{Cmp, Cond, Value};
use std::alloc::Global;
use std::test::Fail;

// The workers go away once for each of these lists of plans, with units where they need some, and whoever is paused then
// goes on where nobody is held. How often they were away, and how often it was so.
fn go_and_come(alloc: Global, home: &mut Home, rounds: &[&[&str]]) -> Result<(u32, u32), NoMemory> {
    let mut away = 0u32;
    let mut resumed = 0u32;
    for plans in rounds {
        let _fed = feed(home)?;
        if go_away(alloc, home, plans)? {
            away = away.saturating_add(1);
        }
        if resume(home)? {
            resumed = resumed.saturating_add(1);
        }
    }
    Ok((away, resumed))
}

// A leg that is opened, in which the workers go away, and that is closed where a stop stands; the stops, and what each worker
// has written down.
fn away_text(alloc: Global, home: &mut Home, rounds: &[&[&str]]) -> Result<String, Fail> {
    let opened = open_leg(alloc, home)?;
    let (away, resumed) = go_and_come(alloc, home, rounds)?;
    let closed = disarm_leg(home) && close_leg(alloc, home)?;
    let stops = stops(alloc, home)?;
    let written = written(alloc, home)?;
    Ok(format!(in alloc;
        "opened {opened} away {away} resumed {resumed} closed {closed}\n{stops}{written}"
    )?)
}

// The workers are away and come back as they went: the leg can't be closed yet, since no stop stands.
#[test]
fn workers_come_back_without_a_turn(rt: HostRuntime) -> Result<(), Fail> {
    let alloc = rt.alloc();
    let mut home = home_of(&rt, alloc, "n\n2\n1\n3\n", 400, 1000)?;
    expect_text(
        away_text(alloc, &mut home, &[&[]])?,
        "opened true away 1 resumed 1 closed false\n",
    )
}

// First the scan comes to its end, and the filter is told to pause before its third turn; then it goes on, and so does the sink.
#[test]
fn a_leg_is_lent_twice(rt: HostRuntime) -> Result<(), Fail> {
    let alloc = rt.alloc();
    let mut home = home_of(&rt, alloc, "n\n2\n1\n3\n", 400, 1000)?;
    expect_text(
        away_text(alloc, &mut home, &[&["", "--p"], &["", "", ""]])?,
        "opened true away 2 resumed 2 closed true\nstop end\nw 0 g 3 3 f 0 0 w 1 t 0 0 g 1 0 p 0 0 r 0 0 g 2 2 f 0 0 w 2 t 1 0 g 2 0 f 0 0 ",
    )
}

// A condition at an operator.
fn watch(alloc: Global, home: &mut Home, op: u32, n: i64) -> Result<bool, NoMemory> {
    let cond = Cond {
        column: 1,
        op: Cmp::Ge,
        constant: Value::Int(n),
    };
    apply(alloc, home, &Command::When { op, cond })
}

// Conditions at scan and filter, and a leg in which the workers go away.
fn watched_text(alloc: Global, home: &mut Home) -> Result<String, Fail> {
    let watched = watch(alloc, home, 1, 3)? && watch(alloc, home, 2, 2)?;
    let told = away_text(alloc, home, &[&["", "", ""]])?;
    Ok(format!(in alloc; "watched {watched} {told}")?)
}

// The scan is held before the 3, and the filter before the 2 that was sent to it: two workers are held at one cut.
#[test]
fn two_workers_are_held_at_once(rt: HostRuntime) -> Result<(), Fail> {
    let alloc = rt.alloc();
    let mut home = home_of(&rt, alloc, "n\n2\n3\n", 1, 1000)?;
    expect_text(
        watched_text(alloc, &mut home)?,
        "watched true opened true away 1 resumed 0 closed true\nstop held all 0 3\nstop held big 0 2\nw 0 g 2 1 h 0 0 w 1 t 0 0 g 1 0 h 0 0 ",
    )
}

// Counts at scan and filter, and a leg in which the workers go away twice.
fn counted_text(alloc: Global, home: &mut Home) -> Result<String, Fail> {
    let scan = apply(alloc, home, &Command::Count { op: 1, n: 2 })?;
    let filter = apply(alloc, home, &Command::Count { op: 2, n: 1 })?;
    let told = away_text(alloc, home, &[&["---p", ""], &["", ""]])?;
    Ok(format!(in alloc; "counted {scan} {filter} {told}")?)
}

// The scan is told to pause before it emits its second row; then it does so, while the filter emits its first one: both have used all
// of their units, and both counts stand at one cut.
#[test]
fn two_counts_stop_at_one_cut(rt: HostRuntime) -> Result<(), Fail> {
    let alloc = rt.alloc();
    let mut home = home_of(&rt, alloc, "n\n2\n3\n4\n", 1, 1000)?;
    expect_text(
        counted_text(alloc, &mut home)?,
        "counted true true opened true away 2 resumed 2 closed true\nstop count all 2\nstop count big 1\nw 0 a 2 0 g 2 1 p 0 0 r 0 0 g 0 1 w 1 t 0 0 a 1 0 g 1 1 t 0 1 ",
    )
}
