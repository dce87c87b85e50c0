//! A home called by hand: a leg step by step, commands at rest, and a leg to the end. Rests on `home_calls`.

use crate::expected::expect_text;
use crate::home_calls::{
    answer, apply, close_leg, disarm_leg, finished, home_over, in_force, numbers, open_leg,
    run_leg, shown, step, stops, take_answer, written,
};
use amber_home::{Home, NoMemory, Phase};
use amber_log::Command;
use amber_rows::{Cmp, Cond, Value};
use std::alloc::Global;
use std::test::Fail;
use std::thread::Threads;

// ---- a leg step by step

// Opens a leg that stops once the filter has emitted a row. Whether it is open.
fn begin_leg(alloc: Global, home: &mut Home) -> Result<bool, NoMemory> {
    let pause = Command::Pause { op: 2, n: 1 };
    Ok(apply(alloc, home, &pause)? && open_leg(alloc, home)?)
}

// Whether a stop stands.
fn has_stopped(alloc: Global, home: &Home) -> Result<bool, NoMemory> {
    Ok(!stops(alloc, home)?.is_empty())
}

// Steps of the leg that is open until a stop stands. How many were made.
fn steps_to_a_stop(alloc: Global, home: &mut Home) -> Result<u32, NoMemory> {
    for made in 0..30 {
        if has_stopped(alloc, home)? || !step(alloc, home)? {
            return Ok(made);
        }
    }
    Ok(30)
}

// What is known of a leg: whether it was opened, how many steps were made, and whether it was closed.
fn leg_text(alloc: Global, home: &mut Home) -> Result<String, NoMemory> {
    let opened = begin_leg(alloc, home)?;
    let made = steps_to_a_stop(alloc, home)?;
    let closed = disarm_leg(home) && close_leg(alloc, home)?;
    format!(in alloc; "opened {opened} steps {made} closed {closed}")
}

// The same, and then the stops and the numbers of the home.
fn stopped_text(alloc: Global, home: &mut Home) -> Result<String, NoMemory> {
    let leg = leg_text(alloc, home)?;
    let stops = stops(alloc, home)?;
    let numbers = numbers(alloc, home)?;
    format!(in alloc; "{leg}\n{stops}{numbers}")
}

// The scan takes and emits three rows and finishes; the filter takes the batch and the first row, and emits it.
#[test]
fn a_leg_is_run_step_by_step(rt: HostRuntime) -> Result<(), Fail> {
    let alloc = rt.alloc();
    let mut home = home_over(&rt, alloc, "n\n2\n1\n3\n")?;
    expect_text(
        stopped_text(alloc, &mut home)?,
        "opened true steps 10 closed true\nstop pause big 1 1\noperators 3 files 1 items 2 most 30 steps 10",
    )
}

// ---- commands at rest

// Asks the filter to pause after a row, and gives it another constant. Whether both was done.
fn ask(alloc: Global, home: &mut Home) -> Result<bool, NoMemory> {
    let pause = Command::Pause { op: 2, n: 1 };
    let value = Value::Int(3);
    let set = Command::Set { op: 2, value };
    Ok(apply(alloc, home, &pause)? && apply(alloc, home, &set)?)
}

// What the filter shows once it was asked, and once that was taken back.
fn asked_text(alloc: Global, home: &mut Home) -> Result<String, NoMemory> {
    let asked = ask(alloc, home)?;
    let before = shown(alloc, home)?;
    let cleared = apply(alloc, home, &Command::Clear { op: 2 })?;
    let after = shown(alloc, home)?;
    format!(in alloc; "asked {asked}\n{before}cleared {cleared}\n{after}")
}

#[test]
fn a_filter_shows_what_was_asked_of_it(rt: HostRuntime) -> Result<(), Fail> {
    let alloc = rt.alloc();
    let mut home = home_over(&rt, alloc, "n\n2\n1\n3\n4\n")?;
    expect_text(
        asked_text(alloc, &mut home)?,
        "asked true\ninspect big filter\nconstant 3\npause 1\nworker 0 taken 0 rest 0 out 0 pending 0 ready\ncleared true\ninspect big filter\nconstant 3\nworker 0 taken 0 rest 0 out 0 pending 0 ready\n",
    )
}

// ---- what is in force

#[test]
fn a_pause_and_a_condition_are_told(rt: HostRuntime) -> Result<(), Fail> {
    let alloc = rt.alloc();
    let mut home = home_over(&rt, alloc, "n\n2\n")?;
    let before = in_force(alloc, &home)?;
    let paused = apply(alloc, &mut home, &Command::Pause { op: 2, n: 3 })?;
    let cond = Cond {
        column: 1,
        op: Cmp::Eq,
        constant: Value::Int(2),
    };
    let watched = apply(alloc, &mut home, &Command::When { op: 2, cond })?;
    let now = in_force(alloc, &home)?;
    expect_text(
        format!(in alloc; "{before} asked {paused} {watched} {now}")?,
        "pause 0 condition false asked true true pause 3 condition true",
    )
}

// ---- a leg up to a pause

// Asks the filter to pause after `n` rows, and runs a leg. Whether both was done.
fn run_to_a_pause<R: Threads + Sync>(
    rt: &R,
    alloc: Global,
    home: &mut Home,
    n: u64,
) -> Result<bool, Fail> {
    let pause = Command::Pause { op: 2, n };
    Ok(apply(alloc, home, &pause)? && run_leg(rt, alloc, home, false)?)
}

// Asks the filter to stop once it has emitted `n` rows more, and runs a leg. Whether both was done.
fn run_to_a_count<R: Threads + Sync>(
    rt: &R,
    alloc: Global,
    home: &mut Home,
    n: u64,
) -> Result<bool, Fail> {
    Ok(count(alloc, home, n)? && run_leg(rt, alloc, home, false)?)
}

// Asks for a pause, runs a leg, and tells the stops, what the filter shows and what each worker has written down.
fn paused_text<R: Threads + Sync>(
    rt: &R,
    alloc: Global,
    home: &mut Home,
    n: u64,
) -> Result<String, Fail> {
    let ran = run_to_a_pause(rt, alloc, home, n)?;
    let stops = stops(alloc, home)?;
    let shown = shown(alloc, home)?;
    let written = written(alloc, home)?;
    Ok(format!(in alloc; "ran {ran}\n{stops}{shown}{written}")?)
}

// The filter emits a second row, which its pause asks for, and a third one: in the round each worker has turns enough to finish.
#[test]
fn a_leg_past_a_pause_goes_on_to_the_end_of_its_round(rt: HostRuntime) -> Result<(), Fail> {
    let alloc = rt.alloc();
    let mut home = home_over(&rt, alloc, "n\n2\n1\n3\n4\n")?;
    expect_text(
        paused_text(&rt, alloc, &mut home, 2)?,
        "ran true\nstop pause big 2 3\nstop end\ninspect big filter\nconstant 2\nworker 0 taken 4 rest 0 out 3 pending 0 finished\nw 0 g 4 4 f 0 0 w 1 t 0 0 g 4 3 f 0 0 w 2 t 1 0 g 3 0 f 0 0 ",
    )
}

// Two rows were emitted up to a count, so a pause at one stands where the second leg begins.
#[test]
fn nobody_does_anything_where_a_pause_stands(rt: HostRuntime) -> Result<(), Fail> {
    let alloc = rt.alloc();
    let mut home = home_over(&rt, alloc, "n\n2\n1\n3\n4\n")?;
    let _ran = run_to_a_count(&rt, alloc, &mut home, 2)?;
    expect_text(
        paused_text(&rt, alloc, &mut home, 1)?,
        "ran true\nstop pause big 1 2\ninspect big filter\nconstant 2\nworker 0 taken 3 rest 1 out 2 pending 0 ready\n",
    )
}

// Stops after the first row of the filter, sets another constant, and goes on to the end; and the answer.
fn changed_text<R: Threads + Sync>(rt: &R, alloc: Global, home: &mut Home) -> Result<String, Fail> {
    let ran = run_to_a_count(rt, alloc, home, 1)?;
    let value = Value::Int(4);
    let set = apply(alloc, home, &Command::Set { op: 2, value })?;
    let ended = run_leg(rt, alloc, home, true)?;
    let told = answer(alloc, home)?;
    Ok(format!(in alloc; "ran {ran} set {set} ended {ended}\n{told}")?)
}

// The 2 has gone through; the 3, which comes after the change, does not.
#[test]
fn a_constant_holds_from_the_next_row_on(rt: HostRuntime) -> Result<(), Fail> {
    let alloc = rt.alloc();
    let mut home = home_over(&rt, alloc, "n\n2\n1\n3\n4\n")?;
    expect_text(
        changed_text(&rt, alloc, &mut home)?,
        "ran true set true ended true\nrows 2\nn\n2\n4\n",
    )
}

// ---- conditions

// Asks to stop before each row of the filter of 3 or more.
fn watch(alloc: Global, home: &mut Home) -> Result<bool, NoMemory> {
    let cond = Cond {
        column: 1,
        op: Cmp::Ge,
        constant: Value::Int(3),
    };
    apply(alloc, home, &Command::When { op: 2, cond })
}

// Runs a leg, and tells the stops, what the filter shows and what each worker has written down.
fn held_text<R: Threads + Sync>(rt: &R, alloc: Global, home: &mut Home) -> Result<String, Fail> {
    let ran = run_leg(rt, alloc, home, false)?;
    let stops = stops(alloc, home)?;
    let shown = shown(alloc, home)?;
    let written = written(alloc, home)?;
    Ok(format!(in alloc; "ran {ran}\n{stops}{shown}{written}\n")?)
}

// Stops before the 3, drops it, stops before the 4, takes the condition back, and goes on to the end.
fn watched_text<R: Threads + Sync>(rt: &R, alloc: Global, home: &mut Home) -> Result<String, Fail> {
    let watched = watch(alloc, home)?;
    let first = held_text(rt, alloc, home)?;
    let dropped = apply(alloc, home, &Command::Drop { op: 2, worker: 0 })?;
    let second = held_text(rt, alloc, home)?;
    let cleared = apply(alloc, home, &Command::Clear { op: 2 })?;
    let ended = run_leg(rt, alloc, home, true)?;
    let told = answer(alloc, home)?;
    let calls = format!(in alloc; "{watched} {dropped} {cleared} {ended}")?;
    Ok(format!(in alloc; "{first}{second}{calls}\n{told}")?)
}

#[test]
fn a_held_row_is_dropped_or_let_go(rt: HostRuntime) -> Result<(), Fail> {
    let alloc = rt.alloc();
    let mut home = home_over(&rt, alloc, "n\n2\n1\n3\n4\n")?;
    expect_text(
        watched_text(&rt, alloc, &mut home)?,
        "ran true\nstop held big 0 3\ninspect big filter\nconstant 2\nwhen n >= 3\nworker 0 taken 3 rest 1 out 1 pending 1 held\nnext 3\nw 0 g 4 4 f 0 0 w 1 t 0 0 g 3 1 h 0 0 \nran true\nstop held big 0 4\ninspect big filter\nconstant 2\nwhen n >= 3\nworker 0 taken 4 rest 0 out 1 pending 1 held\nnext 4\nw 1 g 1 0 h 0 0 \ntrue true true true\nrows 2\nn\n2\n4\n",
    )
}

// ---- counts

// Asks the filter to stop once it has emitted `n` rows more.
fn count(alloc: Global, home: &mut Home, n: u64) -> Result<bool, NoMemory> {
    apply(alloc, home, &Command::Count { op: 2, n })
}

// Asks for a count, runs a leg, and tells the stops, what the filter shows and what each worker has written down.
fn counted_text<R: Threads + Sync>(
    rt: &R,
    alloc: Global,
    home: &mut Home,
    n: u64,
) -> Result<String, Fail> {
    let asked = count(alloc, home, n)?;
    let told = held_text(rt, alloc, home)?;
    Ok(format!(in alloc; "asked {asked} {told}")?)
}

// The filter needs a unit for its first row, is granted both, and has used them with its second.
#[test]
fn a_leg_stops_with_the_row_that_a_count_asks_for(rt: HostRuntime) -> Result<(), Fail> {
    let alloc = rt.alloc();
    let mut home = home_over(&rt, alloc, "n\n2\n1\n3\n4\n")?;
    expect_text(
        counted_text(&rt, alloc, &mut home, 2)?,
        "asked true ran true\nstop count big 2\ninspect big filter\nconstant 2\nworker 0 taken 3 rest 1 out 2 pending 0 ready\nw 0 g 4 4 f 0 0 w 1 t 0 0 a 2 0 g 3 2 \n",
    )
}

// Three rows go through, so two units are left, which are given back once all have finished.
#[test]
fn units_that_are_left_are_given_back(rt: HostRuntime) -> Result<(), Fail> {
    let alloc = rt.alloc();
    let mut home = home_over(&rt, alloc, "n\n2\n1\n3\n4\n")?;
    expect_text(
        counted_text(&rt, alloc, &mut home, 5)?,
        "asked true ran true\nstop end\ninspect big filter\nconstant 2\ncount 3 of 5\nworker 0 taken 4 rest 0 out 3 pending 0 finished\nw 0 g 4 4 f 0 0 w 1 t 0 0 a 5 0 g 4 3 f 0 0 b 2 0 w 2 t 1 0 g 3 0 f 0 0 \n",
    )
}

// A count of two and a condition: the 3 holds the filter, which has one unit left; it uses one in the next leg.
fn count_and_watch_text<R: Threads + Sync>(
    rt: &R,
    alloc: Global,
    home: &mut Home,
) -> Result<String, Fail> {
    let watched = watch(alloc, home)?;
    let first = counted_text(rt, alloc, home, 2)?;
    let second = held_text(rt, alloc, home)?;
    Ok(format!(in alloc; "watched {watched} {first}{second}")?)
}

#[test]
fn a_held_row_uses_a_unit_once_it_is_emitted(rt: HostRuntime) -> Result<(), Fail> {
    let alloc = rt.alloc();
    let mut home = home_over(&rt, alloc, "n\n2\n1\n3\n4\n")?;
    expect_text(
        count_and_watch_text(&rt, alloc, &mut home)?,
        "watched true asked true ran true\nstop held big 0 3\ninspect big filter\nconstant 2\ncount 1 of 2\nwhen n >= 3\nworker 0 taken 3 rest 1 out 1 pending 1 held\nnext 3\nw 0 g 4 4 f 0 0 w 1 t 0 0 a 2 0 g 3 1 h 0 0 b 1 0 \nran true\nstop count big 2\ninspect big filter\nconstant 2\nwhen n >= 3\nworker 0 taken 3 rest 1 out 2 pending 0 ready\nw 1 a 1 0 g 0 1 \n",
    )
}

// Asks for a count, opens a leg, makes its steps until a stop stands, disarms the counts and closes it.
fn counted_by_steps_text(alloc: Global, home: &mut Home, n: u64) -> Result<String, Fail> {
    let opened = count(alloc, home, n)? && open_leg(alloc, home)?;
    let made = steps_to_a_stop(alloc, home)?;
    let closed = disarm_leg(home) && close_leg(alloc, home)?;
    let stops = stops(alloc, home)?;
    let written = written(alloc, home)?;
    Ok(format!(in alloc; "opened {opened} steps {made} closed {closed}\n{stops}{written}")?)
}

// The scan makes nine steps, the filter takes the batch, the first row and emits it.
#[test]
fn units_are_handed_out_step_by_step(rt: HostRuntime) -> Result<(), Fail> {
    let alloc = rt.alloc();
    let mut home = home_over(&rt, alloc, "n\n2\n1\n3\n4\n")?;
    expect_text(
        counted_by_steps_text(alloc, &mut home, 1)?,
        "opened true steps 12 closed true\nstop count big 1\nw 0 g 4 4 f 0 0 w 1 t 0 0 a 1 0 g 1 1 ",
    )
}

// ---- a leg to the end

// Brings a home to its end, after a look at the filter. Whether each call was made.
fn come_to_the_end<R: Threads + Sync>(
    rt: &R,
    alloc: Global,
    home: &mut Home,
) -> Result<bool, Fail> {
    let look = Command::Inspect { op: 2 };
    Ok(ask(alloc, home)? && apply(alloc, home, &look)? && run_leg(rt, alloc, home, true)?)
}

// The answer, as it is shown and as it is taken out, and whether the home is over then.
fn answers_text(alloc: Global, home: &mut Home) -> Result<String, NoMemory> {
    let told = answer(alloc, home)?;
    let taken = take_answer(alloc, home)?;
    let over = home.phase() == Phase::Over;
    format!(in alloc; "{told}{taken}over {over}")
}

// Whether a home comes to its end, with all finished and the log closed; and its answers.
fn end_text<R: Threads + Sync>(rt: &R, alloc: Global, home: &mut Home) -> Result<String, Fail> {
    let ended = come_to_the_end(rt, alloc, home)?;
    let finished = finished(home);
    let closed = home.closed();
    let answers = answers_text(alloc, home)?;
    Ok(format!(in alloc; "ended {ended} finished {finished} closed {closed}\n{answers}")?)
}

#[test]
fn the_answer_is_told_and_taken_out(rt: HostRuntime) -> Result<(), Fail> {
    let alloc = rt.alloc();
    let mut home = home_over(&rt, alloc, "n\n2\n1\n3\n4\n")?;
    expect_text(
        end_text(&rt, alloc, &mut home)?,
        "ended true finished true closed true\nrows 2\nn\n3\n4\nrows 2\nn\n3\n4\nover true",
    )
}
