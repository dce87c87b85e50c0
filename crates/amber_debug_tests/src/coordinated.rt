//! A coordinator beside the workers of a round: what they have done when it has told them something. On three threads it has its
//! turns on the last of them, and a gate holds a worker of the others until it has told something. Rests on `home_calls`.

ghost use Rattle.std.specs.Prelude.{◌<◌, ◌≤◌};

use crate::expected::expect_text;
use crate::home_calls::{apply, home_of, home_with, run_leg_on, shown_at, stops};
use amber_home::{Home, NoMemory};
use amber_log::Command;
use amber_mail::Gate;
use amber_rows::{Cmp, Cond, Value};
use std::alloc::Global;
use std::sync::atomic::{AtomicU64, Ordering};
use std::test::Fail;
use std::thread::{Threads, yield_now};

// How often a worker looks at most whether it may pass.
const LOOKS: u64 = 20_000_000;

// A turn of a worker that is held until another has passed often enough.
#[derive(Clone, Copy)]
struct Hold {
    who: u32,
    turn: u64,
    other: u32,
    passes: u64,
}

// A gate at which some turns are held. Nobody waits for himself, and every wait has an end.
#[derive(Drop)]
struct HoldGate<'a> {
    holds: &'a [Hold],
    // How often each has passed, up to the fifth.
    passed: [AtomicU64; 5],
}

impl HoldGate<'_> {
    fn new(holds: &[Hold]) -> HoldGate<'_> {
        HoldGate {
            holds,
            passed: [
                AtomicU64::new(0),
                AtomicU64::new(0),
                AtomicU64::new(0),
                AtomicU64::new(0),
                AtomicU64::new(0),
            ],
        }
    }

    // How often somebody has passed; often enough where nobody counts it.
    fn passes_of(&self, who: u32) -> u64 {
        match self.passed.get(who as usize) {
            Some(passes) => passes.load(Ordering::SeqCst),
            None => u64::MAX,
        }
    }

    fn wait(&self, hold: &Hold) {
        for _ in 0..LOOKS {
            if hold.passes <= self.passes_of(hold.other) {
                return;
            }
            yield_now();
        }
    }
}

impl Gate for HoldGate<'_> {
    fn pass(&self, who: u32, turn: u64) {
        for hold in self.holds {
            if hold.who == who && hold.turn == turn {
                self.wait(hold);
            }
        }
        if let Some(passes) = self.passed.get(who as usize) {
            passes.fetch_add(1, Ordering::SeqCst);
        }
    }
}

// A file of so many numbers, 2 and greater.
fn file_of(alloc: Global, rows: u32) -> Result<String, NoMemory> {
    let mut file = String::from_str(alloc, "n\n")?;
    for row in 0..rows {
        let n = u64::from(row) + 2;
        file.push_str(&format!(in alloc; "{n}\n")?)?;
    }
    Ok(file)
}

// ---- a pause

// The stops of a leg where the filter is to pause after a row.
fn paused_text<R: Threads + Sync>(
    rt: &R,
    alloc: Global,
    threads: u32,
    holds: &[Hold],
) -> Result<String, Fail>
    requires some { 0 < threads }
    requires few { threads ≤ 64 }
{
    let file = file_of(alloc, 100)?;
    let mut home = home_of(rt, alloc, file.as_str(), 10, 10_000)?;
    let _asked = apply(alloc, &mut home, &Command::Pause { op: 2, n: 1 })?;
    let _went = run_leg_on(rt, alloc, &mut home, false, threads, &HoldGate::new(holds))?;
    let told = stops(alloc, &home)?;
    Ok(told)
}

// The scan puts out its first batch of ten rows in the second slice, of which the filter takes seven in its own.
#[test]
fn a_pause_is_told_behind_a_slice(rt: HostRuntime) -> Result<(), Fail> {
    expect_text(
        paused_text(&rt, rt.alloc(), 1, &[])?,
        "stop pause big 1 7\n",
    )
}

// The filter waits for the first batches, and before its twentieth turn until all were told to pause: it has put out nine rows
// then, or fewer where it was told before.
#[test]
fn a_pause_is_told_within_a_slice(rt: HostRuntime) -> Result<(), Fail> {
    let alloc = rt.alloc();
    let holds = [
        Hold {
            who: 1,
            turn: 0,
            other: 0,
            passes: 100,
        },
        Hold {
            who: 1,
            turn: 19,
            other: 3,
            passes: 1,
        },
    ];
    let told = paused_text(&rt, alloc, 3, &holds)?;
    for rows in 1..10 {
        if told == format!(in alloc; "stop pause big 1 {rows}\n")? {
            return Ok(());
        }
    }
    Err(Fail::new(told))
}

// ---- a condition

// Asks the filter to stop at the first row.
fn watch_first(alloc: Global, home: &mut Home) -> Result<bool, NoMemory> {
    let cond = Cond {
        column: 1,
        op: Cmp::Eq,
        constant: Value::Int(2),
    };
    apply(alloc, home, &Command::When { op: 2, cond })
}

// Whether the scan has finished when the filter was held before the first row.
fn scan_has_finished<R: Threads + Sync>(
    rt: &R,
    alloc: Global,
    threads: u32,
    holds: &[Hold],
) -> Result<bool, Fail>
    requires some { 0 < threads }
    requires few { threads ≤ 64 }
{
    let file = file_of(alloc, 100_000)?;
    let mut home = home_of(rt, alloc, file.as_str(), 10, 1_000_000)?;
    let _watched = watch_first(alloc, &mut home)?;
    let _went = run_leg_on(rt, alloc, &mut home, false, threads, &HoldGate::new(holds))?;
    let scan = shown_at(alloc, &home, 1)?;
    Ok(scan.contains("finished"))
}

// The scan would come to its end in the first round. The filter waits for its first batches.
#[test]
fn a_worker_is_paused_where_another_is_held(rt: HostRuntime) -> Result<(), Fail> {
    let holds = [
        Hold {
            who: 1,
            turn: 0,
            other: 0,
            passes: 100,
        },
        Hold {
            who: 0,
            turn: 1000,
            other: 3,
            passes: 1,
        },
    ];
    let alone = scan_has_finished(&rt, rt.alloc(), 1, &[])?;
    let beside = scan_has_finished(&rt, rt.alloc(), 3, &holds)?;
    expect_text(
        format!(in rt.alloc(); "alone {alone} beside {beside}")?,
        "alone false beside false",
    )
}

// ---- a count

// A leg of two scans of a hundred rows each up to their eightieth row: its stops, and how many steps were made at home.
fn counted_text<R: Threads + Sync>(
    rt: &R,
    alloc: Global,
    threads: u32,
    holds: &[Hold],
) -> Result<String, Fail>
    requires some { 0 < threads }
    requires few { threads ≤ 64 }
{
    let file = file_of(alloc, 200)?;
    let mut home = home_with(rt, alloc, file.as_str(), 2)?;
    let _asked = apply(alloc, &mut home, &Command::Count { op: 1, n: 80 })?;
    let _went = run_leg_on(rt, alloc, &mut home, false, threads, &HoldGate::new(holds))?;
    let told = stops(alloc, &home)?;
    let alone = home.alone();
    Ok(format!(in alloc; "{told}alone {alone}")?)
}

// How often the test of units is tried: a thread may be kept from its processor for longer than a round waits for it.
const TRIES: u32 = 8;

// One scan has all units at first, the other none. The first waits until it was told to give them back, and both until they were
// told to claim.
#[test]
fn units_are_divided_in_the_first_round(rt: HostRuntime) -> Result<(), Fail> {
    let holds = [
        Hold {
            who: 0,
            turn: 20,
            other: 4,
            passes: 1,
        },
        Hold {
            who: 0,
            turn: 70,
            other: 4,
            passes: 3,
        },
        Hold {
            who: 1,
            turn: 70,
            other: 4,
            passes: 3,
        },
    ];
    let alloc = rt.alloc();
    let mut told = String::new(alloc);
    for _ in 0..TRIES {
        told = counted_text(&rt, alloc, 3, &holds)?;
        if told.as_str() == "stop count all 80\nalone 0" {
            return Ok(());
        }
    }
    Err(Fail::new(told))
}
