//! Legs on threads: steps that are made in turns alone, and workers that meet at a gate. Rests on `home_calls`.

use crate::expected::expect_text;
use crate::home_calls::{home_of, numbers, run_leg_on};
use amber_mail::{MeetGate, OpenGate};
use std::test::Fail;

// How often each of two workers looks for the other, at a gate at which they meet, before it goes on alone.
const LOOKS: u64 = 4_000_000_000;

// One thread drives the workers in their order, so that nothing is left for a step at home.
#[test]
fn a_leg_is_made_in_turns_alone(rt: HostRuntime) -> Result<(), Fail> {
    let alloc = rt.alloc();
    let mut home = home_of(&rt, alloc, "n\n2\n1\n3\n", 400, 1000)?;
    let went = run_leg_on(&rt, alloc, &mut home, true, 1, &OpenGate)?;
    let told = numbers(alloc, &home)?;
    let alone = home.alone();
    expect_text(
        format!(in alloc; "went {went} {told} alone {alone}")?,
        "went true operators 3 files 1 items 1 most 1000 steps 18 alone 0",
    )
}

// The first turn of the scan waits until that of the filter has begun, and the other way round: whoever drives one after the other
// never has them meet.
#[test]
fn two_workers_run_side_by_side(rt: HostRuntime) -> Result<(), Fail> {
    let alloc = rt.alloc();
    let mut home = home_of(&rt, alloc, "n\n2\n1\n3\n", 400, 1000)?;
    let gate = MeetGate::new(0, 1, LOOKS);
    let went = run_leg_on(&rt, alloc, &mut home, true, 2, &gate)?;
    let told = numbers(alloc, &home)?;
    let met = gate.met();
    expect_text(
        format!(in alloc; "went {went} {told} met {met}")?,
        "went true operators 3 files 1 items 1 most 1000 steps 18 met true",
    )
}
