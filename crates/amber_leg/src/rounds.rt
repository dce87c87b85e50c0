//! Rounds of a leg, one after the other, until it may be closed. Over `round`, `looking` and what `Home` does between rounds.

ghost use Rattle.std.specs.Prelude.{◌≡◌, ◌<◌, ◌≤◌, IfNone, IfOk, IfSome, OnErr, OnOk, [], true};
ghost use Rattle.amber_meaning.specs.State.{steps_in};
ghost use Rattle.amber_home.specs.HomeState.{IsEarly, MayClose, counts_in, is_open, runs_to_end, spent_at, state_of, stops_of_home};
ghost use Rattle.amber_home.specs.declared.phase.Counts.TheVariants as counts;
ghost use Rattle.amber_leg.specs.Leg.{DrivesRound, EndsRounds, GoesFurther, AddsUp, IsUndriven, MakesRoundAndStep, MayCount, MovesOn, StepsAlone, most_turned};

use crate::budget::budget_of;
use crate::looking::look;
use crate::round::round;
use amber_home::Home;
use amber_log::Close;
use amber_mail::Gate;
use std::alloc::{AllocError, Global};
use std::thread::Threads;

// Units are handed to those whose turn it is, and then the workers make the turns of a round.
fn feed_and_drive<R: Threads + Sync, G: Gate + Sync>(
    rt: &R,
    alloc: Global,
    home: &mut Home,
    threads: u32,
    gate: &G,
    number: u64,
    done: &mut Vec<u64>,
) -> Result<(), AllocError>
    requires some { 0 < threads }
    requires within { is_open home.old.phase ≡ true }
    requires armed { counts_in home.old.phase ≡ counts.Armed }
    requires early { IsEarly home.old }
    requires fits { MayCount most_turned home.old }
    ensures ok { OnOk result (GoesFurther home.old home.new) }
    ensures drives { OnOk result (DrivesRound home.old home.new) }
    ensures more { OnOk result (steps_in (state_of home.old) ≤ steps_in (state_of home.new)) }
    ensures few { OnOk result (steps_in (state_of home.new) ≤ home.old.most) }
    ensures err { OnErr result (home.new ≡ spent_at home.old) }
{
    home.feed(number)?;
    let budget = budget_of(home, threads);
    round(rt, alloc, home, gate, budget, done)
}

// Where nobody is held and no stop stands, whoever was paused goes on, and the first worker that has not finished makes a step.
fn step_on(home: &mut Home) -> Result<(), AllocError>
    requires within { is_open home.old.phase ≡ true }
    requires armed { counts_in home.old.phase ≡ counts.Armed }
    requires none { stops_of_home home.old ≡ [] }
    requires early { IsEarly home.old }
    requires few { steps_in (state_of home.old) < home.old.most }
    ensures ok { OnOk result (GoesFurther home.old home.new) }
    ensures moves { OnOk result (MovesOn home.old home.new) }
    ensures alone { OnOk result (StepsAlone home.old home.new) }
    ensures err { OnErr result (home.new ≡ record (spent_at home.old) {
      alone = home.new.alone;
    }) }
{
    if !home.are_loose() {
        unreachable!()
    }
    home.resume()?;
    home.home_step()
}

// How the leg may be closed, if it may; else there is a round, and a step behind it where the leg may not be closed then.
fn go_on<R: Threads + Sync, G: Gate + Sync>(
    rt: &R,
    alloc: Global,
    home: &mut Home,
    threads: u32,
    gate: &G,
    number: u64,
    done: &mut Vec<u64>,
) -> Result<Option<Close>, AllocError>
    requires some { 0 < threads }
    requires within { is_open home.old.phase ≡ true }
    requires armed { counts_in home.old.phase ≡ counts.Armed }
    requires fits { MayCount most_turned home.old }
    ensures ok { OnOk result (GoesFurther home.old home.new) }
    ensures may { IfOk result
        (λ found. IfSome found (MayClose (runs_to_end home.new.phase) home.new)) }
    ensures moves { IfOk result (λ found. IfNone found (MovesOn home.old home.new)) }
    ensures ends { IfOk result (λ found. IfSome found (λ _. EndsRounds home.old home.new)) }
    ensures works { IfOk result (λ found. IfNone found (MakesRoundAndStep home.old home.new)) }
    ensures err { OnErr result (home.new ≡ record (spent_at home.old) {
      alone = home.new.alone;
    }) }
{
    if let Some(close) = look(alloc, home)? {
        return Ok(Some(close));
    }
    if !home.are_loose() {
        unreachable!()
    }
    feed_and_drive(rt, alloc, home, threads, gate, number, done)?;
    if let Some(close) = look(alloc, home)? {
        return Ok(Some(close));
    }
    step_on(home)?;
    Ok(None)
}

/// Rounds until the leg that is open, whose counts are armed, may be closed. The answer says how. After running out of memory
/// the log is as before, and the run cannot go on.
pub(crate) fn go_rounds<R: Threads + Sync, G: Gate + Sync>(
    rt: &R,
    alloc: Global,
    home: &mut Home,
    threads: u32,
    gate: &G,
) -> Result<Close, AllocError>
    requires some { 0 < threads }
    requires within { is_open home.old.phase ≡ true }
    requires armed { counts_in home.old.phase ≡ counts.Armed }
    requires undriven { IsUndriven home.old }
    ensures ok { OnOk result (GoesFurther home.old home.new) }
    ensures driven { OnOk result (AddsUp home.old home.new) }
    ensures may { IfOk result (MayClose (runs_to_end home.new.phase) home.new) }
    ensures err { OnErr result (home.new ≡ record (spent_at home.old) {
      alone = home.new.alone;
    }) }
{
    let left = home.most() - home.steps();
    // What each worker did in the round before: before the first one nothing is known.
    let mut done = Vec::new(alloc);
    'rounds: for number in 0..left + 2 {
        if let Some(close) = go_on(rt, alloc, home, threads, gate, number, &mut done)? {
            return Ok(close);
        }
    }
    unreachable!()
}
