//! A leg of a run: it is opened, driven in rounds, and closed. Over `rounds` and the calls of `Home` that open and close.

ghost use Rattle.std.specs.Prelude.{◌≡◌, ◌≢◌, ◌<◌, ◌≤◌, IfOk, OnErr, OnOk, [], false, true};
ghost use Rattle.amber_log.specs.Grammar.{ends_over};
ghost use Rattle.amber_home.specs.HomeState.{MayClose, counts_in, is_open, runs_to_end, spent_at, state_of, stops_of_home};
ghost use Rattle.amber_home.specs.declared.phase.Counts.TheVariants as counts;
ghost use Rattle.amber_home.specs.declared.phase.Phase.TheVariants as phase;
ghost use Rattle.amber_leg.specs.Leg.{DrivesLeg, Ends, IsUndriven};

use crate::error::LegErr;
use crate::looking::look;
use crate::rounds::go_rounds;
use amber_home::Home;
use amber_log::Close;
use amber_mail::Gate;
use std::alloc::{AllocError, Global};
use std::thread::Threads;

// Drives the leg that is open, in which nothing was done yet, until it may be closed. The answer says how. Where a stop stands
// already nothing is done.
fn drive_leg<R: Threads + Sync, G: Gate + Sync>(
    rt: &R,
    alloc: Global,
    home: &mut Home,
    threads: u32,
    gate: &G,
) -> Result<Close, AllocError>
    requires some { 0 < threads }
    requires within { is_open home.old.phase ≡ true }
    requires unarmed { counts_in home.old.phase ≡ counts.Unarmed }
    requires undriven { IsUndriven home.old }
    ensures drives { OnOk result (DrivesLeg home.old home.new) }
    ensures may { IfOk result (MayClose (runs_to_end home.old.phase) home.new) }
    ensures err { OnErr result (home.new ≡ record (spent_at home.old) {
      alone = home.new.alone;
    }) }
{
    if let Some(close) = look(alloc, home)? {
        return Ok(close);
    }
    home.arm_leg(alloc)?;
    let close = go_rounds(rt, alloc, home, threads, gate)?;
    home.disarm_leg();
    Ok(close)
}

/// Runs a leg, up to a stop or to the end, on so many threads, 1 to 64: in rounds, in each of which every worker makes turns
/// on one of the threads, side by side with the workers of the other threads, until a stop stands, or until all have finished.
/// Up to a stop nobody does anything where one stands already. No operator emits more rows than its count asks for, and past
/// its pause none emits more than 1,024 rows a worker. The pauses and the counts that stand at the end of such a leg are
/// taken away; who is held stays so until the next one. Each turn passes the gate, which may hold a thread for a while, and so
/// does the coordinator, as the number behind the last worker's, after whatever it has told a worker. Where a thread can't be
/// had its workers make their turns on the caller's.
///
/// # Errors
///
/// `Long` exactly where the run has made as many steps as it may and no stop stands, or to the end somebody has not finished;
/// the leg stands in the log. After `NoMemory` the log is as before, and the run cannot go on.
pub fn leg<R: Threads + Sync, G: Gate + Sync>(
    rt: &R,
    alloc: Global,
    home: &mut Home,
    to_end: bool,
    threads: u32,
    gate: &G,
) -> Result<(), LegErr>
    requires resting { home.old.phase ≡ phase.Resting }
    requires open { ends_over false home.old.log.items ≡ false }
    requires some_threads { 0 < threads }
    requires few_threads { threads ≤ 64 }
    ensures ends { Ends result to_end home.old home.new }
{
    home.open_leg(to_end);
    let close = drive_leg(rt, alloc, home, threads, gate)?;
    home.close_leg(alloc, close)?;
    match close {
        Close::Cut => Ok(()),
        Close::Long => Err(LegErr::Long),
    }
}
