//! A round of a leg: all workers leave the home, make turns on threads, and come back. Over `Home`, `watch_of` of `watch` and
//! `drive_crew` of `drivers`.

ghost use Rattle.std.specs.Prelude.{◌≡◌, ◌+◌, ◌*◌, ◌<◌, ◌≤◌, OnErr, OnOk, true};
ghost use Rattle.amber_rows.specs.Topology.{crew_of};
ghost use Rattle.amber_meaning.specs.State.{steps_in};
ghost use Rattle.amber_home.specs.HomeState.{counts_in, is_open, spent_at, state_of};
ghost use Rattle.amber_home.specs.declared.phase.Counts.TheVariants as counts;
ghost use Rattle.amber_leg.specs.Driving.{turns_of};
ghost use Rattle.amber_leg.specs.Leg.{MakesRound, MayCount};

use crate::budget::Budget;
use crate::drivers::drive_crew;
use crate::watch::watch_of;
use amber_home::Home;
use amber_mail::Gate;
use std::alloc::{AllocError, Global};
use std::thread::Threads;

/// The workers of the leg that is open make the turns of a round, and where something is in force a coordinator is beside
/// them. After running out of memory the log is as before, and the run cannot go on.
pub(crate) fn round<R: Threads + Sync, G: Gate + Sync>(
    rt: &R,
    alloc: Global,
    home: &mut Home,
    gate: &G,
    budget: Budget,
    done: &mut Vec<u64>,
) -> Result<(), AllocError>
    requires some { 0 < budget.threads }
    requires within { is_open home.old.phase ≡ true }
    requires armed { counts_in home.old.phase ≡ counts.Armed }
    requires few { steps_in (state_of home.old) + crew_of home.old.flow * turns_of budget
        ≤ home.old.most }
    requires fits { MayCount (turns_of budget) home.old }
    ensures ok { OnOk result (MakesRound (turns_of budget) home.old home.new) }
    ensures err { OnErr result (home.new ≡ spent_at home.old) }
{
    let _most = home.most();
    let watch = match watch_of(alloc, home, budget.near) {
        Ok(watch) => watch,
        Err(error) => {
            home.give_up();
            return Err(error);
        }
    };
    let mut crew = home.lend(alloc);
    match drive_crew(rt, alloc, &mut crew, watch, gate, budget, done) {
        Ok(()) => {
            home.take_back(crew);
            home.settle(alloc)
        }
        Err(error) => {
            home.give_up();
            Err(error)
        }
    }
}
