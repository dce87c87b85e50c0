//! Workers of a home that are lent, driven by plans, and taken back. Over `Home::lend` of `amber_home` and `Worker::drive` of
//! `amber_worker`.

ghost use Rattle.std.specs.Prelude.{◌≡◌, ◌+◌, ◌*◌, ◌^◌, ◌<◌, ◌≤◌, IfOk, OnOk, length, true};
ghost use Rattle.std.specs.Option.{option_copied};
ghost use Rattle.amber_dataflow.specs.AtWork.{steps_by};
ghost use Rattle.amber_home.specs.HomeState.{counts_in, is_open, state_of};
ghost use Rattle.amber_home.specs.Lent.{IsLent};
ghost use Rattle.amber_meaning.specs.State.{steps_in};
ghost use Rattle.amber_rows.specs.Topology.{crew_of};
ghost use Rattle.amber_worker.specs.Counting.{IsBoardOf};
ghost use Rattle.amber_worker.specs.Turning.{MakesTurns};
ghost use Rattle.amber_worker.specs.WorkerState.{steps_made};

use crate::home_calls::is_armed;
use amber_board::Board;
use amber_home::{Counts, Crew, Home, NoMemory};
use amber_mail::{Control, Mail, OpenGate, Plan, PlannedMail};
use amber_worker::Worker;
use std::alloc::Global;

// How many turns a worker makes at most while it is away.
const TURNS: u32 = 40;

// A mail whose looks are answered by these letters: p is a pause, and every other one nothing.
fn mail_of(alloc: Global, letters: &str) -> Result<PlannedMail, NoMemory>
    ensures { IfOk result (λ mail. ⟦<PlannedMail as Mail>⟧.looks mail ≡ 0) }
{
    let mut answers = Vec::new(alloc);
    for letter in letters.as_bytes() {
        answers.push(if *letter == b'p' {
            Some(Control::Pause)
        } else {
            None
        })?;
    }
    Ok(PlannedMail::new(Plan::new(answers)))
}

// Turns of a worker under a plan.
fn drive_one(
    alloc: Global,
    worker: &mut Worker,
    board: Option<&Board>,
    plan: &str,
) -> Result<(), NoMemory>
    requires few { steps_made worker.old + 40 ≤ 2 ^ 40 }
    requires own { IsBoardOf (option_copied board) worker.old.seat }
    ensures made { OnOk result (MakesTurns 40 worker.old worker.new) }
    ensures own { OnOk result (IsBoardOf (option_copied board.entry) worker.new.seat) }
{
    let mut mail = mail_of(alloc, plan)?;
    let _drove = worker.drive(board, &mut mail, &OpenGate, TURNS)?;
    Ok(())
}

// Turns of one of the workers that are away.
fn drive_at(
    alloc: Global,
    home: &Home,
    crew: &mut Crew,
    number: usize,
    plan: &str,
) -> Result<(), NoMemory>
    requires lent { IsLent home.now crew.old }
    requires there { number < length crew.old.workers.items }
    requires few { steps_by crew.old.workers.items + 40 ≤ home.now.most }
    ensures lent { OnOk result (IsLent home.now crew.new) }
    ensures few { OnOk result (steps_by crew.new.workers.items
        ≤ steps_by crew.old.workers.items + 40) }
    ensures all { OnOk result (length crew.new.workers.items ≡ length crew.old.workers.items) }
{
    let _most = home.most();
    let op = crew.workers[number].op();
    let board = crew.boards.board_at(op);
    drive_one(alloc, &mut crew.workers[number], board, plan)?;
    Ok(())
}

// Turns of the first workers that are away, each by its plan, one after the other.
fn drive_all(alloc: Global, home: &Home, crew: &mut Crew, plans: &[&str]) -> Result<(), NoMemory>
    requires lent { IsLent home.now crew.old }
    requires there { length plans.now ≤ length crew.old.workers.items }
    requires few { steps_by crew.old.workers.items + length plans.now * 40 ≤ home.now.most }
    ensures { OnOk result (IsLent home.now crew.new) }
{
    'workers: for number in 0..plans.len() {
        drive_at(alloc, home, crew, number, plans[number])?;
    }
    Ok(())
}

// Whether workers may be lent and so many of them driven.
fn may_go(home: &Home, plans: usize) -> bool
    ensures open { result ≡ true → is_open home.now.phase ≡ true }
    ensures armed { result ≡ true → counts_in home.now.phase ≡ Counts.Armed }
    ensures there { result ≡ true → plans ≤ crew_of home.now.flow }
    ensures few { result ≡ true → steps_in (state_of home.now) + plans * 40 ≤ home.now.most }
{
    if !is_armed(home) || 3 < plans || (home.flow().workers() as usize) < plans {
        return false;
    }
    home.most() - home.steps() >= 120
}

/// Lends the workers of a home, drives the first of them by these plans, and takes them back. Whether that was done.
pub fn go_away(alloc: Global, home: &mut Home, plans: &[&str]) -> Result<bool, NoMemory> {
    if !may_go(home, plans.len()) {
        return Ok(false);
    }
    let mut crew = home.lend(alloc);
    match drive_all(alloc, home, &mut crew, plans) {
        Ok(()) => {
            home.take_back(crew);
            home.settle(alloc)?;
            Ok(true)
        }
        Err(error) => {
            home.give_up();
            Err(error)
        }
    }
}
