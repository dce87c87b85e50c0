//! Workers that are dealt among drivers, driven side by side, and put back in their order. Over `drive_beside` of `beside`,
//! over `owners` and over `done`.

ghost use Rattle.std.specs.Prelude.{◌≡◌, ◌<◌, ◌≤◌, ℕ, All, IfOk, OnOk, [], false, is_some, length, replicate, slice_index, slice_index_or, true, vec_capacity, vec_len};
ghost use Rattle.amber_home.specs.Lent.{MakeTurns};
ghost use Rattle.amber_leg.specs.Coordinating.{AreBoardsIn};
ghost use Rattle.amber_leg.specs.Dealing.{AreBoardsOf, AreDealtOut, AreOf, AreReadyFor, HaveCounted, HaveNotFailed};
ghost use Rattle.amber_leg.specs.Driving.{turns_of, worker_placed};
ghost use Rattle.amber_leg.specs.declared.driver.Driver.{Driver as OneDriver};

use crate::beside::drive_beside;
use crate::budget::Budget;
use crate::desk::Desk;
use crate::done::{begin_round, end_round};
use crate::driver::Driver;
use crate::owners::owners_of;
use crate::shared::Shared;
use crate::signals::Signals;
use crate::watch::Watch;
use amber_board::Board;
use amber_boards::LentBoards;
use amber_home::Crew;
use amber_mail::{Gate, RingMail};
use amber_worker::Worker;
use std::alloc::{AllocError, Global};
use std::thread::Threads;

// The ends of the mails of those workers that a driver owns, in their places; none where nobody has one.
fn ends_of(
    alloc: Global,
    ends: &mut Vec<Option<RingMail>>,
    owners: &[usize],
    driver: usize,
) -> Result<Vec<Option<RingMail>>, AllocError> {
    let mut own = Vec::with_capacity(alloc, ends.len())?;
    'workers: for (end, owner) in ends.iter_mut().zip(owners.iter()) {
        own.push(if *owner == driver { end.take() } else { None })?;
    }
    Ok(own)
}

// A driver with so many places, all empty, and these ends.
fn empty_driver(
    alloc: Global,
    ends: Vec<Option<RingMail>>,
    places: usize,
) -> Result<Driver, AllocError>
    ensures { IfOk result (λ driver. driver.workers.items ≡ replicate places None) }
{
    let mut workers = Vec::with_capacity(alloc, places)?;
    'places: for _place in 0..places {
        workers.push_reserved(None);
    }
    Ok(Driver {
        workers,
        ends,
        failed: false,
    })
}

// So many drivers, each with so many places, all empty, and the ends of those that it owns.
fn empty_drivers(
    alloc: Global,
    ends: &mut Vec<Option<RingMail>>,
    owners: &[usize],
    drivers: usize,
) -> Result<Vec<Driver>, AllocError>
    ensures long { IfOk result (λ made. length made.items ≡ drivers) }
    ensures empty { IfOk result (λ made. All (λ driver. driver.workers.items
        ≡ replicate (length owners.now) None) made.items) }
{
    let mut made = Vec::with_capacity(alloc, drivers)?;
    'drivers: for driver in 0..drivers {
        let own = ends_of(alloc, ends, owners, driver)?;
        made.push_reserved(empty_driver(alloc, own, owners.len())?);
    }
    Ok(made)
}

// Deals the workers out, each to the driver that owns it. Their list keeps its room.
fn deal(workers: &mut Vec<Worker>, owners: &[usize], drivers: &mut [Driver])
    requires all { length owners.now ≡ vec_len workers.old }
    requires within { All (λ owner. owner < length drivers.old) owners.now }
    requires empty { All (λ driver. driver.workers.items
        ≡ replicate (vec_len workers.old) None) drivers.old }
    ensures dealt { AreDealtOut owners.now workers.old.items drivers.new }
    ensures long { length drivers.new ≡ length drivers.old }
    ensures none { workers.new.items ≡ [] }
    ensures room { vec_len workers.old ≤ vec_capacity workers.new }
{
    'workers: while let Some(worker) = workers.pop() {
        let number = workers.len();
        let owner = owners[number];
        drivers[owner].workers[number] = Some(worker);
    }
}

// Puts the workers back, by their numbers, into a list that has room for all.
fn gather(drivers: &mut [Driver], owners: &[usize], workers: &mut Vec<Worker>, count: usize)
    requires all { length owners.now ≡ count }
    requires within { All (λ owner. owner < length drivers.old) owners.now }
    requires there { (place : ℕ) (d : OneDriver) → place < count → is_some
        (worker_placed (slice_index_or drivers.old (slice_index owners.now place) d) place) ≡ true }
    requires none { workers.old.items ≡ [] }
    requires room { count ≤ vec_capacity workers.old }
    ensures long { length workers.new.items ≡ count }
    ensures gathered { AreOf owners.now drivers.old workers.new.items }
{
    'workers: for number in 0..count {
        let owner = owners[number];
        let Some(worker) = drivers[owner].workers[number].take() else {
            unreachable!()
        };
        workers.push_reserved(worker);
    }
}

// Whether one of the drivers has failed.
fn has_any_failed(drivers: &[Driver]) -> bool
    ensures { result ≡ false → HaveNotFailed drivers.now }
{
    drivers.iter().any(|driver| driver.failed)
}

// The board of each worker's operator, if it has one.
fn boards_of<'a>(
    alloc: Global,
    workers: &[Worker],
    boards: &'a LentBoards,
) -> Result<Vec<Option<&'a Board>>, AllocError>
    ensures { IfOk result (λ found. AreBoardsOf boards.now workers.now found.items) }
{
    let mut found = Vec::with_capacity(alloc, workers.len())?;
    'workers: for number in 0..workers.len() {
        found.push_reserved(boards.board_at(workers[number].op()));
    }
    Ok(found)
}

// The boards of all operators, in their places.
fn boards_in<'a>(
    alloc: Global,
    boards: &'a LentBoards,
    operators: usize,
) -> Result<Vec<Option<&'a Board>>, AllocError>
    requires { operators ≡ length boards.now }
    ensures { IfOk result (λ found. AreBoardsIn boards.now found.items) }
{
    let mut found = Vec::with_capacity(alloc, operators)?;
    'operators: for place in 0..operators {
        found.push_reserved(boards.board_in(place));
    }
    Ok(found)
}

// The desk of a coordinator for these workers, and their ends of mails where it is to have a thread of its own; neither where
// nothing is watched for.
fn open_desk(
    alloc: Global,
    watch: Option<Watch>,
    workers: &[Worker],
    alone: bool,
) -> Result<(Option<Desk>, Vec<Option<RingMail>>), AllocError> {
    let Some(watch) = watch else {
        return Ok((None, Vec::new(alloc)));
    };
    let mut desk = Desk::open(alloc, watch.pauses, workers)?;
    if alone {
        return Ok((Some(desk), Vec::new(alloc)));
    }
    let ends = desk.open_mails(alloc)?;
    Ok((Some(desk), ends))
}

/// Each worker makes the turns of a round, on so many threads, but on no more than there are
/// workers. They are dealt by what each did in the round before; `done` has that, and then what
/// each did in this one. Where something is watched for a coordinator is beside them.
///
/// # Errors
///
/// Where memory runs out the workers may be gone.
pub(crate) fn drive_crew<R: Threads + Sync, G: Gate + Sync>(
    rt: &R,
    alloc: Global,
    crew: &mut Crew,
    watch: Option<Watch>,
    gate: &G,
    budget: Budget,
    done: &mut Vec<u64>,
) -> Result<(), AllocError>
    requires some { 0 < budget.threads }
    requires ready { AreReadyFor (turns_of budget) crew.old }
    ensures made { OnOk result (MakeTurns (turns_of budget) crew.old crew.new) }
    ensures counted { OnOk result (HaveCounted (turns_of budget)
        crew.old.workers.items crew.new.workers.items) }
{
    let count = crew.workers.len();
    let wanted = (budget.threads as usize).min(count).max(1);
    let chosen = owners_of(alloc, done.as_slice(), count, wanted)?;
    let owners = chosen.as_slice();
    begin_round(done, crew.workers.as_slice())?;
    let (mut desk, mut ends) = open_desk(alloc, watch, crew.workers.as_slice(), wanted == 1)?;
    let mut made = empty_drivers(alloc, &mut ends, owners, wanted)?;
    let boards = boards_of(alloc, crew.workers.as_slice(), &crew.boards)?;
    let all = boards_in(alloc, &crew.boards, crew.chiefs.len())?;
    let drivers = made.as_mut_slice();
    deal(&mut crew.workers, owners, drivers);
    let shared = Shared {
        boards: boards.as_slice(),
        all: all.as_slice(),
        gate,
        budget,
        signals: Signals::new(wanted),
    };
    drive_beside(rt, drivers, &shared, &mut desk, crew.chiefs.as_mut_slice());
    if has_any_failed(drivers) {
        return Err(AllocError);
    }
    gather(drivers, owners, &mut crew.workers, count);
    end_round(done.as_mut_slice(), crew.workers.as_slice());
    Ok(())
}
