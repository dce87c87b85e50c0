//! A driver that has a thread to itself, on which the coordinator has its turns too: one after each slice of the workers. Nobody
//! has to be told of a pause there, since the round can end at once; workers are seen, and heed what they are told, without a
//! mail; and a run on one thread is the same whenever it is made. Over `drive_slices` of `driver` and `attend` of `coordinator`.

ghost use Rattle.std.specs.Prelude.{false, ◌≡◌, OnOk};
ghost use Rattle.amber_leg.specs.Coordinating.{AreLedOn};
ghost use Rattle.amber_leg.specs.Driving.{HasDrivenAll, MayDrive, turns_of};

use crate::budget::{Budget, in_slices};
use crate::coordinator::attend;
use crate::desk::Desk;
use crate::driver::{Driver, drive_slices};
use crate::shared::Shared;
use crate::slices::{Pace, heed_place};
use amber_board::{Board, ChiefSeat};
use amber_mail::Gate;
use std::alloc::AllocError;

// Sees how a driver's workers stand.
fn see_all(driver: &Driver, desk: &mut Desk) {
    'places: for place in 0..driver.workers.len() {
        if let Some(worker) = &driver.workers[place] {
            desk.see(place, worker);
        }
    }
}

// Each of a driver's workers does what it is told. The answer is whether one was told anything.
fn heed_all(
    driver: &mut Driver,
    boards: &[Option<&Board>],
    desk: &mut Desk,
) -> Result<bool, AllocError>
    requires may { MayDrive 0 boards.now driver.old }
    ensures driven { OnOk result (HasDrivenAll 0 boards.now driver.old driver.new) }
{
    let mut any = false;
    'places: for place in 0..boards.len() {
        let told = desk.take_control(place);
        any |= heed_place(&mut driver.workers[place], boards[place], told)?;
    }
    Ok(any)
}

// Slices of a driver's workers, each followed by a turn of the coordinator, until all have made their turns, or all would be
// told to pause, or none of them has moved and none was told anything.
fn alternate_passes<G: Gate>(
    driver: &mut Driver,
    shared: &Shared<'_, G>,
    budget: Budget,
    desk: &mut Desk,
    chiefs: &mut [Option<ChiefSeat>],
) -> Result<(), AllocError>
    requires may { MayDrive (turns_of budget) shared.now.boards.now driver.old }
    requires led { AreLedOn shared.now.all.now chiefs.old }
    ensures driven { OnOk result (HasDrivenAll (turns_of budget) shared.now.boards.now
        driver.old driver.new) }
    ensures led { AreLedOn shared.now.all.now chiefs.new }
{
    'passes: for _made in 0..budget.passes {
        let pace = drive_slices(driver, shared, budget)?;
        see_all(driver, desk);
        let _heard = attend(desk, chiefs, shared.all);
        if desk.is_pausing() {
            return Ok(());
        }
        let told = heed_all(driver, shared.boards, desk)?;
        if !told && pace != Pace::Moves {
            return Ok(());
        }
    }
    Ok(())
}

/// A driver's workers make the turns of a round, and the coordinator has its own between them. Where one of the workers wants
/// memory that is not there the driver has failed.
pub(crate) fn alternate<G: Gate>(
    driver: &mut Driver,
    shared: &Shared<'_, G>,
    desk: &mut Desk,
    chiefs: &mut [Option<ChiefSeat>],
)
    requires may { MayDrive (turns_of shared.now.budget) shared.now.boards.now driver.old }
    requires led { AreLedOn shared.now.all.now chiefs.old }
    ensures driven { driver.new.failed ≡ false → HasDrivenAll (turns_of shared.now.budget)
        shared.now.boards.now driver.old driver.new }
    ensures led { AreLedOn shared.now.all.now chiefs.new }
{
    let budget = in_slices(shared.budget);
    if alternate_passes(driver, shared, budget, desk, chiefs).is_err() {
        driver.failed = true;
    }
}
