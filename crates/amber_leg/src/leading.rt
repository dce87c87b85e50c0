//! The driver that leads a round on several threads: behind each slice of its workers the coordinator has a turn on its thread, and
//! has it alone once the workers have made their turns, until all other drivers have come home. Over `drive_slices` of `driver`,
//! and `attend` and `coordinate` of `coordinator`.

ghost use Rattle.std.specs.Prelude.{false, ◌≡◌, ◌≤◌, OnOk};
ghost use Rattle.amber_leg.specs.Coordinating.{AreLedOn};
ghost use Rattle.amber_leg.specs.Driving.{HasDrivenAll, MayDrive, turns_of};

use crate::budget::{Budget, in_slices};
use crate::coordinator::{attend, coordinate, rest_or_go_on};
use crate::desk::Desk;
use crate::driver::{Driver, drive_slices};
use crate::shared::Shared;
use crate::signals::Rest;
use crate::slices::Pace;
use amber_board::ChiefSeat;
use amber_mail::Gate;
use std::alloc::AllocError;

// Slices of a driver's workers, each followed by a turn of the coordinator, until all have made their turns, or all stand, or none
// can move and all others have come home.
fn lead_passes<G: Gate>(
    driver: &mut Driver,
    shared: &Shared<'_, G>,
    budget: Budget,
    desk: &mut Desk,
    chiefs: &mut [Option<ChiefSeat>],
    rest: &mut Rest<'_>,
    others: usize,
) -> Result<(), AllocError>
    requires may { MayDrive (turns_of budget) shared.now.boards.now driver.old }
    requires led { AreLedOn shared.now.all.now chiefs.old }
    ensures driven { OnOk result (HasDrivenAll (turns_of budget) shared.now.boards.now
        driver.old driver.new) }
    ensures led { AreLedOn shared.now.all.now chiefs.new }
{
    'passes: for _made in 0..budget.passes {
        let pace = drive_slices(driver, shared, budget)?;
        let heard = attend(desk, chiefs, shared.all);
        let told = desk.tell(shared.gate, &shared.signals);
        match pace {
            Pace::Moves => rest.end(),
            Pace::Waits if !shared.signals.have_come_home(others) => {
                rest_or_go_on(rest, heard || told);
            }
            Pace::Waits | Pace::Stands => return Ok(()),
        }
    }
    Ok(())
}

/// The driver's workers make the turns of a round, and the coordinator has its own behind their slices, and by itself until all
/// other drivers have come home. Where one of the workers wants memory that is not there the driver has failed.
pub(crate) fn lead<G: Gate>(
    driver: &mut Driver,
    shared: &Shared<'_, G>,
    desk: &mut Desk,
    chiefs: &mut [Option<ChiefSeat>],
    others: usize,
)
    requires may { MayDrive (turns_of shared.now.budget) shared.now.boards.now driver.old }
    requires led { AreLedOn shared.now.all.now chiefs.old }
    ensures driven { driver.new.failed ≡ false → HasDrivenAll (turns_of shared.now.budget)
        shared.now.boards.now driver.old driver.new }
    ensures led { AreLedOn shared.now.all.now chiefs.new }
{
    let budget = in_slices(shared.budget);
    let mut rest = Rest::new(&shared.signals);
    if lead_passes(driver, shared, budget, desk, chiefs, &mut rest, others).is_err() {
        driver.failed = true;
    }
    coordinate(desk, chiefs, shared, &mut rest, others);
}
