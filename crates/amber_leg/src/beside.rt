//! Drivers that drive their workers side by side, each on a thread of its own, and the coordinator on that of one of them, where
//! there is a desk for one. Over `drive` of `driver`, `lead` of `leading` and `alternate` of `alternating`.

ghost use Rattle.std.specs.Prelude.{All, false, length, ◌≡◌, ◌<◌};
ghost use Rattle.amber_leg.specs.Coordinating.{AreLedOn};
ghost use Rattle.amber_leg.specs.Dealing.{HaveDriven};
ghost use Rattle.amber_leg.specs.Driving.{HasDrivenAll, MayDrive, turns_of};

use crate::alternating::alternate;
use crate::desk::Desk;
use crate::driver::{Driver, drive};
use crate::leading::lead;
use crate::shared::Shared;
use amber_board::ChiefSeat;
use amber_mail::Gate;
use std::thread;
use std::thread::Threads;

// All drivers drive their workers side by side, each on a thread of its own where threads can be had, and come home.
fn drive_all<R: Threads + Sync, G: Gate + Sync>(
    rt: &R,
    drivers: &mut [Driver],
    shared: &Shared<'_, G>,
)
    requires may { All (MayDrive (turns_of shared.now.budget) shared.now.boards.now) drivers.old }
    ensures driven { HaveDriven (turns_of shared.now.budget) shared.now.boards.now
        drivers.old drivers.new }
{
    let threads = drivers.len().max(1);
    thread::for_each_mut(
        rt,
        drivers,
        threads,
        &|_, driver| {
            drive(driver, shared);
            shared.signals.come_home();
        },
    );
}

// One driver leads the others, who are beside it, each on a thread of its own.
fn lead_others<R: Threads + Sync, G: Gate + Sync>(
    rt: &R,
    beside: &mut [Driver],
    leading: &mut Driver,
    shared: &Shared<'_, G>,
    desk: &mut Desk,
    chiefs: &mut [Option<ChiefSeat>],
)
    requires beside { All (MayDrive (turns_of shared.now.budget) shared.now.boards.now)
        beside.old }
    requires leading { MayDrive (turns_of shared.now.budget) shared.now.boards.now leading.old }
    requires led { AreLedOn shared.now.all.now chiefs.old }
    ensures beside { HaveDriven (turns_of shared.now.budget) shared.now.boards.now
        beside.old beside.new }
    ensures leading { leading.new.failed ≡ false → HasDrivenAll (turns_of shared.now.budget)
        shared.now.boards.now leading.old leading.new }
    ensures led { AreLedOn shared.now.all.now chiefs.new }
{
    let others = beside.len();
    thread::join_mut(
        rt,
        &mut || lead(leading, shared, desk, chiefs, others),
        &mut ||
            requires may { All (MayDrive (turns_of shared.now.budget) shared.now.boards.now)
                beside.now }
        { drive_all(rt, beside, shared) },
    );
}

// The last driver leads the others: the coordinator has its turns on its thread. Where there is one driver it has a thread to
// itself.
fn drive_led<R: Threads + Sync, G: Gate + Sync>(
    rt: &R,
    drivers: &mut [Driver],
    shared: &Shared<'_, G>,
    desk: &mut Desk,
    chiefs: &mut [Option<ChiefSeat>],
)
    requires some { 0 < length drivers.old }
    requires may { All (MayDrive (turns_of shared.now.budget) shared.now.boards.now) drivers.old }
    requires led { AreLedOn shared.now.all.now chiefs.old }
    ensures driven { HaveDriven (turns_of shared.now.budget) shared.now.boards.now
        drivers.old drivers.new }
    ensures led { AreLedOn shared.now.all.now chiefs.new }
{
    let others = drivers.len() - 1;
    if others == 0 {
        alternate(&mut drivers[0], shared, desk, chiefs);
        return;
    }
    let (beside, leading) = drivers.split_at_mut(others);
    lead_others(rt, beside, &mut leading[0], shared, desk, chiefs);
}

/// All drivers drive their workers, and where there is a desk a coordinator is beside them.
pub(crate) fn drive_beside<R: Threads + Sync, G: Gate + Sync>(
    rt: &R,
    drivers: &mut [Driver],
    shared: &Shared<'_, G>,
    desk: &mut Option<Desk>,
    chiefs: &mut [Option<ChiefSeat>],
)
    requires some { 0 < length drivers.old }
    requires may { All (MayDrive (turns_of shared.now.budget) shared.now.boards.now) drivers.old }
    requires led { AreLedOn shared.now.all.now chiefs.old }
    ensures driven { HaveDriven (turns_of shared.now.budget) shared.now.boards.now
        drivers.old drivers.new }
    ensures led { AreLedOn shared.now.all.now chiefs.new }
{
    match desk {
        Some(desk) => drive_led(rt, drivers, shared, desk, chiefs),
        None => drive_all(rt, drivers, shared),
    }
}
