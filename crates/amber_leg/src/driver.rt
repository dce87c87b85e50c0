//! The workers that one thread drives, and their turns in a round. Over `slices`, `PauseMail` and `Shared`.

ghost use Rattle.std.specs.Prelude.{◌≡◌, OnOk, false};
ghost use Rattle.amber_leg.specs.Driving.{HasDrivenAll, MayDrive, turns_of};

use crate::budget::Budget;
use crate::pause_mail::PauseMail;
use crate::shared::Shared;
use crate::signals::{Rest, Signals};
use crate::slices::{Pace, drive_place};
use amber_mail::{Gate, RingMail};
use amber_worker::Worker;
use std::alloc::AllocError;
use std::thread::yield_now;

// How often a thread lets others go on before it looks again, and how many times as often at most where it has looked in vain.
const YIELDS: u32 = 64;

const MOST_TIMES: u32 = 16;

/// The workers that one thread drives, each at the place of its number; other places are empty.
#[derive(Drop)]
pub(crate) struct Driver {
    pub workers: Vec<Option<Worker>>,
    // Their ends of the mails, in the same places, where somebody hears them and tells them something.
    pub ends: Vec<Option<RingMail>>,
    // Whether one of them wanted memory that was not there.
    pub failed: bool,
}

// A mail over the end in this place, if there is one, which is taken out.
fn take_mail<'a>(
    ends: &mut Vec<Option<RingMail>>,
    place: usize,
    signals: &'a Signals,
) -> Option<PauseMail<'a>> {
    match ends.get_mut(place)?.take() {
        Some(ring) => Some(PauseMail::new(ring, signals)),
        None => None,
    }
}

// Puts its end back.
fn put_mail(ends: &mut Vec<Option<RingMail>>, place: usize, mail: Option<PauseMail<'_>>) {
    if let Some(mail) = mail {
        if let Some(end) = ends.get_mut(place) {
            *end = Some(mail.into_ring());
        }
    }
}

/// A slice of each worker of a driver, one after the other. The answer is that of the worker that is furthest from standing.
pub(crate) fn drive_slices<G: Gate>(
    driver: &mut Driver,
    shared: &Shared<'_, G>,
    budget: Budget,
) -> Result<Pace, AllocError>
    requires may { MayDrive budget.slice shared.now.boards.now driver.old }
    ensures driven { OnOk result (HasDrivenAll budget.slice shared.now.boards.now
        driver.old driver.new) }
{
    let mut pace = Pace::Stands;
    'places: for place in 0..shared.boards.len() {
        let mut mail = take_mail(&mut driver.ends, place, &shared.signals);
        let stands = drive_place(
            &mut driver.workers[place],
            &mut mail,
            shared.boards[place],
            shared.gate,
            budget,
        )?;
        put_mail(&mut driver.ends, place, mail);
        match stands {
            Pace::Moves => pace = Pace::Moves,
            Pace::Waits if pace == Pace::Stands => pace = Pace::Waits,
            Pace::Waits | Pace::Stands => {}
        }
    }
    Ok(pace)
}

// Lets other threads go on for about as long as a slice takes, and longer the more often it was looked in vain.
fn wait(looks: u32) {
    for _ in 0..YIELDS * looks.min(MOST_TIMES) {
        yield_now();
    }
}

// Slices of a driver's workers, until all have made their turns, or all stand, or none of them has moved for more looks than the
// budget has and all other drivers rest as well.
fn drive_passes<G: Gate>(
    driver: &mut Driver,
    shared: &Shared<'_, G>,
    rest: &mut Rest<'_>,
) -> Result<(), AllocError>
    requires may { MayDrive (turns_of shared.now.budget) shared.now.boards.now driver.old }
    ensures driven { OnOk result (HasDrivenAll (turns_of shared.now.budget)
        shared.now.boards.now driver.old driver.new) }
{
    let budget = shared.budget;
    'passes: for made in 0..budget.passes {
        match drive_slices(driver, shared, budget)? {
            Pace::Moves => rest.end(),
            Pace::Waits if made + 1 < budget.passes => {
                let looks = rest.look();
                if rest.is_over(budget.looks) {
                    return Ok(());
                }
                wait(looks);
            }
            Pace::Waits | Pace::Stands => return Ok(()),
        }
    }
    Ok(())
}

/// A driver's workers make the turns of a round. Where one of them wants memory that is not there the driver has failed.
pub(crate) fn drive<G: Gate>(driver: &mut Driver, shared: &Shared<'_, G>)
    requires may { MayDrive (turns_of shared.now.budget) shared.now.boards.now driver.old }
    ensures driven { driver.new.failed ≡ false → HasDrivenAll (turns_of shared.now.budget)
        shared.now.boards.now driver.old driver.new }
{
    let mut rest = Rest::new(&shared.signals);
    if drive_passes(driver, shared, &mut rest).is_err() {
        driver.failed = true;
    }
    rest.end();
}
