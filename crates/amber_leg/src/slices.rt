//! Slices of turns of one worker. Over `Worker::drive` and `heed` of `amber_worker`.

ghost use Rattle.std.specs.Prelude.{◌+◌, ◌^◌, ◌<◌, ◌≤◌, OnOk};
ghost use Rattle.std.specs.Option.{option_copied};
ghost use Rattle.amber_worker.specs.Counting.{IsBoardOf};
ghost use Rattle.amber_worker.specs.WorkerState.{steps_made};
ghost use Rattle.amber_leg.specs.Slices.{DrivesAndHeeds, HasCounted, HasTurnedSo, HeedsAt, HeedsMail, MayTurn};

use crate::budget::Budget;
use crate::pause_mail::PauseMail;
use amber_board::Board;
use amber_mail::{Control, Gate, SilentMail};
use amber_worker::{Turn, Worker};
use std::alloc::AllocError;

/// How a worker stands after turns.
#[derive(Clone, Copy, PartialEq, Eq)]
pub(crate) enum Pace {
    /// It moved at the last one.
    Moves,
    /// It can do nothing until a batch comes.
    Waits,
    /// It makes no step more in this round: it has finished, is held or paused, or has no unit.
    Stands,
}

// How a worker stands whose last turn came to this. One that has no unit waits where somebody hears of it.
fn pace_of(last: Option<Turn>, heard: bool) -> Pace {
    match last {
        Some(Turn::Moved) => Pace::Moves,
        Some(Turn::Idle) | None => Pace::Waits,
        Some(Turn::Starved) if heard => Pace::Waits,
        Some(Turn::Starved | Turn::Held | Turn::Paused | Turn::Ended) => Pace::Stands,
    }
}

// A worker looks into its mail, and does what it was told, if it was told anything. The answer is whether it was.
fn heed_told(
    worker: &mut Worker,
    mail: &mut PauseMail<'_>,
    board: Option<&Board>,
) -> Result<bool, AllocError>
    requires own { IsBoardOf (option_copied board) worker.old.seat }
    ensures own { OnOk result (IsBoardOf (option_copied board.entry) worker.new.seat) }
    ensures heeds { OnOk result
        (HeedsMail mail.old.ring mail.new.ring worker.old worker.new) }
{
    let Some(control) = mail.take_told() else {
        return Ok(false);
    };
    worker.heed(board, control)?;
    Ok(true)
}

// Turns of a worker that nobody hears, in one drive, so many at most. The answer says how it stands then.
fn drive_silent<G: Gate>(
    worker: &mut Worker,
    board: Option<&Board>,
    gate: &G,
    turns: u32,
) -> Result<Pace, AllocError>
    requires few { steps_made worker.old + turns ≤ 2 ^ 40 }
    requires own { IsBoardOf (option_copied board) worker.old.seat }
    requires fits { worker.old.turned + turns < 2 ^ 64 }
    ensures made { OnOk result (HasCounted turns worker.old worker.new) }
    ensures own { OnOk result (IsBoardOf (option_copied board.entry) worker.new.seat) }
{
    let drove = worker.drive(board, &mut SilentMail::new(), gate, turns)?;
    Ok(pace_of(drove.last, false))
}

// Turns of a worker that somebody hears, in one drive, so many at most, and then what it was told.
fn drive_heard<G: Gate>(
    worker: &mut Worker,
    mail: &mut PauseMail<'_>,
    board: Option<&Board>,
    gate: &G,
    turns: u32,
) -> Result<Pace, AllocError>
    requires few { steps_made worker.old + turns ≤ 2 ^ 40 }
    requires own { IsBoardOf (option_copied board) worker.old.seat }
    requires fits { worker.old.turned + turns < 2 ^ 64 }
    ensures made { OnOk result (HasCounted turns worker.old worker.new) }
    ensures heeds { OnOk result (DrivesAndHeeds turns mail.new.ring worker.old worker.new) }
    ensures own { OnOk result (IsBoardOf (option_copied board.entry) worker.new.seat) }
{
    mail.count_looks_anew();
    let drove = worker.drive(board, mail, gate, turns)?;
    mail.note_stand(worker, drove.last);
    if heed_told(worker, mail, board)? {
        return Ok(Pace::Moves);
    }
    Ok(pace_of(drove.last, true))
}

// The same for any worker.
fn drive_turns<G: Gate>(
    worker: &mut Worker,
    mail: &mut Option<PauseMail<'_>>,
    board: Option<&Board>,
    gate: &G,
    turns: u32,
) -> Result<Pace, AllocError>
    requires few { steps_made worker.old + turns ≤ 2 ^ 40 }
    requires own { IsBoardOf (option_copied board) worker.old.seat }
    requires fits { worker.old.turned + turns < 2 ^ 64 }
    ensures made { OnOk result (HasCounted turns worker.old worker.new) }
    ensures own { OnOk result (IsBoardOf (option_copied board.entry) worker.new.seat) }
{
    match mail {
        Some(mail) => drive_heard(worker, mail, board, gate, turns),
        None => drive_silent(worker, board, gate, turns),
    }
}

// A slice of turns of a worker, fewer where it does not move. The answer says how it stands then.
fn drive_worker<G: Gate>(
    worker: &mut Worker,
    mail: &mut Option<PauseMail<'_>>,
    board: Option<&Board>,
    gate: &G,
    budget: Budget,
) -> Result<Pace, AllocError>
    requires few { steps_made worker.old + budget.slice ≤ 2 ^ 40 }
    requires own { IsBoardOf (option_copied board) worker.old.seat }
    requires fits { worker.old.turned + budget.slice < 2 ^ 64 }
    ensures made { OnOk result (HasCounted budget.slice worker.old worker.new) }
    ensures own { OnOk result (IsBoardOf (option_copied board.entry) worker.new.seat) }
{
    let mut left = budget.slice;
    'slices: while 0 < left {
        let turns = left.min(budget.drive.max(1));
        match drive_turns(worker, mail, board, gate, turns)? {
            Pace::Moves => left -= turns,
            Pace::Waits => return Ok(Pace::Waits),
            Pace::Stands => return Ok(Pace::Stands),
        }
    }
    Ok(Pace::Moves)
}

/// The same at a place where a worker may be.
pub(crate) fn drive_place<G: Gate>(
    place: &mut Option<Worker>,
    mail: &mut Option<PauseMail<'_>>,
    board: Option<&Board>,
    gate: &G,
    budget: Budget,
) -> Result<Pace, AllocError>
    requires may { MayTurn budget.slice (option_copied board) place.old }
    ensures turned { OnOk result
        (HasTurnedSo budget.slice (option_copied board.entry) place.old place.new) }
{
    match place {
        Some(worker) => drive_worker(worker, mail, board, gate, budget),
        None => Ok(Pace::Stands),
    }
}

/// The worker at a place does what it is told, where there is one and it is told anything. The answer is whether it was.
pub(crate) fn heed_place(
    place: &mut Option<Worker>,
    board: Option<&Board>,
    told: Option<Control>,
) -> Result<bool, AllocError>
    requires may { MayTurn 0 (option_copied board) place.old }
    ensures turned { OnOk result
        (HasTurnedSo 0 (option_copied board.entry) place.old place.new) }
    ensures heeds { OnOk result (HeedsAt told place.old place.new) }
{
    let Some(worker) = place else {
        return Ok(false);
    };
    let Some(control) = told else {
        return Ok(false);
    };
    worker.heed(board, control)?;
    Ok(true)
}
