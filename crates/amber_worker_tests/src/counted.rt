//! Workers that count against a board: what they claim, what they need a unit for, and what they give back. Tests counts of
//! `amber_worker`.

ghost use Rattle.std.specs.Prelude.{◌≡◌, ◌+◌, ◌<◌, ◌^◌, IfOk};
ghost use Rattle.amber_board.specs.Seats.{IsSeatOf, work_view};

use crate::expected::expect_text;
use crate::fed::{GROUPED, fed_worker, watch_from};
use crate::journals::entries_text;
use crate::keeping::KeepingMail;
use crate::told::{drive_on, mail_of};
use amber_board::{Board, WorkSeat};
use amber_mail::{Mail, OpenGate};
use amber_worker::Worker;
use std::alloc::Global;
use std::test::Fail;

// The board of a count of eight for one worker, to whom so many units were allotted, and its seat.
fn board_of(alloc: Global, units: u64) -> Result<(Board, WorkSeat), Fail>
    ensures own { IfOk result (λ made. IsSeatOf made.0 made.1) }
    ensures none { IfOk result (λ made. (work_view made.1).hand ≡ 0) }
    ensures new { IfOk result (λ made. (work_view made.1).mine ≡ 0) }
{
    let (board, mut chief, mut seats) = Board::new(alloc, 8, 1)?;
    chief.draw(&board);
    let units = units.min(chief.hand());
    chief.grant(&board, 0, units);
    match seats.pop() {
        Some(seat) => Ok((board, seat)),
        None => Err(Fail::new("no seat")),
    }
}

// Arms a worker with a seat to which so many units are allotted, and drives it: what it tells, and what it has written down
// once it is disarmed.
fn count_with<M: Mail>(
    alloc: Global,
    worker: &mut Worker,
    units: u64,
    mail: &mut M,
    budget: u32,
) -> Result<String, Fail>
    requires looks { M.looks mail.old + budget < 2 ^ 64 }
{
    if worker.is_armed() {
        return Err(Fail::new("armed"));
    }
    let (board, seat) = board_of(alloc, units)?;
    worker.arm(seat);
    let what = drive_on(alloc, worker, Some(&board), mail, &OpenGate, budget)?;
    worker.reserve()?;
    let _seat = worker.disarm(&board);
    let entries = entries_text(alloc, worker.journal())?;
    Ok(format!(in alloc; "{what}; {entries}")?)
}

/// The same under a plan, a turn for each of its letters.
pub fn count_under(
    alloc: Global,
    worker: &mut Worker,
    units: u64,
    letters: &str,
) -> Result<String, Fail> {
    if letters.len() > 100 {
        return Err(Fail::new("letters"));
    }
    let mut mail = mail_of(alloc, letters)?;
    count_with(alloc, worker, units, &mut mail, letters.len() as u32)
}

// A filter over four rows that is held before each of them whose number is this or greater.
fn filter_watching(alloc: Global, watched: i64) -> Result<Worker, Fail> {
    let rows = [[1, 0], [2, 0], [3, 0], [4, 0]];
    let mut filter = fed_worker(alloc, GROUPED, 1, &[&rows])?;
    watch_from(&mut filter, 1, watched)?;
    Ok(filter)
}

// No row meets the condition. A claim of nothing is not written down; a row is taken and emitted with a unit in hand; what is
// in the hand goes back, when it is told so and when the count is disarmed.
#[test]
fn units_are_claimed_counted_and_given_back(rt: HostRuntime) -> Result<(), Fail> {
    let alloc = rt.alloc();
    for (units, letters, want) in [
        (0, "c--", "3 starved | t 0 0 | 0 4 0 0; t 0 0 "),
        (
            1,
            "c----",
            "5 starved | a 1 0 t 0 0 g 1 1 | 1 3 1 0; a 1 0 t 0 0 g 1 1 ",
        ),
        (
            4,
            "c-----------",
            "11 ended | a 4 0 t 0 0 g 4 4 f 0 0 | 4 0 4 0; a 4 0 t 0 0 g 4 4 f 0 0 ",
        ),
        (
            3,
            "c--r",
            "4 starved | a 3 0 t 0 0 g 1 1 b 2 0 | 1 3 1 0; a 3 0 t 0 0 g 1 1 b 2 0 ",
        ),
        (
            3,
            "c",
            "1 moved | a 3 0 t 0 0 | 0 4 0 0; a 3 0 t 0 0 b 3 0 ",
        ),
        (
            3,
            "cccc",
            "4 moved | a 3 0 t 0 0 g 2 1 | 2 2 1 1; a 3 0 t 0 0 g 2 1 b 2 0 ",
        ),
        (3, "r", "1 moved | t 0 0 | 0 4 0 0; t 0 0 "),
    ] {
        let mut filter = filter_watching(alloc, 9)?;
        expect_text(count_under(alloc, &mut filter, units, letters)?, want)?;
    }
    Ok(())
}

// The first row meets the condition. With a unit in hand it holds the worker; without one the worker is starved before it.
#[test]
fn a_worker_is_starved_before_its_row_is_looked_at(rt: HostRuntime) -> Result<(), Fail> {
    let alloc = rt.alloc();
    for (letters, want) in [
        (
            "c--",
            "3 held | a 1 0 t 0 0 g 1 0 h 0 0 | 1 3 0 1; a 1 0 t 0 0 g 1 0 h 0 0 b 1 0 ",
        ),
        (
            "c-r-",
            "4 starved | a 1 0 t 0 0 g 1 0 b 1 0 | 1 3 0 1; a 1 0 t 0 0 g 1 0 b 1 0 ",
        ),
    ] {
        let mut filter = filter_watching(alloc, 1)?;
        expect_text(count_under(alloc, &mut filter, 1, letters)?, want)?;
    }
    Ok(())
}

// It claims at its fourth look. Of the two turns without a unit before that the first is noted; so is that it has units, and
// that it has none again.
#[test]
fn a_starved_worker_notes_it_once_until_units_come(rt: HostRuntime) -> Result<(), Fail> {
    let alloc = rt.alloc();
    let mut mail = KeepingMail::new(alloc, 4);
    let mut filter = filter_watching(alloc, 9)?;
    expect_text(
        count_with(alloc, &mut filter, 2, &mut mail, 9)?,
        "9 starved | t 0 0 a 2 0 g 2 2 | 2 2 2 0; t 0 0 a 2 0 g 2 2 ",
    )?;
    expect_text(
        mail.into_notes(),
        "starved 0 able 0 emitted 1 emitted 2 starved 0 ",
    )
}
