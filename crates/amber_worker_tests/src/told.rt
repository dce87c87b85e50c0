//! What is told to a worker and what it tells, as texts: controls, what drives came to, and what the worker shows. Over
//! `amber_mail` and `Drove` of `amber_worker`.

ghost use Rattle.std.specs.Prelude.{◌≡◌, ◌+◌, ◌<◌, ◌^◌, IfOk};
ghost use Rattle.std.specs.Option.{option_copied};
ghost use Rattle.amber_worker.specs.Counting.{IsBoardOf};

use crate::journals::entries_text;
use amber_board::Board;
use amber_mail::{Control, Gate, Mail, OpenGate, Plan, PlannedMail, SilentMail};
use amber_worker::{Drove, NoMemory, Turn, Worker};
use std::alloc::Global;
use std::test::Fail;

/// The answers of looks, a letter each: `p`, `c` and `r` stand for the controls, any other for nothing.
pub fn answers_of(alloc: Global, letters: &str) -> Result<Vec<Option<Control>>, NoMemory> {
    let mut answers = Vec::new(alloc);
    for letter in letters.bytes() {
        answers.push(match letter {
            b'p' => Some(Control::Pause),
            b'c' => Some(Control::Claim),
            b'r' => Some(Control::Return),
            _ => None,
        })?;
    }
    Ok(answers)
}

/// A mail with this plan, at which no look was made.
pub fn mail_of(alloc: Global, letters: &str) -> Result<PlannedMail, NoMemory>
    ensures { IfOk result (λ mail. ⟦<PlannedMail as Mail>⟧.looks mail ≡ 0) }
{
    Ok(PlannedMail::new(Plan::new(answers_of(alloc, letters)?)))
}

// What a turn came to.
fn word_of(turn: Option<Turn>) -> &'static str {
    match turn {
        None => "none",
        Some(Turn::Moved) => "moved",
        Some(Turn::Idle) => "idle",
        Some(Turn::Held) => "held",
        Some(Turn::Starved) => "starved",
        Some(Turn::Paused) => "paused",
        Some(Turn::Ended) => "ended",
    }
}

/// What a drive came to, what the worker has written down, and what it shows: rows taken, left, emitted and pending.
pub fn told(alloc: Global, worker: &Worker, drove: Drove) -> Result<String, Fail> {
    let view = worker.view()?;
    let entries = entries_text(alloc, worker.journal())?;
    let what = format!(in alloc; "{} {} | {entries}", drove.turns, word_of(drove.last))?;
    let rows = format!(in alloc;
        "| {} {} {} {}",
        view.taken, view.rest, view.out, view.pending
    )?;
    Ok(format!(in alloc; "{what}{rows}")?)
}

/// Drives a worker under this mail and through this gate. The board is that of its count, if one is armed.
pub fn drive_on<M: Mail, G: Gate>(
    alloc: Global,
    worker: &mut Worker,
    board: Option<&Board>,
    mail: &mut M,
    gate: &G,
    budget: u32,
) -> Result<String, Fail>
    requires own { IsBoardOf (option_copied board) worker.old.seat }
    requires looks { M.looks mail.old + budget < 2 ^ 64 }
    ensures own { IsBoardOf (option_copied board.entry) worker.new.seat }
{
    if worker.steps() > 1 << 30 {
        return Err(Fail::new("steps"));
    }
    let drove = worker.drive(board, mail, gate, budget)?;
    told(alloc, worker, drove)
}

/// The same of a worker at which no count is armed.
pub fn drive_with<M: Mail, G: Gate>(
    alloc: Global,
    worker: &mut Worker,
    mail: &mut M,
    gate: &G,
    budget: u32,
) -> Result<String, Fail>
    requires looks { M.looks mail.old + budget < 2 ^ 64 }
{
    if worker.is_armed() {
        return Err(Fail::new("armed"));
    }
    drive_on(alloc, worker, None, mail, gate, budget)
}

/// The same under a mail that says nothing.
pub fn drive(alloc: Global, worker: &mut Worker, budget: u32) -> Result<String, Fail> {
    drive_with(alloc, worker, &mut SilentMail::new(), &OpenGate, budget)
}

/// The same under a mail with this plan.
pub fn drive_under(
    alloc: Global,
    worker: &mut Worker,
    letters: &str,
    budget: u32,
) -> Result<String, Fail> {
    let mut mail = mail_of(alloc, letters)?;
    drive_with(alloc, worker, &mut mail, &OpenGate, budget)
}
