//! A part of a log that is done again, one entry after the other. Over `Worker::redo` of `amber_worker`, and `settling`.

ghost use Rattle.std.specs.Prelude.{◌≡◌, ◌+◌, ◌^◌, ◌<◌, ◌≤◌, ◌++◌, ◌∷◌, [], IfOk, None, OnOk, false, is_some, length};
ghost use Rattle.amber_log.specs.Grammar.{AreEntries};
ghost use Rattle.amber_worker.specs.Redoing.{hand_before, log_line, entry_steps, units_of};
ghost use Rattle.amber_dataflow.specs.AtWork.{steps_by, worker_state_at};
ghost use Rattle.amber_dataflow.specs.Redoing.{ComesNext, IsRedoneCrew, LineComesNext, MakesOrNot, MakesPartOrNot, PassesFor};

use crate::counts::steps_of;
use crate::settling::pass_between;
use amber_log::Entry;
use amber_worker::{Armed, Redone, Worker};
use std::alloc::AllocError;

/// What came of a part of a log that was done again.
#[derive(Clone, Copy)]
pub enum PartRedone {
    /// It was done, and these units are in the worker's hand then.
    Done { hand: u128 },
    /// The entry at this place, from 0 on, does not meet its rule, or there are not enough steps for it.
    Illegal { place: u64 },
}

// Moves on what a worker has made for another one, if it sends to it.
fn pass_from(crew: &mut [Worker], from: usize, number: usize) -> Result<(), AllocError>
    requires crew { IsRedoneCrew crew.old }
    requires there { number < length crew.old }
    ensures { OnOk result (PassesFor number (Entry.Take from 0) crew.old crew.new) }
{
    if from < crew.len() && crew[from].sends_to(number as u32) {
        return pass_between(crew, from, number);
    }
    Ok(())
}

// Moves on what the sender has made whose batch an entry takes.
fn pass_for(crew: &mut [Worker], number: usize, entry: &Entry) -> Result<(), AllocError>
    requires crew { IsRedoneCrew crew.old }
    requires there { number < length crew.old }
    ensures { OnOk result (PassesFor number entry.now crew.old crew.new) }
{
    match entry {
        Entry::Take { from, .. } => pass_from(crew, *from as usize, number),
        Entry::Go { .. }
        | Entry::Grant { .. }
        | Entry::Back { .. }
        | Entry::Pause
        | Entry::Resume
        | Entry::Hold
        | Entry::Finish => Ok(()),
    }
}

// Does an entry again, where it may come.
fn redo_entry(
    crew: &mut [Worker],
    number: usize,
    entry: &Entry,
    armed: Option<Armed>,
) -> Result<Redone, AllocError>
    requires crew { LineComesNext
        (record { worker = number; line = log_line entry.now armed }) crew.old }
    requires there { number < length crew.old }
    requires unarmed { (worker_state_at crew.old number).seat ≡ None }
    requires follows { AreEntries false
        ((worker_state_at crew.old number).journal ++ entry.now ∷ []) }
    requires units { hand_before armed + units_of entry.now < 2 ^ 128 }
    requires few { steps_by crew.old + entry_steps entry.now ≤ 2 ^ 40 }
    ensures { IfOk result (MakesOrNot
        (record { worker = number; line = log_line entry.now armed }) crew.old crew.new) }
{
    pass_for(crew, number, entry)?;
    let redone = crew[number].redo(entry, armed)?;
    match redone {
        Redone::Illegal => Ok(redone),
        Redone::Done { .. } => {
            pass_for(crew, number, entry)?;
            Ok(redone)
        }
    }
}

// The steps of an entry: rows taken, rows emitted, a batch taken, or the end.
fn steps_of_entry(entry: &Entry) -> u128
    ensures { result ≡ entry_steps entry.now }
{
    match entry {
        Entry::Go { rows, outs } => u128::from(*rows) + u128::from(*outs),
        Entry::Take { .. } | Entry::Finish => 1,
        Entry::Grant { .. } | Entry::Back { .. } | Entry::Pause | Entry::Resume | Entry::Hold => 0,
    }
}

// What a line says of the hand, where a count is in force or not.
fn armed_if(counted: bool, hand: u128) -> Option<Armed>
    requires { counted ≡ false → hand ≡ 0 }
    ensures armed { is_some result ≡ counted }
    ensures hand { hand_before result ≡ hand }
{
    if counted {
        return Some(Armed { hand });
    }
    None
}

/// A worker does again what a part of a log says, one entry after the other, each of which meets its rule within the steps.
/// Where one does not nothing is said of the workers.
pub fn redo_entries(
    crew: &mut [Worker],
    number: usize,
    entries: &[Entry],
    counted: bool,
    most: u64,
) -> Result<PartRedone, AllocError>
    requires crew { ComesNext (record {
      worker = number;
      entries = entries.now;
      counted = counted;
      most = most;
    }) crew.old }
    requires there { number < length crew.old }
    requires unarmed { (worker_state_at crew.old number).seat ≡ None }
    requires rest { (worker_state_at crew.old number).journal ≡ [] }
    requires text { AreEntries false entries.now }
    requires few { steps_by crew.old ≤ most }
    requires most { most ≤ 2 ^ 40 }
    ensures { IfOk result (MakesPartOrNot (record {
      worker = number;
      entries = entries.now;
      counted = counted;
      most = most;
    }) crew.old crew.new) }
{
    let mut hand = 0;
    let mut steps = u128::from(steps_of(crew));
    'entries: for place in 0..entries.len() {
        let entry = &entries[place];
        let made = steps_of_entry(entry);
        if steps + made > u128::from(most) {
            return Ok(PartRedone::Illegal {
                place: place as u64,
            });
        }
        match redo_entry(crew, number, entry, armed_if(counted, hand))? {
            Redone::Done { hand: left } => hand = left,
            Redone::Illegal => {
                return Ok(PartRedone::Illegal {
                    place: place as u64,
                });
            }
        }
        steps += made;
    }
    Ok(PartRedone::Done { hand })
}
