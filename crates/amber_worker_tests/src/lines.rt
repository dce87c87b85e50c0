//! Lines that a worker does again, and what stands in their way. Over `Worker::redo`.

ghost use Rattle.std.specs.Prelude.{[], false, true, ◌&&◌, ◌++◌, ◌<◌, ◌^◌, ◌≡◌, ◌∷◌};
ghost use Rattle.amber_log.specs.Grammar.{AreEntries, IsEntry, is_go};
ghost use Rattle.amber_worker.specs.Redoing.{entry_steps, hand_before};

use amber_log::Entry;
use amber_worker::{Armed, Redone, Worker};
use std::test::Fail;

// Whether an entry takes or emits rows.
fn is_go(entry: &Entry) -> bool
    ensures { result ≡ is_go entry.now }
{
    match entry {
        Entry::Go { .. } => true,
        Entry::Take { .. }
        | Entry::Grant { .. }
        | Entry::Back { .. }
        | Entry::Pause
        | Entry::Resume
        | Entry::Hold
        | Entry::Finish => false,
    }
}

// Whether the numbers of an entry are those of one.
fn has_numbers(entry: &Entry) -> bool
    ensures { result ≡ true → IsEntry entry.now }
{
    match entry {
        Entry::Go { rows, outs } => {
            let (rows, outs) = (*rows, *outs);
            rows != 0 || outs != 0
        }
        Entry::Grant { n } | Entry::Back { n } => *n != 0,
        Entry::Take { from, batch } => {
            let _numbers = (*from, *batch);
            true
        }
        Entry::Pause | Entry::Resume | Entry::Hold | Entry::Finish => true,
    }
}

// Whether an entry may follow others, the last of which takes or emits rows or not.
fn fits_after(gone: bool, entry: &Entry) -> bool
    ensures entry { result ≡ true → IsEntry entry.now }
    ensures apart { result ≡ true → (gone && is_go entry.now) ≡ false }
{
    has_numbers(entry) && !(gone && is_go(entry))
}

// Whether an entry may follow these.
fn may_follow(entries: &[Entry], entry: &Entry) -> bool
    ensures { result ≡ true → AreEntries false (entries.now ++ entry.now ∷ []) }
{
    let mut gone = false;
    for i in 0..entries.len() {
        let one = entries[i];
        if !fits_after(gone, &one) {
            return false;
        }
        gone = is_go(&one);
    }
    fits_after(gone, entry)
}

// The steps of an entry.
fn entry_steps(entry: &Entry) -> u128
    ensures is { result ≡ entry_steps entry.now }
    ensures few { result < 2 ^ 65 }
{
    match entry {
        Entry::Go { rows, outs } => u128::from(*rows) + u128::from(*outs),
        Entry::Take { .. } | Entry::Finish => 1,
        Entry::Grant { .. } | Entry::Back { .. } | Entry::Pause | Entry::Resume | Entry::Hold => 0,
    }
}

// A count that is armed with so many units in hand.
fn armed_with(hand: Option<u64>) -> Option<Armed>
    ensures { hand_before result < 2 ^ 64 }
{
    match hand {
        None => None,
        Some(hand) => Some(Armed {
            hand: u128::from(hand),
        }),
    }
}

/// Does a line, where nothing stands in its way: what is in hand then, or nothing where it is illegal.
pub fn redo_line(
    worker: &mut Worker,
    entry: &Entry,
    armed: Option<u64>,
) -> Result<Option<u128>, Fail> {
    if worker.is_armed() || !may_follow(worker.journal(), entry) {
        return Err(Fail::new("line"));
    }
    if u128::from(worker.steps()) + entry_steps(entry) > 1 << 40 {
        return Err(Fail::new("steps"));
    }
    match worker.redo(entry, armed_with(armed))? {
        Redone::Done { hand } => Ok(Some(hand)),
        Redone::Illegal => Ok(None),
    }
}
