//! A line of a log that is done again: the hand before it, and what comes of it. Over `Entry` of `amber_log`.

ghost use Rattle.std.specs.Prelude.{◌+◌, ◌<◌, ◌^◌, ◌≡◌};
ghost use Rattle.amber_worker.specs.Redoable.{lacks_units};
ghost use Rattle.amber_worker.specs.Redoing.{hand_after, hand_before, log_line, units_of};

use amber_log::Entry;

/// The units in hand before a line of a log, where a count is armed for the operator.
#[derive(Clone, Copy)]
pub struct Armed {
    pub hand: u128,
}

/// What came of a line of a log.
#[derive(Clone, Copy)]
pub enum Redone {
    /// It was done, and these units are in hand then; none where no count is armed.
    Done { hand: u128 },
    /// It does not meet its rule, and nothing was done.
    Illegal,
}

// The units in hand before a line.
pub(crate) fn hand_of(armed: Option<Armed>) -> u128
    ensures { result ≡ hand_before armed }
{
    match armed {
        None => 0,
        Some(armed) => armed.hand,
    }
}

// Whether a count is armed, and fewer units are in hand than these.
pub(crate) fn lacks_units(armed: Option<Armed>, units: u64) -> bool
    ensures { result ≡ lacks_units armed units }
{
    match armed {
        None => false,
        Some(armed) => armed.hand < u128::from(units),
    }
}

// What an entry leaves of the units in hand before it.
pub(crate) fn left_by(entry: &Entry, armed: Option<Armed>) -> u128
    requires { hand_before armed + units_of entry.now < 2 ^ 128 }
    ensures { result ≡ hand_after (log_line entry.now armed) }
{
    let hand = hand_of(armed);
    match entry {
        Entry::Go { outs, .. } => hand.saturating_sub(u128::from(*outs)),
        Entry::Grant { n } => hand + u128::from(*n),
        Entry::Back { .. } => 0,
        Entry::Take { .. } | Entry::Pause | Entry::Resume | Entry::Hold | Entry::Finish => hand,
    }
}
