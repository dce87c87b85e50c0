//! A line of a log that takes rows: its numbers, and whether these meet the rule. Over `Armed` of `redoing`.

ghost use Rattle.std.specs.Prelude.{MatchBool};
ghost use Rattle.amber_worker.specs.RedoneRows.{Fits};

use crate::redoing::Armed;

// A line that takes so many rows and emits so many, and the hand before it where a count is armed.
#[derive(Clone, Copy)]
pub(crate) struct RowsLine {
    pub rows: u64,
    pub outs: u64,
    pub armed: Option<Armed>,
}

// Whether the numbers of a line meet the rule, where so many rows are left to be taken, so many are pending or come of all
// that it takes but for the last, and so many are pending or come of all of it.
pub(crate) fn fits(line: RowsLine, left: u64, gone: u128, all: u128) -> bool
    ensures { MatchBool result (Fits line left gone all) (Fits line left gone all → ⊥) }
{
    let outs = u128::from(line.outs);
    let takes = line.rows > 0;
    if line.rows > left || outs > all || takes && gone > outs {
        return false;
    }
    match line.armed {
        None => true,
        Some(armed) => outs <= armed.hand && (!takes || gone < armed.hand),
    }
}
