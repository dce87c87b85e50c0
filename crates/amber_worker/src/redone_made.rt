//! A line of a log of which what comes is made first: whether it may be done, with room for all that it leaves, and how it is
//! done then without memory. Rests on `redone_rows`, `letting_by` and `emitting`.

ghost use Rattle.std.specs.Prelude.{All, IfOk, IfSome, MatchBool, Ok, OnOk, [], false, length, map, not, true, ◌&&◌, ◌+◌, ◌++◌, ◌<◌, ◌==◌, ◌^◌, ◌≡◌, ◌≢◌, ◌≤◌, ℕ};
ghost use Rattle.std.specs.VecDeque.{deque_capacity};
ghost use Rattle.amber_link.specs.Sides.{have_all_ended, without_room};
ghost use Rattle.amber_worker.specs.Emitting.{EmitsMany, side_of};
ghost use Rattle.amber_operators.specs.Handed.{arrivals_in};
ghost use Rattle.amber_worker.specs.Links.{IsSoundRoute};
ghost use Rattle.amber_worker.specs.RedoneRows.{MayGoOn, most_pending, offer_in};

use crate::emitting::emit_many;
use crate::journal::Journal;
use crate::redone_rows::{RowsLine, fits};
use crate::route::Route;
use amber_link::{Downstream, Upstream, have_ended, reserve_rows};
use amber_operators::{Gate, Pending, Rest, join_rows, lets_pending_by, lets_rows_by, move_all};
use amber_rows::{Cond, Row};
use std::alloc::AllocError;
use std::collections::VecDeque;

// Whether so many rows are the last that can come.
pub(crate) fn ends_with(rows: u64, rest: &Rest, ins: &[Upstream]) -> bool
    ensures { result ≡ (not (rows == 0)
        && ((rows == length (arrivals_in rest.now)) && have_all_ended ins.now)) }
{
    rows != 0 && rows == rest.left() && have_ended(ins)
}

// What a line is judged by of which rows come with the last that it takes, and none before: how much is left to be taken, the
// rows that are pending, those that come, the condition in force, and whether the first row is waved on.
#[derive(Clone, Copy)]
pub(crate) struct Offering<'a> {
    left: u64,
    pending: &'a Pending,
    made: &'a VecDeque<Row>,
    when: &'a Option<Cond>,
    waved: bool,
}

impl<'a> Offering<'a> {
    // What a line is judged by.
    pub fn new(
        left: u64,
        pending: &'a Pending,
        made: &'a VecDeque<Row>,
        when: &'a Option<Cond>,
        waved: bool,
    ) -> Self
        ensures { offer_in result ≡ record {
          left = left;
          pending = pending.now;
          before = 0;
          made = made.now.items;
          when = when.now;
          waved = waved;
        } }
    {
        Offering {
            left,
            pending,
            made,
            when,
            waved,
        }
    }

    // How many rows are pending once all came.
    fn most(&self) -> Option<u64>
        ensures { IfSome result (λ most. most ≡ most_pending (offer_in self.now)) }
    {
        self.pending.len().checked_add(self.made.len() as u64)
    }
}

// Whether a line may be done for which this is offered.
fn may_close(line: RowsLine, offering: &Offering) -> bool
    ensures { MatchBool result
        (MayGoOn line (offer_in offering.now)) (MayGoOn line (offer_in offering.now) → ⊥) }
{
    let had = u128::from(offering.pending.len());
    if !fits(line, offering.left, had, had + offering.made.len() as u128) {
        return false;
    }
    let mut gate = Gate {
        left: line.outs,
        waved: offering.waved,
    };
    let when = offering.when;
    lets_pending_by(&mut gate, when, offering.pending)
        && lets_rows_by(&mut gate, when, offering.made)
}

// Makes room for all that a line leaves for which this is offered: in the journal, at each receiver, and in a list for the
// rows that are pending and those that come of it.
fn reserve_made(
    line: RowsLine,
    offering: &Offering,
    outs: &mut [Downstream],
    journal: &mut Journal,
    rows: &mut VecDeque<Row>,
) -> Result<(), AllocError>
    requires open { All (λ one. one.link.kept.ended ≡ false) outs.old }
    requires none { rows.old.items ≡ [] }
    ensures room { OnOk result (most_pending (offer_in offering.now) ≤ deque_capacity rows.new) }
    ensures outs { OnOk result (All (λ one. line.outs < one.link.kept.room) outs.new) }
    ensures spare { OnOk result (1 < journal.new.spare) }
    ensures none { rows.new.items ≡ [] }
    ensures same_outs { map without_room outs.new ≡ map without_room outs.old }
    ensures open { All (λ one. one.link.kept.ended ≡ false) outs.new }
    ensures entries { journal.new.entries ≡ journal.old.entries }
    ensures reserved { journal.new.reserved ≡ journal.old.reserved }
{
    let Some(most) = offering.most() else {
        return Err(AllocError);
    };
    rows.reserve(most as usize)?;
    journal.reserve(1)?;
    reserve_rows(outs, line.outs)
}

// Whether a line may be done for which this is offered. Then there is room for all that it leaves.
pub(crate) fn settle(
    line: RowsLine,
    offering: &Offering,
    outs: &mut [Downstream],
    journal: &mut Journal,
    rows: &mut VecDeque<Row>,
) -> Result<bool, AllocError>
    requires open { All (λ one. one.link.kept.ended ≡ false) outs.old }
    requires none { rows.old.items ≡ [] }
    ensures may { IfOk result (λ may. MatchBool may
        (MayGoOn line (offer_in offering.now)) (MayGoOn line (offer_in offering.now) → ⊥)) }
    ensures room { IfOk result (λ may. may ≡ true
        → most_pending (offer_in offering.now) ≤ deque_capacity rows.new) }
    ensures outs { IfOk result (λ may. may ≡ true
        → All (λ one. line.outs < one.link.kept.room) outs.new) }
    ensures spare { IfOk result (λ may. may ≡ true → 1 < journal.new.spare) }
    ensures none { rows.new.items ≡ [] }
    ensures same_outs { map without_room outs.new ≡ map without_room outs.old }
    ensures open { All (λ one. one.link.kept.ended ≡ false) outs.new }
    ensures entries { journal.new.entries ≡ journal.old.entries }
    ensures reserved { journal.new.reserved ≡ journal.old.reserved }
{
    if !may_close(line, offering) {
        return Ok(false);
    }
    reserve_made(line, offering, outs, journal, rows)?;
    Ok(true)
}

// Whether it was answered that a line may be done.
pub(crate) fn is_done(answer: &Result<bool, AllocError>) -> bool
    ensures may { result ≡ true → answer.now ≡ Ok true }
    ensures not { result ≡ false → answer.now ≢ Ok true }
{
    match answer {
        Ok(may) => *may,
        Err(_) => false,
    }
}

// Puts the rows that come of a line behind those that are pending, and hands so many of them on as it says. There is room
// for them.
pub(crate) fn hand_line(
    line: RowsLine,
    made: VecDeque<Row>,
    mut rows: VecDeque<Row>,
    pending: &mut Pending,
    route: &Route,
    outs: &mut [Downstream],
)
    requires none { rows.items ≡ [] }
    requires room { length pending.old + length made.items ≤ deque_capacity rows }
    requires some { line.outs ≤ length pending.old + length made.items }
    requires small { line.outs ≤ 2 ^ 40 }
    requires routed { IsSoundRoute route.now }
    requires outs { All (λ one. line.outs < one.link.kept.room) outs.old }
    requires few { All (λ one. one.link.kept.made + line.outs ≤ 2 ^ 40) outs.old }
    requires open { All (λ one. one.link.kept.ended ≡ false) outs.old }
    ensures emits { EmitsMany route.now line.outs (side_of (pending.old ++ made.items) outs.old)
        (side_of pending.new outs.new) }
    ensures open { All (λ one. one.link.kept.ended ≡ false) outs.new }
    ensures few { (n : ℕ) → All (λ one. one.link.kept.made ≤ n) outs.old → All
        (λ one. one.link.kept.made ≤ n + line.outs) outs.new }
{
    move_all(pending, &mut rows);
    join_rows(made, &mut rows);
    pending.fill(rows);
    emit_many(route, pending, outs, line.outs);
}
