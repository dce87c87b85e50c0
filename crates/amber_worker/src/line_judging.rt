//! Whether a line of a log may be done for which rows or records were made ready, and room for all that it leaves. Rests on
//! `redone_rows` and `journal`, and on `ReadiedRows` of `amber_operators`.

ghost use Rattle.std.specs.Prelude.{All, [], false, map, ◌≡◌, ◌+◌, ◌≤◌, ◌<◌, length, IfOk, MatchBool, OnOk};
ghost use Rattle.std.specs.VecDeque.{deque_capacity, deque_len};
ghost use Rattle.amber_link.specs.Sides.{without_room};
ghost use Rattle.amber_operators.specs.Handed.{arrivals_in};
ghost use Rattle.amber_operators.specs.ReadiedRows.{AreReadied, HaveRoom, Reading, most_made};
ghost use Rattle.amber_operators.specs.RowsTaken.{AreSame};
ghost use Rattle.amber_worker.specs.RedoneRows.{MayGoOn, offer_to};

use crate::journal::Journal;
use crate::redone_rows::{RowsLine, fits};
use amber_link::{Downstream, reserve_rows};
use amber_operators::{
    Gains, Gate, Pending, ReadiedRows, Rest, lets_pending_by, lets_ready_by, most_made,
    reserve_kept,
};
use amber_rows::{Cond, Row, Schema};
use std::alloc::{AllocError, Global};
use std::collections::VecDeque;

// Whether a line may be done for which this is ready.
pub(crate) fn may_go(
    line: RowsLine,
    when: &Option<Cond>,
    waved: bool,
    pending: &Pending,
    readied: &ReadiedRows,
    rest: &Rest,
    columns: &Schema,
) -> bool
    requires { (how : Reading) × (how.count ≡ line.rows) × (how.columns ≡ columns.now)
        × AreReadied how rest.now readied.now }
    ensures { (how : Reading) → how.count ≡ line.rows → how.columns ≡ columns.now
        → AreReadied how rest.now readied.now → MatchBool result
        (MayGoOn line (offer_to how (arrivals_in rest.now)
        (record { pending = pending.now; when = when.now; waved = waved })))
        (MayGoOn line (offer_to how (arrivals_in rest.now)
        (record { pending = pending.now; when = when.now; waved = waved })) → ⊥) }
{
    let had = u128::from(pending.len());
    let gone = had + u128::from(readied.before());
    let all = had + u128::from(readied.made());
    if !fits(line, rest.left(), gone, all) {
        return false;
    }
    let mut gate = Gate {
        left: line.outs,
        waved,
    };
    lets_pending_by(&mut gate, when, pending)
        && lets_ready_by(&mut gate, when, readied, rest, columns, line.rows as usize)
}

// Makes room for all that a line leaves for which this is ready: in the journal, at each receiver, for what is kept, and for
// the rows that are pending and those that come of it.
pub(crate) fn reserve_line(
    alloc: Global,
    readied: &ReadiedRows,
    line: RowsLine,
    gains: &mut Gains,
    outs: &mut [Downstream],
    journal: &mut Journal,
) -> Result<VecDeque<Row>, AllocError>
    requires open { All (λ one. one.link.kept.ended ≡ false) outs.old }
    ensures none { IfOk result (λ rows. rows.items ≡ []) }
    ensures room { IfOk result (λ rows. deque_len rows + length gains.new.pending
        + most_made readied.now line.rows ≤ deque_capacity rows) }
    ensures kept { OnOk result (HaveRoom line.rows gains.new readied.now) }
    ensures outs { OnOk result (All (λ one. line.outs < one.link.kept.room) outs.new) }
    ensures spare { OnOk result (1 < journal.new.spare) }
    ensures same { AreSame gains.old gains.new }
    ensures same_outs { map without_room outs.new ≡ map without_room outs.old }
    ensures open { All (λ one. one.link.kept.ended ≡ false) outs.new }
    ensures entries { journal.new.entries ≡ journal.old.entries }
    ensures reserved { journal.new.reserved ≡ journal.old.reserved }
{
    let Some(most) = gains
        .pending
        .len()
        .checked_add(most_made(readied, line.rows))
    else {
        return Err(AllocError);
    };
    let mut rows = VecDeque::new(alloc);
    rows.reserve(most as usize)?;
    reserve_kept(readied, line.rows as usize, gains)?;
    journal.reserve(1)?;
    reserve_rows(outs, line.outs)?;
    Ok(rows)
}
