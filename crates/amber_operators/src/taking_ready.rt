//! How several rows or records that were made ready are taken, once there is room for all that comes of them. Rests on
//! `readied_rows`, `redone_rows`, `redone_joins` and `redone_records`.

ghost use Rattle.std.specs.Prelude.{◌≡◌, ◌+◌, ◌≤◌, ◌<◌, Bool, is_some, IfSome, OnErr, OnOk};
ghost use Rattle.std.specs.VecDeque.{deque_capacity, deque_len};
ghost use Rattle.amber_operators.specs.Handed.{arrivals_in};
ghost use Rattle.amber_operators.specs.ReadiedRows.{AreReadied, FeedsReadied, GainsAll, HaveRoom, Reading, most_made, reading_with};
ghost use Rattle.amber_operators.specs.RowsTaken.{AreSame};
ghost use Rattle.amber_operators.specs.declared.operator_state.OperatorState.{OperatorState as OneState};
ghost use Rattle.amber_operators.specs.declared.taking_rows.Rest.{Rest as OneRest};

use crate::operator_state::OperatorState;
use crate::readied_rows::ReadiedRows;
use crate::redone_joins::build_rows;
use crate::redone_records::take_records;
use crate::redone_rows::{drop_all, join_rows, keep_all, take_all};
use crate::taking_rows::{Gains, Rest};
use amber_rows::{Row, Schema};
use std::alloc::{AllocError, Global};
use std::collections::VecDeque;

/// How many rows come of what is ready at most.
pub fn most_made(readied: &ReadiedRows, count: u64) -> u64
    ensures { result ≡ most_made readied.now count }
{
    match readied {
        ReadiedRows::Made(made) => made.rows.len() as u64,
        ReadiedRows::Records { .. }
        | ReadiedRows::Rows(_)
        | ReadiedRows::Kept
        | ReadiedRows::Built => count,
    }
}

/// Makes room for what is kept of what is ready.
pub fn reserve_kept(
    readied: &ReadiedRows,
    count: usize,
    gains: &mut Gains,
) -> Result<(), AllocError>
    ensures room { OnOk result (HaveRoom count gains.new readied.now) }
    ensures same { AreSame gains.old gains.new }
{
    match readied {
        ReadiedRows::Records { .. } => gains.refused.reserve(count),
        ReadiedRows::Rows(_) | ReadiedRows::Made(_) | ReadiedRows::Built => Ok(()),
        ReadiedRows::Kept => gains.kept.reserve(count),
    }
}

/// Keeps rows for the operator, where these are ready, the last that may want memory.
pub fn feed_rows(
    alloc: Global,
    readied: &ReadiedRows,
    rest: &mut Rest,
    columns: &Schema,
    operator_state: &mut OperatorState,
    count: usize,
) -> Result<(), AllocError>
    requires { (builds : Bool) × AreReadied
        (reading_with count columns.now builds operator_state.old) rest.old readied.now }
    ensures ok { OnOk result ((builds : Bool) → AreReadied
        (reading_with count columns.now builds operator_state.old) rest.old readied.now
        → FeedsReadied
        (reading_with count columns.now builds operator_state.old)
        rest.old rest.new operator_state.new readied.now) }
    ensures share { rest.new.share ≡ rest.old.share }
    ensures left_on_err { OnErr result (arrivals_in rest.new ≡ arrivals_in rest.old) }
    ensures state_on_err { OnErr result (operator_state.new ≡ operator_state.old) }
{
    match readied {
        ReadiedRows::Built => {
            let OperatorState::Join(state) = operator_state else {
                unreachable!()
            };
            build_rows(alloc, state, &mut rest.rows, count, columns)
        }
        ReadiedRows::Records { .. }
        | ReadiedRows::Rows(_)
        | ReadiedRows::Kept
        | ReadiedRows::Made(_) => Ok(()),
    }
}

/// Takes so many rows or records that are ready, and kept for the operator if they are to be: what comes of them is put
/// behind these rows. There is room for all.
pub fn take_rows(
    readied: ReadiedRows,
    rest: &mut Rest,
    columns: &Schema,
    op: u32,
    count: usize,
    rows: &mut VecDeque<Row>,
    gains: &mut Gains,
)
    requires ready { (how : Reading) × (before : OneRest) × (state : OneState)
        × (how.count ≡ count) × (how.columns ≡ columns.now) × AreReadied how before readied
        × FeedsReadied how before rest.old state readied }
    requires room { deque_len rows.old + most_made readied count ≤ deque_capacity rows.old }
    requires kept { HaveRoom count gains.old readied }
    ensures taken { (how : Reading) (before : OneRest) (state : OneState) → how.count ≡ count
        → how.columns ≡ columns.now → AreReadied how before readied
        → FeedsReadied how before rest.old state readied → GainsAll op how
        (record { left = arrivals_in before; pending = rows.old.items; gains = gains.old })
        (record { left = arrivals_in rest.new; pending = rows.new.items; gains = gains.new }) }
    ensures shares { is_some rest.new.share ≡ is_some rest.old.share }
    ensures typed { IfSome rest.old.share (λ share. share.columns ≡ columns.now)
        → IfSome rest.new.share (λ share. share.columns ≡ columns.now) }
{
    match readied {
        ReadiedRows::Records { .. } => {
            let Some(share) = &mut rest.share else {
                unreachable!()
            };
            take_records(share, op, count, rows, &mut gains.refused);
        }
        ReadiedRows::Rows(fates) => take_all(fates.each, &mut rest.rows, rows, &mut gains.done),
        ReadiedRows::Kept => keep_all(&mut rest.rows, columns, count, &mut gains.kept),
        ReadiedRows::Made(made) => {
            drop_all(&mut rest.rows, count, &mut gains.done);
            join_rows(made.rows, rows);
        }
        ReadiedRows::Built => {}
    }
}
