//! How the next row is made ready to be taken, with all that may want memory. Rests on `taking_rows` and
//! `grouping`, `JoinState` of `amber_join` and `GroupState` of `amber_group`.

ghost use Rattle.std.specs.Prelude.{◌≡◌, ◌^◌, ◌<◌, [], List, Bool, Ok, Some, None, false, true, is_some, not, vec_capacity, vec_len, IfOk, IfSome, OnErr, OnOk};
ghost use Rattle.amber_rows.specs.declared.value.Value.{Value as Cell};
ghost use Rattle.amber_link.specs.Links.{has_some};
ghost use Rattle.amber_meaning.specs.Task.{row_in};
ghost use Rattle.amber_operators.specs.Handed.{arrivals_in};
ghost use Rattle.amber_operators.specs.RowsTaken.{AreSame};
ghost use Rattle.amber_operators.specs.Readied.{IsNextRow, IsReadied, StandsReady};
ghost use Rattle.amber_operators.specs.Keeping.{GivesGroups};
ghost use Rattle.amber_operators.specs.Kept.{is_plain};
ghost use Rattle.amber_operators.specs.Kept.{MayTakeRow};

use crate::grouping::rows_of_groups;
use crate::kinds::ready_row;
use crate::operator_state::OperatorState;
use crate::taking_rows::{Fate, Gains, Rest, fate_of};
use amber_group::{GroupState, Taken};
use amber_join::{JoinState, Staged};
use amber_rows::{Row, Schema, suits};
use amber_scan::Share;
use std::alloc::{AllocError, Global};
use std::collections::VecDeque;

/// What is made ready to take the next row or record, before it is known whether it may be taken.
#[derive(Drop)]
pub enum Readied {
    // A scan's record, which is read ahead.
    Record,
    // What becomes of the row at the front.
    Row(Fate),
    // The row at the front is kept for the answer.
    Kept,
    // The rows that come of the row at the front.
    Rows(VecDeque<Row>),
    // A build row, which the join has already: by this it is taken out again.
    Built(Staged),
    // The row at the front, which the groups have already: by this it is taken out again. And the
    // rows that come of it.
    Grouped(Taken, VecDeque<Row>),
}

// Reads the next record of a share ahead, with room for why it is none.
fn ready_record(share: &mut Share, gains: &mut Gains) -> Result<(), AllocError>
    requires { has_some share.old.left ≡ true }
    ensures ready { OnOk result (0 < share.new.ready) }
    ensures room { OnOk result (vec_len gains.new.refused < vec_capacity gains.new.refused) }
    ensures left { share.new.left ≡ share.old.left }
    ensures columns { share.new.columns ≡ share.old.columns }
    ensures same { AreSame gains.old gains.new }
{
    gains.refused.reserve(1)?;
    share.read_ahead(1)
}

// Says what becomes of the row at the front, of which a worker keeps nothing.
pub(crate) fn ready_plain(
    rest: &Rest,
    columns: &Schema,
    operator_state: &OperatorState,
    gains: &mut Gains,
) -> Result<Readied, AllocError>
    requires some { has_some rest.now.rows.items ≡ true }
    requires batch { rest.now.share ≡ None }
    requires plain { is_plain operator_state.now ≡ true }
    ensures ok { IfOk result (λ readied. (builds over : Bool) → StandsReady
        (record { columns = columns.now; builds = builds; over = over })
        (record { left = arrivals_in rest.now; state = operator_state.now; gains = gains.old })
        (record { rest = rest.now; state = operator_state.now; gains = gains.new }) readied) }
    ensures same { AreSame gains.old gains.new }
{
    let Some(next) = rest.rows.front() else {
        unreachable!()
    };
    let fate = fate_of(operator_state, columns, next, &mut gains.free)?;
    Ok(Readied::Row(fate))
}

// Makes room for the row at the front, which is kept for the answer where it suits the columns.
pub(crate) fn ready_kept(
    rest: &Rest,
    columns: &Schema,
    gains: &mut Gains,
) -> Result<Readied, AllocError>
    requires some { has_some rest.now.rows.items ≡ true }
    requires batch { rest.now.share ≡ None }
    ensures ok { IfOk result (λ readied. (builds over : Bool) → StandsReady
        (record { columns = columns.now; builds = builds; over = over })
        (record { left = arrivals_in rest.now; state = OperatorState.Sink; gains = gains.old })
        (record { rest = rest.now; state = OperatorState.Sink; gains = gains.new }) readied) }
    ensures same { AreSame gains.old gains.new }
{
    let Some(next) = rest.rows.front() else {
        unreachable!()
    };
    if !suits(next, columns) {
        return Ok(Readied::Row(Fate::Dropped));
    }
    gains.kept.reserve(1)?;
    Ok(Readied::Kept)
}

// Moves the row at the front into the join, of whose build side it is.
fn ready_built(
    rest: &mut Rest,
    columns: &Schema,
    state: &mut JoinState,
    gains: &Gains,
) -> Result<Readied, AllocError>
    requires some { has_some rest.old.rows.items ≡ true }
    requires batch { rest.old.share ≡ None }
    requires unsealed { state.old.sealed ≡ false }
    requires suits { (row : List Cell) → IsNextRow row rest.old
        → row_in columns.now (Ok row) ≡ Some row }
    ensures ok { IfOk result (λ readied. (over : Bool) → StandsReady
        (record { columns = columns.now; builds = true; over = over })
        (record {
          left = arrivals_in rest.old;
          state = OperatorState.Join state.old;
          gains = gains.now;
        })
        (record { rest = rest.new; state = OperatorState.Join state.new; gains = gains.now })
        readied) }
    ensures share { rest.new.share ≡ rest.old.share }
    ensures rest_on_err { OnErr result (arrivals_in rest.new ≡ arrivals_in rest.old) }
    ensures state_on_err { OnErr result (state.new ≡ state.old) }
{
    let Some(row) = rest.rows.pop_front() else {
        unreachable!()
    };
    match state.stage(row) {
        Ok(staged) => Ok(Readied::Built(staged)),
        Err(row) => {
            rest.rows.push_front_reserved(row);
            Err(AllocError)
        }
    }
}

// Finds the rows that a join gives for the row at the front, or moves that into it.
pub(crate) fn ready_joined(
    rest: &mut Rest,
    columns: &Schema,
    builds: bool,
    state: &mut JoinState,
    gains: &mut Gains,
) -> Result<Readied, AllocError>
    requires some { has_some rest.old.rows.items ≡ true }
    requires batch { rest.old.share ≡ None }
    requires side { state.old.sealed ≡ not builds }
    ensures ok { IfOk result (λ readied. (over : Bool) → StandsReady
        (record { columns = columns.now; builds = builds; over = over })
        (record {
          left = arrivals_in rest.old;
          state = OperatorState.Join state.old;
          gains = gains.old;
        })
        (record { rest = rest.new; state = OperatorState.Join state.new; gains = gains.new })
        readied) }
    ensures share { rest.new.share ≡ rest.old.share }
    ensures rest_on_err { OnErr result (arrivals_in rest.new ≡ arrivals_in rest.old) }
    ensures state_on_err { OnErr result (state.new ≡ state.old) }
    ensures same { AreSame gains.old gains.new }
{
    let Some(next) = rest.rows.front() else {
        unreachable!()
    };
    if !suits(next, columns) {
        return Ok(Readied::Row(Fate::Dropped));
    }
    if builds {
        return ready_built(rest, columns, state, gains);
    }
    let alloc = *gains.pending.later.allocator();
    let found = gains.free.probe(state, alloc, next)?;
    Ok(Readied::Rows(VecDeque::from_vec(found.into_inner())))
}

// The rows of the groups where nothing more can come; else none.
pub(crate) fn rows_once_over(
    alloc: Global,
    state: &GroupState,
    over: bool,
) -> Result<VecDeque<Row>, AllocError>
    ensures { IfOk result (λ rows. GivesGroups state.now over rows.items) }
{
    if over {
        return rows_of_groups(alloc, state);
    }
    Ok(VecDeque::new(alloc))
}

// Feeds the row at the front to the groups, where it suits, and makes the rows that come then.
pub(crate) fn ready_grouped(
    rest: &Rest,
    columns: &Schema,
    over: bool,
    state: &mut GroupState,
    gains: &Gains,
) -> Result<Readied, AllocError>
    requires some { has_some rest.now.rows.items ≡ true }
    requires batch { rest.now.share ≡ None }
    requires few { state.old.fed < 2 ^ 40 }
    ensures ok { IfOk result (λ readied. (builds : Bool) → StandsReady
        (record { columns = columns.now; builds = builds; over = over })
        (record {
          left = arrivals_in rest.now;
          state = OperatorState.Group state.old;
          gains = gains.now;
        })
        (record { rest = rest.now; state = OperatorState.Group state.new; gains = gains.now })
        readied) }
    ensures err { OnErr result (state.new ≡ state.old) }
{
    let alloc = *gains.pending.later.allocator();
    let Some(next) = rest.rows.front() else {
        unreachable!()
    };
    if !suits(next, columns) {
        let made = rows_once_over(alloc, state, over)?;
        return Ok(Readied::Rows(made));
    }
    let taken = state.take(next)?;
    match rows_once_over(alloc, state, over) {
        Ok(made) => Ok(Readied::Grouped(taken, made)),
        Err(error) => {
            state.undo(taken);
            Err(error)
        }
    }
}

/// Makes the next row or record ready: all of its taking that may want memory.
pub fn ready_next(
    rest: &mut Rest,
    columns: &Schema,
    builds: bool,
    over: bool,
    operator_state: &mut OperatorState,
    gains: &mut Gains,
) -> Result<Readied, AllocError>
    requires some { has_some (arrivals_in rest.old) ≡ true }
    requires scans { IfSome rest.old.share (λ _. operator_state.old ≡ OperatorState.Scan) }
    requires typed { IfSome rest.old.share (λ share. share.columns ≡ columns.now) }
    requires may { MayTakeRow operator_state.old builds }
    requires none { gains.old.pending ≡ [] }
    ensures ok { IfOk result (λ readied. IsReadied
        (record { columns = columns.now; builds = builds; over = over })
        (record { left = arrivals_in rest.old; state = operator_state.old; gains = gains.old })
        (record { rest = rest.new; state = operator_state.new; gains = gains.new }) readied) }
    ensures shares { is_some rest.new.share ≡ is_some rest.old.share }
    ensures typed { IfSome rest.new.share (λ share. share.columns ≡ columns.now) }
    ensures rest_on_err { OnErr result (arrivals_in rest.new ≡ arrivals_in rest.old) }
    ensures operator_state_on_err { OnErr result (operator_state.new ≡ operator_state.old) }
    ensures gains_on_err { OnErr result (AreSame gains.old gains.new) }
{
    match &mut rest.share {
        Some(share) => {
            ready_record(share, gains)?;
            Ok(Readied::Record)
        }
        None => ready_row(rest, columns, builds, over, operator_state, gains),
    }
}
