//! How a row that was made ready is taken or left, neither of which wants memory. Over `Readied` of `readied`.

ghost use Rattle.std.specs.Prelude.{◌≡◌, ◌<◌, ◌∷◌, ◌++◌, [], List, Ok, Some, None, true, is_some, vec_capacity, vec_len, IfSome};
ghost use Rattle.std.specs.VecDeque.{deque_capacity, deque_len};
ghost use Rattle.amber_rows.specs.declared.value.Value.{Value as Cell};
ghost use Rattle.amber_rows.specs.declared.column.Column.{Column};
ghost use Rattle.amber_link.specs.Links.{has_some};
ghost use Rattle.amber_join.specs.Join.{CameLast};
ghost use Rattle.amber_meaning.specs.Task.{Arrival};
ghost use Rattle.amber_operators.specs.declared.operator_state.OperatorState.{OperatorState as OneState};
ghost use Rattle.amber_operators.specs.Handed.{arrivals_in};
ghost use Rattle.amber_operators.specs.RowsTaken.{Advance, AreSame, GainsNext, GainsRecord, Manner, passed_of};
ghost use Rattle.amber_operators.specs.Readied.{HasReadied, IsReadied};

use crate::operator_state::OperatorState;
use crate::readied::Readied;
use crate::taking_rows::{Fate, Gains, Rest, put, put_record};
use amber_join::{JoinState, Staged};
use amber_rows::Row;
use amber_scan::Share;
use std::collections::VecDeque;

// Takes the record that was read ahead.
fn take_record(share: &mut Share, op: u32, gains: &mut Gains)
    requires some { has_some share.old.left ≡ true }
    requires ready { 0 < share.old.ready }
    requires room { vec_len gains.old.refused < vec_capacity gains.old.refused }
    requires none { gains.old.pending ≡ [] }
    ensures taken { GainsRecord op share.old.columns
        (record { left = share.old.left; gains = gains.old })
        (record { left = share.new.left; gains = gains.new }) }
    ensures columns { share.new.columns ≡ share.old.columns }
{
    let Ok(Some(one)) = share.next(None) else {
        unreachable!()
    };
    put_record(one, op, &mut gains.pending, &mut gains.refused);
}

// Takes the row at the front, of which it is known what becomes of it.
fn take_row(rows: &mut VecDeque<Row>, fate: Fate, gains: &mut Gains)
    requires some { has_some rows.old.items ≡ true }
    requires none { gains.old.pending ≡ [] }
    ensures left { (row : List Cell) → (later : List (List Cell)) → rows.old.items ≡ row ∷ later
        → rows.new.items ≡ later }
    ensures pending { (row : List Cell) → (later : List (List Cell)) → rows.old.items ≡ row ∷ later
        → gains.new.pending ≡ passed_of fate row }
    ensures refused { gains.new.refused.items ≡ gains.old.refused.items }
    ensures kept { gains.new.kept.items ≡ gains.old.kept.items }
{
    let Some(row) = rows.pop_front() else {
        unreachable!()
    };
    put(fate, row, &mut gains.pending, &mut gains.done);
}

// Takes the row at the front, of which these rows come.
fn take_giving(rows: &mut VecDeque<Row>, made: VecDeque<Row>, gains: &mut Gains)
    requires some { has_some rows.old.items ≡ true }
    requires none { gains.old.pending ≡ [] }
    ensures left { (row : List Cell) → (later : List (List Cell)) → rows.old.items ≡ row ∷ later
        → rows.new.items ≡ later }
    ensures pending { gains.new.pending ≡ made.items }
    ensures refused { gains.new.refused.items ≡ gains.old.refused.items }
    ensures kept { gains.new.kept.items ≡ gains.old.kept.items }
{
    if let Some(row) = rows.pop_front() {
        gains.done.keep(row);
    }
    gains.pending.fill(made);
}

// Takes the row at the front, which is kept for the answer.
fn take_kept(rows: &mut VecDeque<Row>, gains: &mut Gains)
    requires some { has_some rows.old.items ≡ true }
    requires room { vec_len gains.old.kept < vec_capacity gains.old.kept }
    ensures left { (row : List Cell) → (later : List (List Cell)) → rows.old.items ≡ row ∷ later
        → rows.new.items ≡ later }
    ensures kept { (row : List Cell) → (later : List (List Cell)) → rows.old.items ≡ row ∷ later
        → gains.new.kept.items ≡ gains.old.kept.items ++ row ∷ [] }
    ensures pending { gains.new.pending ≡ gains.old.pending }
    ensures refused { gains.new.refused.items ≡ gains.old.refused.items }
{
    let Some(row) = rows.pop_front() else {
        unreachable!()
    };
    gains.kept.push_reserved(row);
}

/// Takes the next row or record, which was made ready. It wants no memory.
pub fn take_readied(readied: Readied, rest: &mut Rest, op: u32, gains: &mut Gains)
    requires { (state : OneState) × HasReadied
        (record { rest = rest.old; state = state; gains = gains.old }) readied }
    ensures taken { (how : Manner) (before : Advance Arrival) (state : OneState)
        → IsReadied how before
        (record { rest = rest.old; state = state; gains = gains.old }) readied
        → GainsNext op how before
        (record { left = arrivals_in rest.new; state = state; gains = gains.new }) }
    ensures shares { is_some rest.new.share ≡ is_some rest.old.share }
    ensures typed { (columns : List Column)
        → IfSome rest.old.share (λ share. share.columns ≡ columns)
        → IfSome rest.new.share (λ share. share.columns ≡ columns) }
{
    match readied {
        Readied::Record => {
            let Some(share) = &mut rest.share else {
                unreachable!()
            };
            take_record(share, op, gains);
        }
        Readied::Row(fate) => take_row(&mut rest.rows, fate, gains),
        Readied::Kept => take_kept(&mut rest.rows, gains),
        Readied::Rows(made) => take_giving(&mut rest.rows, made, gains),
        Readied::Built(_staged) => {}
        Readied::Grouped(_taken, made) => take_giving(&mut rest.rows, made, gains),
    }
}

// Takes the row that was staged out of the join, and puts it to the front again.
fn leave_built(staged: Staged, rest: &mut Rest, state: &mut JoinState)
    requires came { CameLast staged state.old }
    requires room { deque_len rest.old.rows < deque_capacity rest.old.rows }
    ensures left { (rows : List (List Cell)) (row : List Cell) → state.old.rows ≡ rows ++ row ∷ []
        → rest.new.rows.items ≡ row ∷ rest.old.rows.items }
    ensures rows { (rows : List (List Cell)) (row : List Cell) → state.old.rows ≡ rows ++ row ∷ []
        → state.new ≡ record state.old { rows = rows } }
    ensures share { rest.new.share ≡ rest.old.share }
    ensures from { rest.new.from ≡ rest.old.from }
{
    let row = state.unstage(staged);
    rest.rows.push_front_reserved(row);
}

/// Leaves the next row or record, which was made ready: all is as before that. It wants no memory.
pub fn leave_readied(
    readied: Readied,
    rest: &mut Rest,
    operator_state: &mut OperatorState,
    gains: &mut Gains,
)
    requires { HasReadied
        (record { rest = rest.old; state = operator_state.old; gains = gains.old }) readied }
    ensures left { (how : Manner) (before : Advance Arrival) → IsReadied how before
        (record { rest = rest.old; state = operator_state.old; gains = gains.old }) readied
        → arrivals_in rest.new ≡ before.left }
    ensures state { (how : Manner) (before : Advance Arrival) → IsReadied how before
        (record { rest = rest.old; state = operator_state.old; gains = gains.old }) readied
        → operator_state.new ≡ before.state }
    ensures gains { AreSame gains.old gains.new }
    ensures share { rest.new.share ≡ rest.old.share }
{
    match readied {
        Readied::Built(staged) => {
            let OperatorState::Join(state) = operator_state else {
                unreachable!()
            };
            leave_built(staged, rest, state);
        }
        Readied::Grouped(taken, _) => {
            let OperatorState::Group(state) = operator_state else {
                unreachable!()
            };
            state.undo(taken);
        }
        Readied::Row(Fate::Made(row)) => gains.free.keep(row),
        Readied::Record
        | Readied::Row(Fate::Dropped | Fate::Passed)
        | Readied::Kept
        | Readied::Rows(_) => {}
    }
}
