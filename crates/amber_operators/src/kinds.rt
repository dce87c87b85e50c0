//! Where kinds of operators are told apart: one dispatch for each thing that an operator does. What a kind does stands in a file
//! of its own, or in the crate of what it keeps.

ghost use Rattle.std.specs.Prelude.{◌≡◌, ◌==◌, ◌&&◌, ◌≤◌, Some, None, true, false, length, IfNone, IfOk, IfSome, OnErr, OnOk, []};
ghost use Rattle.amber_rows.specs.Kinds.{is_keyed, side_keys};
ghost use Rattle.amber_link.specs.Links.{has_some};
ghost use Rattle.amber_link.specs.Sides.{have_all_ended};
ghost use Rattle.amber_operators.specs.Handed.{arrivals_in};
ghost use Rattle.amber_operators.specs.Kept.{Closes, IsRefused, IsSealedSo, MayTakeRow, is_group, is_plain};
ghost use Rattle.amber_operators.specs.Readied.{StandsReady};
ghost use Rattle.amber_operators.specs.ReadiedRows.{AreReadied, reading_with};
ghost use Rattle.amber_operators.specs.RowsTaken.{AreSame, GainsAny, gives_if, passed_of};
ghost use Rattle.amber_operators.specs.States.{IsExtra, IsOperatorStateOf, row_yield, turned_to, with_value};
ghost use Rattle.amber_operators.specs.Yielding.{rows_given};

use crate::grouping::{rows_of_groups, take_grouped};
use crate::joining::take_joined;
use crate::operator_state::OperatorState;
use crate::readied::{Readied, ready_grouped, ready_joined, ready_kept, ready_plain};
use crate::readied_rows::ReadiedRows;
use crate::redone_joins::probe_rows;
use crate::redone_rows::fates_of;
use crate::taking_rows::{Fate, Gains, Rest, take_arrival, take_kept};
use crate::used_rows::UsedRows;
use crate::yielding::Yielded;
use amber_group::GroupState;
use amber_join::JoinState;
use amber_link::{Upstream, have_ended};
use amber_meaning::Extra;
use amber_ops::{FilterState, ProjectState};
use amber_rows::{Cols, Row, Schema, Value, What};
use std::alloc::{AllocError, Global};
use std::collections::VecDeque;

/// What a worker of this kind does with a row.
pub fn operator_state_of(alloc: Global, what: &What) -> Result<OperatorState, AllocError>
    ensures { IfOk result (λ operator_state. IsOperatorStateOf operator_state what.now) }
{
    match what {
        What::Scan { .. } => Ok(OperatorState::Scan),
        What::Filter { cond, .. } => Ok(OperatorState::Filter(FilterState::new(cond.clone()?))),
        What::Project { from, .. } => {
            let columns = from.clone()?;
            Ok(OperatorState::Project(ProjectState::new(alloc, columns)))
        }
        What::Join {
            build_keys,
            probe_keys,
            ..
        } => {
            let build = build_keys.clone()?;
            let probe = probe_keys.clone()?;
            Ok(OperatorState::Join(JoinState::new(alloc, build, probe)))
        }
        What::Group { keys, aggs, .. } => {
            let keys = keys.clone()?;
            let aggs = aggs.clone()?;
            Ok(OperatorState::Group(GroupState::new(alloc, keys, aggs)))
        }
        What::Sink { .. } => Ok(OperatorState::Sink),
    }
}

/// The keys by which the rows of an operator go into this kind of operator, if they go by keys.
pub fn keys_into(what: &What, op: u32) -> Option<&Cols>
    ensures none { IfNone result (is_keyed what.now ≡ false) }
    ensures some { IfSome result (λ keys. (is_keyed what.now ≡ true) × (keys.now
        ≡ side_keys what.now op)) }
{
    match what {
        What::Join {
            build,
            build_keys,
            probe_keys,
            ..
        } => Some(if *build == op { build_keys } else { probe_keys }),
        What::Group { keys, .. } => Some(keys),
        What::Scan { .. } | What::Filter { .. } | What::Project { .. } | What::Sink { .. } => None,
    }
}

impl OperatorState {
    /// Whether what is kept are groups: rows come of these only once nothing more can come.
    pub fn is_group(&self) -> bool
        ensures { result ≡ is_group self.now }
    {
        matches!(self, OperatorState::Group(_))
    }

    /// Whether the rows that it gives are not those that it was handed, so that used rows can be written over.
    #[inline(always)]
    pub fn makes_rows(&self) -> bool {
        match self {
            OperatorState::Scan | OperatorState::Project(_) | OperatorState::Join(_) => true,
            OperatorState::Filter(_) | OperatorState::Group(_) | OperatorState::Sink => false,
        }
    }

    /// Whether the rows that it gives are those that senders handed to it, who can have them back.
    #[inline(always)]
    pub fn passes_rows(&self) -> bool {
        matches!(self, OperatorState::Filter(_))
    }
}

// ---- a row

// What becomes of a row that suits.
#[inline(always)]
pub(crate) fn suited_fate(
    operator_state: &OperatorState,
    row: &Row,
    free: &mut UsedRows,
) -> Result<Fate, AllocError>
    requires plain { is_plain operator_state.now ≡ true }
    ensures { IfOk result (λ fate. passed_of fate row.now
        ≡ gives_if operator_state.now false (Some row.now)) }
{
    match operator_state {
        OperatorState::Scan => Ok(Fate::Passed),
        OperatorState::Filter(state) => {
            if state.passes(row) {
                Ok(Fate::Passed)
            } else {
                Ok(Fate::Dropped)
            }
        }
        OperatorState::Project(state) => Ok(Fate::Made(state.pick_over(free.take(), row)?)),
        OperatorState::Join(_) | OperatorState::Group(_) | OperatorState::Sink => unreachable!(),
    }
}

/// The rows that an operator gives of a row, of the probe side where there are two. Nothing is kept of the row. A group and a
/// sink give none.
#[inline(always)]
pub fn yield_of(
    operator_state: &OperatorState,
    alloc: Global,
    row: &Row,
) -> Result<Yielded, AllocError>
    requires { IsSealedSo operator_state.now false }
    ensures { IfOk result (λ yielded. rows_given yielded row.now
        ≡ row_yield operator_state.now false row.now) }
{
    match operator_state {
        OperatorState::Scan => Ok(Yielded::Same),
        OperatorState::Filter(state) => {
            if state.passes(row) {
                return Ok(Yielded::Same);
            }
            Ok(Yielded::Nothing)
        }
        OperatorState::Project(state) => Ok(Yielded::Other(state.pick(row)?)),
        OperatorState::Join(state) => Ok(Yielded::Many(state.probe(alloc, row)?)),
        OperatorState::Group(_) | OperatorState::Sink => Ok(Yielded::Nothing),
    }
}

// Takes the next row of a batch, of the build side or not, the last one where nothing more can
// come.
pub(crate) fn take_any(
    rows: &mut VecDeque<Row>,
    columns: &Schema,
    builds: bool,
    over: bool,
    operator_state: &mut OperatorState,
    gains: &mut Gains,
) -> Result<(), AllocError>
    requires some { has_some rows.old.items ≡ true }
    requires may { MayTakeRow operator_state.old builds }
    requires none { gains.old.pending ≡ [] }
    ensures ok { OnOk result
        (GainsAny (record { columns = columns.now; builds = builds; over = over })
        (record { left = rows.old.items; state = operator_state.old; gains = gains.old })
        (record { left = rows.new.items; state = operator_state.new; gains = gains.new })) }
    ensures rows_on_err { OnErr result (rows.new.items ≡ rows.old.items) }
    ensures operator_state_on_err { OnErr result (operator_state.new ≡ operator_state.old) }
    ensures gains_on_err { OnErr result (AreSame gains.old gains.new) }
{
    match operator_state {
        OperatorState::Join(state) => take_joined(
            rows,
            columns,
            builds,
            state,
            &mut gains.pending.later,
            &mut gains.done,
            &mut gains.free,
        ),
        OperatorState::Group(state) => take_grouped(
            rows,
            columns,
            over,
            state,
            &mut gains.pending.later,
            &mut gains.done,
        ),
        OperatorState::Sink => take_kept(rows, columns, gains),
        OperatorState::Scan | OperatorState::Filter(_) | OperatorState::Project(_) => {
            take_arrival(rows, operator_state, columns, gains)
        }
    }
}

// Makes the next row of a batch ready.
pub(crate) fn ready_row(
    rest: &mut Rest,
    columns: &Schema,
    builds: bool,
    over: bool,
    operator_state: &mut OperatorState,
    gains: &mut Gains,
) -> Result<Readied, AllocError>
    requires some { has_some rest.old.rows.items ≡ true }
    requires batch { rest.old.share ≡ None }
    requires may { MayTakeRow operator_state.old builds }
    ensures ok { IfOk result (λ readied. StandsReady
        (record { columns = columns.now; builds = builds; over = over })
        (record { left = arrivals_in rest.old; state = operator_state.old; gains = gains.old })
        (record { rest = rest.new; state = operator_state.new; gains = gains.new }) readied) }
    ensures share { rest.new.share ≡ rest.old.share }
    ensures rest_on_err { OnErr result (arrivals_in rest.new ≡ arrivals_in rest.old) }
    ensures operator_state_on_err { OnErr result (operator_state.new ≡ operator_state.old) }
    ensures same { AreSame gains.old gains.new }
{
    match operator_state {
        OperatorState::Join(state) => ready_joined(rest, columns, builds, state, gains),
        OperatorState::Group(state) => ready_grouped(rest, columns, over, state, gains),
        OperatorState::Sink => ready_kept(rest, columns, gains),
        OperatorState::Scan | OperatorState::Filter(_) | OperatorState::Project(_) => {
            ready_plain(rest, columns, operator_state, gains)
        }
    }
}

// ---- a batch

// Says what becomes of so many rows of the batch, or what comes of them.
pub(crate) fn ready_batch(
    alloc: Global,
    rest: &Rest,
    columns: &Schema,
    builds: bool,
    operator_state: &OperatorState,
    count: usize,
    free: &mut UsedRows,
) -> Result<ReadiedRows, AllocError>
    requires batch { rest.now.share ≡ None }
    requires there { count ≤ length rest.now.rows.items }
    requires apart { is_group operator_state.now ≡ false }
    requires sealed { IsSealedSo operator_state.now builds }
    ensures { IfOk result (λ readied. AreReadied
        (reading_with count columns.now builds operator_state.now) rest.now readied) }
{
    match operator_state {
        OperatorState::Sink => Ok(ReadiedRows::Kept),
        OperatorState::Scan | OperatorState::Filter(_) | OperatorState::Project(_) => {
            let fates = fates_of(alloc, operator_state, columns, &rest.rows, count, free)?;
            Ok(ReadiedRows::Rows(fates))
        }
        OperatorState::Join(state) => {
            if builds {
                return Ok(ReadiedRows::Built);
            }
            let made = probe_rows(alloc, state, columns, &rest.rows, count, free)?;
            Ok(ReadiedRows::Made(made))
        }
        OperatorState::Group(_) => unreachable!(),
    }
}

/// Whether what is kept are groups, and the next row is the last one that can come.
pub fn is_last(operator_state: &OperatorState, rest: &Rest, ins: &[Upstream]) -> bool
    requires { IfSome rest.now.share (λ _. operator_state.now ≡ OperatorState.Scan) }
    ensures { result ≡ (is_group operator_state.now
        && ((length (arrivals_in rest.now) == 1) && have_all_ended ins.now)) }
{
    match operator_state {
        OperatorState::Group(_) => rest.rows.len() == 1 && have_ended(ins),
        OperatorState::Scan
        | OperatorState::Filter(_)
        | OperatorState::Project(_)
        | OperatorState::Join(_)
        | OperatorState::Sink => false,
    }
}

/// The rows that are given at the end, where they are asked for; else none.
pub fn closing_of(
    alloc: Global,
    operator_state: &OperatorState,
    asked: bool,
) -> Result<VecDeque<Row>, AllocError>
    ensures { IfOk result (λ last. Closes operator_state.now asked last.items) }
{
    if !asked {
        return Ok(VecDeque::new(alloc));
    }
    match operator_state {
        OperatorState::Group(state) => rows_of_groups(alloc, state),
        OperatorState::Scan
        | OperatorState::Filter(_)
        | OperatorState::Project(_)
        | OperatorState::Join(_)
        | OperatorState::Sink => { Ok(VecDeque::new(alloc)) }
    }
}

/// The batches at hand are of the build side, or of the other: then what a join keeps is sealed.
pub fn turn_to(operator_state: &mut OperatorState, builds: bool)
    ensures { operator_state.new ≡ turned_to builds operator_state.old }
{
    match operator_state {
        OperatorState::Join(state) => {
            if !builds {
                state.seal();
            }
        }
        OperatorState::Scan
        | OperatorState::Filter(_)
        | OperatorState::Project(_)
        | OperatorState::Group(_)
        | OperatorState::Sink => {}
    }
}

// ---- what is set and shown

/// Puts a value in place of the constant of a filter; nothing else has one.
pub fn set_value(operator_state: &mut OperatorState, value: Value)
    ensures { operator_state.new ≡ with_value value operator_state.old }
{
    match operator_state {
        OperatorState::Filter(state) => state.set(value),
        OperatorState::Scan
        | OperatorState::Project(_)
        | OperatorState::Join(_)
        | OperatorState::Group(_)
        | OperatorState::Sink => {}
    }
}

/// What a worker shows by what it does.
pub fn extra_of(operator_state: &OperatorState, gains: &Gains) -> Extra
    ensures { IsExtra operator_state.now (length gains.now.refused.items) (length
        gains.now.kept.items) result }
{
    match operator_state {
        OperatorState::Scan => Extra::Scan {
            refused: gains.refused.len() as u64,
        },
        OperatorState::Filter(_) | OperatorState::Project(_) => Extra::Nothing,
        OperatorState::Join(state) => Extra::Join {
            keys: state.keys(),
            built: state.rows(),
        },
        OperatorState::Group(state) => Extra::Group {
            groups: state.groups(),
        },
        OperatorState::Sink => Extra::Sink {
            kept: gains.kept.len() as u64,
        },
    }
}

/// The keys that a worker has refused: of a group those that have no row.
pub fn refused_keys(alloc: Global, operator_state: &OperatorState) -> Result<Vec<Row>, AllocError>
    ensures { IfOk result (λ keys. IsRefused operator_state.now keys.items) }
{
    match operator_state {
        OperatorState::Group(state) => {
            let group_result = state.finish(alloc)?;
            Ok(group_result.refused.into_inner())
        }
        OperatorState::Scan
        | OperatorState::Filter(_)
        | OperatorState::Project(_)
        | OperatorState::Join(_)
        | OperatorState::Sink => { Ok(Vec::new(alloc)) }
    }
}
