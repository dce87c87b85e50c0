//! How a worker takes rows and batches. Rests on `kinds` and `Pending`, and on `Share` of `amber_scan`.

ghost use Rattle.std.specs.Prelude.{◌≡◌, ◌&&◌, [], if◌then◌else◌, List, ◌+◌, ◌++◌, ◌<◌, Ok, Some, is_some, true, false, not, drop, length, slice_index_or, take, vec_capacity, vec_len, IfOk, IfSome, OnErr, OnOk};
ghost use Rattle.amber_rows.specs.declared.column.Column.{Column};
ghost use Rattle.amber_meaning.specs.Task.{row_in};
ghost use Rattle.amber_meaning.specs.Refused.{refusal_in};
ghost use Rattle.amber_scan.specs.Shares.{Suits};
ghost use Rattle.amber_link.specs.Links.{has_some, starts_empty, waiting};
ghost use Rattle.amber_link.specs.declared.upstreams.Upstream.{Upstream as OneUpstream};
ghost use Rattle.amber_link.specs.Sides.{have_all_ended};
ghost use Rattle.amber_operators.specs.Handed.{arrivals_in};
ghost use Rattle.amber_operators.specs.RowsTaken.{AreSame, GainsNext, GainsRecord, GainsRow, gives_if, passed_of};
ghost use Rattle.amber_operators.specs.Kept.{MayTakeRow, is_plain};

use crate::kinds::{suited_fate, take_any};
use crate::operator_state::OperatorState;
use crate::pending::Pending;
use crate::used_rows::UsedRows;
use amber_link::{Upstream, have_ended, is_empty_at};
use amber_meaning::Refusal;
use amber_rows::{Row, Schema, suits};
use amber_scan::{Scanned, Share};
use std::alloc::AllocError;
use std::collections::VecDeque;

/// What a worker has not taken yet: of a scan's share, or of the batch at hand.
#[derive(Drop)]
pub struct Rest {
    pub share: Option<Share>,
    pub from: u32,
    pub rows: VecDeque<Row>,
}

impl Rest {
    /// How much is left.
    pub fn left(&self) -> u64
        ensures { result ≡ length (arrivals_in self.now) }
    {
        match &self.share {
            Some(share) => share.left(),
            None => self.rows.len() as u64,
        }
    }

    /// Whether nothing is left.
    pub fn is_empty(&self) -> bool
        ensures { has_some (arrivals_in self.now) ≡ not result }
    {
        match &self.share {
            Some(share) => share.is_empty(),
            None => self.rows.is_empty(),
        }
    }
}

/// What rows give: those that go on, records that were refused, and rows that are kept for the
/// answer.
#[derive(Drop)]
pub struct Gains {
    pub pending: Pending,
    pub refused: Vec<Refusal>,
    pub kept: Vec<Row>,
    // Rows that came and are done with, and rows that came back, over which others are written.
    pub done: UsedRows,
    pub free: UsedRows,
}

/// What becomes of a row that was taken.
#[derive(Drop)]
pub enum Fate {
    Dropped,
    Passed,
    Made(Row),
}

// What becomes of a row; one that does not suit the columns is dropped.
pub(crate) fn fate_of(
    operator_state: &OperatorState,
    columns: &Schema,
    row: &Row,
    free: &mut UsedRows,
) -> Result<Fate, AllocError>
    requires plain { is_plain operator_state.now ≡ true }
    ensures { IfOk result (λ fate. passed_of fate row.now
        ≡ gives_if operator_state.now false (row_in columns.now (Ok row.now))) }
{
    if suits(row, columns) {
        suited_fate(operator_state, row, free)
    } else {
        Ok(Fate::Dropped)
    }
}

// Puts a row where it goes.
pub(crate) fn put(fate: Fate, row: Row, pending: &mut Pending, done: &mut UsedRows)
    requires none { pending.old ≡ [] }
    ensures { pending.new ≡ passed_of fate row }
{
    match fate {
        Fate::Dropped => done.keep(row),
        Fate::Passed => pending.put(row),
        Fate::Made(other) => {
            pending.put(other);
            done.keep(row);
        }
    }
}

// Puts a scan's record where it goes: a row is passed on, a fault is kept for the answer.
#[inline(always)]
pub(crate) fn put_record(one: Scanned, op: u32, pending: &mut Pending, refused: &mut Vec<Refusal>)
    requires none { pending.old ≡ [] }
    requires room { vec_len refused.old < vec_capacity refused.old }
    ensures goes_on { (columns : List Column) → Suits columns one.what → pending.new
        ≡ gives_if OperatorState.Scan false (row_in columns one.what) }
    ensures refused { refused.new.items ≡ refused.old.items ++ refusal_in op one.number one.what }
{
    match one.what {
        Ok(row) => pending.put(row),
        Err(fault) => refused.push_reserved(Refusal::Record {
            op,
            number: one.number,
            fault,
        }),
    }
}

// Takes the next record of a share.
#[inline(always)]
fn take_record(share: &mut Share, op: u32, gains: &mut Gains) -> Result<(), AllocError>
    requires some { has_some share.old.left ≡ true }
    requires none { gains.old.pending ≡ [] }
    ensures ok { OnOk result (GainsRecord op share.old.columns
        (record { left = share.old.left; gains = gains.old })
        (record { left = share.new.left; gains = gains.new })) }
    ensures columns { share.new.columns ≡ share.old.columns }
    ensures share_on_err { OnErr result (share.new ≡ share.old) }
    ensures gains_on_err { OnErr result (AreSame gains.old gains.new) }
{
    gains.refused.reserve(1)?;
    let used = gains.free.take();
    if share.is_empty() {
        unreachable!()
    }
    let Some(one) = share.next(used)? else {
        unreachable!()
    };
    put_record(one, op, &mut gains.pending, &mut gains.refused);
    Ok(())
}

// Takes the next row of a batch, of which a worker keeps nothing.
pub(crate) fn take_arrival(
    rows: &mut VecDeque<Row>,
    operator_state: &OperatorState,
    columns: &Schema,
    gains: &mut Gains,
) -> Result<(), AllocError>
    requires some { has_some rows.old.items ≡ true }
    requires plain { is_plain operator_state.now ≡ true }
    requires none { gains.old.pending ≡ [] }
    ensures ok { OnOk result (GainsRow operator_state.now columns.now
        (record { left = rows.old.items; gains = gains.old })
        (record { left = rows.new.items; gains = gains.new })) }
    ensures rows_on_err { OnErr result (rows.new.items ≡ rows.old.items) }
    ensures gains_on_err { OnErr result (AreSame gains.old gains.new) }
{
    let Some(next) = rows.front() else {
        unreachable!()
    };
    let fate = fate_of(operator_state, columns, next, &mut gains.free)?;
    let Some(row) = rows.pop_front() else {
        unreachable!()
    };
    put(fate, row, &mut gains.pending, &mut gains.done);
    Ok(())
}

// Takes the next row of a batch, which is kept for the answer where it suits the columns.
pub(crate) fn take_kept(
    rows: &mut VecDeque<Row>,
    columns: &Schema,
    gains: &mut Gains,
) -> Result<(), AllocError>
    requires some { has_some rows.old.items ≡ true }
    ensures ok { OnOk result (GainsRow OperatorState.Sink columns.now
        (record { left = rows.old.items; gains = gains.old })
        (record { left = rows.new.items; gains = gains.new })) }
    ensures rows_on_err { OnErr result (rows.new.items ≡ rows.old.items) }
    ensures gains_on_err { OnErr result (AreSame gains.old gains.new) }
{
    gains.kept.reserve(1)?;
    let Some(row) = rows.pop_front() else {
        unreachable!()
    };
    if suits(&row, columns) {
        gains.kept.push_reserved(row);
    }
    Ok(())
}

/// Takes the next row or record.
#[inline(always)]
pub fn take_next(
    rest: &mut Rest,
    op: u32,
    columns: &Schema,
    builds: bool,
    over: bool,
    operator_state: &mut OperatorState,
    gains: &mut Gains,
) -> Result<(), AllocError>
    requires some { has_some (arrivals_in rest.old) ≡ true }
    requires scans { IfSome rest.old.share (λ _. operator_state.old ≡ OperatorState.Scan) }
    requires typed { IfSome rest.old.share (λ share. share.columns ≡ columns.now) }
    requires may { MayTakeRow operator_state.old builds }
    requires none { gains.old.pending ≡ [] }
    ensures ok { OnOk result
        (GainsNext op (record { columns = columns.now; builds = builds; over = over })
        (record { left = arrivals_in rest.old; state = operator_state.old; gains = gains.old })
        (record { left = arrivals_in rest.new; state = operator_state.new; gains = gains.new })) }
    ensures shares { is_some rest.new.share ≡ is_some rest.old.share }
    ensures typed { IfSome rest.new.share (λ share. share.columns ≡ columns.now) }
    ensures rest_on_err { OnErr result (arrivals_in rest.new ≡ arrivals_in rest.old) }
    ensures operator_state_on_err { OnErr result (operator_state.new ≡ operator_state.old) }
    ensures gains_on_err { OnErr result (AreSame gains.old gains.new) }
{
    match &mut rest.share {
        Some(share) => take_record(share, op, gains),
        None => take_any(&mut rest.rows, columns, builds, over, operator_state, gains),
    }
}

/// The columns of rows of the build side or of the other.
pub fn side_columns<'a>(builds: bool, build_columns: &'a Schema, columns: &'a Schema) -> &'a Schema
    ensures { result.now ≡ (if builds then build_columns.now else columns.now) }
{
    if builds { build_columns } else { columns }
}

/// Whether the first batch of the sender at this place is empty, and those of all other senders have ended.
pub fn closes_at(ins: &[Upstream], place: usize) -> bool
    requires there { place < length ins.now }
    requires waits { (d : OneUpstream)
        → has_some (waiting (slice_index_or ins.now place d).link) ≡ true }
    ensures { (d : OneUpstream) → result
        ≡ (starts_empty (waiting (slice_index_or ins.now place d).link)
        && (have_all_ended (take place ins.now) && have_all_ended (drop (place + 1) ins.now))) }
{
    is_empty_at(ins, place) && have_ended(&ins[..place]) && have_ended(&ins[place + 1..])
}

// Where nothing more can come, these rows are pending.
pub fn close(pending: &mut Pending, last: VecDeque<Row>, ins: &[Upstream])
    requires none { pending.old ≡ [] }
    ensures { pending.new ≡ (if have_all_ended ins.now then last.items else []) }
{
    if !last.is_empty() && have_ended(ins) {
        pending.fill(last);
    }
}
