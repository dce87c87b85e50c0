//! How several rows or records are made ready to be taken, and judged. Rests on `redone_rows`, `redone_joins`,
//! `redone_records` and `letting_by`.

ghost use Rattle.std.specs.Prelude.{◌≡◌, ◌-◌, ◌≤◌, ◌++◌, ◌&&◌, Bool, List, length, take, false, true, is_some, IfOk, IfSome};
ghost use Rattle.amber_rows.specs.declared.value.Value.{Value as Cell};
ghost use Rattle.amber_operators.specs.Handed.{arrivals_in};
ghost use Rattle.amber_operators.specs.ReadiedRows.{AreReadied, Reading, reading_with, yielded_to};
ghost use Rattle.amber_operators.specs.Kept.{IsSealedSo, is_group};
ghost use Rattle.amber_operators.specs.ManyRows.{lets_by, yielded_by};
ghost use Rattle.amber_operators.specs.declared.taking_rows.Rest.{Rest as OneRest};

use crate::kinds::ready_batch;
use crate::letting_by::{Gate, lets_fates_by, lets_rows_by};
use crate::operator_state::OperatorState;
use crate::redone_joins::MadeRows;
use crate::redone_records::{Counted, count_rows, lets_records_by};
use crate::redone_rows::Fates;
use crate::taking_rows::Rest;
use crate::used_rows::UsedRows;
use amber_rows::{Cond, Schema};
use std::alloc::{AllocError, Global};

/// What is made ready to take several rows or records, before it is known whether they may be taken.
#[derive(Drop)]
pub enum ReadiedRows {
    // Records of a share, which are read ahead: how many rows come of all of them but the last, and of all of them.
    Records { before: u64, made: u64 },
    // What becomes of rows of the batch.
    Rows(Fates),
    // Rows of the batch that are kept for the answer if they suit.
    Kept,
    // The matches of rows of the batch.
    Made(MadeRows),
    // Rows of the batch that are kept of the build side if they suit.
    Built,
}

impl ReadiedRows {
    /// How many rows come of all but the last.
    pub fn before(&self) -> u64
        ensures { (how : Reading) (rest : OneRest) → AreReadied how rest self.now
            → result ≡ length (yielded_by how.state how.builds how.columns
            (take (how.count - 1) (arrivals_in rest))) }
    {
        match self {
            ReadiedRows::Records { before, .. } => *before,
            ReadiedRows::Rows(fates) => fates.before,
            ReadiedRows::Made(made) => made.before,
            ReadiedRows::Kept => 0,
            ReadiedRows::Built => 0,
        }
    }

    /// How many rows come of all.
    pub fn made(&self) -> u64
        ensures { (how : Reading) (rest : OneRest) → AreReadied how rest self.now
            → result ≡ length (yielded_to how (arrivals_in rest)) }
    {
        match self {
            ReadiedRows::Records { made, .. } => *made,
            ReadiedRows::Rows(fates) => fates.made,
            ReadiedRows::Made(made) => made.rows.len() as u64,
            ReadiedRows::Kept => 0,
            ReadiedRows::Built => 0,
        }
    }
}

// Reads so many records of a share ahead.
fn ready_records(rest: &mut Rest, columns: &Schema, count: usize) -> Result<ReadiedRows, AllocError>
    requires shared { is_some rest.old.share ≡ true }
    requires there { count ≤ length (arrivals_in rest.old) }
    requires typed { IfSome rest.old.share (λ share. share.columns ≡ columns.now) }
    ensures ok { IfOk result (λ readied. (builds : Bool) → AreReadied
        (reading_with count columns.now builds OperatorState.Scan) rest.new readied) }
    ensures same { arrivals_in rest.new ≡ arrivals_in rest.old }
    ensures shares { is_some rest.new.share ≡ is_some rest.old.share }
    ensures typed { IfSome rest.new.share (λ share. share.columns ≡ columns.now) }
{
    let Some(share) = &mut rest.share else {
        unreachable!()
    };
    share.read_ahead(count)?;
    let Counted { before, made } = count_rows(share, columns, count);
    Ok(ReadiedRows::Records { before, made })
}

/// Makes so many rows or records ready.
pub fn ready_rows(
    alloc: Global,
    rest: &mut Rest,
    columns: &Schema,
    builds: bool,
    operator_state: &OperatorState,
    count: usize,
    free: &mut UsedRows,
) -> Result<ReadiedRows, AllocError>
    requires there { count ≤ length (arrivals_in rest.old) }
    requires apart { is_group operator_state.now ≡ false }
    requires sealed { IsSealedSo operator_state.now builds }
    requires scans { IfSome rest.old.share (λ _. operator_state.now ≡ OperatorState.Scan) }
    requires typed { IfSome rest.old.share (λ share. share.columns ≡ columns.now) }
    ensures ok { IfOk result (λ readied. AreReadied
        (reading_with count columns.now builds operator_state.now) rest.new readied) }
    ensures same { arrivals_in rest.new ≡ arrivals_in rest.old }
    ensures shares { is_some rest.new.share ≡ is_some rest.old.share }
    ensures typed { IfSome rest.new.share (λ share. share.columns ≡ columns.now) }
{
    if rest.share.is_some() {
        return ready_records(rest, columns, count);
    }
    ready_batch(alloc, rest, columns, builds, operator_state, count, free)
}

/// Whether none of the rows holds the worker that come of what is ready.
pub fn lets_ready_by(
    gate: &mut Gate,
    when: &Option<Cond>,
    readied: &ReadiedRows,
    rest: &Rest,
    columns: &Schema,
    count: usize,
) -> bool
    requires { (how : Reading) × (how.count ≡ count) × (how.columns ≡ columns.now)
        × AreReadied how rest.now readied.now }
    ensures { (how : Reading) (later : List (List Cell)) → how.count ≡ count
        → how.columns ≡ columns.now → AreReadied how rest.now readied.now
        → (result && lets_by when.now gate.new later)
        ≡ lets_by when.now gate.old (yielded_to how (arrivals_in rest.now) ++ later) }
{
    if when.is_none() {
        return true;
    }
    match readied {
        ReadiedRows::Records { .. } => {
            let Some(share) = &rest.share else {
                unreachable!()
            };
            lets_records_by(gate, when, share, columns, count)
        }
        ReadiedRows::Rows(fates) => lets_fates_by(gate, when, fates.each.as_slice(), &rest.rows),
        ReadiedRows::Made(made) => lets_rows_by(gate, when, &made.rows),
        ReadiedRows::Kept => true,
        ReadiedRows::Built => true,
    }
}
