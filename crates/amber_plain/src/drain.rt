//! Reading what is unread to its end. Over `Chain` of `chain`, and `scan` for the files.

ghost use Rattle.std.specs.Prelude.{◌≡◌, ◌<◌, ◌^◌, ◌-◌, length, option_map, slice_set, IfOk, IfSome, OnOk};
ghost use Rattle.std.specs.List.{filter_map};
ghost use Rattle.amber_rows.specs.Lists.{list_at, nth};
ghost use Rattle.amber_rows.specs.Operators.{group_result, refused_keys};
ghost use Rattle.amber_rows.specs.Record.{ok_of};
ghost use Rattle.amber_meaning.specs.Plain.{records_of};
ghost use Rattle.amber_meaning.specs.Refused.{refused_records};
ghost use Rattle.amber_plain.specs.Holding.{Fills, Spends, Takes};
ghost use Rattle.amber_plain.specs.Unread.{unread_count, unread_rows, source_rows};
ghost use Rattle.amber_plain.specs.Stages.{count_through};
ghost use Rattle.amber_plain.specs.Steps.{told_by};

use crate::chain::Chain;
use crate::grouping::empty_group;
use crate::holder::Holder;
use crate::limit::LimitErr;
use crate::scan::scan;
use crate::stage::Source;
use crate::unread::Unread;
use amber_group::Grouped;
use amber_meaning::{Refusal, Refusals, file_after};
use amber_rows::{Aggs, Cols, Files, Flow, Operator, Row, Rows};
use std::alloc::Global;

/// What was refused, a list for each operator so far, and how many rows may still come.
#[derive(Drop)]
pub struct Tally {
    pub told: Vec<Refusals>,
    pub left: u64,
}

// The operator with this number, if there is one. It has few columns.
fn operator_of(flow: &Flow, op: u32) -> Option<&Operator>
    ensures operator { option_map (λ operator. operator.now) result ≡ nth flow.now op }
    ensures few { IfSome result (λ operator. length operator.now.schema < 2 ^ 32) }
{
    let operators = flow.get();
    if op == 0 || op as usize > operators.len() {
        return None;
    }
    Some(&operators[op as usize - 1])
}

// Sends the records of the operator with this number through a chain. There are none where it is no scan.
fn read_scan(
    alloc: Global,
    flow: &Flow,
    files: &Files,
    op: u32,
    chain: &mut Chain,
) -> Result<Vec<Refusal>, LimitErr>
    ensures moved { OnOk result (Fills chain.old chain.new (filter_map ok_of
        (list_at (records_of files.now flow.now) op))) }
    ensures left { Spends result chain.old.left chain.new.left
        (count_through chain.old.stages.items (filter_map ok_of
        (list_at (records_of files.now flow.now) op))) }
    ensures refused { IfOk result (λ refused. refused.items ≡ refused_records op 1
        (list_at (records_of files.now flow.now) op)) }
{
    let Some(operator) = operator_of(flow, op) else {
        return Ok(Vec::new(alloc));
    };
    if !operator.what.is_scan() {
        return Ok(Vec::new(alloc));
    }
    let file = file_after(flow, files, op as usize - 1);
    scan(alloc, op, &operator.schema, file, chain)
}

// Notes what the operator with this number refused.
fn tell(told: &mut Vec<Refusals>, op: u32, refused: Vec<Refusal>)
    ensures { told.new.items ≡ slice_set told.old.items (op - 1) refused.items }
{
    let place = (op as usize).saturating_sub(1);
    if place < told.len() {
        told[place] = Refusals::new(refused);
    }
}

// Sends the rows of a source through a chain.
fn read(
    alloc: Global,
    flow: &Flow,
    files: &Files,
    source: Source,
    chain: &mut Chain,
    told: &mut Vec<Refusals>,
) -> Result<(), LimitErr>
    ensures moved { OnOk result (Fills chain.old chain.new
        (source_rows (records_of files.now flow.now) source)) }
    ensures left { Spends result chain.old.left chain.new.left
        (count_through chain.old.stages.items
        (source_rows (records_of files.now flow.now) source)) }
    ensures told { OnOk result (told.new.items
        ≡ told_by (records_of files.now flow.now) told.old.items source) }
{
    match source {
        Source::Rows(rows) => chain.send_all(alloc, rows.into_inner()),
        Source::Scan(op) => {
            let refused = read_scan(alloc, flow, files, op, chain)?;
            tell(told, op, refused);
            Ok(())
        }
    }
}

/// Reads what is unread, and gives the holder back with its rows.
pub fn drain(
    alloc: Global,
    flow: &Flow,
    files: &Files,
    unread: Unread,
    holder: Holder,
    tally: &mut Tally,
) -> Result<Holder, LimitErr>
    ensures taken { IfOk result (λ new. Takes holder new
        (unread_rows (records_of files.now flow.now) unread)) }
    ensures left { Spends result tally.old.left tally.new.left
        (unread_count (records_of files.now flow.now) unread) }
    ensures told { OnOk result (tally.new.told.items
        ≡ told_by (records_of files.now flow.now) tally.old.told.items unread.source) }
{
    let (source, stages) = unread.into_parts();
    let mut chain = Chain {
        stages,
        holder,
        left: tally.left,
    };
    read(alloc, flow, files, source, &mut chain, &mut tally.told)?;
    let Chain { holder, left, .. } = chain;
    tally.left = left;
    Ok(holder)
}

// Rows that stand in a list, counted.
fn counted(rows: Rows, left: &mut u64) -> Result<Vec<Row>, LimitErr>
    ensures rows { IfOk result (λ all. all.items ≡ rows) }
    ensures left { Spends result left.old left.new (length rows) }
{
    let count = rows.len() as u64;
    if count > *left {
        return Err(LimitErr::Long);
    }
    *left -= count;
    Ok(rows.into_inner())
}

/// The rows that are unread, in a list.
pub fn gathered(
    alloc: Global,
    flow: &Flow,
    files: &Files,
    unread: Unread,
    tally: &mut Tally,
) -> Result<Vec<Row>, LimitErr>
    ensures rows { IfOk result (λ rows. rows.items
        ≡ unread_rows (records_of files.now flow.now) unread) }
    ensures left { Spends result tally.old.left tally.new.left
        (unread_count (records_of files.now flow.now) unread) }
    ensures told { OnOk result (tally.new.told.items
        ≡ told_by (records_of files.now flow.now) tally.old.told.items unread.source) }
{
    let unread = match unread.into_rows() {
        Ok(rows) => return counted(rows, &mut tally.left),
        Err(unread) => unread,
    };
    let empty = Holder::Rows(Vec::new(alloc));
    let holder = drain(alloc, flow, files, unread, empty, tally)?;
    match holder {
        Holder::Rows(rows) => Ok(rows),
        Holder::Group(_) => unreachable!(),
    }
}

/// The groups of the rows that are unread.
pub fn grouped(
    alloc: Global,
    flow: &Flow,
    files: &Files,
    unread: Unread,
    keys: &Cols,
    aggs: &Aggs,
    tally: &mut Tally,
) -> Result<Grouped, LimitErr>
    ensures rows { IfOk result (λ groups. groups.rows ≡ group_result keys.now aggs.now
        (unread_rows (records_of files.now flow.now) unread)) }
    ensures refused { IfOk result (λ groups. groups.refused ≡ refused_keys keys.now aggs.now
        (unread_rows (records_of files.now flow.now) unread)) }
    ensures left { Spends result tally.old.left tally.new.left
        (unread_count (records_of files.now flow.now) unread) }
    ensures told { OnOk result (tally.new.told.items
        ≡ told_by (records_of files.now flow.now) tally.old.told.items unread.source) }
{
    let state = empty_group(alloc, keys, aggs)?;
    let holder = drain(alloc, flow, files, unread, Holder::Group(state), tally)?;
    match holder {
        Holder::Group(state) => Ok(state.finish(alloc)?),
        Holder::Rows(_) => unreachable!(),
    }
}
