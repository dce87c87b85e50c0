//! The answer of a query. Over `evaluate` of `evaluator`, `gathered` of `drain`, and `wrong_header` of
//! `amber_meaning`.

ghost use Rattle.std.specs.Prelude.{◌≡◌, ◌<◌, ◌≤◌, ◌++◌, ◌∷◌, [], length, None, IfErr, IfOk, OnOk};
ghost use Rattle.std.specs.List.{flat_map};
ghost use Rattle.amber_rows.specs.Columns.{columns_at};
ghost use Rattle.amber_meaning.specs.Plain.{IsPlain, answer_of, records_of, row_total, scan_count, wrong_header};
ghost use Rattle.amber_plain.specs.Holding.{Spends};
ghost use Rattle.amber_plain.specs.Unread.{HasInputs, unread_count};
ghost use Rattle.amber_plain.specs.Steps.{others_of, unread_of, read_for, refused_now, told_by};

use crate::drain::{Tally, gathered};
use crate::evaluator::{Evaluated, evaluate};
use crate::limit::LimitErr;
use crate::unread::{Unread, take};
use amber_meaning::{Answer, PlainErr, Refusals, wrong_header};
use amber_rows::{Files, Flow, Row, Rows, What};
use std::alloc::{AllocError, Global};

// Appends what is unread for an operator, and what it refused, to those of the others.
fn keep(new: Evaluated, waiting: &mut Vec<Unread>, tally: &mut Tally) -> Result<(), AllocError>
    ensures waiting { OnOk result (waiting.new.items ≡ waiting.old.items ++ new.unread ∷ []) }
    ensures told { OnOk result (tally.new.told.items ≡ tally.old.told.items ++ new.refused ∷ []) }
    ensures left { tally.new.left ≡ tally.old.left }
{
    let Evaluated { unread, refused } = new;
    waiting.push(unread)?;
    tally.told.push(refused)?;
    Ok(())
}

// Evaluates the operator with this number.
fn step(
    alloc: Global,
    flow: &Flow,
    files: &Files,
    op: u32,
    kind: &What,
    waiting: &mut Vec<Unread>,
    tally: &mut Tally,
) -> Result<(), LimitErr>
    requires { HasInputs waiting.old.items kind.now }
    ensures waiting { OnOk result (waiting.new.items ≡ others_of kind.now waiting.old.items
        ++ unread_of (records_of files.now flow.now) op kind.now waiting.old.items ∷ []) }
    ensures told { OnOk result (tally.new.told.items ≡ told_by (records_of files.now flow.now)
        tally.old.told.items (read_for kind.now waiting.old.items).source
        ++ refused_now (records_of files.now flow.now) op kind.now waiting.old.items ∷ []) }
    ensures left { Spends result tally.old.left tally.new.left
        (unread_count (records_of files.now flow.now) (read_for kind.now waiting.old.items)) }
{
    let new = evaluate(alloc, flow, files, op, kind, waiting, tally)?;
    keep(new, waiting, tally)?;
    Ok(())
}

// The refusals of all operators, one after the other.
fn all_refused(alloc: Global, told: Vec<Refusals>) -> Result<Refusals, AllocError>
    ensures { IfOk result (λ all. all ≡ flat_map (λ one. one) told.items) }
{
    let mut all = Vec::new(alloc);
    for refused in told {
        let mut refused = refused.into_vec();
        all.append(&mut refused)?;
    }
    Ok(Refusals::new(all))
}

// The answer, from the refusals of all operators and the rows of the last one.
fn answer(
    alloc: Global,
    flow: &Flow,
    told: Vec<Refusals>,
    rows: Vec<Row>,
) -> Result<Answer, AllocError>
    ensures refused { IfOk result (λ answer. answer.refused ≡ flat_map (λ one. one) told.items) }
    ensures columns { IfOk result
        (λ answer. answer.columns ≡ columns_at flow.now (length flow.now)) }
    ensures rows { IfOk result (λ answer. answer.rows ≡ rows.items) }
{
    let operators = flow.get();
    let last = &operators[operators.len() - 1];
    let columns = last.schema.clone()?;
    let refused = all_refused(alloc, told)?;
    Ok(Answer {
        refused,
        columns,
        rows: Rows::new(rows),
    })
}

/// The sequential answer of a workflow over the files of its scans, each of which is known to begin with the
/// names of its columns.
///
/// The operators are evaluated one after the other. The rows of a scan, filter, projection or join wait until
/// they are kept as a list or fed to a group; then they are read once, and each goes on by itself through all
/// that waits.
///
/// # Errors
///
/// `Long` where the operators give more than `most` rows together.
pub fn plain_checked(
    alloc: Global,
    flow: &Flow,
    files: &Files,
    most: u64,
) -> Result<Answer, LimitErr>
    requires one_each { length files.now ≡ scan_count flow.now }
    requires headers { wrong_header 1 files.now flow.now ≡ None }
    ensures answer { IfOk result (λ answer. answer ≡ answer_of flow.now files.now) }
    ensures few { IfOk result (λ _. row_total flow.now files.now ≤ most) }
    ensures long { IfErr result
        (λ why. why ≡ LimitErr.Long → most < row_total flow.now files.now) }
{
    let mut waiting = Vec::new(alloc);
    let mut tally = Tally {
        told: Vec::new(alloc),
        left: most,
    };
    let operators = flow.get();
    for (i, operator) in operators.iter().enumerate() {
        let op = i as u32 + 1;
        step(
            alloc,
            flow,
            files,
            op,
            &operator.what,
            &mut waiting,
            &mut tally,
        )?;
    }
    let last = take(alloc, &mut waiting, operators.len() as u32);
    let rows = gathered(alloc, flow, files, last, &mut tally)?;
    let answer = answer(alloc, flow, tally.told, rows)?;
    Ok(answer)
}

/// The sequential answer of a workflow over the files of its scans, where its operators give no more than
/// `most` rows together: `plain_checked`, after each file was looked at.
///
/// # Errors
///
/// `Header` with the first scan whose file does not begin with the names of its columns, and `Long` where
/// there are more rows.
pub fn plain(alloc: Global, flow: &Flow, files: &Files, most: u64) -> Result<Answer, PlainErr>
    requires { length files.now ≡ scan_count flow.now }
    ensures { IsPlain result flow.now files.now most }
{
    if let Some(op) = wrong_header(alloc, flow, files)? {
        return Err(PlainErr::Header(op));
    }
    match plain_checked(alloc, flow, files, most) {
        Ok(answer) => Ok(answer),
        Err(LimitErr::Long) => Err(PlainErr::Long),
        Err(LimitErr::NoMemory) => Err(PlainErr::NoMemory),
    }
}
