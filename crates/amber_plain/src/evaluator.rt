//! An operator of a workflow, evaluated: what is unread for it. Over `gathered` and `grouped` of `drain`.

ghost use Rattle.std.specs.Prelude.{◌≡◌, ◌++◌, ◌∷◌, [], map, true, IfErr, IfOk, OnOk};
ghost use Rattle.amber_rows.specs.Operators.{group_result, refused_keys};
ghost use Rattle.amber_rows.specs.Order.{sort_rows};
ghost use Rattle.amber_meaning.specs.Plain.{records_of};
ghost use Rattle.amber_meaning.specs.Refused.{refused_groups};
ghost use Rattle.amber_meaning.specs.declared.answer.Refusal.TheVariants as refusal;
ghost use Rattle.amber_plain.specs.declared.limit.LimitErr.TheVariants as limit_err;
ghost use Rattle.amber_plain.specs.Holding.{Spends};
ghost use Rattle.amber_plain.specs.Unread.{HasInputs, HasOne, unread_at, unread_count, unread_rows, without};
ghost use Rattle.amber_plain.specs.Steps.{others_of, evaluated_of, read_for, through, told_by};
ghost use Rattle.amber_plain.specs.declared.stage.Source.TheVariants as source;
ghost use Rattle.amber_operators.specs.declared.operator_state.OperatorState.TheVariants as operator_state;

use crate::drain::{Tally, gathered, grouped};
use crate::limit::LimitErr;
use crate::stage::{Source, Stage};
use crate::unread::{Unread, take};
use amber_group::Grouped;
use amber_meaning::{Refusal, Refusals};
use amber_rows::{Cols, Files, Flow, Row, Rows, What, sort};
use std::alloc::{AllocError, Global};

/// What is unread for an operator, and what it refused at once.
#[derive(Drop)]
pub struct Evaluated {
    pub unread: Unread,
    pub refused: Refusals,
}

// Nothing is refused at once.
fn unrefused(alloc: Global, unread: Unread) -> Evaluated
    ensures { result ≡ record { unread = unread; refused = [] } }
{
    Evaluated {
        unread,
        refused: Refusals::new(Vec::new(alloc)),
    }
}

// What is unread of an input, with one stage more. Nothing is refused at once.
fn with_stage(
    alloc: Global,
    waiting: &mut Vec<Unread>,
    input: u32,
    stage: Stage,
) -> Result<Evaluated, LimitErr>
    requires { HasOne waiting.old.items input }
    ensures new { IfOk result (λ new. new
        ≡ record { unread = through (unread_at waiting.old.items input) stage; refused = [] }) }
    ensures others { OnOk result (waiting.new.items ≡ without waiting.old.items input) }
    ensures memory { IfErr result (λ why. why ≡ limit_err.NoMemory) }
{
    let unread = take(alloc, waiting, input).through(stage)?;
    Ok(unrefused(alloc, unread))
}

// Refuses the groups with these keys.
fn refuse_groups(alloc: Global, op: u32, keys: Vec<Row>) -> Result<Refusals, AllocError>
    ensures { IfOk result (λ refused. refused ≡ map (refusal.Group op) keys.items) }
{
    let mut refused = Vec::with_capacity(alloc, keys.len())?;
    for key in keys {
        refused.push(Refusal::Group { op, key })?;
    }
    Ok(Refusals::new(refused))
}

// The rows of groups as a source. The keys that have none are refused, in the order of rows.
fn from_groups(alloc: Global, op: u32, groups: Grouped) -> Result<Evaluated, LimitErr>
    ensures new { IfOk result (λ new. new ≡ record {
      unread = record { source = source.Rows groups.rows; stages = [] };
      refused = refused_groups op groups.refused;
    }) }
    ensures memory { IfErr result (λ why. why ≡ limit_err.NoMemory) }
{
    let Grouped {
        rows,
        refused: keys,
    } = groups;
    let mut keys = keys.into_inner();
    sort(&mut keys);
    let refused = refuse_groups(alloc, op, keys)?;
    Ok(Evaluated {
        unread: Unread::new(alloc, Source::Rows(rows)),
        refused,
    })
}

// The rows that are unread, in their order, as a source. Equal rows all stay, and nothing is refused at once.
fn sorted(
    alloc: Global,
    flow: &Flow,
    files: &Files,
    unread: Unread,
    tally: &mut Tally,
) -> Result<Evaluated, LimitErr>
    ensures new { IfOk result (λ new. new ≡ record {
      unread = record {
        source = source.Rows (sort_rows (unread_rows (records_of files.now flow.now) unread));
        stages = [];
      };
      refused = [];
    }) }
    ensures left { Spends result tally.old.left tally.new.left
        (unread_count (records_of files.now flow.now) unread) }
    ensures told { OnOk result (tally.new.told.items
        ≡ told_by (records_of files.now flow.now) tally.old.told.items unread.source) }
{
    let mut rows = gathered(alloc, flow, files, unread, tally)?;
    sort(&mut rows);
    let source = Source::Rows(Rows::new(rows));
    Ok(unrefused(alloc, Unread::new(alloc, source)))
}

// A join of the rows that are unread on its build side.
fn built(
    alloc: Global,
    flow: &Flow,
    files: &Files,
    keys: (&Cols, &Cols),
    unread: Unread,
    tally: &mut Tally,
) -> Result<Stage, LimitErr>
    ensures built { IfOk result (λ built. built ≡ operator_state.Join (record {
      build_keys = keys.entry.0.now;
      probe_keys = keys.entry.1.now;
      rows = unread_rows (records_of files.now flow.now) unread;
      sealed = true;
    })) }
    ensures left { Spends result tally.old.left tally.new.left
        (unread_count (records_of files.now flow.now) unread) }
    ensures told { OnOk result (tally.new.told.items
        ≡ told_by (records_of files.now flow.now) tally.old.told.items unread.source) }
{
    let rows = gathered(alloc, flow, files, unread, tally)?;
    let built = Stage::join(alloc, keys.0, keys.1, rows)?;
    Ok(built)
}

/// Evaluates an operator. Its inputs are taken; what it has to read to its end is read.
pub fn evaluate(
    alloc: Global,
    flow: &Flow,
    files: &Files,
    op: u32,
    kind: &What,
    waiting: &mut Vec<Unread>,
    tally: &mut Tally,
) -> Result<Evaluated, LimitErr>
    requires { HasInputs waiting.old.items kind.now }
    ensures new { IfOk result (λ new. new
        ≡ evaluated_of (records_of files.now flow.now) op kind.now waiting.old.items) }
    ensures others { OnOk result (waiting.new.items ≡ others_of kind.now waiting.old.items) }
    ensures told { OnOk result (tally.new.told.items ≡ told_by (records_of files.now flow.now)
        tally.old.told.items (read_for kind.now waiting.old.items).source) }
    ensures left { Spends result tally.old.left tally.new.left
        (unread_count (records_of files.now flow.now) (read_for kind.now waiting.old.items)) }
{
    match kind {
        What::Scan { .. } => Ok(unrefused(alloc, Unread::new(alloc, Source::Scan(op)))),
        What::Filter { input, cond } => with_stage(alloc, waiting, *input, Stage::filter(cond)?),
        What::Project { input, from } => {
            with_stage(alloc, waiting, *input, Stage::project(alloc, from)?)
        }
        What::Join {
            build,
            probe,
            build_keys,
            probe_keys,
        } => {
            let build = take(alloc, waiting, *build);
            let built = built(alloc, flow, files, (build_keys, probe_keys), build, tally)?;
            with_stage(alloc, waiting, *probe, built)
        }
        What::Group { input, keys, aggs } => {
            let unread = take(alloc, waiting, *input);
            let groups = grouped(alloc, flow, files, unread, keys, aggs, tally)?;
            from_groups(alloc, op, groups)
        }
        What::Sink { input } => sorted(alloc, flow, files, take(alloc, waiting, *input), tally),
    }
}
