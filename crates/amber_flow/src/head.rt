//! Reads what every operator has: its id, its kind and the number of its workers. Rests on `names`.

ghost use Rattle.std.specs.Prelude.{◌≡◌, ◌<◌, ◌≤◌, true, false, IfOk, IfSome, length, option_map};
ghost use Rattle.serde_json.specs.View.{view};
ghost use Rattle.amber_rows.specs.Columns.{is_among, is_id};
ghost use Rattle.amber_flow.specs.Operators.{head_of, ids_of, most_workers, new_id, workers_from};
ghost use Rattle.amber_flow.specs.Names.{is_sink_kind};

use crate::error::FlowWhy;
use crate::inputs::find_operator;
use crate::names::{Kind, is_operator_id};
use amber_rows::Operator;
use serde_json::Value;

/// What every operator has beside its id.
#[derive(Clone, Copy)]
pub struct Head {
    pub kind: Kind,
    pub workers: u32,
}

/// Whether an id is a name that no earlier operator has.
#[tactic(auto, unfolding(crate::specs::Operators::new_id))]
pub fn check_id(before: &[Operator], id: &str) -> Result<(), FlowWhy>
    requires { length before.now < 32 }
    ensures checked { result ≡ new_id before.now id.now }
    ensures named { IfOk result (λ _. is_id id.now ≡ true) }
    ensures fresh { IfOk result (λ _. is_among id.now (ids_of before.now) ≡ false) }
{
    if !is_operator_id(id) {
        return Err(FlowWhy::Name);
    }
    if find_operator(before, id).is_some() {
        return Err(FlowWhy::Duplicate);
    }
    Ok(())
}

/// The most workers that an operator other than a sink may have.
const WORKER_LIMIT: u64 = 16;

/// The most workers that an operator of this kind may have.
fn most_of(kind: Kind) -> u64
    ensures most { result ≡ most_workers kind }
    ensures some { 0 < result }
    ensures few { result ≤ 16 }
    ensures sink { is_sink_kind kind ≡ true → result ≡ 1 }
{
    if kind.is_sink() { 1 } else { WORKER_LIMIT }
}

/// How many workers a value means, where that is 1 to `most`.
fn read_workers(most: u64, tree: Option<&Value>) -> Option<u32>
    requires some { 0 < most }
    requires few { most ≤ 16 }
    ensures workers { result ≡ workers_from most (option_map (λ tree. view tree.now) tree.entry) }
    ensures some { IfSome result (λ workers. 0 < workers) }
    ensures within { IfSome result (λ workers. workers ≤ most) }
{
    match tree {
        None => Some(1),
        Some(tree) => match tree.as_u64() {
            Some(count) if 1 <= count && count <= most => Some(count as u32),
            _ => None,
        },
    }
}

/// The kind and the workers of an operator.
#[tactic(auto, unfolding(crate::specs::Operators::head_of))]
pub fn read_head(is_last: bool, word: &str, tree: &Value) -> Result<Head, FlowWhy>
    ensures head { result ≡ head_of is_last word.now (view tree.now) }
    ensures some_workers { IfOk result (λ head. 0 < head.workers) }
    ensures few_workers { IfOk result (λ head. head.workers ≤ 16) }
    ensures one_at_sink { IfOk result (λ head. is_sink_kind head.kind ≡ true → head.workers ≡ 1) }
    ensures placed { IfOk result (λ head. is_sink_kind head.kind ≡ is_last) }
{
    let Some(kind) = Kind::named(word) else {
        return Err(FlowWhy::Kind);
    };
    let Some(workers) = read_workers(most_of(kind), tree.get("workers")) else {
        return Err(FlowWhy::Workers);
    };
    if kind.is_sink() != is_last {
        return Err(FlowWhy::SinkPlace);
    }
    Ok(Head { kind, workers })
}
