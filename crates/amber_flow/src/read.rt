//! Reads a whole workflow from bytes. Rests on `operator`, and on `readers` for what all must meet together.

ghost use Rattle.std.specs.Prelude.{◌≡◌, ◌==◌, ◌<◌, ◌≤◌, ◌⊎◌, [], true, length, map, MatchResult, IfOk, Ok, Err};
ghost use Rattle.serde_json.specs.View.{view};
ghost use Rattle.amber_rows.specs.FlowRules.{AreNext, ends_in_sink};
ghost use Rattle.amber_flow.specs.Answers.{AnswersFlow, AnswersTree, RefusesAt};
ghost use Rattle.amber_flow.specs.Workflow.{check_whole, flow_of, is_flow_length, operators_from, tree_of, workflow_of};

use crate::error::{Fault, FlowErr, FlowWhy};
use crate::fields::list_field;
use crate::operator::read_operator;
use crate::readers::{count_workers, find_unread};
use amber_rows::{Flow, Operator};
use serde_json::{Category, Value};
use std::alloc::Global;

/// The JSON value of a text.
fn read_tree(alloc: Global, bytes: &[u8]) -> Result<Value, FlowErr>
    ensures { AnswersTree result (tree_of bytes.now) }
{
    match Value::from_slice(alloc, bytes) {
        Ok(tree) => Ok(tree),
        Err(e) => match e.classify() {
            Category::Memory => Err(FlowErr::NoMemory),
            _ => Err(FlowErr::Bad {
                op: 0,
                why: FlowWhy::Json,
            }),
        },
    }
}

/// The operators that a list means.
fn read_operators(alloc: Global, trees: &[Value]) -> Result<Vec<Operator>, FlowErr>
    requires { length trees.now ≤ 32 }
    ensures operators { MatchResult result
        (λ operators. operators_from (length trees.now) [] (map view trees.now)
        ≡ Ok operators.items)
        (λ failure. RefusesAt failure
        (operators_from (length trees.now) [] (map view trees.now))) }
    ensures count { IfOk result (λ operators. length operators.items ≡ length trees.now) }
    ensures next { IfOk result (λ operators. AreNext [] operators.items) }
    ensures ends { IfOk result (λ operators. 0 < length trees.now
        → ends_in_sink operators.items ≡ true) }
{
    let mut operators = Vec::new(alloc);
    for tree in trees {
        let before = operators.as_slice();
        let op = before.len() as u32 + 1;
        match read_operator(alloc, trees.len(), before, tree) {
            Ok(operator) => operators.push(operator)?,
            Err(failure) => return Err(failure.at(op)),
        }
    }
    Ok(operators)
}

/// The workflow of these operators, where they have few enough workers and each is read as it must be.
#[tactic(auto, unfolding(crate::specs::Workflow::check_whole))]
fn make_flow(operators: Vec<Operator>) -> Result<Flow, Fault>
    requires some { 2 ≤ length operators.items }
    requires few { length operators.items ≤ 32 }
    requires next { AreNext [] operators.items }
    requires ends { ends_in_sink operators.items ≡ true }
    ensures checked { result ≡ check_whole operators.items }
    ensures same { IfOk result (λ flow. flow ≡ operators.items) }
{
    if 128 < count_workers(operators.as_slice()) {
        return Err(Fault {
            op: 0,
            why: FlowWhy::Count,
        });
    }
    if let Some(op) = find_unread(operators.as_slice()) {
        return Err(Fault {
            op,
            why: FlowWhy::Readers,
        });
    }
    Ok(Flow::new(operators))
}

/// Whether a workflow may have this number of operators.
fn may_be_flow(count: usize) -> bool
    ensures { result ≡ is_flow_length count }
{
    2 <= count && count <= 32
}

/// The workflow that a JSON value means, or its first reason and the operator at fault.
#[tactic(auto, unfolding(crate::specs::Workflow::flow_of))]
fn read_whole(alloc: Global, tree: &Value) -> Result<Flow, FlowErr>
    ensures { AnswersFlow result (flow_of (view tree.now)) }
{
    let trees = match list_field(tree, "operators") {
        Ok(trees) => trees,
        Err(why) => return Err(FlowErr::Bad { op: 0, why }),
    };
    if !may_be_flow(trees.len()) {
        return Err(FlowErr::Bad {
            op: 0,
            why: FlowWhy::Count,
        });
    }
    let operators = read_operators(alloc, trees)?;
    Ok(make_flow(operators)?)
}

/// Reads a workflow from JSON: an object with a list `operators`. The definition `workflow_of` in `specs/`
/// says which workflow the bytes mean, or the first reason why they mean none, and the operator at fault.
#[tactic(auto, unfolding(crate::specs::Workflow::workflow_of))]
pub fn read_flow(alloc: Global, bytes: &[u8]) -> Result<Flow, FlowErr>
    ensures answer { AnswersFlow result (workflow_of bytes.now) }
{
    let tree = read_tree(alloc, bytes)?;
    read_whole(alloc, &tree)
}
