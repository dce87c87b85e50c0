//! Reads one operator. Rests on `head` and `parts`.

ghost use Rattle.std.specs.Prelude.{All, ◌<◌, length, IfOk};
ghost use Rattle.serde_json.specs.View.{view};
ghost use Rattle.amber_rows.specs.FlowRules.{IsNext};
ghost use Rattle.amber_flow.specs.Inputs.{IsNarrow};
ghost use Rattle.amber_flow.specs.Operators.{operator_of, SinkIsLast};
ghost use Rattle.amber_flow.specs.PartAnswers.{AnswersPart};

use crate::error::ReadErr;
use crate::fields::text_field;
use crate::head::{check_id, read_head};
use crate::parts::{check_schema, read_parts};
use amber_rows::{Operator, Text};
use serde_json::Value;
use std::alloc::Global;

/// The operator that a value means, where it comes after these and there are `count` in all.
#[tactic(auto, unfolding(crate::specs::Operators::operator_of))]
pub fn read_operator(
    alloc: Global,
    count: usize,
    before: &[Operator],
    tree: &Value,
) -> Result<Operator, ReadErr>
    requires few { length before.now < 32 }
    requires narrow { All IsNarrow before.now }
    ensures operator { AnswersPart result (operator_of count before.now (view tree.now)) }
    ensures next { IfOk result (λ operator. IsNext before.now operator) }
    ensures placed { IfOk result (SinkIsLast count before.now) }
{
    let id = text_field(tree, "id")?;
    let word = text_field(tree, "kind")?;
    check_id(before, id)?;
    let head = read_head(before.len() + 1 == count, word, tree)?;
    let parts = read_parts(alloc, head.kind, before, tree)?;
    check_schema(&parts.schema)?;
    Ok(Operator {
        id: Text::new(alloc, id)?,
        what: parts.what,
        schema: parts.schema,
        workers: head.workers,
    })
}
