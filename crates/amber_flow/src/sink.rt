//! Reads a sink. Rests on `inputs`.

ghost use Rattle.std.specs.Prelude.{◌≡◌, ◌<◌, All, IfOk, length, true};
ghost use Rattle.serde_json.specs.View.{view};
ghost use Rattle.amber_rows.specs.Kinds.{is_sink, IsKind};
ghost use Rattle.amber_flow.specs.Inputs.{IsNarrow};
ghost use Rattle.amber_flow.specs.Operators.{sink_of};
ghost use Rattle.amber_flow.specs.PartAnswers.{AnswersPart};

use crate::error::ReadErr;
use crate::fields::text_field;
use crate::inputs::{find_input, schema_at};
use crate::parts::Parts;
use amber_rows::{Operator, What};
use serde_json::Value;
use std::alloc::Global;

/// What a sink does.
#[tactic(auto, unfolding(crate::specs::Operators::sink_of))]
pub fn read_sink(alloc: Global, before: &[Operator], tree: &Value) -> Result<Parts, ReadErr>
    requires few { length before.now < 32 }
    requires narrow { All IsNarrow before.now }
    ensures parts { AnswersPart result (sink_of before.now (view tree.now)) }
    ensures kind { IfOk result (λ parts. IsKind before.now parts.what parts.schema) }
    ensures sink { IfOk result (λ parts. is_sink parts.what ≡ true) }
{
    let id = text_field(tree, "input")?;
    let input = find_input(before, id)?;
    let schema = schema_at(before, input).clone()?;
    Ok(Parts {
        what: What::Sink { input },
        schema,
    })
}
