//! Reads a filter. Rests on `inputs` and `columns`.

ghost use Rattle.std.specs.Prelude.{◌≡◌, ◌<◌, ◌≤◌, All, IfOk, length, ok_or};
ghost use Rattle.serde_json.specs.View.{view};
ghost use Rattle.amber_rows.specs.Columns.{IsCondOn, kind_of};
ghost use Rattle.amber_flow.specs.Inputs.{IsNarrow};
ghost use Rattle.amber_flow.specs.Operators.{cond_of, flow_constant, filter_of};
ghost use Rattle.amber_flow.specs.Parts.{IsMeant};
ghost use Rattle.amber_flow.specs.PartAnswers.{AnswersPart};
ghost use Rattle.amber_flow.specs.declared.error.FlowWhy.TheVariants.{Mismatch};

use crate::columns::find_column;
use crate::error::{FlowWhy, ReadErr};
use crate::fields::text_field;
use crate::inputs::{find_input, schema_at};
use crate::names::sign;
use crate::parts::Parts;
use amber_rows::{Cmp, ColKind, Cond, Operator, Schema, Text, Value as Cell, What};
use serde_json::Value;
use std::alloc::Global;

/// The constant that a value is for a column of this kind.
fn read_constant(alloc: Global, kind: ColKind, tree: &Value) -> Result<Cell, ReadErr>
    ensures constant { AnswersPart result (ok_or (flow_constant kind (view tree.now)) Mismatch) }
    ensures kind { IfOk result (λ cell. kind_of cell ≡ kind) }
{
    match kind {
        ColKind::Int => {
            let number = tree.as_i64().ok_or(FlowWhy::Mismatch)?;
            Ok(Cell::Int(number))
        }
        ColKind::Text => {
            let text = tree.as_str().ok_or(FlowWhy::Mismatch)?;
            Ok(Cell::Text(Text::new(alloc, text)?))
        }
    }
}

/// The condition on the column with this name.
#[tactic(auto, unfolding(crate::specs::Operators::cond_of))]
fn read_cond(
    alloc: Global,
    schema: &Schema,
    name: &str,
    op: Cmp,
    constant: &Value,
) -> Result<Cond, ReadErr>
    requires { length schema.now ≤ 64 }
    ensures cond { AnswersPart result (cond_of schema.now name.now op (view constant.now)) }
    ensures fits { IfOk result (λ cond. IsCondOn schema.now cond) }
{
    let columns = schema.get();
    let column = find_column(columns, name).ok_or(FlowWhy::Column)?;
    let kind = columns[column as usize - 1].kind;
    let constant = read_constant(alloc, kind, constant)?;
    Ok(Cond {
        column,
        op,
        constant,
    })
}

/// What a filter does.
#[tactic(auto, unfolding(crate::specs::Operators::filter_of))]
pub fn read_filter(alloc: Global, before: &[Operator], tree: &Value) -> Result<Parts, ReadErr>
    requires few { length before.now < 32 }
    requires narrow { All IsNarrow before.now }
    ensures { IsMeant before.now (filter_of before.now (view tree.now)) result }
{
    let id = text_field(tree, "input")?;
    let name = text_field(tree, "column")?;
    let op = sign(text_field(tree, "op")?).ok_or(FlowWhy::Shape)?;
    let constant = tree.get("constant").ok_or(FlowWhy::Shape)?;
    let input = find_input(before, id)?;
    let columns = schema_at(before, input);
    let cond = read_cond(alloc, columns, name, op, constant)?;
    let schema = columns.clone()?;
    Ok(Parts {
        what: What::Filter { input, cond },
        schema,
    })
}
