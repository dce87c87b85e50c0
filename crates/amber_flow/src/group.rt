//! Reads a group. Rests on `inputs`, `columns` and `aggregates`.

ghost use Rattle.std.specs.Prelude.{◌≡◌, ◌++◌, ◌<◌, ◌≤◌, All, IfOk, List, false, is_some, length, map, option_map, true};
ghost use Rattle.std.specs.List.{filter_map, list_all};
ghost use Rattle.serde_json.specs.View.{view};
ghost use Rattle.amber_rows.specs.Columns.{HasInput, IsEarlier};
ghost use Rattle.amber_rows.specs.Kinds.{is_sink, IsKind};
ghost use Rattle.amber_rows.specs.declared.flow.Operator.{Operator as OneOperator};
ghost use Rattle.amber_flow.specs.Aggregates.{agg_column};
ghost use Rattle.amber_flow.specs.Columns.{column_named};
ghost use Rattle.amber_flow.specs.Groups.{group_of, group_over};
ghost use Rattle.amber_flow.specs.Inputs.{IsNarrow};
ghost use Rattle.amber_flow.specs.Parts.{IsMeant};
ghost use Rattle.amber_flow.specs.PartAnswers.{AnswersPart};

use crate::aggregates::{add_agg_columns, are_aggregates, are_summable, read_aggs};
use crate::columns::{add_named, find_columns};
use crate::error::{FlowWhy, ReadErr};
use crate::fields::{text_field, texts_field};
use crate::inputs::{find_input, schema_at};
use crate::parts::Parts;
use amber_rows::{Column, Operator, Schema, What};
use serde_json::Value;
use std::alloc::{AllocError, Global};

/// The columns of the keys, and then one for each aggregate.
fn group_columns(
    alloc: Global,
    columns: &[Column],
    names: &[&str],
    texts: &[&str],
) -> Result<Schema, AllocError>
    requires { length columns.now ≤ 64 }
    ensures { IfOk result
        (λ schema. schema ≡ filter_map (column_named columns.now) (map (λ name. name.now) names.now)
        ++ filter_map (agg_column columns.now) (map (λ text. text.now) texts.now)) }
{
    let mut made = Vec::new(alloc);
    add_named(&mut made, columns, names)?;
    add_agg_columns(alloc, &mut made, columns, texts)?;
    Ok(Schema::new(made))
}

/// What a group of the rows of an earlier operator with these columns does.
#[tactic(auto, unfolding(crate::specs::Groups::group_over))]
fn read_over(
    alloc: Global,
    input: u32,
    columns: &[Column],
    names: &[&str],
    texts: &[&str],
) -> Result<Parts, ReadErr>
    requires { length columns.now ≤ 64 }
    ensures parts { AnswersPart result (group_over input columns.now
        (map (λ name. name.now) names.now) (map (λ text. text.now) texts.now)) }
    ensures kind { IfOk result (λ parts. (before : List OneOperator) → IsEarlier before input
        → HasInput before input columns.now → IsKind before parts.what parts.schema) }
    ensures sink { IfOk result (λ parts. is_sink parts.what ≡ false) }
{
    let keys = find_columns(alloc, columns, names)?;
    let aggs = read_aggs(alloc, columns, texts)?;
    if !are_summable(columns, aggs.get()) {
        return Err(ReadErr::Bad(FlowWhy::Mismatch));
    }
    let schema = group_columns(alloc, columns, names, texts)?;
    Ok(Parts {
        what: What::Group { input, keys, aggs },
        schema,
    })
}

/// What a group does.
#[tactic(auto, unfolding(crate::specs::Groups::group_of))]
pub fn read_group(alloc: Global, before: &[Operator], tree: &Value) -> Result<Parts, ReadErr>
    requires few { length before.now < 32 }
    requires narrow { All IsNarrow before.now }
    ensures { IsMeant before.now (group_of before.now (view tree.now)) result }
{
    let id = text_field(tree, "input")?;
    let names = texts_field(alloc, tree, "keys")?;
    let texts = texts_field(alloc, tree, "aggregates")?;
    if !are_aggregates(texts.as_slice()) {
        return Err(ReadErr::Bad(FlowWhy::Shape));
    }
    let input = find_input(before, id)?;
    let columns = schema_at(before, input).get();
    read_over(alloc, input, columns, names.as_slice(), texts.as_slice())
}
