//! Reads a projection. Rests on `inputs` and `columns`.

ghost use Rattle.std.specs.Prelude.{◌≡◌, ◌<◌, ◌≤◌, All, IfOk, length, map, ok_or, option_map};
ghost use Rattle.std.specs.List.{filter_map};
ghost use Rattle.serde_json.specs.View.{view};
ghost use Rattle.amber_rows.specs.Chain.{each};
ghost use Rattle.amber_flow.specs.Columns.{renaming_of, source_of};
ghost use Rattle.amber_flow.specs.Inputs.{IsNarrow};
ghost use Rattle.amber_flow.specs.Operators.{project_of};
ghost use Rattle.amber_flow.specs.Parts.{IsMeant};
ghost use Rattle.amber_flow.specs.PartAnswers.{AnswersPartSeen};
ghost use Rattle.amber_flow.specs.declared.error.FlowWhy.TheVariants.{Shape};

use crate::columns::{column_with, find_columns};
use crate::error::{FlowWhy, ReadErr};
use crate::fields::{list_field, text_field, text_item};
use crate::inputs::{find_input, schema_at};
use crate::names::may_name_column;
use crate::parts::Parts;
use amber_rows::{Column, Operator, Schema, Text, What};
use serde_json::Value;
use std::alloc::{AllocError, Global};

/// The name of the column that a pair of texts renames, if its other text may name a column.
fn source(pair: &Value) -> Option<&str>
    ensures { option_map (λ name. name.now) result ≡ source_of (view pair.now) }
{
    match text_item(pair, 1) {
        Some(name) if may_name_column(name) && pair.get(2).is_none() => text_item(pair, 0),
        _ => None,
    }
}

/// The names of the columns that pairs rename, where each value is such a pair.
fn read_sources(alloc: Global, pairs: &[Value]) -> Result<Vec<&str>, ReadErr>
    ensures { AnswersPartSeen (λ names. map (λ name. name.now) names.items) result
        (ok_or (each source_of (map view pairs.now)) Shape) }
{
    let mut names = Vec::new(alloc);
    for pair in pairs {
        names.push(source(pair).ok_or(FlowWhy::Shape)?)?;
    }
    Ok(names)
}

/// The column that a pair renames, under its new name.
fn rename(alloc: Global, columns: &[Column], pair: &Value) -> Result<Option<Column>, AllocError>
    requires { length columns.now ≤ 64 }
    ensures { IfOk result (λ made. made ≡ renaming_of columns.now (view pair.now)) }
{
    let Some(name) = text_item(pair, 1) else {
        return Ok(None);
    };
    let Some(source) = text_item(pair, 0) else {
        return Ok(None);
    };
    let Some(column) = column_with(columns, source) else {
        return Ok(None);
    };
    Ok(Some(Column {
        name: Text::new(alloc, name)?,
        kind: column.kind,
    }))
}

/// The columns that pairs name, under their new names.
fn rename_all(alloc: Global, columns: &[Column], pairs: &[Value]) -> Result<Vec<Column>, AllocError>
    requires { length columns.now ≤ 64 }
    ensures { IfOk result
        (λ made. made.items ≡ filter_map (renaming_of columns.now) (map view pairs.now)) }
{
    let mut made = Vec::new(alloc);
    for pair in pairs {
        if let Some(column) = rename(alloc, columns, pair)? {
            made.push(column)?;
        }
    }
    Ok(made)
}

/// What a projection does.
#[tactic(auto, unfolding(crate::specs::Operators::project_of))]
pub fn read_project(alloc: Global, before: &[Operator], tree: &Value) -> Result<Parts, ReadErr>
    requires few { length before.now < 32 }
    requires narrow { All IsNarrow before.now }
    ensures { IsMeant before.now (project_of before.now (view tree.now)) result }
{
    let id = text_field(tree, "input")?;
    let pairs = list_field(tree, "columns")?;
    let sources = read_sources(alloc, pairs)?;
    let input = find_input(before, id)?;
    let columns = schema_at(before, input).get();
    let from = find_columns(alloc, columns, sources.as_slice())?;
    let schema = rename_all(alloc, columns, pairs)?;
    Ok(Parts {
        what: What::Project { input, from },
        schema: Schema::new(schema),
    })
}
