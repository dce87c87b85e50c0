//! Reads the aggregates of a group from texts. Rests on `columns`; gives `Agg` of `amber_rows`.

ghost use Rattle.std.specs.Prelude.{◌≡◌, ◌++◌, ◌≤◌, IfOk, OnOk, is_some, length, map, ok_or, option_map};
ghost use Rattle.std.specs.List.{filter_map, list_all};
ghost use Rattle.amber_rows.specs.Columns.{agg_kind};
ghost use Rattle.amber_flow.specs.Aggregates.{agg_column, agg_of, behind, is_agg_text};
ghost use Rattle.amber_flow.specs.PartAnswers.{AnswersPart};
ghost use Rattle.amber_flow.specs.declared.error.FlowWhy.TheVariants.{Column as NoColumn};
ghost use Rattle.amber_rows.specs.Chain.{each};

use crate::columns::{find_column, kind_of_column};
use crate::error::{FlowWhy, ReadErr};
use amber_rows::{Agg, Aggs, ColKind, Column, Text};
use std::alloc::{AllocError, Global};

/// What follows a word at the front of a text.
fn strip<'t>(word: &str, text: &'t str) -> Option<&'t str>
    ensures { option_map (λ rest. rest.now) result ≡ behind word.now text.now }
{
    text.strip_prefix(word)
}

fn is_aggregate(text: &str) -> bool
    ensures { result ≡ is_agg_text text.now }
{
    text == "count"
        || strip("sum:", text).is_some()
        || strip("min:", text).is_some()
        || strip("max:", text).is_some()
}

/// Whether each text has the form of an aggregate.
pub fn are_aggregates(texts: &[&str]) -> bool
    ensures { result ≡ list_all is_agg_text (map (λ text. text.now) texts.now) }
{
    texts.iter().all(|text| is_aggregate(text))
}

/// The aggregate that a text means, if the column that it names is there.
fn read_agg(columns: &[Column], text: &str) -> Option<Agg>
    requires { length columns.now ≤ 64 }
    ensures { result ≡ agg_of columns.now text.now }
{
    if text == "count" {
        return Some(Agg::Count);
    }
    if let Some(name) = strip("sum:", text) {
        return find_column(columns, name).map(Agg::Sum);
    }
    if let Some(name) = strip("min:", text) {
        return find_column(columns, name).map(Agg::Min);
    }
    if let Some(name) = strip("max:", text) {
        return find_column(columns, name).map(Agg::Max);
    }
    None
}

/// The aggregates that texts mean, where the columns that they name are there.
pub fn read_aggs(alloc: Global, columns: &[Column], texts: &[&str]) -> Result<Aggs, ReadErr>
    requires { length columns.now ≤ 64 }
    ensures { AnswersPart result (ok_or (each (agg_of columns.now)
        (map (λ text. text.now) texts.now)) NoColumn) }
{
    let mut aggs = Vec::new(alloc);
    for text in texts {
        aggs.push(read_agg(columns, text).ok_or(FlowWhy::Column)?)?;
    }
    Ok(Aggs::new(aggs))
}

/// The kind of an aggregate's column, if the aggregate may stand over these columns.
fn kind_of_agg(columns: &[Column], agg: Agg) -> Option<ColKind>
    ensures { result ≡ agg_kind columns.now agg }
{
    match agg {
        Agg::Count => Some(ColKind::Int),
        Agg::Sum(column) => match kind_of_column(columns, column) {
            Some(ColKind::Int) => Some(ColKind::Int),
            Some(ColKind::Text) | None => None,
        },
        Agg::Min(column) => kind_of_column(columns, column),
        Agg::Max(column) => kind_of_column(columns, column),
    }
}

/// Whether each aggregate may stand over these columns: sums are of numbers.
pub fn are_summable(columns: &[Column], aggs: &[Agg]) -> bool
    ensures { result ≡ list_all (λ agg. is_some (agg_kind columns.now agg)) aggs.now }
{
    aggs.iter().all(|agg| kind_of_agg(columns, *agg).is_some())
}

/// The column of the aggregate that a text means.
fn column_of_agg(
    alloc: Global,
    columns: &[Column],
    text: &str,
) -> Result<Option<Column>, AllocError>
    requires { length columns.now ≤ 64 }
    ensures { IfOk result (λ made. made ≡ agg_column columns.now text.now) }
{
    let Some(agg) = read_agg(columns, text) else {
        return Ok(None);
    };
    let Some(kind) = kind_of_agg(columns, agg) else {
        return Ok(None);
    };
    Ok(Some(Column {
        name: Text::new(alloc, text)?,
        kind,
    }))
}

/// Appends the columns of the aggregates that texts mean.
pub fn add_agg_columns(
    alloc: Global,
    made: &mut Vec<Column>,
    columns: &[Column],
    texts: &[&str],
) -> Result<(), AllocError>
    requires { length columns.now ≤ 64 }
    ensures { OnOk result (made.new.items
        ≡ made.old.items ++ filter_map (agg_column columns.now)
        (map (λ text. text.now) texts.now)) }
{
    for text in texts {
        if let Some(column) = column_of_agg(alloc, columns, text)? {
            made.push(column)?;
        }
    }
    Ok(())
}
