//! Reads a scan's columns, and finds columns by name or number. Over `Column` of `amber_rows`.

ghost use Rattle.std.specs.Prelude.{◌≡◌, ◌++◌, OnOk, ◌+◌, ◌^◌, ◌≤◌, ◌<◌, true, bytes_eq, length, map, ok_or, option_map, position, IfOk, IfSome};
ghost use Rattle.std.specs.List.{filter_map, list_all};
ghost use Rattle.serde_json.specs.View.{view};
ghost use Rattle.amber_rows.specs.Columns.{names_of, are_apart, is_column_name, column_kind_at};
ghost use Rattle.amber_rows.specs.Chain.{each};
ghost use Rattle.amber_flow.specs.Columns.{column_named, column_number, column_of, columns_of};
ghost use Rattle.amber_flow.specs.PartAnswers.{AnswersPart};
ghost use Rattle.amber_flow.specs.declared.error.FlowWhy.TheVariants.{Column as NoColumn};

use crate::error::{FlowWhy, ReadErr};
use crate::fields::text_item;
use crate::names::{column_kind, may_name_column};
use amber_rows::{ColKind, Cols, Column, Schema, Text};
use serde_json::Value;
use std::alloc::{AllocError, Global};

/// The column that a pair of a name and a kind means.
#[tactic(auto, unfolding(crate::specs::Columns::column_of))]
fn read_column(alloc: Global, tree: &Value) -> Result<Column, ReadErr>
    ensures column { AnswersPart result (column_of (view tree.now)) }
    ensures named { IfOk result (λ column. is_column_name column.name ≡ true) }
{
    let name = text_item(tree, 0).ok_or(FlowWhy::Shape)?;
    let word = text_item(tree, 1).ok_or(FlowWhy::Shape)?;
    if tree.get(2).is_some() || !may_name_column(name) {
        return Err(ReadErr::Bad(FlowWhy::Shape));
    }
    let kind = column_kind(word).ok_or(FlowWhy::Shape)?;
    let name = Text::new(alloc, name)?;
    Ok(Column { name, kind })
}

/// The columns that a list of pairs means.
pub fn read_columns(alloc: Global, trees: &[Value]) -> Result<Schema, ReadErr>
    ensures columns { AnswersPart result (columns_of (map view trees.now)) }
    ensures named { IfOk result
        (λ columns. list_all is_column_name (names_of columns) ≡ true) }
{
    let mut columns = Vec::new(alloc);
    for tree in trees {
        columns.push(read_column(alloc, tree)?)?;
    }
    Ok(Schema::new(columns))
}

/// The place of the column with this name.
fn place_of(columns: &[Column], name: &str) -> Option<usize>
    ensures place { result ≡ position (λ column. bytes_eq column.name name.now) columns.now }
    ensures there { IfSome result (λ place. place < length columns.now) }
{
    columns.iter().position(|column| column.name.get() == name)
}

/// The number of the column with this name, from 1.
pub fn find_column(columns: &[Column], name: &str) -> Option<u32>
    requires { length columns.now ≤ 64 }
    ensures number { result ≡ column_number columns.now name.now }
    ensures there { IfSome result (λ number. (0 < number) × (number ≤ length columns.now)) }
{
    match place_of(columns, name) {
        None => None,
        Some(place) => Some(place as u32 + 1),
    }
}

/// The column with this name.
pub fn column_with<'c>(columns: &'c [Column], name: &str) -> Option<&'c Column>
    requires { length columns.now ≤ 64 }
    ensures { option_map (λ column. column.now) result ≡ column_named columns.now name.now }
{
    match place_of(columns, name) {
        None => None,
        Some(place) => columns.get(place),
    }
}

/// The numbers of the columns with these names, where each is a column's.
pub fn find_columns(alloc: Global, columns: &[Column], names: &[&str]) -> Result<Cols, ReadErr>
    requires { length columns.now ≤ 64 }
    ensures { AnswersPart result (ok_or (each (column_number columns.now)
        (map (λ name. name.now) names.now)) NoColumn) }
{
    let mut numbers = Vec::new(alloc);
    for name in names {
        numbers.push(find_column(columns, name).ok_or(FlowWhy::Column)?)?;
    }
    Ok(Cols::new(numbers))
}

/// The kind of the column with this number.
pub fn kind_of_column(columns: &[Column], number: u32) -> Option<ColKind>
    ensures { result ≡ column_kind_at columns.now number }
{
    if number == 0 {
        return None;
    }
    match columns.get(number as usize - 1) {
        None => None,
        Some(column) => Some(column.kind),
    }
}

/// Appends copies of columns.
pub fn add_columns(made: &mut Vec<Column>, columns: &[Column]) -> Result<(), AllocError>
    ensures { OnOk result (made.new.items ≡ made.old.items ++ columns.now) }
{
    for column in columns {
        made.push(column.clone()?)?;
    }
    Ok(())
}

/// Appends copies of the columns with these names.
pub fn add_named(
    made: &mut Vec<Column>,
    columns: &[Column],
    names: &[&str],
) -> Result<(), AllocError>
    requires { length columns.now ≤ 64 }
    ensures { OnOk result (made.new.items
        ≡ made.old.items ++ filter_map (column_named columns.now)
        (map (λ name. name.now) names.now)) }
{
    for name in names {
        if let Some(column) = column_with(columns, name) {
            made.push(column.clone()?)?;
        }
    }
    Ok(())
}

/// Whether no name stands twice.
pub fn are_all_apart(columns: &[Column]) -> bool
    ensures { result ≡ are_apart (names_of columns.now) }
{
    for index in 0..columns.len() {
        let column = &columns[index];
        let (_, later) = columns.split_at(index + 1);
        if place_of(later, column.name.get()).is_some() {
            return false;
        }
    }
    true
}
