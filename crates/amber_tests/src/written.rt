//! Rows and columns as the tables of the tests write them.

ghost use Rattle.std.specs.Prelude.{◌≡◌, length, IfOk};

use amber_rows::{ColKind, Cols, Column, NoMemory, Row, RowFault, Schema, Text, Value};
use std::alloc::Global;

/// A cell: a number, or else a text, which may stand after a `'`.
pub fn cell(alloc: Global, written: &str) -> Result<Value, NoMemory> {
    if let Ok(number) = written.parse::<i64>() {
        return Ok(Value::Int(number));
    }
    let text = written.strip_prefix("'").unwrap_or(written);
    Ok(Value::Text(Text::new(alloc, text)?))
}

/// A row: cells with blanks between them.
pub fn row(alloc: Global, written: &str) -> Result<Row, NoMemory> {
    let mut cells = Vec::new(alloc);
    for one in written.split_whitespace() {
        cells.push(cell(alloc, one)?)?;
    }
    Ok(Row::new(cells))
}

/// Rows, with a `/` after each but perhaps the last.
pub fn rows(alloc: Global, written: &str) -> Result<Vec<Row>, NoMemory> {
    let mut all = Vec::new(alloc);
    for one in written.split_terminator('/') {
        all.push(row(alloc, one)?)?;
    }
    Ok(all)
}

/// Appends a row to a text: each cell with a blank after it, and a text after a `'`.
pub fn append_row(alloc: Global, text: &mut String, row: &Row) -> Result<(), NoMemory> {
    for cell in row.get() {
        let mark = if matches!(cell, Value::Text(_)) {
            "'"
        } else {
            ""
        };
        text.push_str(&format!(in alloc; "{mark}{cell} ")?)?;
    }
    Ok(())
}

/// Rows as such a text, with a `/` and a blank after each.
pub fn rows_text(alloc: Global, rows: &[Row]) -> Result<String, NoMemory> {
    let mut text = String::new(alloc);
    for row in rows {
        append_row(alloc, &mut text, row)?;
        text.push_str("/ ")?;
    }
    Ok(text)
}

/// A row as such a text.
pub fn row_text(alloc: Global, row: &Row) -> Result<String, NoMemory> {
    let mut text = String::new(alloc);
    append_row(alloc, &mut text, row)?;
    Ok(text)
}

/// Appends a row to a text, or its fault.
pub fn append_typed(
    alloc: Global,
    text: &mut String,
    typed: &Result<Row, RowFault>,
) -> Result<(), NoMemory> {
    let (fault, column) = match typed {
        Ok(row) => return append_row(alloc, text, row),
        Err(RowFault::Width) => return text.push_str("width "),
        Err(RowFault::Int(column)) => ("int", column),
        Err(RowFault::Utf8(column)) => ("utf8", column),
    };
    text.push_str(&format!(in alloc; "{fault} {column} ")?)
}

/// The numbers of columns.
pub fn cols(alloc: Global, numbers: &[u32]) -> Result<Cols, NoMemory> {
    Ok(Cols::new(Vec::from_slice(alloc, numbers)?))
}

fn column(alloc: Global, name: &str, kind: ColKind) -> Result<Column, NoMemory> {
    let name = Text::new(alloc, name)?;
    Ok(Column { name, kind })
}

/// The columns `number` and `word`.
pub fn two_columns(alloc: Global) -> Result<Schema, NoMemory>
    ensures { IfOk result (λ schema. length schema ≡ 2) }
{
    let mut columns = Vec::new(alloc);
    columns.push(column(alloc, "number", ColKind::Int)?)?;
    columns.push(column(alloc, "word", ColKind::Text)?)?;
    Ok(Schema::new(columns))
}
