//! Rows and the names of columns as CSV text. Over `Row` and `Schema`; rests on the writer of `csv`.

ghost use Rattle.std.specs.Prelude.{◌≡◌, [], ◌∷◌, ◌++◌, IfOk, OnOk, List, map, ℕ};
ghost use Rattle.csv.specs.Records.{fields_of, partial_of};
ghost use Rattle.amber_rows.specs.Columns.{names_of};
ghost use Rattle.amber_rows.specs.RowText.{HasWritten, fields_text_of, row_text_of, rows_text_of, value_text};

use crate::column::{Column, Schema};
use crate::row::Row;
use crate::text::Text;
use crate::value::Value;
use csv::{ByteRecord, Writer, WriterBuilder};
use itoa::Buffer;
use std::alloc::{AllocError, Global};

// How many rows are looked at together before they are written.
const AHEAD: usize = 32;

// A writer that appends records to a text.
fn open_text(text: Vec<u8>) -> Writer<Vec<u8>>
    ensures { HasWritten text.items result }
{
    WriterBuilder::new().flexible(true).from_writer(text)
}

// Writes one record after what was written. A `Vec` refuses bytes only where memory runs out, and so does the
// writer, since records may differ in length.
fn write_fields(writer: &mut Writer<Vec<u8>>, fields: &ByteRecord) -> Result<(), AllocError>
    ensures { OnOk result ((text : List ℕ) → HasWritten text writer.old
        → HasWritten (text ++ fields_text_of (fields_of fields.now)) writer.new) }
{
    let Ok(()) = writer.write_byte_record(fields) else {
        return Err(AllocError);
    };
    Ok(())
}

// The text that was written.
fn close_text(writer: Writer<Vec<u8>>) -> Result<Vec<u8>, AllocError>
    ensures { IfOk result
        (λ written. (text : List ℕ) → HasWritten text writer → written.items ≡ text) }
{
    match writer.into_inner() {
        Ok(written) => Ok(written),
        Err(_) => Err(AllocError),
    }
}

// Adds a cell's text as the next field.
fn push_cell(fields: &mut ByteRecord, cell: &Value) -> Result<(), AllocError>
    ensures fields { OnOk result (partial_of fields.old ≡ [] → fields_of fields.new
        ≡ fields_of fields.old ++ value_text cell.now ∷ []) }
    ensures whole { OnOk result (partial_of fields.new ≡ []) }
{
    match cell {
        Value::Int(number) => {
            let mut buffer = Buffer::new();
            fields.push_field(buffer.format(*number).as_bytes())
        }
        Value::Text(text) => fields.push_field(text.get().as_bytes()),
    }
}

// Makes the record that of a row.
fn fill(fields: &mut ByteRecord, row: &Row) -> Result<(), AllocError>
    ensures { OnOk result (fields_of fields.new ≡ map value_text row.now) }
{
    fields.clear();
    let cells = row.get();
    for cell in cells {
        push_cell(fields, cell)?;
    }
    Ok(())
}

// Makes the record that of the columns' names.
fn fill_names(fields: &mut ByteRecord, columns: &[Column]) -> Result<(), AllocError>
    ensures { OnOk result (fields_of fields.new ≡ names_of columns.now) }
{
    fields.clear();
    for column in columns {
        fields.push_field(column.name.get().as_bytes())?;
    }
    Ok(())
}

// The first byte of a text, as a number.
fn first_byte(text: &Text) -> usize {
    match text.get().as_bytes().first() {
        Some(byte) => usize::from(*byte),
        None => 0,
    }
}

// The first bytes of a row's texts, added up.
fn first_bytes(row: &Row) -> usize {
    let mut total: usize = 0;
    let cells = row.get();
    for cell in cells {
        if let Value::Text(text) = cell {
            total = total.saturating_add(first_byte(text));
        }
    }
    total
}

// The first bytes of the texts of rows, added up, or `usize::MAX` where that is less.
fn near_bytes(rows: &[Row]) -> usize {
    let mut total: usize = 0;
    for row in rows {
        total = total.saturating_add(first_bytes(row));
    }
    total
}

// Looks at the rows that come next, from time to time. In their order the rows' cells and texts lie anywhere in
// memory, so each row would wait for them. Looking at those of several rows together lets these waits overlap. The
// sum is of no use, but a caller has to ask for it, since reads that nobody asks for are left out of the program.
fn look_ahead(rows: &[Row], place: usize) -> usize {
    if place % AHEAD != 0 {
        return 0;
    }
    let (_, later) = rows.split_at(place.min(rows.len()));
    let (near, _) = later.split_at(AHEAD.min(later.len()));
    near_bytes(near)
}

// Makes the record that of the row at this place, and looks ahead. No memory holds rows whose sum is that large; the
// record would be made twice, which is the same.
fn fill_near(
    fields: &mut ByteRecord,
    rows: &[Row],
    place: usize,
    row: &Row,
) -> Result<(), AllocError>
    ensures { OnOk result (fields_of fields.new ≡ map value_text row.now) }
{
    if look_ahead(rows, place) == usize::MAX {
        fill(fields, row)?;
    }
    fill(fields, row)
}

// A text with one record appended.
fn append_fields(text: Vec<u8>, fields: &ByteRecord) -> Result<Vec<u8>, AllocError>
    ensures { IfOk result
        (λ longer. longer.items ≡ text.items ++ fields_text_of (fields_of fields.now)) }
{
    let mut writer = open_text(text);
    write_fields(&mut writer, fields)?;
    close_text(writer)
}

/// The text of a row as one record (RFC 4180): fields with commas between them, in double quotes where they
/// need them, and a line feed at the end.
pub fn row_text(alloc: Global, row: &Row) -> Result<Vec<u8>, AllocError>
    ensures { IfOk result (λ text. text.items ≡ row_text_of row.now) }
{
    let mut fields = ByteRecord::new(alloc);
    fill(&mut fields, row)?;
    append_fields(Vec::new(alloc), &fields)
}

/// A text with the records of these rows appended, in their order.
pub fn append_rows(alloc: Global, text: Vec<u8>, rows: &[Row]) -> Result<Vec<u8>, AllocError>
    ensures { IfOk result (λ longer. longer.items ≡ text.items ++ rows_text_of rows.now) }
{
    let mut writer = open_text(text);
    let mut fields = ByteRecord::new(alloc);
    for (place, row) in rows.iter().enumerate() {
        fill_near(&mut fields, rows, place, row)?;
        write_fields(&mut writer, &fields)?;
    }
    close_text(writer)
}

/// A text with the record of the columns' names appended.
pub fn append_names(alloc: Global, text: Vec<u8>, schema: &Schema) -> Result<Vec<u8>, AllocError>
    ensures { IfOk result
        (λ longer. longer.items ≡ text.items ++ fields_text_of (names_of schema.now)) }
{
    let mut fields = ByteRecord::new(alloc);
    fill_names(&mut fields, schema.get())?;
    append_fields(text, &fields)
}
