//! A record of a scan's file as a typed row, or its fault. Over `ByteRecord` of `csv` and `Schema`.

ghost use Rattle.std.specs.Prelude.{◌≡◌, ◌^◌, ◌<◌, length, IfOk, IfSome, Some};
ghost use Rattle.csv.specs.Records.{fields_of};
ghost use Rattle.amber_rows.specs.Number.{read_int_of};
ghost use Rattle.amber_rows.specs.Record.{cell_of, row_of};

use crate::column::{ColKind, Schema};
use crate::row::Row;
use crate::text::Text;
use crate::value::Value;
use csv::ByteRecord;
use std::alloc::{AllocError, Global};
use std::str;

/// Why a record is no row. Columns are numbered from 1.
#[derive(Clone, Copy, PartialEq, Eq)]
pub enum RowFault {
    /// The record has not as many fields as there are columns.
    Width,
    /// The field of this column is no whole number of 64 bits.
    Int(u32),
    /// The field of this column is not UTF-8.
    Utf8(u32),
}

// The largest number that is read digit by digit, before the last digit.
const MOST_READ: u64 = 100_000_000_000_000_000;

// The number that a few digits alone are. The contract says nothing where it finds none.
fn few_digits(bytes: &[u8]) -> Option<i64>
    ensures { IfSome result (λ number. Some number ≡ read_int_of bytes.now) }
{
    if bytes.is_empty() {
        return None;
    }
    let mut number: u64 = 0;
    for byte in bytes {
        let digit = *byte;
        if digit < b'0' || b'9' < digit || number > MOST_READ {
            return None;
        }
        number = number * 10 + u64::from(digit - b'0');
    }
    Some(number as i64)
}

/// The whole number that a field is: an optional `+` or `-` and one or more digits, in the range of `i64`.
pub fn read_int(bytes: &[u8]) -> Option<i64>
    ensures { result ≡ read_int_of bytes.now }
{
    if let Some(number) = few_digits(bytes) {
        return Some(number);
    }
    let Ok(text) = str::from_utf8(bytes) else {
        return None;
    };
    text.parse::<i64>().ok()
}

// The cell that a field is in a column, or its fault.
fn type_cell(
    alloc: Global,
    field: &[u8],
    kind: ColKind,
    number: u32,
) -> Result<Result<Value, RowFault>, AllocError>
    ensures { IfOk result (λ typed. typed ≡ cell_of number kind field.now) }
{
    match kind {
        ColKind::Int => match read_int(field) {
            Some(int) => Ok(Ok(Value::Int(int))),
            None => Ok(Err(RowFault::Int(number))),
        },
        ColKind::Text => match str::from_utf8(field) {
            Ok(text) => Ok(Ok(Value::Text(Text::new(alloc, text)?))),
            Err(_) => Ok(Err(RowFault::Utf8(number))),
        },
    }
}

/// The row that a record is under these columns, or the first fault: a wrong number of fields, else that of
/// the first column whose field is no number, or is not UTF-8 in a column of texts.
pub fn type_record(
    alloc: Global,
    fields: &ByteRecord,
    schema: &Schema,
) -> Result<Result<Row, RowFault>, AllocError>
    requires { length schema.now < 2 ^ 32 }
    ensures { IfOk result (λ typed. typed ≡ row_of schema.now (fields_of fields.now)) }
{
    let columns = schema.get();
    if fields.len() != columns.len() {
        return Ok(Err(RowFault::Width));
    }
    let mut cells = Vec::with_capacity(alloc, columns.len())?;
    for i in 0..columns.len() {
        let column = &columns[i];
        let Some(field) = fields.get(i) else {
            unreachable!()
        };
        match type_cell(alloc, field, column.kind, i as u32 + 1)? {
            Ok(cell) => cells.push(cell)?,
            Err(fault) => return Ok(Err(fault)),
        }
    }
    Ok(Ok(Row::new(cells)))
}
