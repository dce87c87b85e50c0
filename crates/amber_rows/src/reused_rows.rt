//! Rows made in the room of rows that are done with. Rests on `Row`, and on `record` for the typing.

ghost use Rattle.std.specs.Prelude.{◌≡◌, ◌^◌, ◌<◌, length, IfOk};
ghost use Rattle.csv.specs.Records.{fields_of};
ghost use Rattle.amber_rows.specs.Operators.{pick_cells};
ghost use Rattle.amber_rows.specs.Record.{cell_of, row_of};
ghost use Rattle.amber_rows.specs.Retyping.{IsPut};

use crate::column::{ColKind, Cols, Schema};
use crate::record::{RowFault, read_int, type_record};
use crate::row::Row;
use crate::value::Value;
use csv::ByteRecord;
use std::alloc::{AllocError, Global};
use std::str;

/// Puts the cell that a field is in a column of this kind and number, from 1, in the place of another cell, or answers
/// its fault. A text takes no memory that fits where a text was.
#[inline(always)]
pub fn put_cell(
    alloc: Global,
    place: &mut Value,
    field: &[u8],
    kind: ColKind,
    number: u32,
) -> Result<Result<(), RowFault>, AllocError>
    ensures { IfOk result (λ done. IsPut done place.new (cell_of number kind field.now)) }
{
    match kind {
        ColKind::Int => match read_int(field) {
            Some(int) => {
                *place = Value::Int(int);
                Ok(Ok(()))
            }
            None => Ok(Err(RowFault::Int(number))),
        },
        ColKind::Text => match str::from_utf8(field) {
            Ok(text) => {
                place.set_text(alloc, text)?;
                Ok(Ok(()))
            }
            Err(_) => Ok(Err(RowFault::Utf8(number))),
        },
    }
}

// The row that a record is, in the room of cells of which there are as many.
fn retype(
    alloc: Global,
    mut cells: Vec<Value>,
    fields: &ByteRecord,
    schema: &Schema,
) -> Result<Result<Row, RowFault>, AllocError>
    requires few { length schema.now < 2 ^ 32 }
    requires fields { length (fields_of fields.now) ≡ length schema.now }
    requires cells { length cells.items ≡ length schema.now }
    ensures { IfOk result (λ typed. typed ≡ row_of schema.now (fields_of fields.now)) }
{
    let columns = schema.get();
    for i in 0..columns.len() {
        let column = &columns[i];
        let Some(field) = fields.get(i) else {
            unreachable!()
        };
        match put_cell(alloc, &mut cells[i], field, column.kind, i as u32 + 1)? {
            Ok(()) => {}
            Err(fault) => return Ok(Err(fault)),
        }
    }
    Ok(Ok(Row::new(cells)))
}

/// The same as `type_record`, in the room of cells that are done with: where there is one for each column, a
/// text takes no memory that fits where a text was. What the cells are does not matter.
pub fn type_over(
    alloc: Global,
    room: Vec<Value>,
    fields: &ByteRecord,
    schema: &Schema,
) -> Result<Result<Row, RowFault>, AllocError>
    requires { length schema.now < 2 ^ 32 }
    ensures { IfOk result (λ typed. typed ≡ row_of schema.now (fields_of fields.now)) }
{
    if room.len() != schema.len() || fields.len() != schema.len() {
        return type_record(alloc, fields, schema);
    }
    retype(alloc, room, fields, schema)
}

/// The same as `Row::pick`, in the room of cells that are done with: where there is one for each column, a
/// text takes no memory that fits where a text was. What the cells are does not matter.
pub fn pick_over(
    alloc: Global,
    mut room: Vec<Value>,
    row: &Row,
    columns: &Cols,
) -> Result<Row, AllocError>
    ensures { IfOk result (λ picked. picked ≡ pick_cells columns.now row.now) }
{
    let numbers = columns.get();
    if room.len() != numbers.len() {
        return row.pick(alloc, columns);
    }
    for i in 0..numbers.len() {
        let Some(cell) = row.cell(numbers[i]) else {
            return row.pick(alloc, columns);
        };
        room[i].set(alloc, cell)?;
    }
    Ok(Row::new(room))
}
