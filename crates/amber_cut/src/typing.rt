//! A line as a typed row, in one pass. Over `next_field` of `fields`, and `put_cell` of `amber_rows`.

ghost use Rattle.std.specs.Prelude.{◌≡◌, ◌≢◌, ◌^◌, ◌<◌, length, IfOk};
ghost use Rattle.amber_rows.specs.Record.{row_of};
ghost use Rattle.amber_cut.specs.Lines.{cut};
ghost use Rattle.amber_cut.specs.Typing.{fields_if};

use crate::fields::next_field;
use amber_rows::{Row, RowFault, Schema, Value, put_cell};
use std::alloc::{AllocError, Global};

// So many cells, to be typed over.
fn blank_cells(alloc: Global, count: usize) -> Result<Vec<Value>, AllocError>
    ensures { IfOk result (λ cells. length cells.items ≡ count) }
{
    let mut cells = Vec::with_capacity(alloc, count)?;
    'cells: for _ in 0..count {
        cells.push(Value::Int(0))?;
    }
    Ok(cells)
}

/// Room for the cells of a row of this width: the room that is given if there are so many cells in it, else a new one.
pub fn room_for(alloc: Global, room: Vec<Value>, width: usize) -> Result<Vec<Value>, AllocError>
    ensures { IfOk result (λ cells. length cells.items ≡ width) }
{
    if room.len() == width {
        return Ok(room);
    }
    blank_cells(alloc, width)
}

// The fault of a line in which a field is no cell for this reason, from what stands behind that field, before which a
// comma stands or not: a wrong number of fields, where there are not as many more as these, else that reason.
fn fault_of(why: RowFault, line: &[u8], more: bool, fields: usize) -> RowFault
    ensures same { length (fields_if more line.now) ≡ fields → result ≡ why }
    ensures width { length (fields_if more line.now) ≢ fields → result ≡ RowFault.Width }
{
    let mut rest = line;
    let mut more = more;
    'fields: for _ in 0..fields {
        if !more {
            return RowFault::Width;
        }
        let (_, later, comma) = next_field(rest);
        rest = later;
        more = comma;
    }
    if more { RowFault::Width } else { why }
}

// The row that a line is, in the room of cells of which there are as many as columns. Whether it has as many fields is
// known at the end of the line.
fn retype_line(
    alloc: Global,
    mut cells: Vec<Value>,
    line: &[u8],
    schema: &Schema,
) -> Result<Result<Row, RowFault>, AllocError>
    requires few { length schema.now < 2 ^ 32 }
    requires cells { length cells.items ≡ length schema.now }
    ensures { IfOk result (λ typed. typed ≡ row_of schema.now (cut line.now)) }
{
    let columns = schema.get();
    let mut rest = line;
    let mut more = true;
    'columns: for i in 0..columns.len() {
        if !more {
            return Ok(Err(RowFault::Width));
        }
        let column = &columns[i];
        let (field, later, comma) = next_field(rest);
        match put_cell(alloc, &mut cells[i], field, column.kind, i as u32 + 1)? {
            Ok(()) => {}
            Err(why) => return Ok(Err(fault_of(why, later, comma, columns.len() - i - 1))),
        }
        rest = later;
        more = comma;
    }
    if more {
        return Ok(Err(RowFault::Width));
    }
    Ok(Ok(Row::new(cells)))
}

/// The row that a line is under these columns, or the first fault: a wrong number of fields, else that of the first
/// column whose field is no number, or is not UTF-8 in a column of texts. It is made in the room of cells that are done
/// with: where there is one for each column, a text takes no memory that fits where a text was. What the cells are does
/// not matter.
pub fn type_line(
    alloc: Global,
    room: Vec<Value>,
    line: &[u8],
    schema: &Schema,
) -> Result<Result<Row, RowFault>, AllocError>
    requires { length schema.now < 2 ^ 32 }
    ensures { IfOk result (λ typed. typed ≡ row_of schema.now (cut line.now)) }
{
    let cells = room_for(alloc, room, schema.len())?;
    retype_line(alloc, cells, line, schema)
}
