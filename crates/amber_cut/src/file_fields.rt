//! The records of a file as the fields that `csv` reads in it. Over `RecordReader` and `put_cell` of `amber_rows`, and
//! `ByteRecord` of `csv`.

ghost use Rattle.std.specs.Prelude.{◌≡◌, ◌≤◌, ◌<◌, ◌+◌, ◌-◌, ◌^◌, ◌++◌, [], drop, get_or, length, slice_index_or, take, IfOk, OnOk};
ghost use Rattle.csv.specs.Records.{fields_of, partial_of, prev};
ghost use Rattle.amber_rows.specs.Record.{file_records, row_of};

use crate::typing::room_for;
use amber_rows::{RecordReader, Row, RowFault, Schema, Value, put_cell};
use csv::ByteRecord;
use std::alloc::{AllocError, Global};
use std::marker::Model;

/// The records of any file, the header first, seen as the list of the records, each the list of its fields. The fields
/// of all records stand one after the other in one store.
pub struct Fields {
    store: ByteRecord,
    // How many fields stand before the end of each record, in order.
    ends: Vec<usize>,
}

impl Drop for Fields {
    fn drop(self) {
        let Fields { store: _, ends: _ } = self;
    }
}

impl Model for Fields {
    ghost use Rattle.std.specs.Prelude.{List, ℕ, length};
    ghost use Rattle.csv.specs.Records.{Rising, fields_of};
    ghost use Rattle.amber_cut.specs.Pieces.{pieces_from};

    ghost Value = { List (List (List ℕ)) };

    ghost view = { λ a. pieces_from 0 a.ends.items (fields_of a.store) };

    ghost invariant = { λ a. Rising 0 a.ends.items (length (fields_of a.store)) };
}

// Appends the fields of a record to those in the store.
fn append(store: &mut ByteRecord, fields: &ByteRecord) -> Result<(), AllocError>
    requires { partial_of store.old ≡ [] }
    ensures fields { OnOk result
        (fields_of store.new ≡ fields_of store.old ++ fields_of fields.now) }
    ensures partial { OnOk result (partial_of store.new ≡ []) }
{
    'fields: for i in 0..fields.len() {
        let Some(field) = fields.get(i) else {
            unreachable!()
        };
        store.push_field(field)?;
    }
    Ok(())
}

// Where the piece with this number begins, and where it ends.
fn bounds(ends: &[usize], number: usize) -> (usize, usize)
    requires { number < length ends.now }
    ensures start { result.0 ≡ prev 0 ends.now number }
    ensures end { result.1 ≡ get_or ends.now number 0 }
{
    if number == 0 {
        return (0, ends[0]);
    }
    (ends[number - 1], ends[number])
}

// The row that the fields between these places of the store are, one for each column, in the room of as many cells.
fn retype_fields(
    alloc: Global,
    mut cells: Vec<Value>,
    store: &ByteRecord,
    start: usize,
    end: usize,
    schema: &Schema,
) -> Result<Result<Row, RowFault>, AllocError>
    requires few { length schema.now < 2 ^ 32 }
    requires fields { start + length schema.now ≡ end }
    requires within { end ≤ length (fields_of store.now) }
    requires cells { length cells.items ≡ length schema.now }
    ensures { IfOk result (λ typed. typed
        ≡ row_of schema.now (take (length schema.now) (drop start (fields_of store.now)))) }
{
    let columns = schema.get();
    'columns: for i in 0..columns.len() {
        let column = &columns[i];
        let Some(field) = store.get(start + i) else {
            unreachable!()
        };
        match put_cell(alloc, &mut cells[i], field, column.kind, i as u32 + 1)? {
            Ok(()) => {}
            Err(fault) => return Ok(Err(fault)),
        }
    }
    Ok(Ok(Row::new(cells)))
}

impl Fields {
    /// The records of a file.
    pub fn new(alloc: Global, file: &[u8]) -> Result<Fields, AllocError>
        ensures { IfOk result (λ records. records ≡ file_records file.now) }
    {
        let mut reader = RecordReader::open(alloc, file);
        let mut fields = ByteRecord::new(alloc);
        let mut store = ByteRecord::new(alloc);
        let mut ends = Vec::new(alloc);
        'records: for _ in 0..u64::MAX {
            let found = reader.next(&mut fields)?;
            if !found {
                return Ok(Fields { store, ends });
            }
            append(&mut store, &fields)?;
            ends.push(store.len())?;
        }
        // No memory holds as many records as that.
        Err(AllocError)
    }

    /// How many records there are.
    pub fn len(&self) -> usize
        ensures { result ≡ length self.now }
    {
        self.ends.len()
    }

    /// The row that the record with this number, from 0, is under these columns, or the first fault, as `type_line` has
    /// it. It is made in the room of cells that are done with.
    pub fn typed(
        &self,
        alloc: Global,
        number: usize,
        room: Vec<Value>,
        schema: &Schema,
    ) -> Result<Result<Row, RowFault>, AllocError>
        requires there { number < length self.now }
        requires columns { length schema.now < 2 ^ 32 }
        ensures { IfOk result
            (λ typed. typed ≡ row_of schema.now (slice_index_or self.now number [])) }
    {
        let (start, end) = bounds(&self.ends, number);
        if end - start != schema.len() {
            return Ok(Err(RowFault::Width));
        }
        let cells = room_for(alloc, room, schema.len())?;
        retype_fields(alloc, cells, &self.store, start, end, schema)
    }
}
