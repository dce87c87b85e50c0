//! Whether a scan's file begins with its columns' names. Over `RecordReader` and `Schema`.

ghost use Rattle.std.specs.Prelude.{◌≡◌, IfOk, bytes_eq};
ghost use Rattle.std.specs.Cmp.Lexicographic.{pointwise};
ghost use Rattle.csv.specs.Records.{fields_of};
ghost use Rattle.amber_rows.specs.Columns.{names_of};
ghost use Rattle.amber_rows.specs.Record.{has_header};

use crate::column::Schema;
use crate::record_reader::RecordReader;
use csv::ByteRecord;
use std::alloc::{AllocError, Global};

/// Whether the fields of a record are the columns' names, in their order.
pub fn are_names(fields: &ByteRecord, schema: &Schema) -> bool
    ensures { result ≡ pointwise bytes_eq (fields_of fields.now) (names_of schema.now) }
{
    let columns = schema.get();
    if fields.len() != columns.len() {
        return false;
    }
    for (i, column) in columns.iter().enumerate() {
        let Some(field) = fields.get(i) else {
            return false;
        };
        if field != column.name.get().as_bytes() {
            return false;
        }
    }
    true
}

/// Whether a scan's file begins with the names of its columns. A file of no records does not.
pub fn has_header(alloc: Global, schema: &Schema, file: &[u8]) -> Result<bool, AllocError>
    ensures { IfOk result (λ right. right ≡ has_header schema.now file.now) }
{
    let mut reader = RecordReader::open(alloc, file);
    let mut fields = ByteRecord::new(alloc);
    let found = reader.next(&mut fields)?;
    if !found {
        return Ok(false);
    }
    Ok(are_names(&fields, schema))
}
