//! The records of a file, each to be taken by its number. Over `Lines` of `file_lines` and `Fields` of `file_fields`.

ghost use Rattle.std.specs.Prelude.{◌≡◌, ◌<◌, ◌^◌, [], length, slice_index_or, IfOk};
ghost use Rattle.amber_rows.specs.Record.{file_records, row_of};

use crate::file_fields::Fields;
use crate::file_lines::Lines;
use amber_rows::{FileBytes, Row, RowFault, Schema, Value};
use std::alloc::{AllocError, Global};
use std::marker::Model;
use std::thread::Threads;

// How the records are kept.
enum Kind {
    // As the lines of a file without a double quote.
    Lines(Lines),
    // As the fields of any other file.
    Fields(Fields),
}

impl Drop for Kind {
    fn drop(self) {
        match self {
            Kind::Lines(_) => {}
            Kind::Fields(_) => {}
        }
    }
}

/// The records of a file, any of which can be taken by its number, seen as the list of the records, each the list of
/// its fields. The header is record 0.
///
/// The format is that of RFC 4180, where lines may also end in a line feed or a carriage return alone, empty lines are
/// passed over, and a byte order mark at the front is dropped. Of a file without a double quote, shorter than 4 GiB,
/// the bytes are shared and 4 bytes are kept for each record, where it begins. Of any other file the bytes of the
/// fields are kept, and 8 bytes for each field and for each record.
pub struct Records {
    kind: Kind,
}

impl Drop for Records {
    fn drop(self) {
        let Records { kind: _ } = self;
    }
}

impl Model for Records {
    ghost use Rattle.std.specs.Prelude.{List, ℕ};
    ghost use Rattle.amber_cut.specs.Kept.{kept_records};

    ghost Value = { List (List (List ℕ)) };

    ghost view = { λ a. kept_records a.kind };
}

impl Records {
    /// The records of a file. Where the lines of a file without a double quote begin is noted on so many threads at
    /// most, 0 counted as 1. The records are the same for any number.
    pub fn new<R: Threads + Sync>(
        rt: &R,
        alloc: Global,
        file: &FileBytes,
        threads: u32,
    ) -> Result<Records, AllocError>
        ensures { IfOk result (λ records. records ≡ file_records file.now) }
    {
        let kind = match Lines::new(rt, alloc, file, threads)? {
            Some(lines) => Kind::Lines(lines),
            None => Kind::Fields(Fields::new(alloc, file.get())?),
        };
        Ok(Records { kind })
    }

    /// How many records there are, the header counted.
    pub fn len(&self) -> usize
        ensures { result ≡ length self.now }
    {
        match &self.kind {
            Kind::Lines(lines) => lines.len(),
            Kind::Fields(fields) => fields.len(),
        }
    }

    /// The row that the record with this number, from 0, is under these columns, or the first fault: a wrong number of
    /// fields, else that of the first column whose field is no number, or is not UTF-8 in a column of texts. It is
    /// made in the room of cells that are done with: where there is one for each column, a text takes no memory that
    /// fits where a text was. What the cells are does not matter.
    pub fn typed(
        &self,
        alloc: Global,
        number: usize,
        room: Vec<Value>,
        schema: &Schema,
    ) -> Result<Result<Row, RowFault>, AllocError>
        requires there { number < length self.now }
        requires columns { length schema.now < 2 ^ 32 }
        ensures { IfOk result
            (λ typed. typed ≡ row_of schema.now (slice_index_or self.now number [])) }
    {
        match &self.kind {
            Kind::Lines(lines) => lines.typed(alloc, number, room, schema),
            Kind::Fields(fields) => fields.typed(alloc, number, room, schema),
        }
    }
}
