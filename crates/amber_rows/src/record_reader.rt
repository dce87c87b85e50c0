//! The reader of the records of a scan's file. Rests on the reader of `csv`.

ghost use Rattle.std.specs.Prelude.{◌≡◌, [], ◌∷◌, ◌++◌, true, false, IfOk, List, ℕ};
ghost use Rattle.csv.specs.Records.{fields_of};
ghost use Rattle.amber_rows.specs.Reading.{HasRead};
ghost use Rattle.amber_rows.specs.Record.{file_records};

use csv::{ByteRecord, Reader, ReaderBuilder};
use std::alloc::{AllocError, Global};

/// Reads the records of a scan's file one after the other, the header first: RFC 4180 with commas and double
/// quotes, any number of fields in a record, nothing trimmed, and a byte order mark at the front dropped.
pub struct RecordReader<'a> {
    reader: Reader<&'a [u8]>,
}

impl Drop for RecordReader<'_> {
    fn drop(self) {
        let RecordReader { reader: _ } = self;
    }
}

impl<'a> RecordReader<'a> {
    /// A reader that has read nothing yet.
    pub fn open(alloc: Global, bytes: &'a [u8]) -> Self
        ensures { HasRead bytes.now result [] }
    {
        RecordReader {
            reader: ReaderBuilder::new()
                .has_headers(false)
                .flexible(true)
                .from_reader(alloc, bytes),
        }
    }

    /// Reads the next record into `fields`, and answers whether there was one.
    pub fn next(&mut self, fields: &mut ByteRecord) -> Result<bool, AllocError>
        ensures more { IfOk result
            (λ found. (bytes : List ℕ) (done : List (List (List ℕ))) → HasRead bytes self.old done
            → found ≡ true
            → HasRead bytes self.new (done ++ fields_of fields.new ∷ [])) }
        ensures all { IfOk result
            (λ found. (bytes : List ℕ) (done : List (List (List ℕ))) → HasRead bytes self.old done
            → found ≡ false
            → file_records bytes ≡ done) }
        ensures place { IfOk result
            (λ found. (bytes : List ℕ) (done : List (List (List ℕ))) → HasRead bytes self.old done
            → found ≡ true
            → (later : List (List (List ℕ)))
            × (file_records bytes ≡ done ++ fields_of fields.new ∷ later)) }
    {
        // Bytes in memory never fail to be read, and a record may have any number of fields. So an error here
        // means only that memory ran out.
        let Ok(found) = self.reader.read_byte_record(fields) else {
            return Err(AllocError);
        };
        Ok(found)
    }
}
