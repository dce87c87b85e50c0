//! Records of files: read, typed and written. Tests `amber_rows`.

use crate::expected::{expect_bytes, expect_text};
use crate::written::{append_typed, row, rows, two_columns};
use amber_rows::{
    NoMemory, RecordReader, Row, append_names, append_rows, are_names, has_header, read_int,
    row_text, type_record,
};
use csv::ByteRecord;
use std::alloc::Global;
use std::test::Fail;

#[test]
fn a_number_is_read(rt: HostRuntime) {
    assert!(rt; read_int(b"+07") == Some(7) && read_int(b"7 ").is_none());
}

// The row that these fields are under the columns `number` and `word`, or its fault.
fn typed(alloc: Global, fields: &[&[u8]]) -> Result<String, NoMemory> {
    let schema = two_columns(alloc)?;
    let fields = ByteRecord::from_fields(alloc, fields)?;
    let typed = type_record(alloc, &fields, &schema)?;
    let mut text = String::new(alloc);
    append_typed(alloc, &mut text, &typed)?;
    Ok(text)
}

#[test]
fn a_record_without_a_field_has_another_width(rt: HostRuntime) -> Result<(), Fail> {
    let alloc = rt.alloc();
    expect_text(typed(alloc, &[])?, "width ")?;
    expect_text(typed(alloc, &[b"-12", b"\xC3\xA9"])?, "-12 'é ")
}

// Appends the names of the columns, and rows, to a text.
fn table(alloc: Global, rows: &[Row]) -> Result<Vec<u8>, NoMemory> {
    let schema = two_columns(alloc)?;
    let before = Vec::from_slice(alloc, b"# ")?;
    let names = append_names(alloc, before, &schema)?;
    append_rows(alloc, names, rows)
}

#[test]
fn rows_of_any_width_are_written_behind_a_text(rt: HostRuntime) -> Result<(), Fail> {
    let alloc = rt.alloc();
    let rows = rows(alloc, "-1 'a,b / 20 ' / '")?;
    let text = table(alloc, &rows)?;
    expect_bytes(alloc, &text, "# number,word\n-1,\"a,b\"\n20,\n\"\"\n")
}

#[test]
fn a_row_is_written(rt: HostRuntime) -> Result<(), Fail> {
    let alloc = rt.alloc();
    let row = row(alloc, "-1 'a,b")?;
    let text = row_text(alloc, &row)?;
    expect_bytes(alloc, &text, "-1,\"a,b\"\n")
}

// The fields of a record, with a `;` after each.
fn append_record(text: &mut Vec<u8>, fields: &ByteRecord) -> Result<(), NoMemory> {
    for field in fields {
        text.extend_from_slice(field)?;
        text.extend_from_slice(b";")?;
    }
    text.extend_from_slice(b"/")
}

// The fields of the records of a file, with a `/` after each record.
fn records(alloc: Global, file: &[u8]) -> Result<Vec<u8>, NoMemory> {
    let mut text = Vec::new(alloc);
    let mut fields = ByteRecord::new(alloc);
    let mut reader = RecordReader::open(alloc, file);
    for _ in file {
        if !reader.next(&mut fields)? {
            return Ok(text);
        }
        append_record(&mut text, &fields)?;
    }
    Ok(text)
}

#[test]
fn a_file_is_read_record_by_record(rt: HostRuntime) -> Result<(), Fail> {
    let alloc = rt.alloc();
    let found = records(alloc, b"a,\"b,b\"\r\n\n1\n")?;
    expect_bytes(alloc, &found, "a;b,b;/1;/")
}

// Whether a file begins with the names of the columns `number` and `word`.
fn begins(alloc: Global, file: &[u8]) -> Result<bool, NoMemory> {
    let schema = two_columns(alloc)?;
    has_header(alloc, &schema, file)
}

// Whether a record has the names of the columns.
fn is_header(alloc: Global, fields: &[&[u8]]) -> Result<bool, NoMemory> {
    let schema = two_columns(alloc)?;
    let fields = ByteRecord::from_fields(alloc, fields)?;
    Ok(are_names(&fields, &schema))
}

#[test]
fn a_header_has_the_names_of_the_columns(rt: HostRuntime) -> Result<(), Fail> {
    let alloc = rt.alloc();
    let header = begins(alloc, b"number,word\n1,x\n")?;
    let short = begins(alloc, b"number\n")?;
    let names = is_header(alloc, &[b"number", b"word"])?;
    assert!(rt; header && !short && names);
    Ok(())
}
