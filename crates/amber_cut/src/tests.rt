//! Small files: their lines, cut at commas, against the records that `csv` reads in them, and their records by number;
//! and where lines begin, on several threads.

ghost use Rattle.std.specs.Prelude.{◌≡◌, ◌<◌, ◌^◌, length, IfOk};

use crate::finding::mark_length;
use crate::starts::line_starts_on;
use crate::{LineReader, NoMemory, Records};
use amber_rows::{
    Bytes, ColKind, Column, FileBytes, RecordReader, RowFault, Schema, Text, row_text,
};
use csv::ByteRecord;
use std::alloc::Global;
use std::test::Fail;
use std::thread::Threads;

// Appends the fields of a record, with a `;` after each, and a `/` at the end.
fn append_record(text: &mut Vec<u8>, fields: &ByteRecord) -> Result<(), NoMemory> {
    for field in fields {
        text.extend_from_slice(field)?;
        text.extend_from_slice(b";")?;
    }
    text.extend_from_slice(b"/")
}

// The records of a file, as `csv` reads them.
fn records(alloc: Global, file: &[u8]) -> Result<Vec<u8>, NoMemory> {
    let mut text = Vec::new(alloc);
    let mut fields = ByteRecord::new(alloc);
    let mut reader = RecordReader::open(alloc, file);
    for _ in file {
        if !reader.next(&mut fields)? {
            return Ok(text);
        }
        append_record(&mut text, &fields)?;
    }
    Ok(text)
}

// Appends a line as the record that it is where it is cut at commas.
fn append_line(text: &mut Vec<u8>, line: &[u8]) -> Result<(), NoMemory> {
    for byte in line {
        let shown = if *byte == b',' { b';' } else { *byte };
        text.push(shown)?;
    }
    text.extend_from_slice(b";/")
}

// The lines that a reader takes, or nothing where the file is refused.
fn read(alloc: Global, file: &[u8]) -> Result<Option<Vec<u8>>, NoMemory> {
    let Some(mut reader) = LineReader::open(file) else {
        return Ok(None);
    };
    let mut text = Vec::new(alloc);
    for _ in file {
        match reader.next() {
            Some(line) => append_line(&mut text, line)?,
            None => return Ok(Some(text)),
        }
    }
    Ok(Some(text))
}

// Fails unless the file is read as this text.
fn expect(alloc: Global, file: &str, want: &str) -> Result<(), Fail> {
    let found = read(alloc, file.as_bytes())?;
    let found = found.unwrap_or(Vec::from_slice(alloc, b"refused")?);
    if found.as_slice() != want.as_bytes() {
        return Err(Fail::new(String::from_utf8_lossy(alloc, &found)?));
    }
    Ok(())
}

// A column of numbers and one of texts.
fn day_and_word(alloc: Global) -> Result<Schema, NoMemory>
    ensures { IfOk result (λ schema. length schema ≡ 2) }
{
    let mut columns = Vec::new(alloc);
    columns.push(Column {
        name: Text::new(alloc, "day")?,
        kind: ColKind::Int,
    })?;
    columns.push(Column {
        name: Text::new(alloc, "word")?,
        kind: ColKind::Text,
    })?;
    Ok(Schema::new(columns))
}

fn fault_text(fault: RowFault) -> &'static [u8] {
    match fault {
        RowFault::Width => b"width/",
        RowFault::Int(_) => b"int/",
        RowFault::Utf8(_) => b"utf8/",
    }
}

// The records of a file after the header, typed one after the other in one room.
fn typed<R: Threads + Sync>(
    rt: &R,
    alloc: Global,
    file: &[u8],
    threads: u32,
) -> Result<Vec<u8>, NoMemory> {
    let schema = day_and_word(alloc)?;
    let bytes = Bytes::new(Vec::from_slice(alloc, file)?);
    let records = Records::new(rt, alloc, &FileBytes::new(alloc, bytes)?, threads)?;
    let mut text = Vec::new(alloc);
    let mut room = Vec::new(alloc);
    for number in 1..records.len() {
        match records.typed(alloc, number, room, &schema)? {
            Ok(row) => {
                text.extend_from_slice(&row_text(alloc, &row)?)?;
                room = row.into_inner();
            }
            Err(fault) => {
                text.extend_from_slice(fault_text(fault))?;
                room = Vec::new(alloc);
            }
        }
    }
    Ok(text)
}

// Where the lines of a file begin, each place with a space after it, noted in so many pieces.
fn starts<R: Threads + Sync>(
    rt: &R,
    alloc: Global,
    file: &[u8],
    pieces: usize,
) -> Result<String, NoMemory>
    requires { length file.now < 2 ^ 32 }
{
    let mut text = String::new(alloc);
    for start in &line_starts_on(rt, alloc, file, mark_length(file), pieces)? {
        text.push_str(&format!(in alloc; "{start} ")?)?;
    }
    Ok(text)
}

// Fails unless the lines of the file begin at these places, in however many pieces they are noted.
fn expect_starts<R: Threads + Sync>(
    rt: &R,
    alloc: Global,
    file: &[u8],
    want: &str,
) -> Result<(), Fail>
    requires { length file.now < 2 ^ 32 }
{
    for pieces in [0, 1, 2, 3, 4, 64] {
        let found = starts(rt, alloc, file, pieces)?;
        if found.as_str() != want {
            return Err(Fail::new(found));
        }
    }
    Ok(())
}

// A file that is long enough to be noted in four pieces.
fn long_file(alloc: Global) -> Result<Vec<u8>, NoMemory> {
    let mut file = Vec::from_slice(alloc, b"day,word\n")?;
    for _ in 0..9_000 {
        file.extend_from_slice(b"7,a b\r\n\n-8,\r9\n\r1,a longer text\n")?;
    }
    Ok(file)
}

// Fails unless the records of the file are typed as this text.
fn expect_typed<R: Threads + Sync>(
    rt: &R,
    alloc: Global,
    file: &[u8],
    want: &str,
) -> Result<(), Fail> {
    let found = typed(rt, alloc, file, 1)?;
    if found.as_slice() != want.as_bytes() {
        return Err(Fail::new(String::from_utf8_lossy(alloc, &found)?));
    }
    Ok(())
}

#[test]
fn lines_are_records(rt: HostRuntime) -> Result<(), Fail> {
    let file = "\u{FEFF}day,word\r\n\n7,\r8,a b";
    expect(rt.alloc(), file, "day;word;/7;;/8;a b;/")
}

#[test]
fn lines_are_the_records_of_csv(rt: HostRuntime) -> Result<(), Fail> {
    let alloc = rt.alloc();
    for file in [
        "",
        "\n",
        "\r\n\r\n",
        "\u{FEFF}",
        "a,b",
        "a,b\n",
        "a,b\n1,2\n3,4",
        "a,b\r\n1,2\r\n",
        "a,b\r1,2\r",
        "a,b\n\r1,2\r\r\n",
        "\u{FEFF}a,b\n1,2\n",
        "\u{FEFF}\n\u{FEFF}a\n",
        "\n\na,b\n1,2\n",
        "a,b\n\n\r\n1,2\n",
        "a,b\n1,2\n\n\r",
        "a,b\n1,\n,2\n,\n",
        "a\n \n\t,'\n",
    ] {
        let records = String::from_utf8(records(alloc, file.as_bytes())?)?;
        expect(alloc, file, records.as_str())?;
    }
    Ok(())
}

#[test]
fn quotes_are_refused(rt: HostRuntime) -> Result<(), Fail> {
    let alloc = rt.alloc();
    for file in [
        "\"",
        "a,b\n\"1\n2\",3\n",
        "a,b\n1,\"2\"",
        "a\n1\"2\n",
        "\"a\"\n1\n",
    ] {
        expect(alloc, file, "refused")?;
    }
    Ok(())
}

#[test]
fn lines_are_typed_by_number(rt: HostRuntime) -> Result<(), Fail> {
    let file = b"day,word\r\n7,a b\n\n-8,\n9\nx,y,z\nx,\xFF\n1,\xFF\n0,c";
    expect_typed(
        &rt,
        rt.alloc(),
        file,
        "7,a b\n-8,\nwidth/width/int/utf8/0,c\n",
    )
}

#[test]
fn lines_begin_at_the_same_places_in_any_number_of_pieces(rt: HostRuntime) -> Result<(), Fail> {
    let alloc = rt.alloc();
    for (file, want) in [
        ("", ""),
        ("\n", ""),
        ("a", "0 "),
        ("\u{FEFF}", ""),
        ("\u{FEFF}a\nb", "3 5 "),
        ("a\nb\nc\nd", "0 2 4 6 "),
        ("a\rb\rc\rd\r", "0 2 4 6 "),
        ("a\r\nb\r\nc\r\n", "0 3 6 "),
        ("\n\na\n\n\nb\n\n", "2 6 "),
        ("\r\r\na\rb\n\r\rc", "3 5 9 "),
        ("\r\n\r\n\r\n\r\n", ""),
        ("a line longer than all others\nb\nc\n", "0 30 32 "),
        ("b\nc\na line longer than all others", "0 2 4 "),
    ] {
        expect_starts(&rt, alloc, file.as_bytes(), want)?;
    }
    Ok(())
}

#[test]
fn records_are_the_same_on_any_number_of_threads(rt: HostRuntime) -> Result<(), Fail> {
    let alloc = rt.alloc();
    let file = long_file(alloc)?;
    let want = typed(&rt, alloc, &file, 1)?;
    for threads in [0, 2, 4, 64] {
        assert!(rt; typed(&rt, alloc, &file, threads)? == want);
    }
    Ok(())
}

#[test]
fn quoted_records_are_typed_by_number(rt: HostRuntime) -> Result<(), Fail> {
    let file = b"day,word\r\n7,\"a\n,b\"\n\n\"-8\",\n9\nx,y,z\nx,\xFF\n1,\xFF\n0,c";
    expect_typed(
        &rt,
        rt.alloc(),
        file,
        "7,\"a\n,b\"\n-8,\nwidth/width/int/utf8/0,c\n",
    )
}
