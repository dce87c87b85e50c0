//! The records of a scan's file, sent through a chain one by one. A file without a double quote is read as its
//! lines. Over `Chain`, `LineReader` and `type_line` of `amber_cut`, and `RecordReader` of `amber_rows`.

ghost use Rattle.std.specs.Prelude.{◌≡◌, ◌<◌, ◌^◌, ◌++◌, ◌∷◌, [], List, ℕ, length, map, IfOk, OnOk};
ghost use Rattle.std.specs.List.{filter_map};
ghost use Rattle.amber_rows.specs.Reading.{HasRead};
ghost use Rattle.amber_rows.specs.Record.{file_records, ok_of, typed_records};
ghost use Rattle.amber_cut.specs.Lines.{cut};
ghost use Rattle.amber_meaning.specs.Refused.{refused_records};
ghost use Rattle.amber_plain.specs.Holding.{Fills, Spends};
ghost use Rattle.amber_plain.specs.Stages.{count_through};

use crate::chain::Chain;
use crate::limit::LimitErr;
use amber_cut::{LineReader, type_line};
use amber_meaning::Refusal;
use amber_rows::{RecordReader, Row, RowFault, Schema, Value, type_over};
use csv::ByteRecord;
use std::alloc::{AllocError, Global};

// Appends a refusal to the others.
fn refuse(refusal: Refusal, refused: &mut Vec<Refusal>) -> Result<(), AllocError>
    ensures { OnOk result (refused.new.items ≡ refused.old.items ++ refusal ∷ []) }
{
    refused.push(refusal)?;
    Ok(())
}

/// Sends a record with this number through a chain, or appends it to what was refused. It gives the room back
/// that the next record may be typed in.
#[tactic(auto, unfolding(amber_meaning::specs::Refused::refused_records))]
fn add_record(
    alloc: Global,
    op: u32,
    number: u64,
    typed: Result<Row, RowFault>,
    chain: &mut Chain,
    refused: &mut Vec<Refusal>,
) -> Result<Vec<Value>, LimitErr>
    ensures moved { OnOk result (Fills chain.old chain.new (filter_map ok_of (typed ∷ []))) }
    ensures left { Spends result chain.old.left chain.new.left
        (count_through chain.old.stages.items (filter_map ok_of (typed ∷ []))) }
    ensures refused { OnOk result (refused.new.items
        ≡ refused.old.items ++ refused_records op number (typed ∷ [])) }
{
    match typed {
        Ok(mut row) => {
            chain.send(alloc, &mut row)?;
            Ok(row.into_inner())
        }
        Err(fault) => {
            refuse(Refusal::Record { op, number, fault }, refused)?;
            Ok(Vec::new(alloc))
        }
    }
}

// Sends the rows of the records that are to be read through a chain. Those that are no rows are refused, in
// order. The first record is the header.
fn read_records(
    alloc: Global,
    op: u32,
    schema: &Schema,
    reader: &mut RecordReader,
    fields: &mut ByteRecord,
    chain: &mut Chain,
) -> Result<Vec<Refusal>, LimitErr>
    requires { length schema.now < 2 ^ 32 }
    ensures moved { (file : List ℕ) → HasRead file reader.old []
        → OnOk result (Fills chain.old chain.new
        (filter_map ok_of (typed_records schema.now file))) }
    ensures left { (file : List ℕ) → HasRead file reader.old []
        → Spends result chain.old.left chain.new.left (count_through chain.old.stages.items
        (filter_map ok_of (typed_records schema.now file))) }
    ensures refused { (file : List ℕ) → HasRead file reader.old []
        → IfOk result (λ refused. refused.items
        ≡ refused_records op 1 (typed_records schema.now file)) }
{
    let headed = reader.next(fields)?;
    if !headed {
        return Ok(Vec::new(alloc));
    }
    let mut refused = Vec::new(alloc);
    let mut room = Vec::new(alloc);
    'records: for number in 1..u64::MAX {
        let found = reader.next(fields)?;
        if !found {
            return Ok(refused);
        }
        let typed = type_over(alloc, room, fields, schema)?;
        room = add_record(alloc, op, number, typed, chain, &mut refused)?;
    }
    // No memory holds as many records as that.
    Err(LimitErr::NoMemory)
}

// The same of the lines that are left of a file without a double quote.
fn read_lines(
    alloc: Global,
    op: u32,
    schema: &Schema,
    reader: &mut LineReader,
    chain: &mut Chain,
) -> Result<Vec<Refusal>, LimitErr>
    requires { length schema.now < 2 ^ 32 }
    ensures moved { (file : List ℕ) → map cut reader.old ≡ file_records file
        → OnOk result (Fills chain.old chain.new
        (filter_map ok_of (typed_records schema.now file))) }
    ensures left { (file : List ℕ) → map cut reader.old ≡ file_records file
        → Spends result chain.old.left chain.new.left (count_through chain.old.stages.items
        (filter_map ok_of (typed_records schema.now file))) }
    ensures refused { (file : List ℕ) → map cut reader.old ≡ file_records file
        → IfOk result (λ refused. refused.items
        ≡ refused_records op 1 (typed_records schema.now file)) }
{
    let Some(_header) = reader.next() else {
        return Ok(Vec::new(alloc));
    };
    let mut refused = Vec::new(alloc);
    let mut room = Vec::new(alloc);
    'records: for number in 1..u64::MAX {
        let Some(line) = reader.next() else {
            return Ok(refused);
        };
        let typed = type_line(alloc, room, line, schema)?;
        room = add_record(alloc, op, number, typed, chain, &mut refused)?;
    }
    // No memory holds as many records as that.
    Err(LimitErr::NoMemory)
}

// The same of all records of a file, which may have quotes.
fn read_file(
    alloc: Global,
    op: u32,
    schema: &Schema,
    file: &[u8],
    chain: &mut Chain,
) -> Result<Vec<Refusal>, LimitErr>
    requires { length schema.now < 2 ^ 32 }
    ensures moved { OnOk result (Fills chain.old chain.new
        (filter_map ok_of (typed_records schema.now file.now))) }
    ensures left { Spends result chain.old.left chain.new.left
        (count_through chain.old.stages.items
        (filter_map ok_of (typed_records schema.now file.now))) }
    ensures refused { IfOk result
        (λ refused. refused.items ≡ refused_records op 1 (typed_records schema.now file.now)) }
{
    let mut reader = RecordReader::open(alloc, file);
    let mut fields = ByteRecord::new(alloc);
    read_records(alloc, op, schema, &mut reader, &mut fields, chain)
}

/// Sends the rows of a scan's file through a chain. The records that are no rows are refused, in order.
pub fn scan(
    alloc: Global,
    op: u32,
    schema: &Schema,
    file: &[u8],
    chain: &mut Chain,
) -> Result<Vec<Refusal>, LimitErr>
    requires { length schema.now < 2 ^ 32 }
    ensures moved { OnOk result (Fills chain.old chain.new
        (filter_map ok_of (typed_records schema.now file.now))) }
    ensures left { Spends result chain.old.left chain.new.left
        (count_through chain.old.stages.items
        (filter_map ok_of (typed_records schema.now file.now))) }
    ensures refused { IfOk result
        (λ refused. refused.items ≡ refused_records op 1 (typed_records schema.now file.now)) }
{
    match LineReader::open(file) {
        Some(mut reader) => read_lines(alloc, op, schema, &mut reader, chain),
        None => read_file(alloc, op, schema, file, chain),
    }
}
