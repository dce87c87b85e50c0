//! Rows and keys made in the room of others. Tests `amber_rows` and `amber_keys`.

use crate::expected::expect_text;
use crate::written::{append_row, append_typed, cols, row, row_text, two_columns};
use amber_keys::Key;
use amber_rows::{NoMemory, Row, pick_over, type_over};
use csv::ByteRecord;
use std::alloc::Global;
use std::test::Fail;

// Rows that are done with: as wide or not, with texts where texts come or not, shorter and longer ones.
const DONE: [&str; 5] = ["", "7 'nut", "7 'a_longer_text", "'nut 7", "1 2 3"];

// What a record of this number and the word `washer` is typed as, in the room of a row.
fn typed(alloc: Global, done: &str, number: &[u8]) -> Result<String, NoMemory> {
    let schema = two_columns(alloc)?;
    let record = ByteRecord::from_fields(alloc, &[number, b"washer"])?;
    let room = row(alloc, done)?.into_inner();
    let typed = type_over(alloc, room, &record, &schema)?;
    let mut text = String::new(alloc);
    append_typed(alloc, &mut text, &typed)?;
    Ok(text)
}

#[test]
fn a_record_is_typed_in_any_room(rt: HostRuntime) -> Result<(), Fail> {
    let alloc = rt.alloc();
    for done in DONE {
        expect_text(typed(alloc, done, b"-12")?, "-12 'washer ")?;
        expect_text(typed(alloc, done, b"1x")?, "int 1 ")?;
    }
    Ok(())
}

// These columns of a row, picked in the room of another one.
fn picked(alloc: Global, done: &str, columns: &[u32]) -> Result<String, NoMemory> {
    let whole = row(alloc, "-12 'washer 5")?;
    let room = row(alloc, done)?.into_inner();
    let picked = pick_over(alloc, room, &whole, &cols(alloc, columns)?)?;
    row_text(alloc, &picked)
}

// The key of a row in these columns, made in the room of another one: as it is looked at and as it is taken apart.
fn key(alloc: Global, done: &str, columns: &[u32]) -> Result<String, NoMemory> {
    let whole = row(alloc, "-12 'washer 5")?;
    let room = row(alloc, done)?.into_inner();
    let key = Key::over(alloc, room, &whole, &cols(alloc, columns)?)?;
    let mut text = row_text(alloc, key.row())?;
    append_row(alloc, &mut text, &Row::new(key.into_cells()))?;
    Ok(text)
}

#[test]
fn columns_are_picked_in_any_room(rt: HostRuntime) -> Result<(), Fail> {
    let alloc = rt.alloc();
    for done in DONE {
        expect_text(picked(alloc, done, &[2, 3])?, "'washer 5 ")?;
        expect_text(key(alloc, done, &[2, 3])?, "'washer 5 'washer 5 ")?;
    }
    expect_text(picked(alloc, "'nut 7", &[4, 1])?, "-12 ")
}
