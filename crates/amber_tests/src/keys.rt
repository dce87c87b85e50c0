//! Keys of rows, and tables of them. Tests `amber_keys`.

use crate::expected::expect_text;
use crate::written::{cols, row, row_text};
use amber_keys::{Key, KeyTable};
use amber_rows::NoMemory;
use std::alloc::Global;
use std::test::Fail;

// The key of a row.
fn key(alloc: Global, written: &str) -> Result<Key, NoMemory> {
    let columns = cols(alloc, &[3, 2, 4])?;
    let row = row(alloc, written)?;
    Key::of(alloc, &row, &columns)
}

// A table with this key alone.
fn table(alloc: Global, key: &Key) -> Result<KeyTable<u64>, NoMemory> {
    let mut table = KeyTable::new(alloc);
    table.add(key.clone()?, 12)?;
    Ok(table)
}

// Whether a row has this key, as its own is compared and as it is looked up.
fn has_key(alloc: Global, key: &Key, written: &str) -> Result<(bool, bool), NoMemory> {
    let table = table(alloc, key)?;
    let own = self::key(alloc, written)?;
    Ok((*key == own, table.place_of(&own).is_some()))
}

// Rows, and whether they have the key of the row `7 'nut -2`.
const ROWS: [(&str, bool); 4] = [
    ("5 'nut -2", true),
    ("7 'bolt -2", false),
    ("7 'nut 2", false),
    ("7 ' -2", false),
];

#[test]
fn rows_with_equal_cells_in_the_columns_have_one_key(rt: HostRuntime) -> Result<(), Fail> {
    let alloc = rt.alloc();
    let key = key(alloc, "7 'nut -2")?;
    for (row, same) in ROWS {
        assert!(rt; has_key(alloc, &key, row)? == (same, same), "{row}");
    }
    expect_text(row_text(alloc, key.row())?, "-2 'nut ")
}

// Puts a value beside a key: in the place of the one before, or after the others.
fn put(table: &mut KeyTable<u64>, key: Key, value: u64) -> Result<(), NoMemory> {
    match table.place_of(&key) {
        Some(place) => {
            *table.value_mut(place) = value;
            Ok(())
        }
        None => table.add(key, value),
    }
}

// The values of three keys, the first of which came twice.
fn filled(alloc: Global) -> Result<KeyTable<u64>, NoMemory> {
    let mut table = KeyTable::new(alloc);
    table.reserve(3)?;
    put(&mut table, key(alloc, "1 'nut 5")?, 1)?;
    put(&mut table, key(alloc, "2 'bolt 5")?, 2)?;
    put(&mut table, key(alloc, "3 'nut 5")?, 3)?;
    put(&mut table, key(alloc, "4 'cog 5")?, 4)?;
    Ok(table)
}

// The keys and values of a table, in their order.
fn table_text(alloc: Global, table: &KeyTable<u64>) -> Result<String, NoMemory> {
    let mut text = String::new(alloc);
    for (key, value) in table.iter() {
        text.push_str(row_text(alloc, key.row())?.as_str())?;
        write!(text, "= {value}, ")?;
    }
    Ok(text)
}

// The table, the value at its first place, and what is taken back from its end.
fn worked(alloc: Global) -> Result<(String, u64, String), NoMemory> {
    let mut table = filled(alloc)?;
    let all = table_text(alloc, &table)?;
    let first = if table.len() == 0 {
        0
    } else {
        *table.entry(0).1
    };
    let copy = table.clone()?;
    let last = match table.take_last() {
        Some((key, _)) => row_text(alloc, key.row())?,
        None => String::new(alloc),
    };
    let mut left = table_text(alloc, &table)?;
    left.push_str(last.as_str())?;
    left.push_str(if copy.len() == table.len() + 1 {
        "copied"
    } else {
        ""
    })?;
    Ok((all, first, left))
}

#[test]
fn a_table_has_its_keys_in_the_order_in_which_they_came(rt: HostRuntime) -> Result<(), Fail> {
    let (all, first, left) = worked(rt.alloc())?;
    assert_eq!(rt; first, 3);
    expect_text(all, "5 'nut = 3, 5 'bolt = 2, 5 'cog = 4, ")?;
    expect_text(left, "5 'nut = 3, 5 'bolt = 2, 5 'cog copied")
}
