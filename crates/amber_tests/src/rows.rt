//! Rows, their order, and what they are made of. Tests `amber_rows`.

use crate::expected::{expect_rows, expect_text};
use crate::written::{cell, cols, row, row_text, rows, two_columns};
use amber_rows::{
    Bytes, Cmp, ColKind, Column, Cond, NoMemory, Row, Text, Value, compare, holds, sort, suits,
};
use std::alloc::Global;
use std::test::Fail;

// The first two rows that do not compare as their places do.
fn wrong_pair(rising: &[Row]) -> Option<(usize, usize)> {
    for (i, first) in rising.iter().enumerate() {
        for (j, second) in rising.iter().enumerate() {
            if compare(first, second) != i.cmp(&j) {
                return Some((i, j));
            }
        }
    }
    None
}

#[test]
fn rows_of_other_widths_and_kinds_have_an_order_too(rt: HostRuntime) -> Result<(), Fail> {
    let rising = rows(
        rt.alloc(),
        "/ -1 / 0 / 0 3 / 0 ' / 2 / 10 / 9223372036854775807 / ' / '10 / '9 / 'a 1 / 'a '0 / 'é",
    )?;
    assert!(rt; wrong_pair(&rising).is_none());
    Ok(())
}

#[test]
fn rows_are_sorted_and_equal_ones_kept(rt: HostRuntime) -> Result<(), Fail> {
    let alloc = rt.alloc();
    let mut sorted = rows(alloc, "2 'b / 'a / 2 'b / -7 / 2 / 'a")?;
    sort(&mut sorted);
    expect_rows(alloc, &sorted, "-7 / 2 / 2 'b / 2 'b / 'a / 'a / ")
}

// Columns, and constants with which their cells are compared.
const COMPARED: [(u32, &str); 6] = [
    (1, "7"),
    (1, "'7"),
    (2, "'pear"),
    (2, "9"),
    (0, "7"),
    (3, "7"),
];

// Signs, and with which of these each holds of the row `7 'pear`: an `x` where it does, else a `.`.
const SIGNS: [(Cmp, &str); 6] = [
    (Cmp::Eq, "x.x..."),
    (Cmp::Ne, ".x.x.."),
    (Cmp::Lt, ".x...."),
    (Cmp::Le, "xxx..."),
    (Cmp::Gt, "...x.."),
    (Cmp::Ge, "x.xx.."),
];

// The marks of a sign.
fn marks(alloc: Global, row: &Row, op: Cmp) -> Result<String, NoMemory> {
    let mut found = String::new(alloc);
    for (column, constant) in COMPARED {
        let constant = cell(alloc, constant)?;
        let cond = Cond {
            column,
            op,
            constant,
        };
        found.push_str(if holds(&cond, row) { "x" } else { "." })?;
    }
    Ok(found)
}

#[test]
fn a_condition_compares_a_cell_with_a_constant_of_any_kind(rt: HostRuntime) -> Result<(), Fail> {
    let alloc = rt.alloc();
    let row = row(alloc, "7 'pear")?;
    for (op, want) in SIGNS {
        expect_text(marks(alloc, &row, op)?, want)?;
    }
    Ok(())
}

// Whether a text, and bytes, are what they are copied from.
fn texts_copy(alloc: Global) -> Result<bool, NoMemory> {
    let name = Text::new(alloc, "hé")?;
    let copy = name.clone()?;
    Ok(copy.get() == "hé" && name.len() == 3)
}

fn bytes_copy(alloc: Global) -> Result<bool, NoMemory> {
    let bytes = Bytes::new(Vec::from_slice(alloc, b"a,b")?);
    let copy = bytes.clone()?;
    Ok(copy.get() == bytes.get() && bytes.len() == 3)
}

#[test]
fn texts_and_bytes_copy(rt: HostRuntime) -> Result<(), Fail> {
    let alloc = rt.alloc();
    let texts = texts_copy(alloc)?;
    let bytes = bytes_copy(alloc)?;
    assert!(rt; texts && bytes);
    Ok(())
}

// Whether a column is another one.
fn is_column(one: &Column, other: &Column) -> bool {
    one.name == other.name && one.kind == other.kind
}

// Whether two columns are what they are copied from.
fn columns_copy(alloc: Global) -> Result<bool, NoMemory> {
    let schema = two_columns(alloc)?;
    let copy = schema.clone()?;
    let (one, other) = (schema.get(), copy.get());
    Ok(
        schema.len() == 2
            && copy.len() == 2
            && is_column(&one[0], &other[0])
            && is_column(&one[1], &other[1]),
    )
}

// Whether a row is what it is copied from.
fn rows_copy(alloc: Global) -> Result<bool, NoMemory> {
    let row = row(alloc, "7 'pear")?;
    let copy = Row::new(row.clone()?.into_inner());
    Ok(row == copy)
}

#[test]
fn columns_and_rows_copy(rt: HostRuntime) -> Result<(), Fail> {
    let alloc = rt.alloc();
    let columns = columns_copy(alloc)?;
    let rows = rows_copy(alloc)?;
    assert!(rt; columns && rows);
    Ok(())
}

// Whether the row has two cells, the second of which is the number 12.
fn has_its_cells(row: &Row) -> bool {
    let is_second = matches!(row.cell(2), Some(Value::Int(12)));
    row.len() == 2 && !row.is_empty() && is_second && row.cell(0).is_none() && row.cell(3).is_none()
}

#[test]
fn rows_give_their_cells(rt: HostRuntime) -> Result<(), Fail> {
    let row = row(rt.alloc(), "'pear 12")?;
    assert!(rt; has_its_cells(&row));
    Ok(())
}

// The cells of a row in these columns.
fn picked(alloc: Global, written: &str, columns: &[u32]) -> Result<String, NoMemory> {
    let columns = cols(alloc, columns)?;
    let picked = row(alloc, written)?.pick(alloc, &columns)?;
    row_text(alloc, &picked)
}

#[test]
fn cells_are_picked_by_their_columns(rt: HostRuntime) -> Result<(), Fail> {
    expect_text(
        picked(rt.alloc(), "7 'pear", &[2, 3, 1, 0, 2])?,
        "'pear 7 'pear ",
    )
}

// Copies of the cells of a row, as they are printed.
fn printed(alloc: Global, row: &Row) -> Result<String, NoMemory> {
    let mut all = String::new(alloc);
    for cell in row.get() {
        let copy = cell.clone()?;
        all.push_str(&format!(in alloc; "{copy};")?)?;
    }
    Ok(all)
}

#[test]
fn cells_print_as_numbers_and_texts(rt: HostRuntime) -> Result<(), Fail> {
    let alloc = rt.alloc();
    let row = row(alloc, "-12 'a 'b,c")?;
    expect_text(printed(alloc, &row)?, "-12;a;b,c;")
}

// Whether a row suits the columns `number` and `word`.
fn is_suited(alloc: Global, written: &str) -> Result<bool, NoMemory> {
    let schema = two_columns(alloc)?;
    let row = row(alloc, written)?;
    Ok(suits(&row, &schema))
}

#[test]
fn a_row_suits_columns_where_each_takes_its_cell(rt: HostRuntime) -> Result<(), Fail> {
    for (row, want) in [
        ("1", false),
        ("1 '1", true),
        ("'1 1", false),
        ("1 '1 1", false),
    ] {
        assert!(rt; is_suited(rt.alloc(), row)? == want, "{row}");
    }
    Ok(())
}

#[test]
fn a_column_takes_cells_of_its_kind(rt: HostRuntime) {
    let number = Value::Int(1);
    assert!(rt; ColKind::Int.takes(&number) && !ColKind::Text.takes(&number));
}
