//! The order of rows, and sorting by it. Rests on `Ord` of `Row`.

ghost use Rattle.std.specs.Prelude.{◌≡◌};
ghost use Rattle.amber_rows.specs.Order.{row_cmp, sort_rows};

use crate::row::Row;
use std::cmp::Ordering;

/// How two rows stand in the order of rows: cell by cell, numbers before texts, numbers by size, texts by
/// bytes, and a proper beginning first.
pub fn compare(a: &Row, b: &Row) -> Ordering
    ensures { result ≡ row_cmp a.now b.now }
{
    a.cmp(b)
}

/// Puts rows into their order. Equal rows all stay.
pub fn sort(rows: &mut Vec<Row>)
    ensures { rows.new.items ≡ sort_rows rows.old.items }
{
    rows.sort_unstable();
}
