//! Whether a row fits columns. Over `Row` and `Schema`.

ghost use Rattle.std.specs.Prelude.{◌≡◌};
ghost use Rattle.amber_rows.specs.Suits.{suits_of};

use crate::column::Schema;
use crate::row::Row;

/// Whether a row has a cell for each column, of its kind.
pub fn suits(row: &Row, schema: &Schema) -> bool
    ensures { result ≡ suits_of schema.now row.now }
{
    let cells = row.get();
    let columns = schema.get();
    if cells.len() != columns.len() {
        return false;
    }
    for i in 0..columns.len() {
        let column = &columns[i];
        let cell = &cells[i];
        let fits = column.kind.takes(cell);
        if !fits {
            return false;
        }
    }
    true
}
