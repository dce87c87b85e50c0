//! What an operator gives of one row by itself, where nothing is kept of it.

use amber_rows::{Row, Rows};

/// The rows that an operator gives of a row.
#[derive(Drop)]
pub enum Yielded {
    /// None.
    Nothing,
    /// The row itself.
    Same,
    /// Another row.
    Other(Row),
    /// These rows, in their order.
    Many(Rows),
}
