//! Batches: rows that travel together from one worker to another. Rests on `Rows`.

use crate::row::Rows;

/// Rows that one worker sends to another in one piece: its number `seq`, from 0, and whether it is the last.
#[derive(Drop)]
pub struct Batch {
    pub seq: u64,
    pub rows: Rows,
    pub last: bool,
}
