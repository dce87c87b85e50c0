//! The state of a group: what a worker keeps of the rows that it was fed, and the rows that it gives at the end.
//!
//! A group takes one row after the other and keeps, for each key, a number or a cell for each aggregate. In
//! the end it gives a row for each key, in the order in which the keys came first: the key, and then its
//! aggregates. A sum is exact however its parts come: 128 bits hold the sum of fewer than 2^40 numbers of 64
//! bits, and only the final sum is tested. A group whose final sum 64 bits do not hold has no row; its key is
//! given separately.
//!
//! A row that came by `take` can be taken out again, the last one first. This takes no memory, so a
//! step that took in a row can be undone whatever happens after it. `take_all` does so with several
//! rows, all or none, and `undo_all` takes them out again. `take_line` and `undo_line` do the same at
//! less cost where there are fewer groups than rows.
//!
//! The rows themselves are not kept. So the contracts say what a state stands for: `IsFedWith` ties it to a
//! list of rows. A new state stands for no row, each row that is fed makes it stand for one more row, and
//! what it gives is what the list functions of `amber_rows` make of the rows for which it stands. Where
//! memory runs out, the state is as before.
//!
//! # Example
//!
//! Rows of a number and a text are grouped by the text, which is column 2; of each group they are counted and summed
//! up:
//!
//! ```rust
//! let keys = Cols::new(Vec::from_slice(alloc, &[2])?);
//! let aggs = Aggs::new(Vec::from_slice(alloc, &[Agg::Count, Agg::Sum(1)])?);
//! let mut state = GroupState::new(alloc, keys, aggs);
//! for row in &rows {
//!     state.feed(row)?;
//! }
//! let found = state.finish(alloc)?;
//! ```
//!
//! Of the rows 5 `a`, 1 `b`, 2 `a` and 4 `b`, `found.rows` are `a` 2 7 and `b` 2 5, and `found.refused` has none. With
//! 9223372036854775807 for 5 the sum of `a` would leave 64 bits: then `found.rows` is `b` 2 5, and `found.refused` is
//! `a`.
#![tactic(auto)]

mod finish;
mod groups;
mod last_row;
mod lines;
mod running;
mod several;
pub mod state;
mod totals;
mod undoing;

pub use finish::Grouped;
pub use lines::TakenLine;
pub use state::GroupState;
pub use std::alloc::AllocError as NoMemory;
pub use undoing::Taken;
