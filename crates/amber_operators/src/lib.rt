//! What an operator keeps, and what it does with the rows that it is handed.
//!
//! An `OperatorState` is of one of the kinds of operators, and has what this kind keeps: the condition of a filter, the build
//! side of a join, the groups of a group. The functions take the next row or record of what was handed (`Rest`), or many,
//! and put what comes of it where it goes (`Gains`): rows that go on are pending, records with a fault are refused, and a
//! sink keeps its rows for the answer. All that tells a kind from the others stands here, in `src/kinds.rt` and
//! `specs/States.antt`; who drives an operator does not ask which kind it is.
//!
//! Rows are taken in one of three ways. `take_next` takes the next one at once. `ready_next` does all of the taking that may
//! want memory, and `take_readied` or `leave_readied` then takes the row or leaves all as it was. `ready_rows` makes many
//! rows ready, so that they can be judged before `feed_rows` and `take_rows` take them; `feed_groups` feeds them to groups,
//! and `unfeed_groups` takes them out again. If memory runs out nothing changes that is seen.
//!
//! The contracts name what a row yields (`gives_if`), what is kept of it (`keeps_if`) and what is kept for the operator then
//! (`Becomes`), and what is given at the end (`Closes`).
//!
//! # Example
//!
//! A filter passes the rows whose number is above 2, and a batch has the rows 1 and 3:
//!
//! ```rust
//! let mut filter = operator_state_of(alloc, &What::Filter { input: 1, cond })?;
//! take_next(&mut rest, 2, &columns, false, false, &mut filter, &mut gains)?;
//! assert!(rt; gains.pending.is_empty());
//! take_next(&mut rest, 2, &columns, false, true, &mut filter, &mut gains)?;
//! assert!(rt; gains.pending.len() == 1 && rest.is_empty());
//! ```
#![tactic(auto)]

mod grouping;
mod joining;
pub mod kinds;
pub mod leaving;
pub mod letting_by;
pub mod operator_state;
pub mod pending;
pub mod readied;
pub mod readied_rows;
pub mod redone_groups;
pub mod redone_joins;
mod redone_records;
pub mod redone_rows;
pub mod taking_ready;
pub mod taking_rows;
pub mod used_rows;
pub mod yielding;

pub use kinds::{
    closing_of, extra_of, is_last, keys_into, operator_state_of, refused_keys, set_value, turn_to,
    yield_of,
};
pub use leaving::{leave_readied, take_readied};
pub use letting_by::{Gate, lets_pending_by, lets_rows_by};
pub use operator_state::OperatorState;
pub use pending::Pending;
pub use readied::{Readied, ready_next};
pub use readied_rows::{ReadiedRows, lets_ready_by, ready_rows};
pub use redone_groups::{Fed, feed_groups, unfeed_groups};
pub use redone_joins::MadeRows;
pub use redone_rows::{Fates, drop_all, join_rows, move_all};
pub use std::alloc::AllocError as NoMemory;
pub use taking_ready::{feed_rows, most_made, reserve_kept, take_rows};
pub use taking_rows::{Fate, Gains, Rest, close, closes_at, side_columns, take_next};
pub use used_rows::UsedRows;
pub use yielding::Yielded;

#[cfg(test)]
mod tests;
