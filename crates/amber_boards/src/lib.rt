//! The units of counts: for each operator whose count is in force a board, on which each of its workers has a seat.
//!
//! Workers of an operator that counts emit a row only with a unit in hand. `Boards` makes a board for each count, with as
//! many units as rows are left to its target, and arms the workers on it; hands the units that are left to a worker that
//! needs one; and disarms the workers and closes the boards. A closed board has had no more units counted than it had, so
//! no count passes its target.
//!
//! # Example
//!
//! A count of 5 rows was put at a filter, operator 2, whose one worker has the number 1. It has emitted 3 rows since,
//! and its next row is pending; operator 1 has finished:
//!
//! ```rust
//! let counts = [None, Some(Target { target: 5, since: 0 }), None];
//! boards.arm(&counts, &mut dataflow)?;
//! boards.hand_out(&mut dataflow, 1)?;
//! dataflow.step(1, boards.board_at(2))?;
//! boards.disarm(&mut dataflow);
//! ```
//!
//! Then `arm` has made a board with 2 units, `hand_out` has granted both to the worker, and in the step it emitted the
//! row with one of them. `disarm` has journaled the other as given back, and no board is left.
#![tactic(auto)]

pub mod boards;
mod counter;
pub mod lent;
pub mod target;

pub use boards::Boards;
pub use lent::LentBoards;
pub use std::alloc::AllocError as NoMemory;
pub use target::Target;
