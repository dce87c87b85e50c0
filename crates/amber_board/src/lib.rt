//! A ledger that divides a target among workers, and conserves every unit.
//!
//! Some program wants its workers to do exactly `target` things between them, side by side, and to know the moment when all are
//! done. A shared counter cannot say how many things a worker may still do. A ledger can. It keeps units, of which there are always
//! `target`, and a worker does one thing for each unit that it has in its hand.
//!
//! Each unit is in one of four places:
//!
//! | Place | Who moves units there |
//! |---|---|
//! | unassigned | `put_back` of the chief, `give_back` of a worker |
//! | a worker's allotment | `grant` of the chief |
//! | a hand | `draw` and `sweep` of the chief, `claim` of a worker |
//! | a worker's count | `count` of the worker, and there it stays |
//!
//! A [`Board`] has the unassigned units, the allotments and the counts in words that any thread may step on. Threads step through
//! a `&Board` by seats: the [`ChiefSeat`] of the one who divides the units, and a [`WorkSeat`] for each worker. Every call of a seat
//! is one atomic step. It does not wait, does not try again and takes no memory.
//!
//! The conservation rule of the ledger (`Conserved` in `specs/Ledger.antt`) holds between any two steps, in whatever order the
//! threads make them: the unassigned units, the allotments, the counts and all hands add up to the target; a worker's count is
//! what its seat counted; and what the chief saw of a worker is at most what that worker counted. So once the counts that the
//! chief saw add up to the target, which is [`ChiefSeat::hit`], every unit is counted, though the workers were never stopped.
//!
//! Measured once, with one thread on a busy machine: a `claim` or a `count` took about 14 ns, where a plain atomic add took 11 ns.
//!
//! # Example
//!
//! Three units, all in the hand of the second of two workers, who counts one and gives the others back:
//!
//! ```rust
//! let (board, mut chief, mut seats) = Board::for_one(alloc, 3, 2, 1)?;
//! seats[1].count(&board);
//! seats[1].give_back(&board);
//! chief.draw(&board);
//! assert_eq!(rt; chief.hand(), 2);
//! chief.put_back(&board);
//! let totals = close(board, chief, seats);
//! assert!(rt; totals.unassigned == 2 && totals.counted == 1);
//! ```
//!
//! Five units for two workers, in the order in which the steps are made:
//!
//! | Step | Unassigned | Allotments | Counts | Chief's hand | Workers' hands |
//! |---|---|---|---|---|---|
//! | `Board::new(alloc, 5, 2)` | 5 | 0, 0 | 0, 0 | 0 | 0, 0 |
//! | `chief.draw(&board)` | 0 | 0, 0 | 0, 0 | 5 | 0, 0 |
//! | `chief.grant(&board, 0, 3)` | 0 | 3, 0 | 0, 0 | 2 | 0, 0 |
//! | `chief.grant(&board, 1, 2)` | 0 | 3, 2 | 0, 0 | 0 | 0, 0 |
//! | `first.claim(&board)` answers 3 | 0 | 0, 2 | 0, 0 | 0 | 3, 0 |
//! | `first.count(&board)`, three times | 0 | 0, 2 | 3, 0 | 0 | 0, 0 |
//! | `chief.sweep(&board, 1)` | 0 | 0, 0 | 3, 0 | 2 | 0, 0 |
//! | `chief.watch(&board, 0)` answers 3, and `hit` is false | 0 | 0, 0 | 3, 0 | 2 | 0, 0 |
//! | `chief.grant(&board, 0, 2)` | 0 | 2, 0 | 3, 0 | 0 | 0, 0 |
//! | `first.claim(&board)` answers 2 | 0 | 0, 0 | 3, 0 | 0 | 2, 0 |
//! | `first.count(&board)`, twice | 0 | 0, 0 | 5, 0 | 0 | 0, 0 |
//! | `chief.watch(&board, 0)` answers 5, and `hit` is true | 0 | 0, 0 | 5, 0 | 0 | 0, 0 |
//! | `second.claim(&board)` answers 0 | 0 | 0, 0 | 5, 0 | 0 | 0, 0 |
//!
//! `close(board, chief, seats)` then answers that 5 units were counted and none is left.
#![tactic(auto)]

mod board;
mod chief;
mod kinds;
pub mod laws;
mod rule;
mod types;
mod view;
mod words;
mod work;

pub use board::close;
pub use rule::Rule;
pub use types::{Board, ChiefSeat, Totals, WorkSeat};
pub use view::{Kept, Role, Step, Terms, View};

/// What a call answers where there was no memory.
pub type NoMemory = std::alloc::AllocError;

/// The most workers of one board.
pub const MOST_WORKERS: u32 = 16;

/// The largest target.
pub const LARGEST_TARGET: u64 = 1 << 40;
