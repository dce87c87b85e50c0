//! A worker: one of those that run an operator of a workflow.
//!
//! A worker takes the batches that its senders have made for it, or the records of its share, and
//! the rows of these one after the other; what a row yields is pending, and goes row by row into
//! the link of the receiver to which it is routed. It writes down what it does in a journal. In
//! each step what needs memory comes first and changes nothing that is seen.
//!
//! Rows that it is done with go back to those that sent them, and those that come back are written over:
//! a scan types over them, and a projection and a join write theirs over them. What they hold means
//! nothing, so nothing is said of them.
//!
//! A worker of a join takes all batches of its build side before the first of its probe side. One
//! of a group makes the rows of its groups pending in the very step that takes the last row, or an
//! empty last batch.
//!
//! Before a turn it may be told to pause, to claim what was allotted to it of its operator's count, or to give its units
//! back. A row that meets the condition in force holds it, and where a count is armed a row is emitted with a unit in hand,
//! which is counted. `drive` makes many turns, each after a look into a mail, and sends between them.
//!
//! What a worker keeps is seen as a `WorkerState`, lists, numbers and flags. Wherever it stands
//! after a call, its journal leads there by the rules of a run: `specs/AtPosition.antt` says what
//! it is for a worker to stand at a position.
//!
//! # Example
//!
//! To a filter that passes all rows 400 rows were sent, as a full batch, and then the last batch, which has no row.
//! `answers` are nothing, nothing and a pause:
//!
//! ```rust
//! let mut mail = PlannedMail::new(Plan::new(answers));
//! let drove = filter.drive(None, &mut mail, &OpenGate, 1000)?;
//! assert!(rt; drove.turns == 3 && drove.last == Some(Turn::Paused));
//! filter.begin();
//! let drove = filter.drive(None, &mut SilentMail::new(), &OpenGate, 1000)?;
//! assert!(rt; drove.turns == 802 && drove.last == Some(Turn::Ended));
//! ```
//!
//! In the first drive it takes the batch (`t 0 0`), takes a row (`g 1 0`), and is paused (`p`): 399 rows are left and
//! one is pending. In the next leg it emits that one and takes and emits the others (`g 399 400`), takes the last batch
//! (`t 0 1`), and finishes (`f`).
#![tactic(auto)]

mod counting;
pub mod driving;
mod emitting;
mod flags;
pub mod given;
mod holding;
mod journal;
mod line_judging;
mod links;
mod new_worker;
pub mod redoing;
mod redone_made;
mod redone_rows;
pub mod route;
pub mod turn;
mod view_parts;
pub mod worker;

pub use driving::Drove;
pub use given::Given;
pub use redoing::{Armed, Redone};
pub use route::Route;
pub use std::alloc::AllocError as NoMemory;
pub use turn::Turn;
pub use worker::{Worker, settle_workers};
