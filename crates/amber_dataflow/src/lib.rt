//! All workers of a run, with the workflow that they carry out.
//!
//! A `Dataflow` makes the workers of a workflow, links them and deals the records of the files to those that
//! scan. The files were checked: each begins with the names of its columns. From then on they stand where the
//! definitions say, whatever calls follow: each one's journal leads to its position, and all that a worker
//! has made is with those to whom it sends. It makes turns, one worker at a time; who makes how many and when
//! to stop is for its caller.
//!
//! Where memory runs out within a step the workers are dropped, and none is left.
//!
//! # Example
//!
//! A scan of five records, a filter that passes three of them and a sink, with one worker each, go to their end step by
//! step:
//!
//! ```rust
//! let mut dataflow = Dataflow::new(&rt, alloc, flow, &files, 400, 1)?;
//! dataflow.begin(true);
//! while !dataflow.have_all_finished() {
//!     let worker = dataflow.first_unfinished();
//!     dataflow.step(worker, None)?;
//! }
//! assert!(rt; dataflow.steps() == 26 && dataflow.rows_emitted(2) == 3);
//! let answer = dataflow.answer(alloc)?;
//! ```
//!
//! The scan makes eleven steps: each record is taken and emitted, and then it has finished. The filter makes ten: it
//! takes a batch and its five rows, and emits three. The sink makes five, and `answer` has the three rows, sorted.
#![tactic(auto)]

mod counts;
pub mod dataflow;
pub mod emptying;
mod gathering;
mod journals;
mod linking;
mod new_workers;
pub mod redoing;
mod setting;
mod settling;
mod shares;
mod stepping;
mod turning;
mod views;

pub use dataflow::Dataflow;
pub use emptying::empty_hands;
pub use redoing::{PartRedone, redo_entries};
pub use std::alloc::AllocError as NoMemory;
