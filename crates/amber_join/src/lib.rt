//! The state of a join: what a worker keeps of the build side, and what each probe row gives.
//!
//! A join is fed its build rows first, one after the other. Once it is sealed it is probed: each probe row gives
//! that row followed by each build row whose keys equal its own, in the order in which the build rows came. The
//! state is seen as just that: the columns of both sides, the list of build rows, and whether it is sealed; the
//! contracts say what a probe gives in the words of the list function of `amber_rows`.
//!
//! A build row that was staged can be taken out again, the last one first. This takes no memory, so
//! a step that took in a row can be undone whatever happens after it. `stage_all` does so with
//! several rows of a list, all or none, and `unstage_all` puts them back there.
//!
//! Inside is a hashed table from each key to the places of its rows, so a build row costs one look-up, and a probe
//! row one look-up and its matches. No contract speaks of the table. Where memory runs out, the state is as before.
//!
//! # Example
//!
//! Rows are joined by column 1 of both sides. The build rows are 7 `x`, 8 `y`, 7 `z` and 7 `x`:
//!
//! ```rust
//! let mut state = JoinState::new(alloc, build_keys, probe_keys);
//! for row in build {
//!     if state.build(row).is_err() {
//!         return Err(NoMemory);
//!     }
//! }
//! state.seal();
//! let found = state.probe(alloc, &row)?;
//! ```
//!
//! Where `row` is 7, `found` has three rows: 7 7 `x`, 7 7 `z` and 7 7 `x`, in the order of the build rows. Where it is
//! 9 it has none. `state.rows()` is 4, and `state.keys()` is 2.
#![tactic(auto)]

mod matches;
pub mod places;
pub mod several;
pub mod state;

pub use several::{Moved, stage_all, unstage_all};
pub use state::{JoinState, Staged};
pub use std::alloc::AllocError as NoMemory;
