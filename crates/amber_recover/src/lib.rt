//! A run that is recovered from its log: `rebuild` gives its home, `replay` its transcript, and `recover` both.
//!
//! The lines of the log are done again one after the other, each by the worker that wrote it, and each is judged before it
//! is done. So a log is recovered in one pass, whatever schedule it was written under, and one that no run can have written
//! is refused at its first illegal line.
//!
//! # Example
//!
//! A run of a scan, a filter and a sink was stopped after one row of the filter, which is operator 2, and cut off after that:
//!
//! ```rust
//! let log = read_log(alloc, bytes)?;
//! let printed = replay(&rt, alloc, flow, files, &log, 1 << 40, 4)?;
//! ```
//!
//! Then `printed` is `ok break count late 1\nstop count late 1\n`, as the run had printed it. `rebuild` with the same arguments
//! gives the home that rests where the run was cut off: a leg may be opened there, or a command done.
#![tactic(auto)]

mod copying;
mod counting;
pub mod error;
mod items;
mod parts;
pub mod rebuilding;
pub mod recovering;
pub mod replies;

pub use error::RebuildErr;
pub use rebuilding::rebuild_worker;
pub use recovering::{Recovered, rebuild, recover, replay};
pub use replies::reply_at_rest;
