//! The texts that a run prints.
//!
//! What each text is stands in `specs/Texts.antt` of `amber_meaning`; every line ends with a line feed.
//!
//! # Example
//!
//! The second operator of `flow` is the filter `late`. A count is asked for there, and then a run stops at it:
//!
//! ```rust
//! let count = Command::Count { op: 2, n: 1000 };
//! let asked = ok_line(alloc, &flow, &count, None)?;
//! assert_eq!(rt; asked.get(), b"ok break count late 1000\n".as_slice());
//!
//! let mut stops = Vec::new(alloc);
//! stops.push(Stop::Count { op: 2, target: 1000 })?;
//! stops.push(Stop::End)?;
//! let stopped = stop_lines(alloc, &flow, &Stops::new(stops))?;
//! assert_eq!(rt; stopped.get(), b"stop count late 1000\nstop end\n".as_slice());
//! ```
//!
//! The second line of `stopped` says that all workers have finished too.
#![tactic(auto)]

pub mod answer_text;
mod conditions;
pub mod inspect;
pub mod ok;
pub mod script;
pub mod stops;
mod words;

pub use answer_text::answer_lines;
pub use inspect::inspect_lines;
pub use ok::ok_line;
pub use script::push_script_line;
pub use std::alloc::AllocError as NoMemory;
pub use stops::stop_lines;
