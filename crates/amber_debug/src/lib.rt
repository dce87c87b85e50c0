//! The debugger of a run: one command after another, each with its item in the log and its reply.
//!
//! # Example
//!
//! A run of a scan, a filter and a sink over four records is stopped after one row of the filter, which is operator 2:
//!
//! ```rust
//! let mut debugger = Debugger::start(&rt, alloc, flow, files, 400, 1, 1 << 40)?;
//! let commands = [
//!     Command::Count { op: 2, n: 1 },
//!     Command::Run,
//!     Command::Inspect { op: 2 },
//!     Command::End,
//! ];
//! for command in commands.iter() {
//!     let done = debugger.command(&rt, alloc, command, &OpenGate)?;
//!     log.extend_from_slice(done.item.get())?;
//!     printed.extend_from_slice(done.reply.get())?;
//! }
//! ```
//!
//! Then `printed` begins with `ok break count late 1\nstop count late 1\ninspect late filter\n` and ends with the answer,
//! and `log` has the text of four items: `do count 2 1\n`, the leg up to the stop, `do inspect 2\n`, and the leg to the end.
//! `debugger.log()` has the same four. Its caller writes an item before it prints the reply. After `Command::End` no command
//! may follow.
#![tactic(auto)]

pub mod debugger;
pub mod done;

pub use amber_home::HomeErr;
pub use debugger::Debugger;
pub use done::{DebugErr, Done};
pub use std::alloc::AllocError as NoMemory;
