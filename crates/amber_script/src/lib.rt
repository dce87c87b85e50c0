//! Reads a script: the commands to a run, one a line.
//!
//! The definition `script_of` in `specs/` says which commands a text means for a workflow, or which line
//! is its first bad one and why; `said_by` says what one line means.
//!
//! # Example
//!
//! `f` is a filter, operator 2, and `s` the sink of the workflow. A line is read:
//!
//! ```rust
//! match read_line(alloc, line, &flow)? {
//!     ScriptLine::Skipped => println!(rt; "nothing")?,
//!     ScriptLine::Command(_) => println!(rt; "a command")?,
//!     ScriptLine::Bad(why) => println!(rt; "{why}")?,
//! }
//! ```
//!
//! For `pause "f" 2` the command is `Command::Pause { op: 2, n: 2 }`; for `# run` it prints `nothing`, and for
//! `pause s 0` it prints `Kind`, since a sink emits no rows. `read_script` reads all lines: of `run`, a blank line and
//! `pause s 0` it gives `ScriptErr::Bad { line: 3, why: ScriptWhy::Kind }`.
#![tactic(auto)]

mod columns;
mod commands;
mod error;
pub mod laws;
mod lexer;
pub mod lines;
pub mod numbers;
mod operators;
mod place;
mod read;
mod script_line;

pub use error::{ScriptErr, ScriptWhy};
pub use read::{read_line, read_script};
pub use script_line::ScriptLine;
pub use std::alloc::AllocError as NoMemory;
