//! The text of a log: what is appended to its file, item by item, and that file read back.
//!
//! The log is ASCII text in lines that end with a line feed. Every number is a decimal without leading
//! zeros, the words of a line have one space between each two, and each item has one spelling. The
//! definitions and the grammar stand in `amber_log`.
//!
//! # Example
//!
//! A log's file, of which the last write was torn:
//!
//! ```rust
//! let mut file = write_head(alloc, 400)?;
//! let item = write_item(alloc, &Item::Do(Command::Pause { op: 2, n: 3 }))?;
//! file.extend_from_slice(item.as_slice())?;
//! file.extend_from_slice(b"run\nw 0\ng 5")?;
//!
//! assert_eq!(rt; whole_items(file.as_slice()), 25);
//! let log = read_log(alloc, file.as_slice())?;
//! assert_eq!(rt; log.items.get().len(), 1);
//! ```
//!
//! The first 25 bytes are `amber 1 400\ndo pause 2 3\n`. The leg has no end, so it is not read. A number with a leading
//! zero, as in `do pause 2 03`, stands in no log: `read_log` then answers `LogErr::Text { line: 2 }`.
#![tactic(auto)]

mod command_lines;
mod commands;
mod constants;
mod legs;
mod lines;
mod log_reading;
mod numbers;
mod read;
mod splitting;
mod whole_prefix;
mod words;
mod write;

pub use read::{LogErr, read_log};
pub use std::alloc::AllocError as NoMemory;
pub use whole_prefix::whole_items;
pub use write::{write_command, write_head, write_item, write_items};
