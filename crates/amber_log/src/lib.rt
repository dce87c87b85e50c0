//! Logs: the plain data of a debugged run's log, and what its text means.
//!
//! A log is a batch size and a list of items: the commands that were given and the legs that were run.
//! The definitions in `specs/` give the text of each item, the grammar of logs, and how a text is read.
//! The laws say that no item's text begins another's, that a text that was cut off anywhere reads as a
//! log with fewer items, and that reading fails exactly at the first line that cannot stand there.
//!
//! # Example
//!
//! A count is put at operator 2 of a workflow of a scan, a filter and a sink:
//!
//! ```rust
//! let command = Command::Count { op: 2, n: 3 };
//! assert!(rt; fits(&flow, &command));
//! let item = Item::Do(command);
//! assert_eq!(rt; item_length(&item), 1);
//! ```
//!
//! The item is the line `do count 2 3` of a log (`item_text`). With 3 for the operator, which is the sink, or with 0
//! rows, `fits` would answer false. A leg has more lines, as `run`, `w 0`, `g 5 5`, `f` and `cut`: `item_length` of
//! that one is 5.
#![tactic(auto)]

pub mod command;
pub mod command_text;
mod comparison_signs;
pub mod counting;
pub mod effect;
pub mod entry;
pub mod fitting;
pub mod laws;
pub mod leg;
pub mod lent;
pub mod line;
pub mod log;
pub mod reading;

pub use command::{Command, Commands};
pub use command_text::commands_have_text;
pub use comparison_signs::sign;
pub use counting::{item_length, leg_length, part_length};
pub use effect::{Action, Argument, Arming, Change, Effect, Reply};
pub use entry::{Entries, Entry};
pub use fitting::{fits, is_source};
pub use leg::{Close, Leg, Part, Parts};
pub use lent::{Lent, Word, Words};
pub use line::Line;
pub use log::{Item, Items, Log};
pub use reading::{Place, Reading};
