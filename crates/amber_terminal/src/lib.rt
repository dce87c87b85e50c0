//! What is told at a terminal, on the standard error beside the output: what a refusal means, and which operators there are. Where
//! there is no terminal nothing is told, and the output is the same bytes.
//!
//! A refusal is one line: `error 2 flow 1 Header` ends a call, `refused 3 Operator` answers a line of a session. Its last word
//! is for programs. `sentence_of` has the sentence for people: of the first that the file of a scan does not begin with the
//! names of the scan's columns. `TerminalSink` is a sink, such as the standard output,
//! beside which a `Screen` tells it.
//!
//! # Example
//!
//! A refusal is put into the standard output, at a terminal:
//!
//! ```rust
//! let sentence = sentence_of(b"refused 3 Operator\n");
//! assert!(rt; sentence == Some("There is no operator with this id."));
//! assert!(rt; sentence_of(b"rows 3\n").is_none());
//! let screen = Screen::new(&rt, true, None);
//! let mut out = TerminalSink::new(RealSink::new(&rt), &screen);
//! out.put(b"refused 3 Operator\n")?;
//! ```
//!
//! Then the line stands on the standard output, and that sentence after it on the standard error. To `rows 3` nothing
//! is told, since that line refuses nothing. With `false` for `true`, where there is no terminal, no sentence is told.
#![tactic(auto)]

mod screen;
mod sentences;
mod sink;
#[cfg(test)]
mod tests;

pub use screen::{Operators, Screen};
pub use sentences::{line_sentence, sentence_of, workflow_sentence};
pub use sink::TerminalSink;
