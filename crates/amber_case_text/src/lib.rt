//! Cases as texts: what a call is to be tried on, and what is expected of it, read from lines that a
//! person writes.
//!
//! `docs/ADDING_CASES.md` has the format. A `Reader` reads the cases of one file after another, a
//! `CaseText` is a text of a case, and `compare_answer` and `compare_bytes` say what differs first.
//!
//! # Example
//!
//! A file of cases is read, and an output is compared with the one that is expected:
//!
//! ```rust
//! let mut reader = Reader::new(alloc);
//! match reader.read("case nothing is asked for\n  words\n  status 1\n  out\n    | error 1 usage\n") {
//!     Ok(cases) => println!(rt; "{} case", cases.len())?,
//!     Err(broken) => println!(rt; "{broken}")?,
//! }
//! if let Err(line) = compare_bytes(b"rows 1\nn\n2\n", b"rows 1\nn\n3\n") {
//!     println!(rt; "line {} differs", line.line)?;
//! }
//! ```
//!
//! It prints `1 case` and `line 3 differs`: `line.wanted` is `2` and `line.found` is `3`, each with its line feed.
#![tactic(auto)]

pub use case::{After, Case, Left, NamedText};
pub use case_text::{CaseText, Piece};
pub use compare::{Difference, LineDifference, compare_answer, compare_bytes};
pub use fault::{Broken, Why};
pub use reader::Reader;
pub use std::alloc::AllocError as NoMemory;

mod case;
mod case_text;
mod compare;
mod escapes;
mod fault;
mod filling;
mod fronts;
mod names;
mod numbers;
mod open;
mod reader;
mod sums;
