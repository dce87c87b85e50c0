//! Scans: the typed records of a file, dealt to workers.
//!
//! The records of a file are found once, and the workers of a scan share them. Each record after the header has its
//! number in the file, from 1, and goes to the worker whose turn it is: of W workers, worker w gets the records w + 1,
//! w + 1 + W, and so on. What a worker has not taken yet is its share. A record is typed by the columns when the
//! worker takes it, or when it reads it ahead. A record that is no row goes along with its fault, so that no number is
//! missing.
//!
//! Typing takes memory. Where it is wanting nothing is taken, and the share stays as it was. What was read ahead can be
//! looked at while it is left, and is taken without memory.
//!
//! `specs/Shares.antt` says what a share is, over the whole list of typed records.
//!
//! # Example
//!
//! The file is `n\n7\nx\n8\n`, and `schema` has the column `n` of numbers. It is dealt to two workers:
//!
//! ```rust
//! let shares = deal(&rt, alloc, &file, &schema, 2, 1)?;
//! for mut share in shares {
//!     for _ in 0..share.left() {
//!         if let Some(one) = share.next(None)? {
//!             println!(rt; "{} {}", one.number, one.what.is_ok())?;
//!         }
//!     }
//! }
//! ```
//!
//! It prints `1 true` and `3 true`, which are the rows of 7 and of 8, and for the second worker `2 false`: the fault
//! that its first field is no number. A file that begins with `m` would be refused: `ScanErr::Header`.
#![tactic(auto)]

mod dealing;
pub mod share;

pub use dealing::{ScanErr, deal, deal_checked};
pub use share::{Scanned, Share};
pub use std::alloc::AllocError as NoMemory;
