//! Rows: the plain data of workflows, and what it means.
//!
//! A workflow moves rows of whole numbers and texts. This crate has those rows with their order and
//! their text, the reading of a scan's file into typed rows, conditions, and the workflow itself.
//! The definitions in `specs/` say what each of these means; whatever stands above names no more
//! than these words.
//!
//! # Example
//!
//! The columns of `schema` are `number` and `word`. A file's records are typed, sorted and written:
//!
//! ```rust
//! let mut reader = RecordReader::open(alloc, b"number,word\n20,\n-1,\"a,b\"\nx,c\n");
//! let mut fields = ByteRecord::new(alloc);
//! let mut rows = Vec::new(alloc);
//! while reader.next(&mut fields)? {
//!     if let Ok(row) = type_record(alloc, &fields, &schema)? {
//!         rows.push(row)?;
//!     }
//! }
//! sort(&mut rows);
//! let text = append_rows(alloc, Vec::new(alloc), &rows)?;
//! ```
//!
//! Then `text` is `-1,"a,b"` and `20,`, a line each. The first and the last record are no rows, since their first field
//! is no number: `type_record` answers `Err(RowFault::Int(1))` inside its `Ok`.
#![tactic(auto)]

pub mod agg;
pub mod batch;
pub mod column;
pub mod cond;
pub mod file_bytes;
pub mod flow;
pub mod header;
mod kinds;
pub mod order;
pub mod record;
pub mod record_reader;
pub mod record_writer;
pub mod reused_rows;
pub mod routing;
pub mod row;
pub mod schema_match;
mod short_text;
mod sort_key;
pub mod text;
pub mod topology;
pub mod value;

pub use agg::{Agg, Aggs};
pub use batch::Batch;
pub use column::{ColKind, Cols, Column, Schema};
pub use cond::{Cmp, Cond, holds};
pub use file_bytes::FileBytes;
pub use flow::{Files, Flow, Operator, What};
pub use header::{are_names, has_header};
pub use order::{compare, sort};
pub use record::{RowFault, read_int, type_record};
pub use record_reader::RecordReader;
pub use record_writer::{append_names, append_rows, row_text};
pub use reused_rows::{pick_over, put_cell, type_over};
pub use routing::{key_bytes, route, route_row};
pub use row::{Row, Rows};
pub use schema_match::suits;
pub use std::alloc::AllocError as NoMemory;
pub use text::{Bytes, Text};
pub use value::Value;
