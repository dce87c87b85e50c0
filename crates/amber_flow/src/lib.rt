//! Reads a workflow from JSON.
//!
//! A workflow is a JSON object with a list of operators. The definition `workflow_of` in `specs/` says
//! which workflow a byte list means, or the first reason why it means none.
//!
//! # Example
//!
//! The filter of this workflow asks for a column that its input does not give:
//!
//! ```rust
//! let text = r#"{"operators": [
//!   {"id": "orders", "kind": "scan", "file": "orders.csv", "columns": [["order", "int"], ["days", "int"]]},
//!   {"id": "late", "kind": "filter", "input": "orders", "column": "weeks", "op": ">", "constant": 7},
//!   {"id": "answer", "kind": "sink", "input": "late"}]}"#;
//! match read_flow(alloc, text.as_bytes()) {
//!     Ok(flow) => println!(rt; "{} operators", flow.get().len())?,
//!     Err(FlowErr::Bad { op, why }) => println!(rt; "error 2 flow {op} {why}")?,
//!     Err(FlowErr::NoMemory) => println!(rt; "error 10 memory")?,
//! }
//! ```
//!
//! prints `error 2 flow 2 Column`, and with `days` in the place of `weeks` `3 operators`.
#![tactic(auto)]

mod aggregates;
mod columns;
mod error;
mod fields;
mod filter;
mod group;
mod head;
mod inputs;
mod join;
mod names;
mod operator;
mod parts;
mod project;
mod read;
mod readers;
mod scan;
mod sink;

pub use error::{FlowErr, FlowWhy};
pub use read::read_flow;
