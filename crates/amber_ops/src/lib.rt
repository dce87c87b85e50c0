//! The states of operators: what a worker keeps of a filter, a projection and a sink between two rows.
//!
//! A worker is fed one row after the other. Each state here stands for something that a reader of a workflow
//! knows: a filter's is its condition, a projection's is its list of columns, and a sink's is the list of the
//! rows that it was fed. The contracts see just that, and say what each row gives in the words of the list
//! functions of `amber_rows`: over any rows, a filter gives those for which its condition held as each was fed,
//! a projection gives the cells of its columns of each row, and a sink gives all of them, sorted.
//!
//! A row is moved where it has one reader. Where memory runs out, the state is as before the call.
//!
//! # Example
//!
//! A filter of the rows whose second cell is 2 or more is given another constant on the way:
//!
//! ```rust
//! let mut filter = FilterState::new(Cond {
//!     column: 2,
//!     op: Cmp::Ge,
//!     constant: Value::Int(2),
//! });
//! let first = filter.feed(row);
//! filter.set(Value::Int(3));
//! let second = filter.feed(other);
//! ```
//!
//! Where `row` and `other` are both `c` 2, `first` is that row, and `second` is `None`. A sink that was fed the rows 2
//! `b`, `a`, 2 `b` and -7 gives by `sorted` -7, 2 `b`, 2 `b` and `a`.
#![tactic(auto)]

pub mod filter;
pub mod project;
pub mod sink;

pub use filter::FilterState;
pub use project::ProjectState;
pub use sink::SinkState;
pub use std::alloc::AllocError as NoMemory;
