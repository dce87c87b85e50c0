//! The answer of a query, computed: `plain` gives the sequential answer that `amber_meaning` states, and
//! `plain_checked` the same over files whose headers were checked before.
//!
//! The operators are evaluated one after the other, and rows wait until they have to be read: filters,
//! projections and the probe side of a join only note what is to be done with a row. Where a list is asked
//! for, as for the build side of a join or the sink, or a group is fed, the rows are read from their source,
//! and each goes by itself through the stages that wait, before the next one is read. A file without a double
//! quote is read as its lines, by `amber_cut`, and any other by `csv`.
//!
//! # Example
//!
//! A workflow of a scan of `orders.csv`, which has the columns `order` and `days`, a filter of more than 7 days, and a
//! sink; `files` has the one file `order,days\n1,9\n2,x\n3,2\n4,12\n`:
//!
//! ```rust
//! match plain(alloc, &flow, &files, 1_000_000) {
//!     Ok(answer) => {
//!         assert_eq!(rt; answer.rows.get().len(), 2);
//!         assert_eq!(rt; answer.refused.get().len(), 1);
//!     }
//!     Err(PlainErr::Header(op)) => println!(rt; "error 2 flow {op} Header")?,
//!     Err(PlainErr::Long) => println!(rt; "error 8 long")?,
//!     Err(PlainErr::NoMemory) => println!(rt; "error 10 memory")?,
//! }
//! ```
//!
//! The rows are orders 1 and 4, and the refusal is record 2, whose second field is no number. The operators give 7 rows
//! together, 3, 2 and 2, so with 6 in the place of 1,000,000 the answer would be `Long`. A file that begins with
//! `order,day` has the wrong header: `Header(1)`.
#![tactic(auto)]

mod answering;
mod chain;
mod drain;
mod evaluator;
mod grouping;
mod holder;
mod limit;
mod scan;
mod stage;
mod unread;

pub use answering::{plain, plain_checked};
pub use limit::LimitErr;
pub use std::alloc::AllocError as NoMemory;
