//! What a query and a run mean.
//!
//! The sequential answer of a workflow over the files of its scans is stated over whole lists; `amber_plain` computes it.
//! What a legal log of a run is and leads to is stated too; the laws about it are in `laws`. Nothing here evaluates a
//! query.
//!
//! # Example
//!
//! Two definitions on literals, from `proofs/ExampleFiles.antt` and `proofs/ExampleSteps.antt`, without their
//! `unfolding` lines:
//!
//! ```text
//! mixed : answer_text straight (answer_of straight (mixed_csv ∷ []))
//!     ≡ lines (codes "refused record o 1 width" ∷ codes "refused record o 3 int 1" ∷ codes "rows 1"
//!         ∷ codes "id,item,qty" ∷ codes "7,nut,5" ∷ [])
//! mixed = refl
//!
//! kept_in_batches_of_400 : step_total (query_of (kept_from 7) 400) ≡ 26
//! kept_in_batches_of_400 = refl
//! ```
//!
//! `straight` is a scan `o` with the columns `id`, `item` and `qty`, and a sink, and the file `mixed_csv` has the
//! records `x,nut`, `+07,nut,5` and `a,nut,5` below its header: its first record has two fields, and the third has no
//! number as `id`. `kept_from 7` is a scan of five orders, a filter of those of 7 or more pieces, and a sink: a run of
//! it makes 26 steps.
#![tactic(auto)]

pub mod answer;
pub mod headers;
pub mod laws;
pub mod scan_files;
pub mod view;

pub use answer::{Answer, PlainErr, Refusal, Refusals};
pub use headers::wrong_header;
pub use scan_files::{file_after, shared_file_after};
pub use std::alloc::AllocError as NoMemory;
pub use view::{Counted, Extra, Inspected, Stand, Stop, Stops, Views, WorkerView};
