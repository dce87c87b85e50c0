//! A log judged line by line: legal beginnings, the illegal line, an open leg that grows.
//!
//! A legal log is defined over whole legs. To replay a log, to repair one or to make one entry by entry the
//! same is needed of a beginning that ends at any line. The definitions stand in `specs/`; the laws tie them
//! to legal logs.
//!
//! # Example
//!
//! The illegal line of the log that a text reads as, computed in `proofs/ExampleChanges.antt`, without the `unfolding`
//! lines:
//!
//! ```text
//! the_example_is_legal : judged_text query example ≡ Ok None
//! the_example_is_legal = refl
//!
//! only_a_finished_sender_has_its_last_batch : judged_text query (without_line 6 example) ≡ Ok (Some 7)
//! only_a_finished_sender_has_its_last_batch = refl
//! ```
//!
//! In `example` a scan reads five rows, and a filter takes them as a batch. Without its line 6, the `f` of the scan,
//! the scan has not finished and has made no batch, so the line that is then the seventh, `t 0 0`, is illegal: with it
//! the lines begin no legal log.
#![tactic(auto)]

pub mod lines;
pub mod moving;
pub mod stops;
