//! Tests that say by computing whether an entry, a leg or an item of a log may follow.
//!
//! What a legal log is stands in `amber_meaning`, as rules. Here each rule has a test that computes, with the law that it is true
//! exactly where the rule holds. So the first entry or item that may not follow can be found.
//!
//! # Example
//!
//! The tests computed on two logs, from `proofs/ExampleLegal.antt` and `proofs/ExampleRefusals.antt`, without their
//! `unfolding` lines:
//!
//! ```text
//! passes : may_reach (query_of (kept_from 0) 400) (start_of (kept_from 0)) counted_log ≡ true
//! passes = refl
//!
//! row_without_unit : IsRefused (log_with 0 3 4 2 0 close.Cut 2)
//! row_without_unit = refused_by_test _ refl
//! ```
//!
//! `kept_from 0` is a scan of five orders, a filter that passes all of them, and a sink. `counted_log` stops at a count
//! of 3 rows at the filter, and goes to the end. In the second log the filter emits a fourth row with three units, so
//! the test is false (`refl`), and by the law the log is not legal (`refused_by_test`).
#![tactic(auto)]

pub mod laws;
