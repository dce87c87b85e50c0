//! Laws of runs, whatever their schedule: what a run answers, how many steps it makes, and where a count stops it.
//!
//! # Example
//!
//! Both sides of the laws, computed on one log in `proofs/Example.antt`, without the `unfolding` lines:
//!
//! ```text
//! work : step_total query ≡ 26
//! work = refl
//!
//! steps : steps_in (state_after query items) ≡ 26
//! steps = refl
//!
//! plain : answer_text flow (answer_of flow (o_csv ∷ [])) ≡ answer
//! plain = refl
//!
//! printed : transcript_of query items ≡ lines (codes "ok pause o 2" ∷ codes "stop pause o 2 2" ∷ []) ++ answer
//! printed = refl
//! ```
//!
//! `flow` is a scan `o` and a group of its rows, with two workers each, and a sink. `items` are a pause of the scan
//! after 2 rows, the leg up to it, and the leg to the end. All workers have finished then, so the steps are those of
//! the query, and the last reply is the text of the sequential answer, whatever the order in which the workers moved.
#![tactic(auto)]

pub mod answer_laws;
pub mod counts;
pub mod steps;
