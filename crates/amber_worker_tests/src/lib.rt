//! Tests of what computes, called by hand: workers which feed a group of four, or whose senders, two a side of a join, end in an
//! order of their own; workers that are told to pause, held before a row, and counted, also each against a judge under many plans;
//! a worker that another thread drives; and links with both ends in one hand. No call above a worker shows these, since a home lets
//! its workers work in one order and tells them nothing.
//!
//! They stand beside the tests of the crates below, so that both are proved side by side.
#![tactic(auto)]

#[cfg(test)]
mod both_ends;
#[cfg(test)]
mod counted;
#[cfg(test)]
mod driven;
#[cfg(test)]
mod ends;
#[cfg(test)]
mod expected;
#[cfg(test)]
mod fed;
#[cfg(test)]
mod held;
#[cfg(test)]
mod journals;
#[cfg(test)]
mod judge;
#[cfg(test)]
mod keeping;
#[cfg(test)]
mod lines;
#[cfg(test)]
mod long_lines;
#[cfg(test)]
mod plans;
#[cfg(test)]
mod redone;
#[cfg(test)]
mod told;
#[cfg(test)]
mod workers;
