//! Tests of the debugger: what a run to the end writes and replies, whatever the most steps are. And of its home, called by hand.
//!
//! They stand beside the tests of the crates below, so that both are proved side by side.
#![tactic(auto)]

#[cfg(test)]
mod away;
#[cfg(test)]
mod coordinated;
#[cfg(test)]
mod debug;
#[cfg(test)]
mod expected;
#[cfg(test)]
mod home;
#[cfg(test)]
mod home_calls;
#[cfg(test)]
mod journals;
#[cfg(test)]
mod lent;
#[cfg(test)]
mod query;
#[cfg(test)]
mod rebuilt;
#[cfg(test)]
mod side_by_side;
