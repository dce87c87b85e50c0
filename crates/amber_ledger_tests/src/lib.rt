//! Tests of the ledger and of its principal: units that go round, also beside other threads, and the worked divisions.
//!
//! They stand above both, so that neither is proved a second time for them.
#![tactic(auto)]

#[cfg(test)]
mod board;
#[cfg(test)]
mod principal;
#[cfg(test)]
mod seats;
