//! Tests of the crates below the top call: each public function once with ample memory, and what no call above
//! them can show. All else is a case in `amber_cases`.
//!
//! They stand together, so that none of those crates is proved a second time for its tests.
#![tactic(auto)]

#[cfg(test)]
mod expected;
#[cfg(test)]
mod flows;
#[cfg(test)]
mod folders;
#[cfg(test)]
mod groups;
#[cfg(test)]
mod joins;
#[cfg(test)]
mod keys;
#[cfg(test)]
mod memory;
#[cfg(test)]
mod ops;
#[cfg(test)]
mod plain;
#[cfg(test)]
mod real;
#[cfg(test)]
mod records;
#[cfg(test)]
mod report;
#[cfg(test)]
mod rooms;
#[cfg(test)]
mod routing;
#[cfg(test)]
mod rows;
#[cfg(test)]
mod scans;
#[cfg(test)]
mod script;
#[cfg(test)]
mod session;
#[cfg(test)]
mod sources;
#[cfg(test)]
mod written;
