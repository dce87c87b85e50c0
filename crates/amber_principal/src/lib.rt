//! The principal of an operator whose rows are counted: it divides the units of a ledger among the operator's workers, calls
//! back what nobody uses, and knows when the target is reached.
//!
//! The principal moves units by the chief's seat of an `amber_board` ledger. It takes part in no race: which units it finds
//! unassigned or unclaimed at a step depends on the workers, and what it then does with them is exact.
//!
//! # Example
//!
//! Five units for two workers, both of which are starved at first:
//!
//! ```rust
//! let (board, mut chief, mut seats) = Board::new(alloc, 5, 2)?;
//! let mut principal = Principal::new(2);
//! let mut needs = [Need::Absent; PLACES];
//! needs[0] = Need::Starved;
//! needs[1] = Need::Starved;
//! let order = principal.round(&mut chief, &board, &needs);
//! assert!(rt; order.seen == Seen::Open && order.claim[0] && order.claim[1]);
//! assert_eq!(rt; seats[0].claim(&board), 3);
//! ```
//!
//! The same five units round by round, where only the first worker has anything to do. Both get 3 and 2 at first. The
//! first counts its three and is starved again; the second still has its allotment, and is able to wait:
//!
//! | Needs | What `round` does | Answer |
//! |---|---|---|
//! | starved, starved | watches both, draws 5, grants 3 and 2 | both are to claim |
//! | starved, able | watches both (3 and 0), draws 0, sweeps the second's 2, grants 1 and 1 | both are to claim, the second is to give back |
//! | starved, able | watches both (4 and 0), draws 0, sweeps the second's 1, grants 1 to the first | the first is to claim, the second to give back |
//! | finished, able | watches both (5 and 0) | hit |
#![tactic(auto)]

mod dividing;
mod rounds;

pub use dividing::{Need, divide};
pub use rounds::{Order, Principal, Seen};

/// How many places there are for workers, also where there are fewer workers.
pub const PLACES: usize = 16;
