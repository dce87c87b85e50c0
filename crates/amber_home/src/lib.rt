//! The home of a run: all of its workers at rest, with the log of what was done.
//!
//! A home keeps its log legal, and while a run can go on its workers stand where the log says, whatever
//! commands were given. It runs nothing by itself but single steps: a leg is driven by whoever is above. That one
//! opens it (`open_leg`) and arms its counts (`arm_leg`); in the end it disarms them (`disarm_leg`) and closes
//! the leg (`close_leg`). Between these `home_step` makes one step, of the unfinished worker with the smallest
//! number. Or the workers are lent to whoever drives each of them by itself, and taken back (`lend`, `take_back`,
//! `settle`). Before that `feed` hands units of a count to one of its operator's workers, where it needs one and
//! has none, and after it `resume` lets those go on that were paused.
//!
//! # Example
//!
//! A scan of the numbers 2, 1 and 3, a filter of those from 2 on, which is operator 2, and a sink are to pause once the
//! filter has emitted a row; the leg up to that is made step by step:
//!
//! ```rust
//! let mut home = Home::new(&rt, alloc, flow, files, 400, 30, 1)?;
//! home.apply(alloc, &Command::Pause { op: 2, n: 1 })?;
//! home.open_leg(false);
//! home.arm_leg(alloc)?;
//! while home.stops(alloc)?.get().is_empty() {
//!     home.home_step()?;
//! }
//! home.disarm_leg();
//! home.close_leg(alloc, Close::Cut)?;
//! ```
//!
//! Then ten steps were made, seven of the scan and three of the filter. `home.log()` has the command and the leg,
//! `stops` gives that pause with one row, and the filter's pause is no longer in force.
#![tactic(auto)]

mod applying;
mod armed;
pub mod crew;
pub mod error;
mod feeding;
pub mod home;
mod in_force;
mod inspection;
mod leg_item;
pub mod phase;
mod stepping;
mod stopping;
mod stops;

pub use crew::Crew;
pub use error::HomeErr;
pub use home::Home;
pub use phase::{Counts, Phase};
pub use std::alloc::AllocError as NoMemory;
