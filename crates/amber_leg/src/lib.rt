//! Legs of a run, driven in rounds of workers that make their turns side by side on threads.
//!
//! A leg goes from one command to run to the stop behind it, or to the end. `leg` opens it at a
//! home, and then there are rounds. In a round all workers leave the home and are dealt among as
//! many drivers as there are threads: those that made the most steps in the round before come
//! first, each to the driver that has the least so far, and in the first round each driver has
//! its turn. Each driver goes round its workers, a slice of turns of each, on a thread of its
//! own. Then the workers come back, what they have sent is settled, and the home says whether a
//! stop stands. Where none does it makes one step by itself, so that each round gets on. In the
//! end the leg stands in the home's log.
//!
//! Where a count or a condition is in force, or a pause may come due in the round, a coordinator is
//! beside the workers. It hears what they note, has all of them paused as soon as a stop is seen,
//! and has the units of a count divided among those that need some. It has its turns on the thread
//! of the last driver, one behind each slice of that driver's workers. Where there is one thread
//! the round ends as soon as all would be paused, so that such a run is the same whenever it is
//! made. What it hears are hints: whatever it hears, the chief of each board leads it still, with
//! no unit in hand.
//!
//! Whatever the threads, the gate and the schedule: the log stays legal, a leg is closed as cut
//! exactly where a stop stands, or to the end where all have finished, and as too long exactly
//! where the run has made as many steps as it may and that is not so. An operator goes past a pause
//! by 1,024 rows a worker at most, which is a round in which one may come due; a count stands at
//! exactly its target. At home no more steps are made than each worker is driven for turns, but for
//! as many as there are workers; and the steps of a leg are no more than those made at home and the
//! turns of all workers together.
//!
//! # Example
//!
//! A scan of the numbers 2, 1 and 3, a filter of those from 2 on and a sink go to their end on two threads:
//!
//! ```rust
//! let mut home = Home::new(&rt, alloc, flow, files, 400, 1000, 1)?;
//! leg(&rt, alloc, &mut home, true, 2, &OpenGate)?;
//! assert_eq!(rt; home.steps(), 18);
//! assert_eq!(rt; home.log().items.get().len(), 1);
//! ```
//!
//! Then the log has one leg, which ends in `cut`, and all three workers have finished. Of four scans, four filters and
//! a sink on four threads each driver would get in the first round a scan and the filter behind it, and the first one
//! the sink as well.
#![tactic(auto)]

mod alternating;
mod beside;
mod budget;
mod coordinator;
mod desk;
mod dividing;
mod done;
mod driver;
mod drivers;
pub mod error;
mod known;
mod leading;
mod legs;
mod looking;
mod nearness;
mod owners;
mod pause_mail;
mod round;
mod rounds;
mod shared;
mod signals;
mod slices;
mod watch;

pub use error::LegErr;
pub use legs::leg;
pub use std::alloc::AllocError as NoMemory;
