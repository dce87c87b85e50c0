//! Links: what one worker sends to others through rings, from the rows that it emits to the batches that the other takes.
//!
//! A link has two ends. Into an `Out` rows are pushed, which it cuts into batches of one size, numbered from 0. A full
//! batch waits in its outbox until it is sent through a ring; at the end the rows that are left are the last batch, even
//! where there are none. Of an `In` batches are taken, in their order: those in its inbox, then those in the ring. `settle`
//! moves all that was made into the inbox, for whoever holds both ends.
//!
//! The batches that were taken, those in the inbox, in the ring and in the outbox, one after the other, are
//! the pieces of the rows that were pushed. After `reserve` as many pushes, and an end, need no memory. Where
//! memory runs out, nothing is lost or out of order.
//!
//! Each link has a way back, a second ring, by which a receiver gives back the lists of rows that it is done with, for
//! the sender to write over. What they hold means nothing: no contract speaks of it, a full ring drops them, and no call
//! wants memory because of them.
//!
//! A worker keeps an `Upstream` of each worker that sends to it, and a `Downstream` of each to which it
//! sends. An `Upstream` of the probe side of a join gives a batch only once the last batches of all of the
//! build side were taken.
//!
//! # Example
//!
//! Three rows go through a link whose batches have two rows:
//!
//! ```rust
//! let (mut out, mut into) = link(alloc, 2)?;
//! out.reserve(3)?;
//! for row in rows {
//!     out.push_reserved(row);
//! }
//! out.end_reserved();
//! assert!(rt; out.send() == Sent::All);
//! let first = into.take();
//! let second = into.take();
//! ```
//!
//! Then `first` is the batch with the `seq` 0, which has the first two rows, and `second` that with the `seq` 1, which
//! has the third and is the last. `CALLING.md` shows a caller.
#![tactic(auto)]

pub mod back;
pub mod downstreams;
pub mod ends;
pub mod outbox;
pub mod settling_places;
pub mod upstreams;

pub use downstreams::{
    Downstream, end_all, has_receiver, place_to, push_at, reserve_at, reserve_each, reserve_ends,
    reserve_rows, send_all, take_back, trade_back, waiting_at,
};
pub use ends::{In, Out, Sent, link, settle};
pub use outbox::Outbox;
pub use settling_places::settle_at;
pub use std::alloc::AllocError as NoMemory;
pub use upstreams::{
    Found, Upstream, give_back, have_built, have_ended, is_empty_at, next_place, place_of,
    ready_place, take_at,
};
