//! Mail: what a coordinator tells a worker between two rows, what the worker says to it, and the
//! gate that each turn passes.
//!
//! A worker looks once before each turn, at something that is a `Mail`. A look is counted, and so
//! is each that was answered by a pause: of a worker that makes at most a step for each look the
//! counts say how far it may have gone. A mail may tell its plan, the answers of all looks in
//! order; then each answer is known. A mail says whether its looks may be answered by a claim or a
//! return (`may_deal`): where they may not no turn deals with units, and is compiled without. What a
//! worker notes is a hint: no clause rests on its truth, and it is dropped where there is no room.
//!
//! | A mail | Its looks answer | Its plan |
//! |---|---|---|
//! | `RingMail` | what was pushed at its `Post`, by another thread too | is not told |
//! | `PlannedMail` | what its `Plan` says, and then nothing | is that `Plan` |
//! | `SilentMail` | nothing | is empty |
//!
//! A turn passes a `Gate`, which promises nothing: it may hold a thread for a while. `OpenGate`
//! holds none, and `MeetGate` lets a test have two threads meet.
//!
//! # Example
//!
//! A coordinator has the one end, `post`, and a worker the other:
//!
//! ```rust
//! let (mut post, mut mail) = mail_rings(alloc)?;
//! assert!(rt; post.push(Control::Claim).is_ok() && post.push(Control::Pause).is_ok());
//! assert!(rt; mail.look() == Some(Control::Claim));
//! assert!(rt; mail.look() == Some(Control::Pause));
//! assert!(rt; mail.look() == None);
//! mail.note(Note::Held);
//! assert!(rt; post.hear() == Some(Note::Held) && post.hear() == None);
//! ```
//!
//! Three looks were made, of which one was answered by a pause. Had the coordinator pushed 65 controls before the first
//! look, the last would have been handed back, since a ring has 64 slots.
#![tactic(auto)]

mod gate;
mod mail;
mod plan;
mod rings;
#[cfg(test)]
mod tests;

pub use gate::{Gate, MeetGate, OpenGate};
pub use mail::{Control, Mail, Note, is_pause};
pub use plan::{Plan, PlannedMail, SilentMail};
pub use rings::{Post, RingMail, mail_rings};
