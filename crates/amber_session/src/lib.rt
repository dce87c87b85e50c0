//! A session: the debugger as a stream of commands. Lines come piece by piece, and each is answered before the next is
//! read.
//!
//! The definitions in `specs/` say what is said to lines (`Talk`), what answering them leaves in the log and in the sink
//! (`Answers`), and what the calls of a session do (`Sessions`). `run_session` feeds a session from a source, from its first word to
//! its end (`Spoken`, `Running`).
//!
//! # Example
//!
//! Of a workflow `f` is the filter:
//!
//! ```rust
//! let mut session = Session::start(&rt, alloc, words, &mut folder)?;
//! session.feed(&rt, b"pau", &mut folder, &mut out, &OpenGate)?;
//! session.feed(&rt, b"se f 0\nrun\n", &mut folder, &mut out, &OpenGate)?;
//! session.finish(&rt, &mut folder, &mut out, &OpenGate)?;
//! ```
//!
//! Nothing comes of the first `feed`, since no line has ended. In the second `refused 1 Number` is said to the first
//! line, since a pause is of one row at least; for the second line the workers run, the item of that is written into
//! LOG, and the reply `stop end` is put. `finish` runs to the end and puts the answer.
#![tactic(auto)]

pub use amber_course::{Failure, InputFault, Status};
pub use halt::Halt;
pub use run::run_session;
pub use session::Session;
pub use start_err::StartErr;

mod answering;
mod dialogue;
mod halt;
mod input;
mod reading;
mod refusal;
mod run;
mod session;
mod start_err;
