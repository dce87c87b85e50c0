//! The top call: `amber` does what its words say, over a folder of files and a sink for the output.
//!
//! The crate `amber_course` has the first refusal in the order of work, or the job to do. The definitions in `specs/` say what
//! comes of the job: `UnderWay` how far a run has come and what it leaves that ended early, and `Outcome` what each status
//! says and leaves. `AnsweredByChange` says that last in another way, and `laws` that the two are one.
//!
//! # Example
//!
//! The folder has the files `late.json`, `orders.csv` and `script`, whose lines are `break count late 1` and `run`:
//!
//! ```rust
//! let mut folder = MemFolder::new(alloc, files, no_fails(alloc));
//! let mut out = MemSink::new(alloc, no_fails(alloc));
//! let mut printed = Printed::new();
//! let mut words = Vec::new(alloc);
//! for word in ["run", "late.json", "script", "run.log", "1", "400"] {
//!     words.push(String::from_str(alloc, word)?)?;
//! }
//! let words = words.as_slice();
//! let status = amber(&rt, alloc, words, &mut folder, &mut out, &mut printed, &OpenGate);
//! assert_eq!(rt; status.code(), 0);
//! ```
//!
//! Then `out.bytes()` begins with `ok break count late 1\nstop count late 1\n` and ends with the answer, and
//! `folder.read("run.log")` is the log, which begins with `amber 1 400\ndo count 2 1\nrun\n`. `no_fails` makes a `Fails` whose
//! lists are empty. The program itself does the same over `RealFolder` and `RealSink`. `printed` keeps the rows of the answer.
#![tactic(auto)]

pub use amber_course::{
    Failure, Job, LogWhy, Reason, RecoverJob, RecoverWords, ReplayJob, ReplayWords, RunWords,
    ScriptWhy, Status, Words,
};
pub use call::amber;
pub use printed::Printed;

mod call;
mod job;
pub mod laws;
mod plain_job;
mod printed;
mod recover_job;
mod replay_job;
mod run_job;
