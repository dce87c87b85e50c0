//! The course of a call, up to the job that it asks for: words are read, files are loaded and read, and the first refusal in
//! the order of work ends it, with its error line and its status.
//!
//! The definition `course_of` in `specs/Course.antt` says which refusal comes first, or which job is to be done, from the words
//! and the files alone; `session_course_of` in `specs/SessionCourse.antt` says so of a session, whose commands come later. Nothing
//! here runs a job or writes a file.
//!
//! # Example
//!
//! The words of a session are read, and its files are loaded. The folder has a workflow, `w.json`, and the file of its
//! one scan:
//!
//! ```rust
//! let mut outside = FolderAndSink::new(&mut folder, &mut out);
//! let words = read_session_words(alloc, words)?;
//! match prepare_session(alloc, words, &mut outside) {
//!     Ok(job) => println!(rt; "{} on {} by {}", job.log.get(), job.threads, job.batch_size)?,
//!     Err(failure) => return Ok(refuse(&mut outside, &failure)),
//! }
//! ```
//!
//! With the words `w.json`, `log`, `4` and `64` it prints `log on 4 by 64`. With `v.json` for `w.json`, which is not
//! there, `refuse` puts the line `error 4 read v.json` into `out` and answers `Status::ReadFault`. With `65` for `4`
//! the words are refused: `Failure::Usage`.
#![tactic(auto)]

pub mod failure;
pub mod input;
mod inputs;
pub mod job;
mod line;
mod loading;
pub mod log;
mod log_name;
pub mod preparing;
pub mod refusal;
mod scans;
pub mod script;
pub mod session;
pub mod status;
mod strange;
pub mod words;

pub use amber_script::ScriptWhy;
pub use failure::{Failure, LogWhy, Reason};
pub use input::{InputFault, refuse_input};
pub use inputs::Inputs;
pub use job::{Job, RecoverJob, ReplayJob, RunJob};
pub use line::error_line;
pub use loading::{load, load_flow};
pub use log::{load_log, log_of};
pub use preparing::prepare;
pub use refusal::{put_output, put_reason_line, refuse};
pub use session::{SessionJob, SessionWords, prepare_session, read_session_words};
pub use status::Status;
pub use std::alloc::AllocError as NoMemory;
pub use strange::strange_line;
pub use words::{RecoverWords, ReplayWords, RunWords, Words, read_words};
