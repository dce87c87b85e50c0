//! The log of a run, as it is written: `Recorder` makes it, and does the commands of a debugger, each of which has its
//! item written before its reply is put.
//!
//! The definitions in `specs/Recording.antt` say what a command leaves in the log's file and in the sink, also where it
//! fails. They know nothing of what is to be done: a script, or lines that come one after another.
//!
//! # Example
//!
//! The filter `late` of a workflow is operator 2. A count is put there, and then the run goes to its end:
//!
//! ```rust
//! let mut debugger = Debugger::start(&rt, alloc, flow, files, 400, 1, 1 << 40)?;
//! let mut outside = FolderAndSink::new(&mut folder, &mut out);
//! let mut recorder = Recorder::new(&rt, alloc, "run.log", &mut outside, &OpenGate);
//! recorder.create_log(400)?;
//! recorder.do_command(&mut debugger, &Command::Count { op: 2, n: 1000 })?;
//! let rows = recorder.do_command(&mut debugger, &Command::End)?;
//! ```
//!
//! Then the file `run.log` begins with `amber 1 400`, `do count 2 1000` and `end`, a line each, and has the leg after
//! them. The sink has got `ok break count late 1000` and the answer, whose rows are in `rows`.
#![tactic(auto)]

pub use recorder::Recorder;

mod recorder;
