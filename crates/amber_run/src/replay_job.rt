//! The job of `replay`: a log is done again, and its transcript is printed.
//! Rests on `replay` of `amber_recover`.

ghost use Rattle.std.specs.Prelude.{◌≡◌, ◌<◌, ◌^◌, length, None};
ghost use Rattle.std.specs.List.{flat_map};
ghost use Rattle.amber_log.specs.Grammar.{IsLog};
ghost use Rattle.amber_log.specs.LogText.{item_lines};
ghost use Rattle.amber_meaning.specs.Plain.{scan_count, wrong_header};
ghost use Rattle.amber_course.specs.Ready.{IsReplayReady};
ghost use Rattle.amber_run.specs.Answering.{IsReplayed, Works};
ghost use Rattle.amber_run.specs.Outcome.{WroteNothing};
ghost use Rattle.amber_recorder.specs.Writing.{Counted};

use crate::recover_job::refusal;
use amber_course::{Failure, Job, ReplayJob, put_output};
use amber_io::Outside;
use amber_log::Log;
use amber_recover::replay;
use amber_rows::{Bytes, Files, Flow, Rows};
use std::alloc::Global;
use std::thread::Threads;

// How many steps a run may make.
const MOST_STEPS: u64 = 1 << 40;

// On how many threads the lines of the files are found.
const THREADS: u32 = 1;

// The transcript of a log, where it is legal.
fn transcript<R: Threads + Sync>(
    rt: &R,
    alloc: Global,
    flow: Flow,
    files: Files,
    log: &Log,
) -> Result<Bytes, Failure>
    requires one_each { length files ≡ scan_count flow }
    requires headers { wrong_header 1 files flow ≡ None }
    requires text { IsLog log.now }
    requires few { length (flat_map item_lines log.now.items) < 2 ^ 32 }
    ensures { IsReplayed result
        (record { inputs = record { flow = flow; files = files }; log = log.now }) }
{
    match replay(rt, alloc, flow, files, log, MOST_STEPS, THREADS) {
        Ok(text) => Ok(text),
        Err(error) => Err(refusal(error)),
    }
}

/// Prints the transcript that a log tells.
pub(crate) fn do_replay<R: Threads + Sync, W: Outside>(
    rt: &R,
    alloc: Global,
    job: ReplayJob,
    outside: &mut W,
) -> Result<Option<Rows>, Failure>
    requires { IsReplayReady job }
    ensures works { Works result (Job.Replay job) (W.world outside.old) (W.world outside.new) }
    ensures counted { Counted result (W.world outside.old) (W.world outside.new) }
    ensures idle { WroteNothing result (W.world outside.old) (W.world outside.new) }
    ensures held { W.held outside.new ≡ W.held outside.old }
{
    let ReplayJob { inputs, log } = job;
    let (flow, files) = inputs.into_parts();
    let text = transcript(rt, alloc, flow, files, &log)?;
    put_output(outside, text.get())?;
    Ok(None)
}
