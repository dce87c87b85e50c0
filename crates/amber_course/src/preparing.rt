//! From the words of a call to its job: all that the job needs is loaded and read, in the order of
//! work.
//! Rests on `load_flow`, `load_run_flow`, `load_script`, `load_scans` and `load_log`.

ghost use Rattle.std.specs.Prelude.{◌≡◌, IfErr, IfOk};
ghost use Rattle.amber_io.specs.Folder.{Told};
ghost use Rattle.amber_io.specs.World.{LoadsOnly};
ghost use Rattle.amber_course.specs.Ready.{IsAskedBy, WritesNothing, IsReady};
ghost use Rattle.amber_course.specs.Course.{IsLoaded, job_of};
ghost use Rattle.amber_course.specs.Steps.{Follows, Names};
ghost use Rattle.amber_course.specs.Words.{AreSizes, AreSound, AreThreads};

use crate::failure::Failure;
use crate::job::{Job, RecoverJob, ReplayJob, RunJob};
use crate::loading::load_flow;
use crate::log::load_log;
use crate::log_name::load_run_flow;
use crate::scans::load_scans;
use crate::script::load_script;
use crate::words::{RecoverWords, ReplayWords, RunWords, Words};
use amber_io::Outside;
use std::alloc::Global;

// To print the answer of the workflow in a file.
fn prepare_plain<W: Outside>(alloc: Global, workflow: &str, outside: &mut W) -> Result<Job, Failure>
    ensures course { Follows result (job_of (Words.Plain workflow.now)) (W.world outside.old)
        (W.world outside.new) }
    ensures ready { IfOk result IsReady }
    ensures form { IfOk result WritesNothing }
    ensures named { Told (W.world outside.old).files
        (λ files. IfErr result (λ failure. Names failure
        (IsLoaded (Words.Plain workflow.now) files))) }
    ensures only { LoadsOnly (W.world outside.old) (W.world outside.new) }
    ensures held { W.held outside.new ≡ W.held outside.old }
{
    let flow = load_flow(alloc, workflow, outside)?;
    let inputs = load_scans(alloc, flow, outside)?;
    Ok(Job::Plain { inputs })
}

// To do a run.
fn prepare_run<W: Outside>(alloc: Global, words: RunWords, outside: &mut W) -> Result<Job, Failure>
    requires { AreSizes words.threads words.batch_size }
    ensures course { Follows result (job_of (Words.Run words)) (W.world outside.old)
        (W.world outside.new) }
    ensures ready { IfOk result IsReady }
    ensures named { Told (W.world outside.old).files
        (λ files. IfErr result (λ failure. Names failure (IsLoaded (Words.Run words) files))) }
    ensures only { LoadsOnly (W.world outside.old) (W.world outside.new) }
    ensures held { W.held outside.new ≡ W.held outside.old }
{
    let RunWords {
        workflow,
        script,
        log,
        threads,
        batch_size,
    } = words;
    let flow = load_run_flow(alloc, workflow.get(), log.get(), outside)?;
    let commands = load_script(alloc, script.get(), &flow, outside)?;
    let inputs = load_scans(alloc, flow, outside)?;
    Ok(Job::Run(RunJob {
        inputs,
        commands,
        log,
        threads,
        batch_size,
    }))
}

// To print the transcript that a log tells.
fn prepare_replay<W: Outside>(
    alloc: Global,
    words: ReplayWords,
    outside: &mut W,
) -> Result<Job, Failure>
    ensures course { Follows result (job_of (Words.Replay words)) (W.world outside.old)
        (W.world outside.new) }
    ensures ready { IfOk result IsReady }
    ensures form { IfOk result WritesNothing }
    ensures named { Told (W.world outside.old).files
        (λ files. IfErr result (λ failure. Names failure (IsLoaded (Words.Replay words) files))) }
    ensures only { LoadsOnly (W.world outside.old) (W.world outside.new) }
    ensures held { W.held outside.new ≡ W.held outside.old }
{
    let ReplayWords { workflow, log } = words;
    let flow = load_run_flow(alloc, workflow.get(), log.get(), outside)?;
    let inputs = load_scans(alloc, flow, outside)?;
    let log = load_log(alloc, log.get(), outside)?;
    Ok(Job::Replay(ReplayJob { inputs, log }))
}

// To go on with a run from its log.
fn prepare_recover<W: Outside>(
    alloc: Global,
    words: RecoverWords,
    outside: &mut W,
) -> Result<Job, Failure>
    requires { AreThreads words.threads }
    ensures course { Follows result (job_of (Words.Recover words)) (W.world outside.old)
        (W.world outside.new) }
    ensures ready { IfOk result IsReady }
    ensures named { Told (W.world outside.old).files
        (λ files. IfErr result (λ failure. Names failure (IsLoaded (Words.Recover words) files))) }
    ensures only { LoadsOnly (W.world outside.old) (W.world outside.new) }
    ensures held { W.held outside.new ≡ W.held outside.old }
{
    let RecoverWords {
        workflow,
        script,
        old_log,
        log,
        threads,
    } = words;
    let flow = load_run_flow(alloc, workflow.get(), log.get(), outside)?;
    let commands = load_script(alloc, script.get(), &flow, outside)?;
    let inputs = load_scans(alloc, flow, outside)?;
    let old = load_log(alloc, old_log.get(), outside)?;
    Ok(Job::Recover(RecoverJob {
        inputs,
        commands,
        old,
        log,
        threads,
    }))
}

/// The job that words ask for, with all that is to be loaded and read for it.
pub fn prepare<W: Outside>(alloc: Global, words: Words, outside: &mut W) -> Result<Job, Failure>
    requires { AreSound words }
    ensures course { Follows result (job_of words) (W.world outside.old)
        (W.world outside.new) }
    ensures ready { IfOk result IsReady }
    ensures form { IfOk result (IsAskedBy words) }
    ensures named { Told (W.world outside.old).files
        (λ files. IfErr result (λ failure. Names failure (IsLoaded words files))) }
    ensures only { LoadsOnly (W.world outside.old) (W.world outside.new) }
    ensures held { W.held outside.new ≡ W.held outside.old }
{
    match words {
        Words::Plain { workflow } => prepare_plain(alloc, workflow.get(), outside),
        Words::Run(words) => prepare_run(alloc, words, outside),
        Words::Replay(words) => prepare_replay(alloc, words, outside),
        Words::Recover(words) => prepare_recover(alloc, words, outside),
    }
}
