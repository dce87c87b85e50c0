//! What a job is: the answer of a workflow or the transcript of a log, printed at once, or a run, or one that is gone on with.
//! Rests on `do_plain`, `do_replay`, `do_run` and `do_recover`.

ghost use Rattle.std.specs.Prelude.{◌≡◌};
ghost use Rattle.amber_course.specs.Ready.{IsReady, WritesNothing};
ghost use Rattle.amber_run.specs.Answering.{Works};
ghost use Rattle.amber_run.specs.Outcome.{WroteNothing};
ghost use Rattle.amber_recorder.specs.Writing.{Counted};

use crate::plain_job::do_plain;
use crate::recover_job::do_recover;
use crate::replay_job::do_replay;
use crate::run_job::do_run;
use amber_course::{Failure, Job};
use amber_io::Outside;
use amber_mail::Gate;
use amber_rows::Rows;
use std::alloc::Global;
use std::thread::Threads;

/// Does a job, and gives back the rows that were printed last, if any.
pub(crate) fn do_job<R: Threads + Sync, G: Gate + Sync, W: Outside>(
    rt: &R,
    alloc: Global,
    job: Job,
    outside: &mut W,
    gate: &G,
) -> Result<Option<Rows>, Failure>
    requires { IsReady job }
    ensures works { Works result job (W.world outside.old) (W.world outside.new) }
    ensures counted { Counted result (W.world outside.old) (W.world outside.new) }
    ensures idle { WritesNothing job
        → WroteNothing result (W.world outside.old) (W.world outside.new) }
    ensures held { W.held outside.new ≡ W.held outside.old }
{
    match job {
        Job::Plain { inputs } => do_plain(alloc, inputs, outside),
        Job::Run(run) => do_run(rt, alloc, run, outside, gate),
        Job::Replay(job) => do_replay(rt, alloc, job, outside),
        Job::Recover(job) => do_recover(rt, alloc, job, outside, gate),
    }
}
