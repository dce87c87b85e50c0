//! A run: its log is made, and then come the commands of its script, one after the other, and after them the one to run to
//! the end.
//! Rests on `Debugger` and on `Recorder`.

ghost use Rattle.std.specs.Prelude.{◌≡◌, ◌++◌, [], IfOk, MatchResult};
ghost use Rattle.amber_io.specs.Folder.{IsThere};
ghost use Rattle.amber_course.specs.Ready.{AreOfScript, IsRunReady};
ghost use Rattle.amber_recorder.specs.Recording.{MayFollow};
ghost use Rattle.amber_recorder.specs.Writing.{Counted};
ghost use Rattle.amber_rows.specs.FlowRules.{IsFlow};
ghost use Rattle.amber_log.specs.Grammar.{IsBatch};
ghost use Rattle.amber_run.specs.UnderWay.{Halts, IsAt, Worked, log_of_items};
ghost use Rattle.amber_run.specs.RunTask.{RunTask, end_alone, most_steps, run_task_of};

use amber_course::{Failure, RunJob};
use amber_debug::Debugger;
use amber_io::Outside;
use amber_log::Command;
use amber_mail::Gate;
use amber_recorder::Recorder;
use amber_rows::Rows;
use std::alloc::Global;
use std::thread::Threads;

// How many steps a run may make.
const MOST_STEPS: u64 = 1 << 40;

/// Does the commands of a script, and then the one to run to the end, whose rows it gives back.
pub(crate) fn do_script<R: Threads + Sync, G: Gate + Sync, W: Outside>(
    recorder: &mut Recorder<'_, R, G, W>,
    debugger: &mut Debugger,
    commands: &[Command],
) -> Result<Option<Rows>, Failure>
    requires script { AreOfScript debugger.old.flow commands.now }
    requires open { MayFollow debugger.old.log }
    requires there { IsThere (W.world recorder.old.outside.now).files
        recorder.old.log_name.now }
    ensures did { (t : RunTask) → t.name ≡ recorder.old.log_name.now
        → IsAt t (commands.now ++ end_alone) debugger.old (W.world recorder.old.outside.now)
        → MatchResult result
        (λ rows. IsAt t [] debugger.new (W.world recorder.new.outside.now))
        (Halts t (W.world recorder.new.outside.now)) }
    ensures counted { Counted result (W.world recorder.old.outside.now)
        (W.world recorder.new.outside.now) }
    ensures held { W.held recorder.new.outside.now ≡ W.held recorder.old.outside.now }
    ensures same_outside { recorder.new.outside.ghost_name ≡ recorder.old.outside.ghost_name }
{
    for command in commands {
        recorder.do_command(debugger, command)?;
    }
    recorder.do_command(debugger, &Command::End)
}

// Makes the log with its head, and then does the commands of a script, and after them the one to run to the end.
fn record_run<R: Threads + Sync, G: Gate + Sync, W: Outside>(
    recorder: &mut Recorder<'_, R, G, W>,
    debugger: &mut Debugger,
    commands: &[Command],
    batch_size: u32,
) -> Result<Option<Rows>, Failure>
    requires batch { IsBatch batch_size }
    requires script { AreOfScript debugger.old.flow commands.now }
    requires flow { IsFlow debugger.old.flow }
    requires begun { debugger.old.log ≡ log_of_items batch_size [] }
    requires most { debugger.old.most ≡ most_steps }
    ensures worked { Worked result
        (record {
          before = W.world recorder.old.outside.now;
          name = recorder.old.log_name.now;
          flow = debugger.old.flow;
          inputs = debugger.old.files;
          batch_size = batch_size;
          begun = [];
          commands = commands.now ++ end_alone;
        }) (W.world recorder.new.outside.now) }
    ensures counted { Counted result (W.world recorder.old.outside.now)
        (W.world recorder.new.outside.now) }
    ensures held { W.held recorder.new.outside.now ≡ W.held recorder.old.outside.now }
    ensures same_outside { recorder.new.outside.ghost_name ≡ recorder.old.outside.ghost_name }
{
    recorder.create_log(batch_size)?;
    do_script(recorder, debugger, commands)
}

/// Does a run, and gives back the rows of its last reply: the log is made with its head, and then come the commands of
/// the script, and after them the one to run to the end.
pub(crate) fn do_run<R: Threads + Sync, G: Gate + Sync, W: Outside>(
    rt: &R,
    alloc: Global,
    run: RunJob,
    outside: &mut W,
    gate: &G,
) -> Result<Option<Rows>, Failure>
    requires { IsRunReady run }
    ensures worked { Worked result (run_task_of (W.world outside.old) run) (W.world outside.new) }
    ensures counted { Counted result (W.world outside.old) (W.world outside.new) }
    ensures held { W.held outside.new ≡ W.held outside.old }
{
    let RunJob {
        inputs,
        commands,
        log,
        threads,
        batch_size,
    } = run;
    let (flow, files) = inputs.into_parts();
    let mut debugger = Debugger::start_checked(
        rt, alloc, flow, files, batch_size, threads, MOST_STEPS,
    )?;
    let mut recorder = Recorder::new(rt, alloc, log.get(), outside, gate);
    record_run(&mut recorder, &mut debugger, commands.get(), batch_size)
}
