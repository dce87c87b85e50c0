//! The job of `recover`: a run goes on from its log. The old log is done again, its items and what they have printed are written
//! anew, and then come the commands behind its own.
//! Rests on `recover` of `amber_recover`, on `Recorder` and on `do_script`.

ghost use Rattle.std.specs.Prelude.{◌≡◌, ◌++◌, List, map, IfOk, false};
ghost use Rattle.std.specs.List.{flat_map};
ghost use Rattle.amber_io.specs.Folder.{IsThere};
ghost use Rattle.amber_log.specs.Grammar.{IsLog};
ghost use Rattle.amber_log.specs.Items.{command_of};
ghost use Rattle.amber_log.specs.LogText.{item_text};
ghost use Rattle.amber_log.specs.declared.command.Command.{Command as RunCommand};
ghost use Rattle.amber_meaning.specs.Transcript.{transcript_of};
ghost use Rattle.amber_rows.specs.FlowRules.{IsFlow};
ghost use Rattle.amber_course.specs.Ready.{AreOfScript, IsRecoverReady};
ghost use Rattle.amber_debug.specs.Session.{is_long_item};
ghost use Rattle.amber_recorder.specs.Left.{ends_long};
ghost use Rattle.amber_recorder.specs.Writing.{Counted};
ghost use Rattle.amber_run.specs.Answering.{HasTakenUp, IsTakenUp, Works, refusal_of};
ghost use Rattle.amber_course.specs.declared.job.RecoverJob.{RecoverJob};
ghost use Rattle.amber_run.specs.UnderWay.{WritesBegun, HasTaken, Worked};
ghost use Rattle.amber_run.specs.RunTask.{GoesOnFrom, RunTask, end_alone, query_at};

use crate::run_job::do_script;
use amber_course::{Failure, Job, LogWhy, Reason, RecoverJob, strange_line};
use amber_debug::{Debugger, Done};
use amber_io::Outside;
use amber_journal::write_items;
use amber_log::{Close, Command, Commands, Item, Log};
use amber_mail::Gate;
use amber_recorder::Recorder;
use amber_recover::{RebuildErr, Recovered, recover};
use amber_rows::{Bytes, Rows, Text};
use std::alloc::Global;
use std::thread::Threads;

// How many steps a run may make.
const MOST_STEPS: u64 = 1 << 40;

// What there is of a recovery before its log is made: the run behind the old log, and what of that is to be written anew.
#[derive(Drop)]
pub(crate) struct TakenUp {
    // The run that goes on.
    pub debugger: Debugger,
    // What was done before: the text of the old log's items, and its transcript.
    pub done: Done,
    // The commands of the script.
    pub commands: Commands,
    // The name of the log that is to be written.
    pub log_name: Text,
}

/// The refusal of a log that cannot be done again.
pub(crate) fn refusal(error: RebuildErr) -> Failure
    ensures { result ≡ refusal_of error }
{
    match error {
        RebuildErr::Header(op) => Failure::BadFlow {
            op,
            why: Reason::Header,
        },
        RebuildErr::Illegal { line } => Failure::BadLog {
            line,
            why: LogWhy::Illegal,
        },
        RebuildErr::NoMemory => Failure::NoMemory,
    }
}

// Takes up a run where its old log ends, where that is legal and its commands are the first of those of the script and the
// one to run to the end.
fn take_up<R: Threads + Sync>(rt: &R, alloc: Global, job: RecoverJob) -> Result<TakenUp, Failure>
    requires { IsRecoverReady job }
    ensures { IsTakenUp result job }
{
    let RecoverJob {
        inputs,
        commands,
        old,
        log,
        threads,
    } = job;
    let (flow, files) = inputs.into_parts();
    let Recovered { home, printed } = match recover(
        rt, alloc, flow, files, &old, MOST_STEPS, threads,
    ) {
        Ok(recovered) => recovered,
        Err(error) => return Err(refusal(error)),
    };
    if let Some(line) = strange_line(alloc, commands.get(), old.items.get())? {
        return Err(Failure::BadLog {
            line,
            why: LogWhy::Command,
        });
    }
    Ok(TakenUp {
        debugger: Debugger::resume(home, threads),
        done: Done {
            item: Bytes::new(write_items(alloc, old.items.get())?),
            reply: printed,
            rows: None,
        },
        commands,
        log_name: log,
    })
}

// Whether an item is a leg that was too long.
fn is_long(item: &Item) -> bool
    ensures { result ≡ is_long_item item.now }
{
    match item {
        Item::Run(leg) | Item::End(leg) => matches!(leg.close, Close::Long),
        Item::Do(_) => false,
    }
}

// Whether the last item of a log is a leg that was too long.
fn ends_long(log: &Log) -> bool
    ensures { result ≡ ends_long false log.now.items }
{
    match log.items.get().last() {
        Some(item) => is_long(item),
        None => false,
    }
}

// Makes the log with its head, and writes the items from which the run goes on and puts what they have printed, if there are
// some.
fn begin<R: Threads + Sync, G: Gate + Sync, W: Outside>(
    recorder: &mut Recorder<'_, R, G, W>,
    old: &Log,
    done: &Done,
) -> Result<(), Failure>
    requires old { IsLog old.now }
    requires text { done.now.item ≡ flat_map item_text old.now.items }
    ensures begins { (t : RunTask)
        → GoesOnFrom t old.now recorder.old.log_name.now (W.world recorder.old.outside.now)
        → done.now.reply ≡ transcript_of (query_at t t.batch_size) t.begun
        → WritesBegun result t (W.world recorder.new.outside.now) }
    ensures there { IfOk result (λ begun.
        IsThere (W.world recorder.new.outside.now).files recorder.old.log_name.now) }
    ensures counted { Counted result (W.world recorder.old.outside.now)
        (W.world recorder.new.outside.now) }
    ensures held { W.held recorder.new.outside.now ≡ W.held recorder.old.outside.now }
    ensures same_outside { recorder.new.outside.ghost_name ≡ recorder.old.outside.ghost_name }
    ensures same_log { recorder.new.log_name.now ≡ recorder.old.log_name.now }
{
    recorder.create_log(old.batch)?;
    if old.items.get().is_empty() {
        return Ok(());
    }
    recorder.report(done)
}

// Does the commands of a script behind those that were done, and after them the one to run to the end, unless it was done too.
fn go_on<R: Threads + Sync, G: Gate + Sync, W: Outside>(
    recorder: &mut Recorder<'_, R, G, W>,
    debugger: &mut Debugger,
    commands: &[Command],
) -> Result<Option<Rows>, Failure>
    requires script { AreOfScript debugger.old.flow commands.now }
    requires flow { IsFlow debugger.old.flow }
    requires first { (left : List RunCommand) × (map command_of debugger.old.log.items ++ left
        ≡ commands.now ++ end_alone) }
    requires there { IsThere (W.world recorder.old.outside.now).files
        recorder.old.log_name.now }
    ensures worked { (t : RunTask) → t.name ≡ recorder.old.log_name.now
        → t.commands ≡ commands.now ++ end_alone
        → HasTaken t debugger.old (W.world recorder.old.outside.now)
        → Worked result t (W.world recorder.new.outside.now) }
    ensures counted { Counted result (W.world recorder.old.outside.now)
        (W.world recorder.new.outside.now) }
    ensures held { W.held recorder.new.outside.now ≡ W.held recorder.old.outside.now }
    ensures same_outside { recorder.new.outside.ghost_name ≡ recorder.old.outside.ghost_name }
{
    if ends_long(debugger.log()) {
        return Err(Failure::Long);
    }
    let done = debugger.log().items.get().len();
    if done > commands.len() {
        return Ok(None);
    }
    do_script(recorder, debugger, &commands[done..])
}

// Makes the log, with what was done before, and then goes on.
fn record_recovery<R: Threads + Sync, G: Gate + Sync, W: Outside>(
    recorder: &mut Recorder<'_, R, G, W>,
    debugger: &mut Debugger,
    done: &Done,
    commands: &[Command],
) -> Result<Option<Rows>, Failure>
    requires script { AreOfScript debugger.old.flow commands.now }
    requires flow { IsFlow debugger.old.flow }
    requires first { (left : List RunCommand) × (map command_of debugger.old.log.items ++ left
        ≡ commands.now ++ end_alone) }
    requires text { done.now.item ≡ flat_map item_text debugger.old.log.items }
    ensures works { (r : RecoverJob) → HasTakenUp r (record {
      debugger = debugger.old;
      done = done.now;
      commands = commands.now;
      log_name = recorder.old.log_name.now;
    }) → Works result (Job.Recover r) (W.world recorder.old.outside.now)
        (W.world recorder.new.outside.now) }
    ensures counted { Counted result (W.world recorder.old.outside.now)
        (W.world recorder.new.outside.now) }
    ensures held { W.held recorder.new.outside.now ≡ W.held recorder.old.outside.now }
    ensures same_outside { recorder.new.outside.ghost_name ≡ recorder.old.outside.ghost_name }
{
    begin(recorder, debugger.log(), done)?;
    go_on(recorder, debugger, commands)
}

/// Goes on with a run from its old log, and gives back the rows of its last reply, if it was not put before.
pub(crate) fn do_recover<R: Threads + Sync, G: Gate + Sync, W: Outside>(
    rt: &R,
    alloc: Global,
    job: RecoverJob,
    outside: &mut W,
    gate: &G,
) -> Result<Option<Rows>, Failure>
    requires { IsRecoverReady job }
    ensures works { Works result (Job.Recover job) (W.world outside.old) (W.world outside.new) }
    ensures counted { Counted result (W.world outside.old) (W.world outside.new) }
    ensures held { W.held outside.new ≡ W.held outside.old }
{
    let TakenUp {
        debugger,
        done,
        commands,
        log_name,
    } = take_up(rt, alloc, job)?;
    let mut debugger = debugger;
    let mut recorder = Recorder::new(rt, alloc, log_name.get(), outside, gate);
    record_recovery(&mut recorder, &mut debugger, &done, commands.get())
}
