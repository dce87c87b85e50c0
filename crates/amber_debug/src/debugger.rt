//! The debugger of a run: its commands, one after another, each with its item and its reply. Over `Home`, `leg`, and
//! the texts of `amber_journal` and `amber_report`.

ghost use Rattle.std.specs.Prelude.{◌≡◌, ◌≢◌, ◌<◌, ◌≤◌, ◌⊎◌, ◌^◌, ◌↔◌, [], Err, IfOk, None, OnErr, false, true, length};
ghost use Rattle.amber_log.specs.Commands.{action_of};
ghost use Rattle.amber_log.specs.Fits.{fits_of};
ghost use Rattle.amber_log.specs.Grammar.{IsLog, ends_over};
ghost use Rattle.amber_log.specs.declared.effect.Action.TheVariants as action;
ghost use Rattle.amber_meaning.specs.Legal.{IsLegal};
ghost use Rattle.amber_meaning.specs.Plain.{scan_count, wrong_header};
ghost use Rattle.amber_script.specs.Commands.{is_scripted};
ghost use Rattle.amber_home.specs.Beginning.{BeginsOrNames};
ghost use Rattle.amber_home.specs.HomeState.{query_of};
ghost use Rattle.amber_home.specs.declared.phase.Phase.TheVariants as phase;
ghost use Rattle.amber_debug.specs.AtHome.{DoesAtRest, IsLastText, RunsAs, TellsLeg, answer_to_run, is_cut_off};
ghost use Rattle.amber_debug.specs.Session.{Does, query_in};

use crate::done::{DebugErr, Done, EndErr};
use amber_home::{Home, HomeErr};
use amber_journal::{write_command, write_item};
use amber_leg::{LegErr, leg};
use amber_log::{Action, Command, Effect, Log, commands_have_text};
use amber_mail::Gate;
use amber_meaning::wrong_header;
use amber_recover::{rebuild_worker, reply_at_rest};
use amber_report::{answer_lines, stop_lines};
use amber_rows::{Bytes, Files, Flow};
use std::alloc::{AllocError, Global};
use std::marker::Model;
use std::thread::Threads;

/// A run to which commands are given, seen as a `Session`.
pub struct Debugger {
    home: Home,
    threads: u32,
    spent: bool,
}

impl Drop for Debugger {
    fn drop(self) {
        let Debugger {
            home: _,
            threads: _,
            spent: _,
        } = self;
    }
}

impl Model for Debugger {
    ghost use Rattle.amber_debug.specs.Session.{Session};

    ghost Value = { Session };

    ghost view = { λ a. record {
      flow = a.home.flow;
      files = a.home.files;
      most = a.home.most;
      threads = a.threads;
      log = a.home.log;
      spent = a.spent;
    } };

    ghost use Rattle.std.specs.Prelude.{◌<◌, ◌≤◌};
    ghost use Rattle.amber_debug.specs.Session.{IsKept};

    // The log is legal, and where more may follow the home is at rest; and there are 1 to 64 threads.
    ghost invariant = { λ a. IsKept a.home a.spent × (0 < a.threads) × (a.threads ≤ 64) };
}

// The text of the last item of a log.
fn last_text(alloc: Global, log: &Log) -> Result<Bytes, AllocError>
    requires some { 0 < length log.now.items }
    requires text { IsLog log.now }
    ensures { IfOk result (IsLastText log.now) }
{
    let items = log.items.get();
    Ok(Bytes::new(write_item(alloc, &items[items.len() - 1])?))
}

// Runs a leg, up to a stop or to the end, and writes it.
fn leg_text<R: Threads + Sync, G: Gate + Sync>(
    rt: &R,
    alloc: Global,
    home: &mut Home,
    to_end: bool,
    threads: u32,
    gate: &G,
) -> Result<Bytes, EndErr>
    requires resting { home.old.phase ≡ phase.Resting }
    requires open { ends_over false home.old.log.items ≡ false }
    requires legal { IsLegal (query_of home.old) home.old.log }
    requires some_threads { 0 < threads }
    requires few_threads { threads ≤ 64 }
    ensures told { TellsLeg result to_end home.old home.new }
    ensures legal { IsLegal (query_of home.new) home.new.log }
{
    match leg(rt, alloc, home, to_end, threads, gate) {
        Ok(()) => Ok(last_text(alloc, home.log())?),
        Err(LegErr::Long) => Err(EndErr::Long {
            item: last_text(alloc, home.log())?,
        }),
        Err(LegErr::NoMemory) => Err(EndErr::NoMemory),
    }
}

// Runs up to a stop, and writes the leg and the stops.
fn run_to_stop<R: Threads + Sync, G: Gate + Sync>(
    rt: &R,
    alloc: Global,
    home: &mut Home,
    threads: u32,
    gate: &G,
) -> Result<Done, EndErr>
    requires resting { home.old.phase ≡ phase.Resting }
    requires open { ends_over false home.old.log.items ≡ false }
    requires legal { IsLegal (query_of home.old) home.old.log }
    requires some_threads { 0 < threads }
    requires few_threads { threads ≤ 64 }
    ensures runs { RunsAs result false home.old home.new }
    ensures rests { IfOk result (λ done. home.new.phase ≡ phase.Resting) }
    ensures legal { IsLegal (query_of home.new) home.new.log }
{
    let item = leg_text(rt, alloc, home, false, threads, gate)?;
    let stops = home.stops(alloc)?;
    let reply = stop_lines(alloc, home.flow(), &stops)?;
    Ok(Done {
        item,
        reply,
        rows: None,
    })
}

// Runs to the end, and writes the leg and the answer.
fn run_to_end<R: Threads + Sync, G: Gate + Sync>(
    rt: &R,
    alloc: Global,
    home: &mut Home,
    threads: u32,
    gate: &G,
) -> Result<Done, EndErr>
    requires resting { home.old.phase ≡ phase.Resting }
    requires open { ends_over false home.old.log.items ≡ false }
    requires legal { IsLegal (query_of home.old) home.old.log }
    requires some_threads { 0 < threads }
    requires few_threads { threads ≤ 64 }
    ensures runs { RunsAs result true home.old home.new }
    ensures legal { IsLegal (query_of home.new) home.new.log }
{
    let item = leg_text(rt, alloc, home, true, threads, gate)?;
    let answer = home.take_answer(alloc)?;
    let reply = answer_lines(alloc, home.flow(), &answer)?;
    Ok(Done {
        item,
        reply,
        rows: Some(answer.rows),
    })
}

// Puts another in the place of the worker that a command loses, if it loses one: one that is rebuilt from the log alone.
fn replace_lost<R: Threads + Sync>(
    rt: &R,
    alloc: Global,
    home: &mut Home,
    command: &Command,
) -> Result<(), AllocError>
    requires resting { home.old.phase ≡ phase.Resting }
    requires fits { fits_of home.old.flow command.now ≡ true }
    ensures { home.new ≡ record home.old { turned = home.new.turned } }
{
    if let Some(worker) = home.worker_to_lose(command) {
        let made = rebuild_worker(rt, alloc, home, worker)?;
        home.replace(worker, made);
    }
    Ok(())
}

// Does a command with this effect. Its text and the reply are there before it is done.
fn do_at_rest<R: Threads + Sync>(
    rt: &R,
    alloc: Global,
    home: &mut Home,
    command: &Command,
    effect: &Effect<'_>,
) -> Result<Done, AllocError>
    requires resting { home.old.phase ≡ phase.Resting }
    requires open { ends_over false home.old.log.items ≡ false }
    requires fits { fits_of home.old.flow command.now ≡ true }
    requires effect { action_of command.now ≡ action.AtRest effect.now }
    requires legal { IsLegal (query_of home.old) home.old.log }
    ensures ok { IfOk result (λ done. DoesAtRest home.old home.new done command.now) }
    ensures err { OnErr result (home.new ≡ record home.old { turned = home.new.turned }) }
    ensures legal { IsLegal (query_of home.new) home.new.log }
{
    commands_have_text(command);
    let item = Bytes::new(write_command(alloc, command)?);
    let reply = reply_at_rest(alloc, home, command, effect)?;
    replace_lost(rt, alloc, home, command)?;
    home.apply(alloc, command)?;
    Ok(Done {
        item,
        reply,
        rows: None,
    })
}

// What a command to run answers. Where memory ran out no command follows.
fn answer_to_run(told: Result<Done, EndErr>, spent: &mut bool) -> Result<Done, DebugErr>
    requires { spent.old ≡ false }
    ensures answer { result ≡ answer_to_run told }
    ensures spent { spent.new ≡ is_cut_off told }
{
    match told {
        Ok(done) => Ok(done),
        Err(EndErr::Long { item }) => Err(DebugErr::Long { item }),
        Err(EndErr::NoMemory) => {
            *spent = true;
            Err(DebugErr::NoMemory)
        }
    }
}

impl Debugger {
    /// A run that has not begun: of a workflow over the files of its scans, with this many rows in a batch, 1
    /// to 65,536, on this many threads, 1 to 64, and with at most `most` steps, 2^40 or fewer. Where the lines of
    /// the files begin is noted on the same threads.
    ///
    /// # Errors
    ///
    /// `Header` with the first scan whose file does not begin with the names of its columns.
    pub fn start<R: Threads + Sync>(
        rt: &R,
        alloc: Global,
        flow: Flow,
        files: Files,
        batch_size: u32,
        threads: u32,
        most: u64,
    ) -> Result<Debugger, HomeErr>
        requires one_each { length files ≡ scan_count flow }
        requires some { 0 < batch_size }
        requires few { batch_size ≤ 65536 }
        requires some_threads { 0 < threads }
        requires few_threads { threads ≤ 64 }
        requires steps { most ≤ 2 ^ 40 }
        ensures begins { IfOk result (λ d. d ≡ record {
          flow = flow;
          files = files;
          most = most;
          threads = threads;
          log = record { batch = batch_size; items = [] };
          spent = false;
        }) }
        ensures header { BeginsOrNames result flow files }
    {
        if let Some(op) = wrong_header(alloc, &flow, &files)? {
            return Err(HomeErr::Header(op));
        }
        Ok(Debugger::start_checked(rt, alloc, flow, files, batch_size, threads, most)?)
    }

    /// The same, where each file is known to begin with the names of its columns.
    pub fn start_checked<R: Threads + Sync>(
        rt: &R,
        alloc: Global,
        flow: Flow,
        files: Files,
        batch_size: u32,
        threads: u32,
        most: u64,
    ) -> Result<Debugger, AllocError>
        requires one_each { length files ≡ scan_count flow }
        requires headers { wrong_header 1 files flow ≡ None }
        requires some { 0 < batch_size }
        requires few { batch_size ≤ 65536 }
        requires some_threads { 0 < threads }
        requires few_threads { threads ≤ 64 }
        requires steps { most ≤ 2 ^ 40 }
        ensures begins { IfOk result (λ d. d ≡ record {
          flow = flow;
          files = files;
          most = most;
          threads = threads;
          log = record { batch = batch_size; items = [] };
          spent = false;
        }) }
    {
        let home = Home::start_checked(rt, alloc, flow, files, batch_size, most, threads)?;
        Ok(Debugger {
            home,
            threads,
            spent: false,
        })
    }

    /// A run that goes on behind the log of a home, on this many threads, 1 to 64.
    pub fn resume(home: Home, threads: u32) -> Debugger
        requires rests { ends_over false home.log.items ≡ false → home.phase ≡ phase.Resting }
        requires legal { IsLegal (query_of home) home.log }
        requires some_threads { 0 < threads }
        requires few_threads { threads ≤ 64 }
        ensures { result ≡ record {
          flow = home.flow;
          files = home.files;
          most = home.most;
          threads = threads;
          log = home.log;
          spent = false;
        } }
    {
        Debugger {
            home,
            threads,
            spent: false,
        }
    }

    /// Does a command: the log grows by one item, and there is one reply. In a leg the workers go side by side on the
    /// threads of the run, and pass the gate before each turn. A worker that is lost is rebuilt from the log alone, and takes
    /// its own place again.
    ///
    /// # Errors
    ///
    /// `Long` where the run has made as many steps as it may, and somebody has not finished: the log has the
    /// leg, and nothing may follow. After `NoMemory` at a command to run, which `End` is, the log is as
    /// before or has that command's leg as well, and each later command answers `Spent`, which comes exactly
    /// then. After `NoMemory` at another command all is as before.
    pub fn command<R: Threads + Sync, G: Gate + Sync>(
        &mut self,
        rt: &R,
        alloc: Global,
        command: &Command,
        gate: &G,
    ) -> Result<Done, DebugErr>
        requires fits { fits_of self.old.flow command.now ≡ true }
        requires scripted { (is_scripted command.now ≡ true) ⊎ (command.now ≡ Command.End) }
        requires open { ends_over false self.old.log.items ≡ false }
        ensures does { Does result self.old self.new command.now }
        ensures spent { (result ≡ Err DebugErr.Spent) ↔ (self.old.spent ≡ true) }
        ensures was_legal { IsLegal (query_in self.old) self.old.log }
        ensures legal { IsLegal (query_in self.new) self.new.log }
    {
        if self.spent {
            return Err(DebugErr::Spent);
        }
        match command.action() {
            Action::Leg { to_end: false } => {
                let told = run_to_stop(rt, alloc, &mut self.home, self.threads, gate);
                answer_to_run(told, &mut self.spent)
            }
            Action::Leg { to_end: true } => {
                let told = run_to_end(rt, alloc, &mut self.home, self.threads, gate);
                answer_to_run(told, &mut self.spent)
            }
            Action::AtRest(effect) => Ok(do_at_rest(rt, alloc, &mut self.home, command, &effect)?),
        }
    }

    /// The workflow that is run.
    pub fn flow(&self) -> &Flow
        ensures { result.now ≡ self.now.flow }
    {
        self.home.flow()
    }

    /// The log of the run so far.
    pub fn log(&self) -> &Log
        ensures log { result.now ≡ self.now.log }
        ensures legal { IsLegal (query_in self.now) self.now.log }
    {
        self.home.log()
    }
}
