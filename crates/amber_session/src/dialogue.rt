//! A session without its refusals: it is begun, fed and finished, and ends at the first failure.
//! Rests on `read_bytes`, on `Debugger` and on the course of a session.

ghost use Rattle.std.specs.Prelude.{◌≡◌, ◌≤◌, ◌+◌, ◌++◌, length, map, nat_le, string_bytes, IfErr, IfOk};
ghost use Rattle.std.specs.Str.Lines.{strip_carriage_return};
ghost use Rattle.amber_io.specs.Folder.{IsThere, Told};
ghost use Rattle.amber_io.specs.World.{WritesOnly};
ghost use Rattle.amber_log.specs.Grammar.{IsBatch};
ghost use Rattle.amber_log.specs.LogText.{head_text};
ghost use Rattle.amber_meaning.specs.Legal.{IsLegal};
ghost use Rattle.amber_script.specs.Lines.{ended_lines, open_line};
ghost use Rattle.amber_course.specs.Steps.{Names};
ghost use Rattle.amber_course.specs.Words.{AreSizes};
ghost use Rattle.amber_debug.specs.Session.{query_in};
ghost use Rattle.amber_recorder.specs.Recording.{MakesFile};
ghost use Rattle.amber_recorder.specs.Writing.{Counted};
ghost use Rattle.amber_session.specs.Beginning.{MakesLog, IsSessionLoad, IsStarted, SessionWorded};
ghost use Rattle.amber_session.specs.Dialogue.{IsGoing, most_input};
ghost use Rattle.amber_session.specs.Feeding.{FeedsBytes, AnswersLast};

use crate::answering::answer_line;
use crate::input::Input;
use crate::reading::read_bytes;
use amber_course::{Failure, SessionJob, prepare_session, read_session_words};
use amber_debug::Debugger;
use amber_io::Outside;
use amber_log::Command;
use amber_mail::{Gate, OpenGate};
use amber_recorder::Recorder;
use amber_rows::Text;
use std::alloc::Global;
use std::thread::Threads;

// How many steps a session may make.
const MOST_STEPS: u64 = 1 << 40;

// How many bytes may be fed.
const MOST_INPUT: usize = 1 << 20;

/// A session: the debugger, the name of the log that it writes, and the bytes that were fed.
#[derive(Drop)]
pub(crate) struct Dialogue {
    pub(crate) alloc: Global,
    pub(crate) debugger: Debugger,
    pub(crate) log_name: Text,
    pub(crate) input: Input,
}

// Makes the log of this name, with its head.
fn make_log<R: Threads + Sync, W: Outside>(
    rt: &R,
    alloc: Global,
    name: &str,
    batch_size: u32,
    outside: &mut W,
) -> Result<(), Failure>
    requires { IsBatch batch_size }
    ensures makes { MakesFile result (record { name = name.now; bytes = head_text batch_size })
        (W.world outside.old) (W.world outside.new) }
    ensures only { WritesOnly (W.world outside.old) (W.world outside.new) }
    ensures there { IfOk result (λ made. IsThere (W.world outside.new).files name.now) }
    ensures counted { Counted result (W.world outside.old) (W.world outside.new) }
    ensures held { W.held outside.new ≡ W.held outside.old }
{
    let gate = OpenGate;
    let mut recorder = Recorder::new(rt, alloc, name, outside, &gate);
    recorder.create_log(batch_size)
}

// What a session is to do is begun: its log is made.
fn begin<R: Threads + Sync, W: Outside>(
    rt: &R,
    alloc: Global,
    job: SessionJob,
    outside: &mut W,
) -> Result<Dialogue, Failure>
    requires { AreSizes job.threads job.batch_size }
    ensures begins { MakesLog result job (W.world outside.old) (W.world outside.new) }
    ensures going { IfOk result IsGoing }
    ensures there { IfOk result (λ d. IsThere (W.world outside.new).files d.log_name) }
    ensures counted { Counted result (W.world outside.old) (W.world outside.new) }
    ensures held { W.held outside.new ≡ W.held outside.old }
{
    let SessionJob {
        inputs,
        log,
        threads,
        batch_size,
    } = job;
    let (flow, files) = inputs.into_parts();
    let debugger = Debugger::start_checked(
        rt, alloc, flow, files, batch_size, threads, MOST_STEPS,
    )?;
    make_log(rt, alloc, log.get(), batch_size, outside)?;
    Ok(Dialogue {
        alloc,
        debugger,
        log_name: log,
        input: Input::new(alloc),
    })
}

impl Dialogue {
    /// Reads the words, loads and reads what they name, and makes the log.
    pub(crate) fn start<R: Threads + Sync, W: Outside>(
        rt: &R,
        alloc: Global,
        words: &[String],
        outside: &mut W,
    ) -> Result<Dialogue, Failure>
        ensures started { IsStarted result (map string_bytes words.now) (W.world outside.old)
            (W.world outside.new) }
        ensures named { Told (W.world outside.old).files (λ files.
            IfErr result (λ failure.
            Names failure (IsSessionLoad (map string_bytes words.now) files))) }
        ensures words { SessionWorded result (map string_bytes words.now) }
        ensures going { IfOk result IsGoing }
        ensures there { IfOk result (λ d. IsThere (W.world outside.new).files d.log_name) }
        ensures counted { Counted result
            (record (W.world outside.old) { loads = (W.world outside.new).loads })
            (W.world outside.new) }
        ensures held { W.held outside.new ≡ W.held outside.old }
    {
        let words = read_session_words(alloc, words)?;
        let job = prepare_session(alloc, words, outside)?;
        begin(rt, alloc, job, outside)
    }

    /// Whether this piece may be fed.
    pub(crate) fn has_room(&self, piece: &[u8]) -> bool
        requires { length self.now.input.bytes.items ≤ most_input }
        ensures { result ≡ nat_le (length (self.now.input.bytes.items ++ piece.now)) most_input }
    {
        piece.len() <= MOST_INPUT - self.input.bytes.len()
    }

    /// Takes the next bytes, and answers each line that they end.
    pub(crate) fn feed<R: Threads + Sync, G: Gate + Sync, W: Outside>(
        &mut self,
        rt: &R,
        piece: &[u8],
        outside: &mut W,
        gate: &G,
    ) -> Result<(), Failure>
        requires going { IsGoing self.old }
        requires few { length (self.old.input.bytes.items ++ piece.now) ≤ most_input }
        requires there { IsThere (W.world outside.old).files self.old.log_name }
        ensures feeds { FeedsBytes result
            (record {
              name = self.old.log_name;
              number = length (ended_lines self.old.input.bytes.items) + 1;
              old = self.old.debugger;
              new = self.new.debugger;
              before = W.world outside.old;
              after = W.world outside.new;
            })
            (record {
              text = self.old.input.bytes.items ++ piece.now;
              from = length self.old.input.bytes.items;
              to = length (self.old.input.bytes.items ++ piece.now);
            }) }
        ensures fed { IfOk result (λ done.
            self.new.input.bytes.items ≡ self.old.input.bytes.items ++ piece.now) }
        ensures going { IfOk result (λ done. IsGoing self.new) }
        ensures legal { IsLegal (query_in self.new.debugger) self.new.debugger.log }
        ensures name { self.new.log_name ≡ self.old.log_name }
        ensures there { IfOk result (λ done.
            IsThere (W.world outside.new).files self.old.log_name) }
        ensures counted { Counted result (W.world outside.old) (W.world outside.new) }
        ensures held { W.held outside.new ≡ W.held outside.old }
    {
        let from = self.input.bytes.len();
        self.input.bytes.extend_from_slice(piece)?;
        let mut recorder = Recorder::new(rt, self.alloc, self.log_name.get(), outside, gate);
        read_bytes(
            self.alloc,
            &mut recorder,
            &mut self.debugger,
            &mut self.input,
            from,
        )
    }

    /// Answers the line that no line feed has ended, and runs to the end.
    pub(crate) fn finish<R: Threads + Sync, G: Gate + Sync, W: Outside>(
        &mut self,
        rt: &R,
        outside: &mut W,
        gate: &G,
    ) -> Result<(), Failure>
        requires going { IsGoing self.old }
        requires there { IsThere (W.world outside.old).files self.old.log_name }
        ensures finishes { AnswersLast result
            (record {
              name = self.old.log_name;
              number = length (ended_lines self.old.input.bytes.items) + 1;
              old = self.old.debugger;
              new = self.new.debugger;
              before = W.world outside.old;
              after = W.world outside.new;
            })
            (strip_carriage_return (open_line self.old.input.bytes.items)) }
        ensures legal { IsLegal (query_in self.new.debugger) self.new.debugger.log }
        ensures input { self.new.input ≡ self.old.input }
        ensures name { self.new.log_name ≡ self.old.log_name }
        ensures counted { Counted result (W.world outside.old) (W.world outside.new) }
        ensures held { W.held outside.new ≡ W.held outside.old }
    {
        let mut recorder = Recorder::new(rt, self.alloc, self.log_name.get(), outside, gate);
        let line = &self.input.bytes[self.input.begun..];
        let number = self.input.lines + 1;
        answer_line(self.alloc, &mut recorder, &mut self.debugger, line, number)?;
        recorder.do_command(&mut self.debugger, &Command::End)?;
        Ok(())
    }
}
