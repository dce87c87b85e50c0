//! What writes a log: the log is made, and then come commands, one after the other. What was done for a command is written
//! into the log before its reply is put.
//! Rests on `Debugger` and on `Outside`.

ghost use Rattle.std.specs.Prelude.{◌≡◌, ◌≢◌, ◌⊎◌, IfOk, true};
ghost use Rattle.amber_io.specs.Folder.{IsThere};
ghost use Rattle.amber_io.specs.World.{PutsOnly, WritesOnly};
ghost use Rattle.amber_log.specs.Fits.{fits_of};
ghost use Rattle.amber_log.specs.Grammar.{IsBatch};
ghost use Rattle.amber_log.specs.LogText.{head_text};
ghost use Rattle.amber_meaning.specs.Legal.{IsLegal};
ghost use Rattle.amber_script.specs.Commands.{is_scripted};
ghost use Rattle.amber_course.specs.Steps.{Sent};
ghost use Rattle.amber_debug.specs.Session.{query_in};
ghost use Rattle.amber_recorder.specs.Recording.{MakesFile, MayFollow, Performs, ReportsItem};
ghost use Rattle.amber_recorder.specs.Writing.{Counted, Made, Wrote};

use amber_course::{Failure, put_output};
use amber_debug::{DebugErr, Debugger, Done};
use amber_io::{IoErr, Outside};
use amber_journal::write_head;
use amber_log::Command;
use amber_mail::Gate;
use amber_rows::Rows;
use std::alloc::Global;
use std::thread::Threads;

/// Writes the log of this name, and puts replies. The workers of a leg go on threads of `rt`, and pass the gate before
/// each turn.
pub struct Recorder<'a, R: Threads + Sync, G: Gate + Sync, W: Outside> {
    alloc: Global,
    pub log_name: &'a str,
    pub outside: &'a mut W,
    rt: &'a R,
    gate: &'a G,
}

impl<'a, R: Threads + Sync, G: Gate + Sync, W: Outside> Drop for Recorder<'a, R, G, W> {
    fn drop(self)
        ensures outside { self.exit.1.1.0.now ≡ self.entry.outside.now }
    {
        let Recorder {
            alloc: _,
            log_name: _,
            outside: _,
            rt: _,
            gate: _,
        } = self;
    }
}

impl<'a, R: Threads + Sync, G: Gate + Sync, W: Outside> Recorder<'a, R, G, W> {
    /// Writes the log of this name.
    pub fn new(
        rt: &'a R,
        alloc: Global,
        log_name: &'a str,
        outside: &'a mut W,
        gate: &'a G,
    ) -> Recorder<'a, R, G, W>
        ensures same_outside { result.outside.ghost_name ≡ outside.entry.ghost_name }
        ensures outside { result.outside.now ≡ outside.old }
        ensures log_name { result.log_name.now ≡ log_name.now }
    {
        Recorder {
            alloc,
            log_name,
            outside,
            rt,
            gate,
        }
    }

    // Makes the log's file, empty.
    fn create(&mut self) -> Result<(), Failure>
        ensures made { Made result self.old.log_name.now (W.world self.old.outside.now)
            (W.world self.new.outside.now) }
        ensures only { WritesOnly (W.world self.old.outside.now) (W.world self.new.outside.now) }
        ensures counted { Counted result (W.world self.old.outside.now)
            (W.world self.new.outside.now) }
        ensures held { W.held self.new.outside.now ≡ W.held self.old.outside.now }
        ensures same_outside { self.new.outside.ghost_name ≡ self.old.outside.ghost_name }
        ensures same_log { self.new.log_name.now ≡ self.old.log_name.now }
    {
        match self.outside.create(self.log_name) {
            Ok(()) => Ok(()),
            Err(IoErr::Failed) => Err(Failure::LogFault),
            Err(IoErr::NoMemory) => Err(Failure::NoMemory),
        }
    }

    // Writes a piece at the end of the log, in one call.
    fn append(&mut self, piece: &[u8]) -> Result<(), Failure>
        requires there { IsThere (W.world self.old.outside.now).files self.old.log_name.now }
        ensures wrote { Wrote result (record { name = self.old.log_name.now; bytes = piece.now })
            (W.world self.old.outside.now) (W.world self.new.outside.now) }
        ensures only { WritesOnly (W.world self.old.outside.now) (W.world self.new.outside.now) }
        ensures counted { Counted result (W.world self.old.outside.now)
            (W.world self.new.outside.now) }
        ensures held { W.held self.new.outside.now ≡ W.held self.old.outside.now }
        ensures same_outside { self.new.outside.ghost_name ≡ self.old.outside.ghost_name }
        ensures same_log { self.new.log_name.now ≡ self.old.log_name.now }
    {
        match self.outside.append(self.log_name, piece) {
            Ok(()) => Ok(()),
            Err(IoErr::Failed) => Err(Failure::LogFault),
            Err(IoErr::NoMemory) => Err(Failure::NoMemory),
        }
    }

    /// Makes the log, with the head for batches of this size, 1 to 65,536 rows.
    ///
    /// # Errors
    ///
    /// `LogFault` where a write failed: the file is as before, absent, or has a front part of the head. `NoMemory`: it is as
    /// before or empty.
    pub fn create_log(&mut self, batch_size: u32) -> Result<(), Failure>
        requires { IsBatch batch_size }
        ensures makes { MakesFile result
            (record { name = self.old.log_name.now; bytes = head_text batch_size })
            (W.world self.old.outside.now) (W.world self.new.outside.now) }
        ensures only { WritesOnly (W.world self.old.outside.now) (W.world self.new.outside.now) }
        ensures there { IfOk result (λ made.
            IsThere (W.world self.new.outside.now).files self.old.log_name.now) }
        ensures counted { Counted result (W.world self.old.outside.now)
            (W.world self.new.outside.now) }
        ensures held { W.held self.new.outside.now ≡ W.held self.old.outside.now }
        ensures same_outside { self.new.outside.ghost_name ≡ self.old.outside.ghost_name }
        ensures same_log { self.new.log_name.now ≡ self.old.log_name.now }
    {
        self.create()?;
        let head = write_head(self.alloc, batch_size)?;
        self.append(head.as_slice())
    }

    /// Puts a reply to which no item belongs, in one call.
    ///
    /// # Errors
    ///
    /// `OutFault` where the put failed: the sink got a front part of the reply. `NoMemory`: it got nothing.
    pub fn answer(&mut self, reply: &[u8]) -> Result<(), Failure>
        ensures sent { Sent result reply.now (W.world self.old.outside.now)
            (W.world self.new.outside.now) }
        ensures only { PutsOnly (W.world self.old.outside.now) (W.world self.new.outside.now) }
        ensures counted { Counted result (W.world self.old.outside.now)
            (W.world self.new.outside.now) }
        ensures held { W.held self.new.outside.now ≡ W.held self.old.outside.now }
        ensures same_outside { self.new.outside.ghost_name ≡ self.old.outside.ghost_name }
        ensures same_log { self.new.log_name.now ≡ self.old.log_name.now }
    {
        put_output(self.outside, reply)
    }

    /// Writes what was done into the log, the text of an item or of several, and then puts the reply, each in one call.
    ///
    /// # Errors
    ///
    /// `LogFault` where the write failed: the log has a front part of the text, and nothing was put. `OutFault` where the put
    /// failed: the sink got a front part of the reply. `NoMemory`: nothing was written, or all, and nothing was put.
    pub fn report(&mut self, done: &Done) -> Result<(), Failure>
        requires there { IsThere (W.world self.old.outside.now).files self.old.log_name.now }
        ensures reports { ReportsItem result (record { name = self.old.log_name.now; done = done.now })
            (W.world self.old.outside.now) (W.world self.new.outside.now) }
        ensures there { IfOk result (λ done.
            IsThere (W.world self.new.outside.now).files self.old.log_name.now) }
        ensures counted { Counted result (W.world self.old.outside.now)
            (W.world self.new.outside.now) }
        ensures held { W.held self.new.outside.now ≡ W.held self.old.outside.now }
        ensures same_outside { self.new.outside.ghost_name ≡ self.old.outside.ghost_name }
        ensures same_log { self.new.log_name.now ≡ self.old.log_name.now }
    {
        self.append(done.item.get())?;
        self.answer(done.reply.get())
    }

    /// Does a command, and gives back the rows that its reply has, if any: its item is written into the log, and then
    /// its reply is put, each in one call.
    ///
    /// # Errors
    ///
    /// `LogFault` where the item was not written, and `OutFault` where the reply was not put; `Long` for a leg that was
    /// too long, which is logged before the error returns. After `NoMemory` the item may stand in the log.
    pub fn do_command(
        &mut self,
        debugger: &mut Debugger,
        command: &Command,
    ) -> Result<Option<Rows>, Failure>
        requires fits { fits_of debugger.old.flow command.now ≡ true }
        requires scripted { (is_scripted command.now ≡ true) ⊎ (command.now ≡ Command.End) }
        requires open { MayFollow debugger.old.log }
        requires there { IsThere (W.world self.old.outside.now).files self.old.log_name.now }
        ensures performs { Performs result (record {
          name = self.old.log_name.now;
          command = command.now;
          old = debugger.old;
          new = debugger.new;
          before = W.world self.old.outside.now;
          after = W.world self.new.outside.now;
        }) }
        ensures was_legal { IsLegal (query_in debugger.old) debugger.old.log }
        ensures legal { IsLegal (query_in debugger.new) debugger.new.log }
        ensures open { IfOk result
            (λ rows. command.now ≢ Command.End → MayFollow debugger.new.log) }
        ensures there { IfOk result (λ rows.
            IsThere (W.world self.new.outside.now).files self.old.log_name.now) }
        ensures counted { Counted result (W.world self.old.outside.now)
            (W.world self.new.outside.now) }
        ensures held { W.held self.new.outside.now ≡ W.held self.old.outside.now }
        ensures same_outside { self.new.outside.ghost_name ≡ self.old.outside.ghost_name }
        ensures same_log { self.new.log_name.now ≡ self.old.log_name.now }
    {
        match debugger.command(self.rt, self.alloc, command, self.gate) {
            Ok(done) => {
                self.report(&done)?;
                Ok(done.rows)
            }
            Err(DebugErr::Long { item }) => {
                self.append(item.get())?;
                Err(Failure::Long)
            }
            Err(DebugErr::Spent | DebugErr::NoMemory) => Err(Failure::NoMemory),
        }
    }
}
