//! A session as its caller sees it: the first refusal is the answer to all later calls.
//! Rests on `Dialogue`.

ghost use Rattle.std.specs.Prelude.{◌≡◌, None, false, true, map, string_bytes};
ghost use Rattle.amber_io.specs.Folder.{IsThere};
ghost use Rattle.amber_session.specs.Sessions.{FeedsPiece, FinishesAs, StartsSession};
ghost use Rattle.amber_session.specs.Told.{told_as};

use crate::dialogue::Dialogue;
use crate::start_err::StartErr;
use amber_course::{Failure, Status};
use amber_io::{Folder, FolderAndSink, IoErr, Sink};
use amber_mail::Gate;
use std::alloc::Global;
use std::marker::Model;
use std::thread::Threads;

/// A run to whose debugger lines are fed, seen as `Talking`.
#[derive(Drop)]
pub struct Session {
    dialogue: Dialogue,
    refused: Option<Status>,
    finished: bool,
}

impl Model for Session {
    ghost use Rattle.amber_session.specs.Sessions.{Talking};

    ghost Value = { Talking };

    ghost view = { λ a. record {
      run = a.dialogue.debugger;
      name = a.dialogue.log_name;
      fed = a.dialogue.input.bytes.items;
      refused = a.refused;
      finished = a.finished;
    } };

    ghost use Rattle.std.specs.Prelude.{◌≡◌, None, false};
    ghost use Rattle.amber_session.specs.Dialogue.{IsGoing};

    // Until a call is refused, or the session is finished, all that was fed is read.
    ghost invariant = { λ a. a.refused ≡ None → a.finished ≡ false → IsGoing a.dialogue };
}

// A sink that is handed in where nothing is put.
#[derive(Drop)]
struct NoSink;

impl Sink for NoSink {
    ghost written = { λ _. None };

    ghost faults = { λ _. 0 };

    fn put(&mut self, _bytes: &[u8]) -> Result<(), IoErr> {
        Ok(())
    }
}

// What came of a call, told by its status.
fn told(done: Result<(), Failure>) -> Result<(), Status>
    ensures { result ≡ told_as done }
{
    match done {
        Ok(()) => Ok(()),
        Err(failure) => Err(failure.status()),
    }
}

impl Session {
    /// Begins a session by the words `WORKFLOW LOG THREADS BATCH`: the words are read, the workflow is loaded and read,
    /// LOG is compared with the scans' files, each scan's file is loaded and its header compared, and LOG is made, with
    /// its head. THREADS is 1 to 64, and BATCH, the rows of a batch, 1 to 65,536, in decimal without leading zeros.
    ///
    /// # Errors
    ///
    /// The first refusal in this order: `Usage`, `BadFlow`, `ReadFault`, `TooLarge` or `LogFault`, with its error line.
    /// `NoMemory` may come at any point, and has no line.
    pub fn start<R: Threads + Sync, F: Folder>(
        rt: &R,
        alloc: Global,
        words: &[String],
        folder: &mut F,
    ) -> Result<Session, StartErr>
        ensures starts { StartsSession result (map string_bytes words.now)
            (record {
              files = F.files folder.old;
              got = None;
              loads = F.load_faults folder.old;
              writes = F.write_faults folder.old;
              puts = 0;
            })
            (record {
              files = F.files folder.new;
              got = None;
              loads = F.load_faults folder.new;
              writes = F.write_faults folder.new;
              puts = 0;
            }) }
    {
        let mut sink = NoSink;
        let mut outside = FolderAndSink::new(folder, &mut sink);
        match Dialogue::start(rt, alloc, words, &mut outside) {
            Ok(dialogue) => Ok(Session {
                dialogue,
                refused: None,
                finished: false,
            }),
            Err(failure) => Err(StartErr::of(alloc, &failure)),
        }
    }

    /// Feeds the next bytes: each line that they end is answered before the next one is read. A command is done, its item
    /// is appended to LOG in one call, and then its reply is put in one call; a line that is refused is told its number
    /// and the reason; blank lines and comments are skipped. How the bytes are cut into pieces changes nothing. `folder`
    /// holds the LOG that the session has made.
    ///
    /// # Errors
    ///
    /// `LogFault` where the item of a command was not written, `OutFault` where a reply was not put, `Long` where a leg
    /// came to 2^40 steps, `TooLarge` where more than 1,048,576 bytes were fed in all, and then nothing of this piece is
    /// done, and `NoMemory`. Each later call answers the first refusal and does nothing else.
    pub fn feed<R: Threads + Sync, F: Folder, O: Sink, G: Gate + Sync>(
        &mut self,
        rt: &R,
        piece: &[u8],
        folder: &mut F,
        out: &mut O,
        gate: &G,
    ) -> Result<(), Status>
        requires open { self.old.finished ≡ false }
        requires there { IsThere (F.files folder.old) self.old.name }
        ensures feeds { FeedsPiece self.old.refused result
            (record {
              old = self.old;
              new = self.new;
              before = record {
                files = F.files folder.old;
                got = O.written out.old;
                loads = F.load_faults folder.old;
                writes = F.write_faults folder.old;
                puts = O.faults out.old;
              };
              after = record {
                files = F.files folder.new;
                got = O.written out.new;
                loads = F.load_faults folder.new;
                writes = F.write_faults folder.new;
                puts = O.faults out.new;
              };
            }) piece.now }
        ensures name { self.new.name ≡ self.old.name }
        ensures open { self.new.finished ≡ false }
    {
        if let Some(first) = self.refused {
            return Err(first);
        }
        if !self.dialogue.has_room(piece) {
            self.refused = Some(Status::TooLarge);
            return Err(Status::TooLarge);
        }
        let mut outside = FolderAndSink::new(folder, out);
        let result = told(self.dialogue.feed(rt, piece, &mut outside, gate));
        self.refused = result.err();
        result
    }

    /// Ends the session: the last line is answered, if it lacks its line feed, and the run goes to its end. Nothing may be
    /// fed afterwards.
    ///
    /// # Errors
    ///
    /// As `feed`, but for `TooLarge`.
    pub fn finish<R: Threads + Sync, F: Folder, O: Sink, G: Gate + Sync>(
        &mut self,
        rt: &R,
        folder: &mut F,
        out: &mut O,
        gate: &G,
    ) -> Result<(), Status>
        requires open { self.old.finished ≡ false }
        requires there { IsThere (F.files folder.old) self.old.name }
        ensures finishes { FinishesAs self.old.refused result
            (record {
              old = self.old;
              new = self.new;
              before = record {
                files = F.files folder.old;
                got = O.written out.old;
                loads = F.load_faults folder.old;
                writes = F.write_faults folder.old;
                puts = O.faults out.old;
              };
              after = record {
                files = F.files folder.new;
                got = O.written out.new;
                loads = F.load_faults folder.new;
                writes = F.write_faults folder.new;
                puts = O.faults out.new;
              };
            }) }
        ensures name { self.new.name ≡ self.old.name }
        ensures fed { self.new.fed ≡ self.old.fed }
        ensures finished { self.new.finished ≡ true }
    {
        self.finished = true;
        if let Some(first) = self.refused {
            return Err(first);
        }
        let mut outside = FolderAndSink::new(folder, out);
        let result = told(self.dialogue.finish(rt, &mut outside, gate));
        self.refused = result.err();
        result
    }
}
