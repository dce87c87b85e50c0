//! A session from its first word to its end: its lines come from a source.
//! Rests on `Dialogue` and on `Source`.

ghost use Rattle.std.specs.Prelude.{◌≡◌, IfErr, IfOk, map, string_bytes};
ghost use Rattle.amber_io.specs.Folder.{IsThere, Told};
ghost use Rattle.amber_io.specs.World.{PutsOnly};
ghost use Rattle.amber_course.specs.Failure.{IsToldAs};
ghost use Rattle.amber_course.specs.Told.{Refuses};
ghost use Rattle.amber_session.specs.Beginning.{IsSessionLoad};
ghost use Rattle.amber_session.specs.Dialogue.{IsGoing};
ghost use Rattle.amber_session.specs.Running.{Concludes, FeedsAll, FeedsNext, GivesPiece, HaltCounted, HaltNames, HaltWorded, IsComplete, IsPieceless, ReadCounted, DoesSession, RunsSession, failure_of};

use crate::dialogue::Dialogue;
use crate::halt::Halt;
use amber_course::{Failure, InputFault, Status, refuse, refuse_input};
use amber_io::{Folder, FolderAndSink, IoErr, Outside, Sink, Source};
use amber_mail::Gate;
use std::alloc::Global;
use std::thread::Threads;

// How many bytes are read at once, at most.
const MOST_READ: u32 = 1 << 16;

// The next bytes of the source, none at its end.
fn read_piece<S: Source>(alloc: Global, source: &mut S) -> Result<Vec<u8>, Halt>
    ensures gives { GivesPiece result
        (record { left = S.left source.old; faults = S.faults source.old })
        (record { left = S.left source.new; faults = S.faults source.new }) }
    ensures pieceless { IfErr result IsPieceless }
    ensures counted { ReadCounted result
        (record { left = S.left source.old; faults = S.faults source.old })
        (record { left = S.left source.new; faults = S.faults source.new }) }
{
    match source.read(alloc, MOST_READ) {
        Ok(piece) => Ok(piece),
        Err(IoErr::Failed) => Err(Halt::Input(InputFault::Unread)),
        Err(IoErr::NoMemory) => Err(Halt::Failure(Failure::NoMemory)),
    }
}

// Feeds the next bytes of the source, and tells whether there were some.
fn feed_piece<R: Threads + Sync, G: Gate + Sync, S: Source, W: Outside>(
    rt: &R,
    dialogue: &mut Dialogue,
    source: &mut S,
    outside: &mut W,
    gate: &G,
) -> Result<bool, Halt>
    requires going { IsGoing dialogue.old }
    requires there { IsThere (W.world outside.old).files dialogue.old.log_name }
    ensures feeds { FeedsNext result
        (record {
          old = dialogue.old;
          new = dialogue.new;
          before = record {
            world = W.world outside.old;
            supply = record { left = S.left source.old; faults = S.faults source.old };
          };
          after = record {
            world = W.world outside.new;
            supply = record { left = S.left source.new; faults = S.faults source.new };
          };
        }) }
    ensures reads { ReadCounted result
        (record { left = S.left source.old; faults = S.faults source.old })
        (record { left = S.left source.new; faults = S.faults source.new }) }
    ensures going { IfOk result (λ more. IsGoing dialogue.new) }
    ensures name { dialogue.new.log_name ≡ dialogue.old.log_name }
    ensures there { IfOk result (λ more.
        IsThere (W.world outside.new).files dialogue.old.log_name) }
    ensures counted { HaltCounted result (W.world outside.old) (W.world outside.new) }
    ensures held { W.held outside.new ≡ W.held outside.old }
{
    let piece = read_piece(dialogue.alloc, source)?;
    if piece.is_empty() {
        return Ok(false);
    }
    if !dialogue.has_room(piece.as_slice()) {
        return Err(Halt::Input(InputFault::Large));
    }
    dialogue.feed(rt, piece.as_slice(), outside, gate)?;
    Ok(true)
}

// Feeds the bytes of the source up to its end.
fn feed_all<R: Threads + Sync, G: Gate + Sync, S: Source, W: Outside>(
    rt: &R,
    dialogue: &mut Dialogue,
    source: &mut S,
    outside: &mut W,
    gate: &G,
) -> Result<(), Halt>
    requires going { IsGoing dialogue.old }
    requires there { IsThere (W.world outside.old).files dialogue.old.log_name }
    ensures feeds { FeedsAll result
        (record {
          old = dialogue.old;
          new = dialogue.new;
          before = record {
            world = W.world outside.old;
            supply = record { left = S.left source.old; faults = S.faults source.old };
          };
          after = record {
            world = W.world outside.new;
            supply = record { left = S.left source.new; faults = S.faults source.new };
          };
        }) }
    ensures reads { ReadCounted result
        (record { left = S.left source.old; faults = S.faults source.old })
        (record { left = S.left source.new; faults = S.faults source.new }) }
    ensures going { IfOk result (λ done. IsGoing dialogue.new) }
    ensures name { dialogue.new.log_name ≡ dialogue.old.log_name }
    ensures there { IfOk result (λ done.
        IsThere (W.world outside.new).files dialogue.old.log_name) }
    ensures counted { HaltCounted result (W.world outside.old) (W.world outside.new) }
    ensures held { W.held outside.new ≡ W.held outside.old }
{
    let mut more = true;
    while more {
        more = feed_piece(rt, dialogue, source, outside, gate)?;
    }
    Ok(())
}

// A session, up to the line that reports a failure.
fn do_session<R: Threads + Sync, G: Gate + Sync, S: Source, W: Outside>(
    rt: &R,
    alloc: Global,
    words: &[String],
    outside: &mut W,
    source: &mut S,
    gate: &G,
) -> Result<(), Halt>
    ensures ran { DoesSession result (map string_bytes words.now)
        (record {
          world = W.world outside.old;
          supply = record { left = S.left source.old; faults = S.faults source.old };
        })
        (record {
          world = W.world outside.new;
          supply = record { left = S.left source.new; faults = S.faults source.new };
        }) }
    ensures words { HaltWorded result (map string_bytes words.now) }
    ensures named { Told (W.world outside.old).files (λ files.
        HaltNames result (IsSessionLoad (map string_bytes words.now) files)) }
    ensures reads { ReadCounted result
        (record { left = S.left source.old; faults = S.faults source.old })
        (record { left = S.left source.new; faults = S.faults source.new }) }
    ensures counted { HaltCounted result
        (record (W.world outside.old) { loads = (W.world outside.new).loads })
        (W.world outside.new) }
    ensures held { W.held outside.new ≡ W.held outside.old }
{
    let mut dialogue = Dialogue::start(rt, alloc, words, outside)?;
    feed_all(rt, &mut dialogue, source, outside, gate)?;
    dialogue.finish(rt, outside, gate)?;
    Ok(())
}

// Puts the line that reports why a session ended early, and answers the status.
fn refuse_halt<W: Outside>(outside: &mut W, halt: &Halt) -> Status
    ensures refuses { Refuses result (failure_of halt.now)
        (W.world outside.old) (W.world outside.new) }
    ensures told { IsToldAs (failure_of halt.now) result }
    ensures only { PutsOnly (W.world outside.old) (W.world outside.new) }
    ensures held { W.held outside.new ≡ W.held outside.old }
{
    match halt {
        Halt::Failure(failure) => refuse(outside, failure),
        Halt::Input(fault) => refuse_input(outside, *fault),
    }
}

// Tells how a session has ended: where it ended early its line is put.
fn conclude<W: Outside>(outside: &mut W, done: Result<(), Halt>) -> Status
    ensures concludes { Concludes done result (W.world outside.old) (W.world outside.new) }
    ensures held { W.held outside.new ≡ W.held outside.old }
{
    match done {
        Ok(()) => Status::Ok,
        Err(halt) => refuse_halt(outside, &halt),
    }
}

// The same as `run_session`, over what is outside as one.
fn run_outside<R: Threads + Sync, G: Gate + Sync, S: Source, W: Outside>(
    rt: &R,
    alloc: Global,
    words: &[String],
    outside: &mut W,
    source: &mut S,
    gate: &G,
) -> Status
    ensures runs { RunsSession (map string_bytes words.now) result
        (record {
          world = W.world outside.old;
          supply = record { left = S.left source.old; faults = S.faults source.old };
        })
        (record {
          world = W.world outside.new;
          supply = record { left = S.left source.new; faults = S.faults source.new };
        }) }
    ensures held { W.held outside.new ≡ W.held outside.old }
{
    let done = do_session(rt, alloc, words, outside, source, gate);
    conclude(outside, done)
}

/// Runs a session by the words `WORKFLOW LOG THREADS BATCH`: the same order of work as `Session::start`; then the bytes of
/// `source` are read and fed, piece by piece, up to their end, and the session is finished.
///
/// The first refusal ends the call. After one other than `OutFault` a line is put that reports it, in pieces and without
/// taking memory; after a put that was refused nothing more is put. No file but LOG is changed.
///
/// # Errors
///
/// `ReadFault` also where a read of the source failed, and `TooLarge` also where it had more than 1,048,576 bytes; both
/// are reported as those of a file `input`. `NoMemory` may come at any point, and may then stand in for any other refusal
/// but `OutFault`.
pub fn run_session<R: Threads + Sync, F: Folder, S: Source, O: Sink, G: Gate + Sync>(
    rt: &R,
    alloc: Global,
    words: &[String],
    folder: &mut F,
    source: &mut S,
    out: &mut O,
    gate: &G,
) -> Status
    ensures runs { RunsSession (map string_bytes words.now) result
        (record {
          world = record {
            files = F.files folder.old;
            got = O.written out.old;
            loads = F.load_faults folder.old;
            writes = F.write_faults folder.old;
            puts = O.faults out.old;
          };
          supply = record { left = S.left source.old; faults = S.faults source.old };
        })
        (record {
          world = record {
            files = F.files folder.new;
            got = O.written out.new;
            loads = F.load_faults folder.new;
            writes = F.write_faults folder.new;
            puts = O.faults out.new;
          };
          supply = record { left = S.left source.new; faults = S.faults source.new };
        }) }
    ensures complete { IsComplete (map string_bytes words.now) result
        (record {
          world = record {
            files = F.files folder.old;
            got = O.written out.old;
            loads = F.load_faults folder.old;
            writes = F.write_faults folder.old;
            puts = O.faults out.old;
          };
          supply = record { left = S.left source.old; faults = S.faults source.old };
        })
        (record {
          world = record {
            files = F.files folder.new;
            got = O.written out.new;
            loads = F.load_faults folder.new;
            writes = F.write_faults folder.new;
            puts = O.faults out.new;
          };
          supply = record { left = S.left source.new; faults = S.faults source.new };
        }) }
{
    let mut outside = FolderAndSink::new(folder, out);
    run_outside(rt, alloc, words, &mut outside, source, gate)
}
