//! The top call: its words are read, their job is prepared and done, and a refusal is reported.
//! Rests on `amber_course` and on `do_job`.

ghost use Rattle.std.specs.Prelude.{◌≡◌, map, IfErr, string_bytes};
ghost use Rattle.amber_io.specs.Folder.{Told};
ghost use Rattle.amber_course.specs.Course.{IsReached};
ghost use Rattle.amber_course.specs.Steps.{Names};
ghost use Rattle.amber_course.specs.Words.{call_words_of};
ghost use Rattle.amber_run.specs.Outcome.{Answered, AsksNoRun, Runs, Worded, WroteNothing};
ghost use Rattle.amber_recorder.specs.Writing.{Counted};

use crate::job::do_job;
use crate::printed::Printed;
use amber_course::{Failure, Status, prepare, read_words, refuse};
use amber_io::{Folder, FolderAndSink, Outside, Sink};
use amber_mail::Gate;
use amber_rows::Rows;
use std::alloc::Global;
use std::thread::Threads;

// Does what the words say, up to the line that reports a failure, and gives back the rows that were
// printed last, if any.
fn do_call<R: Threads + Sync, G: Gate + Sync, W: Outside>(
    rt: &R,
    alloc: Global,
    words: &[String],
    outside: &mut W,
    gate: &G,
) -> Result<Option<Rows>, Failure>
    ensures ran { Runs result (map string_bytes words.now) (W.world outside.old)
        (W.world outside.new) }
    ensures named { Told (W.world outside.old).files (λ files.
        IfErr result (λ failure. Names failure (IsReached (map string_bytes words.now) files))) }
    ensures words { Worded result (map string_bytes words.now) }
    ensures counted { Counted result
        (record (W.world outside.old) { loads = (W.world outside.new).loads })
        (W.world outside.new) }
    ensures idle { AsksNoRun (call_words_of (map string_bytes words.now))
        → WroteNothing result (W.world outside.old) (W.world outside.new) }
    ensures held { W.held outside.new ≡ W.held outside.old }
{
    let words = read_words(alloc, words)?;
    let job = prepare(alloc, words, outside)?;
    do_job(rt, alloc, job, outside, gate)
}

/// Does what the words after the program's name say.
///
/// - `plain WORKFLOW` prints the answer of the workflow in that file over the files of its scans, and writes no
///   file.
/// - `run WORKFLOW SCRIPT LOG THREADS BATCH` runs the workflow by the commands of the script and then to its end,
///   writes each command with all that was done for it into the file LOG, and prints the replies. THREADS is 1 to
///   64, and BATCH, the rows of a batch, 1 to 65,536, in decimal without leading zeros. LOG is none of the other
///   files.
///
/// - `replay WORKFLOW LOG` does the log in the file LOG again, which is only read, and prints what its run has printed. What is
///   torn behind its whole items is left out. LOG is not WORKFLOW.
///
/// - `recover WORKFLOW SCRIPT OLDLOG LOG THREADS` goes on with a run from its log OLDLOG, which is only read: it writes OLDLOG's
///   whole items into LOG, prints what they have printed, and does the commands of the script behind theirs and runs to the end.
///   LOG is none of the other files.
///
/// The words are read, and the workflow is loaded and read; for all but `plain` LOG is compared with the scans' files; for a run
/// and a recovery the script is loaded and read; then each scan's file is loaded and its header compared; for `replay` and
/// `recover` the log is at last loaded, read and judged. `plain` computes the answer, over at most 2^40 rows of all operators,
/// and puts it in one call. A run makes LOG anew and appends its head in one call; then, for each command, the item is appended
/// in one call, and the reply is put in one call. A recovery does so too, with the items of OLDLOG in one call and their replies
/// in one call before the first command. A leg that comes to 2^40 steps is appended before the call ends with `Long`.
///
/// The workers of a run go side by side, on as many threads as THREADS says, and pass `gate` before each turn. How far
/// each of them is at a stop may depend on how the threads go; the log tells it, and the output is what follows from the
/// log. `plain` takes no thread.
///
/// The rows of an answer that was printed stay in `printed`, for the caller to drop.
///
/// The first refusal ends the call. After one other than `OutFault` a line is put that reports it, in pieces and
/// without taking memory; after a put that was refused nothing more is put. No file but LOG is changed.
///
/// # Errors
///
/// `NoMemory` may come at any point, and may then stand in for any other refusal but `OutFault`.
pub fn amber<R: Threads + Sync, F: Folder, O: Sink, G: Gate + Sync>(
    rt: &R,
    alloc: Global,
    words: &[String],
    folder: &mut F,
    out: &mut O,
    printed: &mut Printed,
    gate: &G,
) -> Status
    ensures { Answered (map string_bytes words.now) result
        (record {
          files = F.files folder.old;
          got = O.written out.old;
          loads = F.load_faults folder.old;
          writes = F.write_faults folder.old;
          puts = O.faults out.old;
        })
        (record {
          files = F.files folder.new;
          got = O.written out.new;
          loads = F.load_faults folder.new;
          writes = F.write_faults folder.new;
          puts = O.faults out.new;
        }) }
{
    let mut outside = FolderAndSink::new(folder, out);
    match do_call(rt, alloc, words, &mut outside, gate) {
        Ok(rows) => {
            printed.keep(rows);
            Status::Ok
        }
        Err(failure) => refuse(&mut outside, &failure),
    }
}
