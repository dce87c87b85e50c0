//! From the words of a session to its job: all that it needs before its first line is loaded and read, in
//! the order of work.
//! Rests on `read_sizes`, `load_run_flow` and `load_scans`.

ghost use Rattle.std.specs.Prelude.{◌≡◌, map, string_bytes, IfErr, IfOk};
ghost use Rattle.amber_io.specs.Folder.{Told};
ghost use Rattle.amber_io.specs.World.{LoadsOnly};
ghost use Rattle.amber_course.specs.SessionCourse.{IsSessionFile, session_of, session_with, session_words_of};
ghost use Rattle.amber_course.specs.Steps.{AreRead, Follows, Names};
ghost use Rattle.amber_course.specs.Words.{AreSizes};

use crate::failure::Failure;
use crate::inputs::Inputs;
use crate::log_name::load_run_flow;
use crate::scans::load_scans;
use crate::words::read_sizes;
use amber_io::Outside;
use amber_rows::Text;
use std::alloc::Global;

/// The words of a session: the names of its workflow and its log, on how many threads it works, from 1 to 64,
/// and how many rows a batch has, from 1 to 65,536.
#[derive(Drop)]
pub struct SessionWords {
    pub workflow: Text,
    pub log: Text,
    pub threads: u32,
    pub batch_size: u32,
}

/// What a session is to do: the workflow over the files of its scans, by commands that come one after the
/// other, with what was done written into the log of this name; on `threads` threads, from 1 to 64, with
/// `batch_size` rows in a batch, from 1 to 65,536.
#[derive(Drop)]
pub struct SessionJob {
    pub inputs: Inputs,
    pub log: Text,
    pub threads: u32,
    pub batch_size: u32,
}

/// Reads the words of a session, `WORKFLOW LOG THREADS BATCH`.
///
/// # Errors
///
/// `Usage` where they are none: there are not four, a number is not in decimal without leading zeros or is
/// out of its range, or the log is the workflow. `NoMemory`.
#[tactic(auto, unfolding(crate::specs::SessionCourse::session_words_of))]
pub fn read_session_words(alloc: Global, words: &[String]) -> Result<SessionWords, Failure>
    ensures read { AreRead result (session_words_of (map string_bytes words.now)) }
    ensures sizes { IfOk result (λ words. AreSizes words.threads words.batch_size) }
{
    let [workflow, log, threads, batch_size] = words else {
        return Err(Failure::Usage);
    };
    let Some(sizes) = read_sizes(threads.as_str(), batch_size.as_str()) else {
        return Err(Failure::Usage);
    };
    if log.as_str() == workflow.as_str() {
        return Err(Failure::Usage);
    }
    Ok(SessionWords {
        workflow: Text::new(alloc, workflow.as_str())?,
        log: Text::new(alloc, log.as_str())?,
        threads: sizes.threads,
        batch_size: sizes.batch_size,
    })
}

/// The job of a session that words ask for, with all that is to be loaded and read for it.
pub fn prepare_session<W: Outside>(
    alloc: Global,
    words: SessionWords,
    outside: &mut W,
) -> Result<SessionJob, Failure>
    requires { AreSizes words.threads words.batch_size }
    ensures course { Follows result (session_of words) (W.world outside.old)
        (W.world outside.new) }
    ensures asked { IfOk result (λ job. job ≡ session_with words job.inputs) }
    ensures sizes { IfOk result (λ job. AreSizes job.threads job.batch_size) }
    ensures named { Told (W.world outside.old).files
        (λ files. IfErr result (λ failure. Names failure (IsSessionFile words files))) }
    ensures only { LoadsOnly (W.world outside.old) (W.world outside.new) }
    ensures held { W.held outside.new ≡ W.held outside.old }
{
    let SessionWords {
        workflow,
        log,
        threads,
        batch_size,
    } = words;
    let flow = load_run_flow(alloc, workflow.get(), log.get(), outside)?;
    let inputs = load_scans(alloc, flow, outside)?;
    Ok(SessionJob {
        inputs,
        log,
        threads,
        batch_size,
    })
}
