//! What the words of a call ask for.
//! Rests on `read_number`.

ghost use Rattle.std.specs.Prelude.{◌≡◌, ◌<◌, ◌≤◌, map, string_bytes, IfOk, IfSome, Some};
ghost use Rattle.amber_course.specs.Steps.{AreRead};
ghost use Rattle.amber_script.specs.Numbers.{number_up_to};
ghost use Rattle.amber_course.specs.Words.{AreSizes, AreSound, call_words_of, recover_words, replay_words, run_words, sizes_of};

use crate::failure::Failure;
use amber_rows::Text;
use amber_script::numbers::read_number;
use std::alloc::Global;

// How many threads a run may have.
const MOST_THREADS: u64 = 64;

// How many rows a batch may have.
const MOST_BATCH: u64 = 65_536;

/// The words of a run: the names of its workflow, its script and its log, on how many threads it works, from 1 to
/// 64, and how many rows a batch has, from 1 to 65,536.
#[derive(Drop)]
pub struct RunWords {
    pub workflow: Text,
    pub script: Text,
    pub log: Text,
    pub threads: u32,
    pub batch_size: u32,
}

/// The words of a replay: the names of its workflow and of its log.
#[derive(Drop)]
pub struct ReplayWords {
    pub workflow: Text,
    pub log: Text,
}

/// The words of a recovery: the names of its workflow, its script, the log from which it goes on and the log that it
/// writes, and on how many threads it works, from 1 to 64.
#[derive(Drop)]
pub struct RecoverWords {
    pub workflow: Text,
    pub script: Text,
    pub old_log: Text,
    pub log: Text,
    pub threads: u32,
}

/// What the words of a call ask for.
#[derive(Drop)]
pub enum Words {
    /// To print the answer of the workflow in the file of this name.
    Plain { workflow: Text },
    /// To do a run and to write its log.
    Run(RunWords),
    /// To print the transcript that a log tells.
    Replay(ReplayWords),
    /// To go on with a run from its log, and to write it anew.
    Recover(RecoverWords),
}

// The words after `plain`.
fn read_plain(alloc: Global, workflow: &str) -> Result<Words, Failure>
    ensures read { AreRead result (Some (Words.Plain workflow.now)) }
    ensures sound { IfOk result AreSound }
{
    let workflow = Text::new(alloc, workflow)?;
    Ok(Words::Plain { workflow })
}

/// On how many threads a run works, from 1 to 64, and how many rows a batch has, from 1 to 65,536.
#[derive(Clone, Copy)]
pub(crate) struct Sizes {
    pub threads: u32,
    pub batch_size: u32,
}

/// The two numbers, where they are written as they must be and are in their ranges.
pub(crate) fn read_sizes(threads: &str, batch_size: &str) -> Option<Sizes>
    ensures read { result
        ≡ sizes_of (number_up_to 64 threads.now) (number_up_to 65536 batch_size.now) }
    ensures sound { IfSome result (λ sizes. AreSizes sizes.threads sizes.batch_size) }
{
    let threads = read_number(threads, MOST_THREADS)?;
    let batch_size = read_number(batch_size, MOST_BATCH)?;
    Some(Sizes {
        threads: threads as u32,
        batch_size: batch_size as u32,
    })
}

// The words after `run`.
fn read_run(
    alloc: Global,
    workflow: &str,
    script: &str,
    log: &str,
    threads: &str,
    batch_size: &str,
) -> Result<Words, Failure>
    ensures read { AreRead result
        (run_words workflow.now script.now log.now (number_up_to 64 threads.now)
        (number_up_to 65536 batch_size.now)) }
    ensures sound { IfOk result AreSound }
{
    let Some(sizes) = read_sizes(threads, batch_size) else {
        return Err(Failure::Usage);
    };
    if log == workflow || log == script {
        return Err(Failure::Usage);
    }
    Ok(Words::Run(RunWords {
        workflow: Text::new(alloc, workflow)?,
        script: Text::new(alloc, script)?,
        log: Text::new(alloc, log)?,
        threads: sizes.threads,
        batch_size: sizes.batch_size,
    }))
}

// The words after `replay`.
fn read_replay(alloc: Global, workflow: &str, log: &str) -> Result<Words, Failure>
    ensures read { AreRead result (replay_words workflow.now log.now) }
    ensures sound { IfOk result AreSound }
{
    if log == workflow {
        return Err(Failure::Usage);
    }
    Ok(Words::Replay(ReplayWords {
        workflow: Text::new(alloc, workflow)?,
        log: Text::new(alloc, log)?,
    }))
}

// The words after `recover`.
fn read_recover(
    alloc: Global,
    workflow: &str,
    script: &str,
    old_log: &str,
    log: &str,
    threads: &str,
) -> Result<Words, Failure>
    ensures read { AreRead result
        (recover_words workflow.now script.now old_log.now log.now
        (number_up_to 64 threads.now)) }
    ensures sound { IfOk result AreSound }
{
    let Some(threads) = read_number(threads, MOST_THREADS) else {
        return Err(Failure::Usage);
    };
    if log == workflow || log == script || log == old_log {
        return Err(Failure::Usage);
    }
    Ok(Words::Recover(RecoverWords {
        workflow: Text::new(alloc, workflow)?,
        script: Text::new(alloc, script)?,
        old_log: Text::new(alloc, old_log)?,
        log: Text::new(alloc, log)?,
        threads: threads as u32,
    }))
}

/// Reads the words after the program's name.
#[tactic(auto, unfolding(crate::specs::Words::call_words_of))]
pub fn read_words(alloc: Global, words: &[String]) -> Result<Words, Failure>
    ensures read { AreRead result (call_words_of (map string_bytes words.now)) }
    ensures sound { IfOk result AreSound }
{
    match words {
        [form, workflow] if form.as_str() == "plain" => read_plain(alloc, workflow.as_str()),
        [form, workflow, log] if form.as_str() == "replay" => {
            read_replay(alloc, workflow.as_str(), log.as_str())
        }
        [form, workflow, script, log, threads, batch_size] if form.as_str() == "run" => read_run(
            alloc,
            workflow.as_str(),
            script.as_str(),
            log.as_str(),
            threads.as_str(),
            batch_size.as_str(),
        ),
        [form, workflow, script, old_log, log, threads] if form.as_str() == "recover" => {
            read_recover(
                alloc,
                workflow.as_str(),
                script.as_str(),
                old_log.as_str(),
                log.as_str(),
                threads.as_str(),
            )
        }
        _ => Err(Failure::Usage),
    }
}
