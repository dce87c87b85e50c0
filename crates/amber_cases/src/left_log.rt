//! The log that a run has left: what was asked of the run, asked again of its log. Over `amber` of `amber_run`.

use amber_case_text::compare_bytes;
use amber_io::{Fails, MemFolder, MemSink, Numbers};
use amber_mail::OpenGate;
use amber_run::{Printed, Status, amber};
use std::alloc::{AllocError, Global};
use std::thread::Threads;

/// The log of a run, and what the run was asked with.
#[derive(Clone, Copy)]
pub struct LeftLog<'a> {
    pub workflow: &'a str,
    pub script: &'a str,
    pub log: &'a str,
    pub threads: &'a str,
}

/// The log that a run with these words has left, if they asked for one.
pub fn left_log(words: &[String]) -> Option<LeftLog<'_>> {
    match words {
        [form, workflow, script, log, threads, _batch] if form.as_str() == "run" => {
            Some(LeftLog {
                workflow: workflow.as_str(),
                script: script.as_str(),
                log: log.as_str(),
                threads: threads.as_str(),
            })
        }
        [form, workflow, script, _old, log, threads] if form.as_str() == "recover" => {
            Some(LeftLog {
                workflow: workflow.as_str(),
                script: script.as_str(),
                log: log.as_str(),
                threads: threads.as_str(),
            })
        }
        _ => None,
    }
}

// A sink that takes all.
fn open_sink(alloc: Global) -> MemSink {
    MemSink::new(
        alloc,
        Fails {
            loads: Numbers::new(Vec::new(alloc)),
            writes: Numbers::new(Vec::new(alloc)),
            puts: Numbers::new(Vec::new(alloc)),
            keep: 0,
        },
    )
}

// The words of a call.
fn call_words(alloc: Global, written: &[&str]) -> Result<Vec<String>, AllocError> {
    let mut words = Vec::new(alloc);
    for word in written {
        words.push(String::from_str(alloc, word)?)?;
    }
    Ok(words)
}

/// How what a call with these words prints differs from what the run has printed; `what` is the call in words.
pub fn printed_difference<R: Threads + Sync>(
    rt: &R,
    alloc: Global,
    what: &str,
    words: &[&str],
    folder: &mut MemFolder,
    printed: &[u8],
) -> Result<Option<String>, AllocError> {
    let words = call_words(alloc, words)?;
    let mut out = open_sink(alloc);
    let mut rows = Printed::new();
    let status = amber(
        rt,
        alloc,
        words.as_slice(),
        folder,
        &mut out,
        &mut rows,
        &OpenGate,
    );
    if status != Status::Ok {
        let code = status.code();
        return Ok(Some(format!(in alloc; "the {what} has status {code}")?));
    }
    match compare_bytes(printed, out.bytes()) {
        Ok(()) => Ok(None),
        Err(line) => Ok(Some(format!(in alloc; "in the {what} {line}")?)),
    }
}
