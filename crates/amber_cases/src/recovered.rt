//! The run that is recovered from the log of one that has ended: it has to print the same, and to write the same log. Over
//! `LeftLog`.

use crate::left_log::{LeftLog, printed_difference};
use amber_case_text::compare_bytes;
use amber_io::MemFolder;
use std::alloc::{AllocError, Global};
use std::thread::Threads;

// The log that a recovered run writes; no case has a file of this name.
const RECOVERED_LOG: &str = "recovered log";

/// How a run that is recovered from a log in the folder differs from the run that has left it and printed this.
pub fn recover_difference<R: Threads + Sync>(
    rt: &R,
    alloc: Global,
    left: LeftLog<'_>,
    folder: &mut MemFolder,
    printed: &[u8],
) -> Result<Option<String>, AllocError> {
    let log = Vec::from_slice(alloc, folder.read(left.log).unwrap_or(b""))?;
    let words = [
        "recover",
        left.workflow,
        left.script,
        left.log,
        RECOVERED_LOG,
        left.threads,
    ];
    let what = "recovery from its log";
    if let Some(found) = printed_difference(rt, alloc, what, &words, folder, printed)? {
        return Ok(Some(found));
    }
    let what = "the log after the recovery from it";
    if let Some(found) = log_difference(alloc, what, folder.read(left.log), &log)? {
        return Ok(Some(found));
    }
    let what = "the log of the recovery from its log";
    log_difference(alloc, what, folder.read(RECOVERED_LOG), &log)
}

// How a log differs from the one that a run has left; `what` is the log in words.
fn log_difference(
    alloc: Global,
    what: &str,
    found: Option<&[u8]>,
    wanted: &[u8],
) -> Result<Option<String>, AllocError> {
    let Some(found) = found else {
        return Ok(Some(format!(in alloc; "{what} is not there")?));
    };
    match compare_bytes(wanted, found) {
        Ok(()) => Ok(None),
        Err(line) => Ok(Some(format!(in alloc; "in {what} {line}")?)),
    }
}
