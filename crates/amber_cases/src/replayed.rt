//! The log that a run has left, replayed: it has to tell what the run has printed. Over `LeftLog`.

use crate::left_log::{LeftLog, printed_difference};
use amber_io::MemFolder;
use std::alloc::{AllocError, Global};
use std::thread::Threads;

/// How what a log in the folder tells differs from what its run has printed.
pub fn replay_difference<R: Threads + Sync>(
    rt: &R,
    alloc: Global,
    left: LeftLog<'_>,
    folder: &mut MemFolder,
    printed: &[u8],
) -> Result<Option<String>, AllocError> {
    let words = ["replay", left.workflow, left.log];
    printed_difference(rt, alloc, "replay of its log", &words, folder, printed)
}
