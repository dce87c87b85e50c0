//! The runs of a session's case. Over `run_session`, on the source in memory of `amber_io`.

use amber_io::{MemFolder, MemSink, MemSource, Numbers};
use amber_mail::OpenGate;
use amber_session::{Status, run_session};
use std::alloc::{AllocError, Global};
use std::thread::Threads;

/// The name of the file whose bytes a session reads.
const INPUT: &str = "input";

// A number that a word is, or 0.
fn number(word: &str) -> u64 {
    match word.parse::<u64>() {
        Ok(number) => number,
        Err(_) => 0,
    }
}

// The source of a session: the bytes of its input, in pieces of this size or in one, where the read of this number fails.
fn source(
    alloc: Global,
    folder: &MemFolder,
    piece: &str,
    failing: &str,
) -> Result<MemSource, AllocError> {
    let bytes = Vec::from_slice(alloc, folder.read(INPUT).unwrap_or(b""))?;
    let fails = Numbers::new(Vec::from_slice(alloc, &[number(failing)])?);
    let piece = match number(piece) {
        0 => u32::MAX,
        some if some > u64::from(u32::MAX) => u32::MAX,
        some => some as u32,
    };
    Ok(MemSource::new(bytes, piece, fails))
}

/// Runs a session: the first word says how many bytes a read gives, 0 for as many as there are, the second which read
/// fails, 0 for none; the others are the session's own.
pub fn call_session<R: Threads + Sync>(
    rt: &R,
    alloc: Global,
    words: &[String],
    folder: &mut MemFolder,
    out: &mut MemSink,
) -> Status {
    let [piece, failing, words @ ..] = words else {
        return Status::Usage;
    };
    match source(alloc, folder, piece, failing) {
        Ok(mut source) => run_session(rt, alloc, words, folder, &mut source, out, &OpenGate),
        Err(_) => Status::NoMemory,
    }
}
