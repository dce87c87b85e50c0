//! Where the lines of a text begin, noted on one thread or on several. Over `line_end` and `next_start` of `finding`.

ghost use Rattle.std.specs.Prelude.{◌≡◌, ◌^◌, ◌<◌, ◌≤◌, ◌++◌, length, IfOk, OnOk};
ghost use Rattle.std.specs.Thread.{IsSync};
ghost use Rattle.amber_cut.specs.Lines.{AreStarts, CanBegin, start_if_filled};

use crate::finding::{line_end, next_start};
use std::alloc::{AllocError, Global};
use std::thread::{Threads, join};

// Notes where a line of this length begins, if it has bytes.
fn note(starts: &mut Vec<u32>, start: usize, length: usize) -> Result<(), AllocError>
    requires { start < 2 ^ 32 }
    ensures { OnOk result (starts.new.items ≡ starts.old.items ++ start_if_filled start length) }
{
    if length == 0 {
        return Ok(());
    }
    starts.push(start as u32)?;
    Ok(())
}

// Where the lines begin that a text has from this place on, empty ones left out.
fn line_starts(alloc: Global, bytes: &[u8], from: usize) -> Result<Vec<u32>, AllocError>
    requires short { length bytes.now < 2 ^ 32 }
    requires within { from ≤ length bytes.now }
    ensures { IfOk result (λ starts. AreStarts bytes.now from starts.items) }
{
    let mut starts = Vec::new(alloc);
    let mut at = from;
    'lines: while at < bytes.len() {
        let end = line_end(&bytes[at..]);
        note(&mut starts, at, end)?;
        at += end + 1;
    }
    Ok(starts)
}

// Where a text is cut in two whose rest from this place on makes so many pieces, `low` of them in the first part: where
// a line begins behind as many equal shares of its bytes.
fn cut_place(bytes: &[u8], from: usize, low: usize, pieces: usize) -> usize
    requires within { from ≤ length bytes.now }
    requires less { low < pieces }
    ensures within { result ≤ length bytes.now }
    ensures later { from ≤ result }
    ensures begins { CanBegin bytes.now result }
{
    let share = (bytes.len() - from) / pieces;
    next_start(bytes, from + share * low)
}

/// Where the lines begin that a text has from this place on, empty ones left out. They are noted in so many pieces of
/// the text side by side, each on a thread of its own where threads can be had. A piece begins where a line does, so
/// that of a long line others may be empty. With one piece, or 0, no thread is started.
#[cycle(pieces)]
pub fn line_starts_on<R: Threads + Sync>(
    rt: &R,
    alloc: Global,
    bytes: &[u8],
    from: usize,
    pieces: usize,
) -> Result<Vec<u32>, AllocError>
    requires short { length bytes.now < 2 ^ 32 }
    requires within { from ≤ length bytes.now }
    ensures { IfOk result (λ starts. AreStarts bytes.now from starts.items) }
{
    if pieces <= 1 {
        return line_starts(alloc, bytes, from);
    }
    let low = pieces / 2;
    let high = pieces - low;
    let middle = cut_place(bytes, from, low, pieces);
    let before = &bytes[..middle];
    let front = move || -> Result<Vec<u32>, AllocError>
        requires { IsSync R.row × (length before.now < 2 ^ 32) × (from ≤ length before.now) }
        ensures { IfOk result (λ starts. AreStarts before.entry.now from starts.items) }
    { line_starts_on(rt, alloc, before, from, low) };
    let back = move || -> Result<Vec<u32>, AllocError>
        requires { IsSync R.row × (length bytes.now < 2 ^ 32) × (middle ≤ length bytes.now) }
        ensures { IfOk result (λ starts. AreStarts bytes.entry.now middle starts.items) }
    { line_starts_on(rt, alloc, bytes, middle, high) };
    let (first, second) = join(rt, front, back);
    let mut starts = first?;
    let mut later = second?;
    starts.append(&mut later)?;
    Ok(starts)
}
