//! The lines of a file, each to be taken by its number. Over `line_starts_on` of `starts`, `type_line` of `typing` and
//! `finding`; the bytes are those of `FileBytes` of `amber_rows`.

ghost use Rattle.std.specs.Prelude.{◌≡◌, ◌<◌, ◌≤◌, ◌+◌, ◌*◌, ◌^◌, ◌⊎◌, ◌↔◌, [], length, map, slice_index_or, IfOk, IfSome, IsNone};
ghost use Rattle.amber_rows.specs.Record.{file_records, row_of};
ghost use Rattle.amber_cut.specs.Lines.{HasQuote, cut};

use crate::finding::{has_quote, length_before_ends, mark_length};
use crate::starts::line_starts_on;
use crate::typing::type_line;
use amber_rows::{FileBytes, Row, RowFault, Schema, Value};
use std::alloc::{AllocError, Global};
use std::marker::Model;
use std::thread::Threads;

// How many bytes a file has at most: the places of its bytes fit 32 bits.
const MOST_BYTES: usize = 4_294_967_295;

// How many bytes at least are worth a thread of their own.
const PIECE_BYTES: usize = 65_536;

// In how many pieces the lines of so many bytes are noted on so many threads. One piece, or 0, starts no thread.
fn piece_count(bytes: usize, threads: u32) -> usize
    ensures few { result ≤ threads }
    ensures long { result * 65_536 ≤ bytes }
{
    (bytes / PIECE_BYTES).min(threads as usize)
}

// Where the line behind the one with this number begins; behind the last one the text ends here.
fn start_after(starts: &[u32], number: usize, end: usize) -> usize
    requires { number < length starts.now }
    ensures { result ≡ slice_index_or starts.now (number + 1) end }
{
    match starts.get(number + 1) {
        Some(start) => *start as usize,
        None => end,
    }
}

/// A file without a double quote, shorter than 4 GiB, seen as the list of its records: its lines, the header first. A
/// record's fields are its line cut at commas.
///
/// The format is that of `LineReader`. Besides the file it keeps 4 bytes for each line, where the line begins. While it
/// is made on several threads, it may take as much again.
pub struct Lines {
    file: FileBytes,
    // Where each line begins, in order.
    starts: Vec<u32>,
}

impl Drop for Lines {
    fn drop(self) {
        let Lines { file: _, starts: _ } = self;
    }
}

impl Model for Lines {
    ghost use Rattle.std.specs.Prelude.{◌<◌, ◌^◌, List, ℕ, length, map};
    ghost use Rattle.std.specs.List.{All};
    ghost use Rattle.amber_cut.specs.Lines.{StandApart, line_at};

    ghost Value = { List (List ℕ) };

    ghost view = { λ a. map (line_at a.file) a.starts.items };

    ghost invariant = { λ a. All (λ start. start < length a.file) a.starts.items
        × ((from : ℕ) × StandApart a.file from a.starts.items (length a.file)) };
}

impl Lines {
    /// The lines of a file; none exactly where a double quote stands in it or it has 4 GiB or more. Where they begin is
    /// noted on so many threads, 0 counted as 1, or on fewer where the file has less than 64 KiB for each. The lines are
    /// the same for any number.
    pub fn new<R: Threads + Sync>(
        rt: &R,
        alloc: Global,
        file: &FileBytes,
        threads: u32,
    ) -> Result<Option<Lines>, AllocError>
        ensures refused { IfOk result
            (λ found. IsNone found ↔ ((2 ^ 32 ≤ length file.now) ⊎ HasQuote file.now)) }
        ensures records { IfOk result
            (λ found. IfSome found (λ lines. map cut lines ≡ file_records file.now)) }
    {
        let bytes = file.get();
        if bytes.len() > MOST_BYTES || has_quote(bytes) {
            return Ok(None);
        }
        let pieces = piece_count(bytes.len(), threads);
        let starts = line_starts_on(rt, alloc, bytes, mark_length(bytes), pieces)?;
        let shared = file.clone()?;
        Ok(Some(Lines {
            file: shared,
            starts,
        }))
    }

    /// How many lines there are.
    pub fn len(&self) -> usize
        ensures { result ≡ length self.now }
    {
        self.starts.len()
    }

    // The line with this number, from 0, without what ends it. Up to where the next begins nothing stands but ends of
    // lines.
    fn line(&self, number: usize) -> &[u8]
        requires { number < length self.now }
        ensures { result.now ≡ slice_index_or self.now number [] }
    {
        let bytes = self.file.get();
        let start = self.starts[number] as usize;
        let line = &bytes[start..start_after(&self.starts, number, bytes.len())];
        &line[..length_before_ends(line)]
    }

    /// The row that the line with this number, from 0, is under these columns, or the first fault, as `type_line` has
    /// it. It is made in the room of cells that are done with.
    pub fn typed(
        &self,
        alloc: Global,
        number: usize,
        room: Vec<Value>,
        schema: &Schema,
    ) -> Result<Result<Row, RowFault>, AllocError>
        requires there { number < length self.now }
        requires columns { length schema.now < 2 ^ 32 }
        ensures { IfOk result
            (λ typed. typed ≡ row_of schema.now (cut (slice_index_or self.now number []))) }
    {
        type_line(alloc, room, self.line(number), schema)
    }
}
