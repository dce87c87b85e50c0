//! The source in memory. It gives its bytes in pieces, and fails as its plan says.

ghost use Rattle.std.specs.Prelude.{◌≡◌, ◌<◌, ◌≤◌, min, take, Some, IfErr, IfOk, vec_len, length};
ghost use Rattle.std.specs.Io.KnownBytes.{Keeps};
ghost use Rattle.amber_io.specs.Counts.{HasCause, next_number};
ghost use Rattle.amber_io.specs.Source.{TakesNext};
ghost use Rattle.amber_io.specs.Memory.{IsPlanned, is_listed};

use crate::error::IoErr;
use crate::fails::{Numbers, first_bytes};
use crate::source::Source;
use std::alloc::Global;

/// A source in memory, whose bytes are known and which fails where its plan says so.
pub struct MemSource {
    bytes: Vec<u8>,
    place: usize,
    piece: u32,
    fails: Numbers,
    reads_made: u64,
    faults: u64,
    ghost inside: { place ≤ length bytes.items },
    ghost some: { 0 < piece },
}

impl Drop for MemSource {
    fn drop(self) {
        let MemSource {
            bytes: _,
            place: _,
            piece: _,
            fails: _,
            reads_made: _,
            faults: _,
        } = self;
    }
}

impl MemSource {
    ghost use Rattle.amber_io.specs.MemSource.{bytes_left, failed_reads, read_piece, read_plan, reads_made};

    /// A source of these bytes, of which a read gives at most `piece`. The reads whose numbers, from 1,
    /// stand in `fails` fail.
    pub fn new(bytes: Vec<u8>, piece: u32, fails: Numbers) -> MemSource
        requires { 0 < piece }
        ensures left { bytes_left result ≡ bytes.items }
        ensures piece { read_piece result ≡ piece }
        ensures plan { read_plan result ≡ fails }
        ensures made { reads_made result ≡ 0 }
        ensures faults { failed_reads result ≡ 0 }
    {
        MemSource {
            bytes,
            place: 0,
            piece,
            fails,
            reads_made: 0,
            faults: 0,
        }
    }

    /// The bytes that were not read yet.
    pub fn left(&self) -> &[u8]
        ensures { result.now ≡ bytes_left self.now }
    {
        &self.bytes[self.place..]
    }
}

impl Source for MemSource {
    ghost use Rattle.amber_io.specs.MemSource.{bytes_left, failed_reads, read_piece, read_plan, reads_made};

    ghost left = { λ source. Some (bytes_left source) };

    ghost faults = { failed_reads };

    /// As the trait says; the read fails where its number is listed. It gives as many bytes as it may: at
    /// most `most`, and at most `piece`.
    fn read(&mut self, alloc: Global, most: u32) -> Result<Vec<u8>, IoErr>
        requires { 0 < most }
        ensures takes { IfOk result (λ bytes. TakesNext (Some (bytes_left self.old))
            (Some (bytes_left self.new)) bytes.items) }
        ensures few { IfOk result (λ bytes. vec_len bytes ≤ most) }
        ensures keeps { IfErr result
            (λ _. Keeps (Some (bytes_left self.old)) (Some (bytes_left self.new))) }
        ensures cause { HasCause result ⊥ (failed_reads self.old) (failed_reads self.new) }
        ensures all { IfOk result
            (λ bytes. bytes.items ≡ take (min most (read_piece self.old)) (bytes_left self.old)) }
        ensures piece { read_piece self.new ≡ read_piece self.old }
        ensures plan { read_plan self.new ≡ read_plan self.old }
        ensures made { reads_made self.new ≡ next_number (reads_made self.old) }
        ensures planned { IsPlanned result ⊥
            (record {
              listed = is_listed (read_plan self.old) (reads_made self.new);
              before = failed_reads self.old;
              now = failed_reads self.new;
            }) }
    {
        self.reads_made = self.reads_made.saturating_add(1);
        if self.fails.contains(self.reads_made) {
            self.faults = self.faults.saturating_add(1);
            return Err(IoErr::Failed);
        }
        let next = first_bytes(self.left(), u64::from(most.min(self.piece)));
        match Vec::from_slice(alloc, next) {
            Ok(bytes) => {
                self.place += bytes.len();
                Ok(bytes)
            }
            Err(_) => Err(IoErr::NoMemory),
        }
    }
}
