//! The sink in memory. It fails as `Fails` says.

ghost use Rattle.std.specs.Prelude.{◌≡◌, ◌++◌, [], Some, IfOk, take};
ghost use Rattle.amber_io.specs.Counts.{HasCause, next_number};
ghost use Rattle.amber_io.specs.Sink.{LeavesPiece};
ghost use Rattle.amber_io.specs.Memory.{FailsTo, IsPlanned, is_listed};
ghost use Rattle.amber_io.specs.MemSink.{written_bytes, sink_plan, puts_made, failed_puts};

use crate::error::IoErr;
use crate::fails::{Fails, first_bytes};
use crate::sink::Sink;
use std::alloc::Global;

/// A sink in memory, which shows what was written and fails where its plan says so.
pub struct MemSink {
    written: Vec<u8>,
    fails: Fails,
    puts_made: u64,
    faults: u64,
}

impl Drop for MemSink {
    fn drop(self) {
        let MemSink {
            written: _,
            fails: _,
            puts_made: _,
            faults: _,
        } = self;
    }
}

impl MemSink {
    /// An empty sink, whose puts fail as `fails` says. It grows on `alloc`.
    pub fn new(alloc: Global, fails: Fails) -> MemSink
        ensures written { written_bytes result ≡ [] }
        ensures plan { sink_plan result ≡ fails }
        ensures made { puts_made result ≡ 0 }
        ensures faults { failed_puts result ≡ 0 }
    {
        MemSink {
            written: Vec::new(alloc),
            fails,
            puts_made: 0,
            faults: 0,
        }
    }

    /// All that was written so far.
    pub fn bytes(&self) -> &[u8]
        ensures { result.now ≡ written_bytes self.now }
    {
        self.written.as_slice()
    }
}

impl Sink for MemSink {
    ghost written = { λ sink. Some (written_bytes sink) };

    ghost faults = { failed_puts };

    /// As the trait says; the put fails where its number is listed, and has then written the first
    /// `keep` bytes of its piece, or all of a shorter one.
    fn put(&mut self, bytes: &[u8]) -> Result<(), IoErr>
        ensures leaves { LeavesPiece result (Some (written_bytes self.old))
            (Some (written_bytes self.new)) bytes.now }
        ensures cause { HasCause result ⊥ (failed_puts self.old) (failed_puts self.new) }
        ensures plan { sink_plan self.new ≡ sink_plan self.old }
        ensures made { puts_made self.new ≡ next_number (puts_made self.old) }
        ensures planned { IsPlanned result ⊥
            (record {
              listed = is_listed (sink_plan self.old).puts (puts_made self.new);
              before = failed_puts self.old;
              now = failed_puts self.new;
            }) }
        ensures kept { FailsTo result (written_bytes self.new)
            (written_bytes self.old ++ take (sink_plan self.old).keep bytes.now) }
    {
        self.puts_made = self.puts_made.saturating_add(1);
        if !self.fails.puts.contains(self.puts_made) {
            return match self.written.extend_from_slice(bytes) {
                Ok(()) => Ok(()),
                Err(_) => Err(IoErr::NoMemory),
            };
        }
        let part = first_bytes(bytes, self.fails.keep);
        if self.written.extend_from_slice(part).is_err() {
            return Err(IoErr::NoMemory);
        }
        self.faults = self.faults.saturating_add(1);
        Err(IoErr::Failed)
    }
}
