//! The source of the system. Over the standard input of `std::rt`.

ghost use Rattle.std.specs.Prelude.{◌≡◌, ◌≢◌, ◌<◌, ◌≤◌, None, Err, IfErr, IfOk, vec_len};
ghost use Rattle.std.specs.Io.KnownBytes.{Keeps};
ghost use Rattle.amber_io.specs.Counts.{HasCause};
ghost use Rattle.amber_io.specs.Source.{TakesNext};
ghost use Rattle.amber_io.specs.Real.{IsCounted, failed_reads};

use crate::error::IoErr;
use crate::source::Source;
use std::alloc::Global;
use std::io::Read;

/// The standard input. What it has left is not known.
#[derive(Drop)]
pub struct RealSource<'r, R> {
    rt: &'r R,
    faults: u64,
}

impl<'r, R: Input> RealSource<'r, R> {
    /// The standard input of `rt`, with no fault counted yet.
    pub fn new(rt: &'r R) -> RealSource<'r, R>
        ensures { failed_reads result ≡ 0 }
    {
        RealSource { rt, faults: 0 }
    }
}

impl<R: Input> Source for RealSource<'_, R> {
    ghost left = { λ _. None };

    ghost faults = { failed_reads };

    /// As the trait says; each failure is counted.
    fn read(&mut self, alloc: Global, most: u32) -> Result<Vec<u8>, IoErr>
        requires { 0 < most }
        ensures takes { IfOk result (λ bytes. TakesNext None None bytes.items) }
        ensures few { IfOk result (λ bytes. vec_len bytes ≤ most) }
        ensures keeps { IfErr result (λ _. Keeps None None) }
        ensures cause { HasCause result ⊥ (failed_reads self.old) (failed_reads self.new) }
        ensures counted { IsCounted result (failed_reads self.old) (failed_reads self.new) }
    {
        let mut room = Vec::new(alloc);
        if room.resize(most as usize, 0).is_err() {
            return Err(IoErr::NoMemory);
        }
        match self.rt.reader().read(room.as_mut_slice()) {
            Ok(size) => {
                room.truncate(size);
                Ok(room)
            }
            Err(_) => {
                self.faults = self.faults.saturating_add(1);
                Err(IoErr::Failed)
            }
        }
    }
}
