//! The bytes that were fed to a session. Rests on nothing.

ghost use Rattle.std.specs.Prelude.{◌≡◌, []};
ghost use Rattle.amber_session.specs.Dialogue.{IsReadTo};

use std::alloc::Global;

/// The bytes that were fed, where the line begins that no line feed has ended yet, and how many lines were ended.
#[derive(Drop)]
pub(crate) struct Input {
    pub(crate) bytes: Vec<u8>,
    pub(crate) begun: usize,
    pub(crate) lines: u64,
}

impl Input {
    /// No byte yet.
    pub(crate) fn new(alloc: Global) -> Input
        ensures bytes { result.bytes.items ≡ [] }
        ensures read { IsReadTo result 0 }
    {
        Input {
            bytes: Vec::new(alloc),
            begun: 0,
            lines: 0,
        }
    }
}
