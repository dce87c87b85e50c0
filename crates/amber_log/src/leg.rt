//! Legs: what each worker did, and how the leg ended. Rests on `Entries`.

ghost use Rattle.std.specs.Prelude.{◌≡◌};

use crate::entry::Entries;
use std::marker::Model;

/// What one worker did in a leg. Workers are numbered through the whole workflow, from 0.
pub struct Part {
    pub worker: u32,
    pub entries: Entries,
}

impl Drop for Part {
    fn drop(self) {
        let Part {
            worker: _,
            entries: _,
        } = self;
    }
}

/// The workers' parts of a leg, seen as a list.
pub struct Parts {
    inner: Vec<Part>,
}

impl Drop for Parts {
    fn drop(self) {
        let Parts { inner: _ } = self;
    }
}

impl Model for Parts {
    ghost use Rattle.std.specs.Prelude.{List};
    ghost use Rattle.amber_log.specs.declared.leg.Part.{Part as OnePart};

    ghost Value = { List OnePart };

    ghost view = { λ a. a.inner.items };
}

impl Parts {
    /// The parts of a `Vec`, in its order.
    pub fn new(inner: Vec<Part>) -> Self
        ensures { result ≡ inner.items }
    {
        Parts { inner }
    }

    /// The parts as a slice.
    pub fn get(&self) -> &[Part]
        ensures { result.now ≡ self.now }
    {
        self.inner.as_slice()
    }

    /// The parts as the `Vec` of which they were made.
    pub fn into_vec(self) -> Vec<Part>
        ensures { result.items ≡ self }
    {
        let Parts { inner } = self;
        inner
    }
}

/// How a leg ended.
#[derive(Clone, Copy)]
pub enum Close {
    /// Something stopped the run, or it came to its end.
    Cut,
    /// The run had made as many steps as it was allowed.
    Long,
}

/// A stretch of the run between two commands: what each worker did, by rising numbers, and how it ended.
pub struct Leg {
    pub parts: Parts,
    pub close: Close,
}

impl Drop for Leg {
    fn drop(self) {
        let Leg { parts: _, close: _ } = self;
    }
}
