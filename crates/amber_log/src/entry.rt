//! The steps of a worker in a leg, as plain data.

ghost use Rattle.std.specs.Prelude.{◌≡◌};

use std::marker::Model;

/// One step of a worker in a leg. Workers are numbered through the whole workflow, from 0.
#[derive(Clone, Copy)]
pub enum Entry {
    /// Takes a batch of a sender. A sender's batches are numbered from 0.
    Take { from: u32, batch: u64 },
    /// Takes `rows` rows of the batch at hand and emits `outs` rows. One of them is above 0.
    Go { rows: u64, outs: u64 },
    /// Claims units of an armed count, at least one.
    Grant { n: u64 },
    /// Gives units of an armed count back, at least one.
    Back { n: u64 },
    /// Pauses.
    Pause,
    /// Goes on after a pause.
    Resume,
    /// Stops before a row that meets the operator's condition.
    Hold,
    /// Has nothing more to do.
    Finish,
}

/// A worker's steps in their order, seen as a list.
pub struct Entries {
    inner: Vec<Entry>,
}

impl Drop for Entries {
    fn drop(self) {
        let Entries { inner: _ } = self;
    }
}

impl Model for Entries {
    ghost use Rattle.std.specs.Prelude.{List};
    ghost use Rattle.amber_log.specs.declared.entry.Entry.{Entry as OneEntry};

    ghost Value = { List OneEntry };

    ghost view = { λ a. a.inner.items };
}

impl Entries {
    /// The steps of a `Vec`, in its order.
    pub fn new(inner: Vec<Entry>) -> Self
        ensures { result ≡ inner.items }
    {
        Entries { inner }
    }

    /// The steps as a slice.
    pub fn get(&self) -> &[Entry]
        ensures { result.now ≡ self.now }
    {
        self.inner.as_slice()
    }

    /// The steps as the `Vec` of which they were made.
    pub fn into_vec(self) -> Vec<Entry>
        ensures { result.items ≡ self }
    {
        let Entries { inner } = self;
        inner
    }
}
