//! Which calls of a folder or a sink in memory fail.

ghost use Rattle.std.specs.Prelude.{◌≡◌, ◌==◌, take};
ghost use Rattle.std.specs.List.{list_any};

use std::marker::Model;

/// A list of numbers.
pub struct Numbers {
    inner: Vec<u64>,
}

impl Drop for Numbers {
    fn drop(self) {
        let Numbers { inner: _ } = self;
    }
}

impl Model for Numbers {
    ghost use Rattle.std.specs.Prelude.{ℕ, List};

    ghost Value = { List ℕ };

    ghost view = { λ n. n.inner.items };
}

impl Numbers {
    /// The list of these numbers.
    pub fn new(inner: Vec<u64>) -> Numbers
        ensures { result ≡ inner.items }
    {
        Numbers { inner }
    }

    /// The numbers, in order.
    pub fn get(&self) -> &[u64]
        ensures { result.now ≡ self.now }
    {
        self.inner.as_slice()
    }

    /// Whether this number is one of them.
    pub fn contains(&self, number: u64) -> bool
        ensures { result ≡ list_any (λ n. n == number) self.now }
    {
        self.inner.as_slice().contains(&number)
    }
}

/// Which calls of a folder or a sink in memory fail.
///
/// Loads, writes and puts are each counted from 1. A call whose number stands in the list of its kind
/// fails; a write or a put then does the first `keep` bytes of its piece, or all of a shorter one.
pub struct Fails {
    /// The numbers of the loads that fail.
    pub loads: Numbers,
    /// The numbers of the writes that fail.
    pub writes: Numbers,
    /// The numbers of the puts that fail.
    pub puts: Numbers,
    /// How many bytes of its piece a failing call still does.
    pub keep: u64,
}

impl Drop for Fails {
    fn drop(self) {
        let Fails {
            loads: _,
            writes: _,
            puts: _,
            keep: _,
        } = self;
    }
}

// The first `most` bytes, or all where there are fewer.
pub(crate) fn first_bytes(bytes: &[u8], most: u64) -> &[u8]
    ensures { result.now ≡ take most bytes.now }
{
    match usize::try_from(most) {
        Ok(most) if most < bytes.len() => &bytes[..most],
        _ => bytes,
    }
}
