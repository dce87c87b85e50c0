//! Texts, and the bytes of a file. Short texts rest on `ShortText`.

ghost use Rattle.std.specs.Prelude.{◌≡◌, ◌==◌, IfOk, OnOk, Some, length, string_bytes};
ghost use Rattle.std.specs.Ordering.{as_partial_cmp, nat_cmp};
ghost use Rattle.std.specs.Cmp.{partial_equiv_from_equiv, partial_order_from_own_ties};
ghost use Rattle.std.specs.Cmp.Lexicographic.{nat_list_cmp_total, nat_list_eq_equiv, pointwise, slice_cmp};
ghost use Rattle.std.proofs.Common.{rules};
ghost use Rattle.std.specs.Cmp.Rules.{comparing};

use crate::short_text::ShortText;
use std::alloc::{AllocError, Global};
use std::cmp::Ordering;
use std::fmt;
use std::marker::Model;

/// A text, seen as the list of its UTF-8 bytes.
pub struct Text {
    stored: Stored,
}

impl Drop for Text {
    fn drop(self) {
        let Text { stored: _ } = self;
    }
}

// Where the bytes lie: those of a short text in the value itself, so that most cells own no memory.
#[derive(Drop)]
enum Stored {
    Short(ShortText),
    Long(Box<String>),
}

impl Model for Text {
    ghost use Rattle.std.specs.Prelude.{List, ℕ};
    ghost use Rattle.amber_rows.specs.Stored.{stored_bytes};

    ghost Value = { List ℕ };

    ghost view = { λ a. stored_bytes a.stored };
}

impl Text {
    /// A copy of std's text.
    pub fn new(alloc: Global, text: &str) -> Result<Self, AllocError>
        ensures { IfOk result (λ copy. copy ≡ text.now) }
    {
        let stored = match ShortText::of(text) {
            Some(short) => Stored::Short(short),
            None => Stored::Long(Box::new(alloc, String::from_str(alloc, text)?)?),
        };
        Ok(Text { stored })
    }

    /// The text as std's text.
    pub fn get(&self) -> &str
        ensures { result.now ≡ self.now }
    {
        match &self.stored {
            Stored::Short(short) => short.get(),
            Stored::Long(long) => long.as_str(),
        }
    }

    /// Makes it this text, in the room that it has where that is enough.
    pub fn set(&mut self, alloc: Global, text: &str) -> Result<(), AllocError>
        ensures { OnOk result (self.new ≡ text.now) }
    {
        match &mut self.stored {
            Stored::Short(_) => *self = Text::new(alloc, text)?,
            Stored::Long(room) => {
                room.clear();
                room.push_str(text)?;
            }
        }
        Ok(())
    }

    /// How many bytes the text has.
    pub fn len(&self) -> usize
        ensures { result ≡ length self.now }
    {
        self.get().len()
    }
}

impl Clone for Text {
    ghost is_clone = { λ a copy. copy ≡ a };

    fn clone(&self) -> Result<Self, AllocError> {
        let stored = match &self.stored {
            Stored::Short(short) => Stored::Short(short.copy()),
            Stored::Long(long) => match ShortText::of(long.as_str()) {
                Some(short) => Stored::Short(short),
                None => Stored::Long(long.clone()?),
            },
        };
        Ok(Text { stored })
    }
}

impl PartialEq for Text {
    ghost eq = { pointwise ◌==◌ };

    ghost laws = { partial_equiv_from_equiv nat_list_eq_equiv };

    fn eq(&self, other: &Self) -> bool {
        self.get() == other.get()
    }
}

impl Eq for Text {
    ghost laws = { nat_list_eq_equiv };
}

impl PartialOrd for Text {
    ghost partial_cmp = { as_partial_cmp (slice_cmp nat_cmp) };

    ghost laws = { partial_order_from_own_ties (Prim.search (comparing, rules))
        (Prim.search (comparing, rules)) };

    fn partial_cmp(&self, other: &Self) -> Option<Ordering> {
        Some(self.cmp(other))
    }
}

impl Ord for Text {
    ghost cmp = { slice_cmp nat_cmp };

    ghost total = { nat_list_cmp_total };

    ghost matches_partial_cmp = { Prim.search (comparing, rules) };

    ghost matches_eq = { Prim.search (comparing, rules) };

    fn cmp(&self, other: &Self) -> Ordering {
        self.get().cmp(other.get())
    }
}

impl fmt::Display for Text {
    ghost output = { λ text. Some text };

    fn fmt<W: fmt::Write>(&self, f: &mut fmt::Formatter<W>) -> fmt::Result {
        f.write_str(self.get())
    }
}

/// The bytes of a file or of a text, seen as a list.
pub struct Bytes {
    inner: Vec<u8>,
}

impl Drop for Bytes {
    fn drop(self) {
        let Bytes { inner: _ } = self;
    }
}

impl Model for Bytes {
    ghost use Rattle.std.specs.Prelude.{List, ℕ};

    ghost Value = { List ℕ };

    ghost view = { λ a. a.inner.items };
}

impl Bytes {
    /// The bytes of a `Vec`.
    pub fn new(inner: Vec<u8>) -> Self
        ensures { result ≡ inner.items }
    {
        Bytes { inner }
    }

    /// The bytes as a slice.
    pub fn get(&self) -> &[u8]
        ensures { result.now ≡ self.now }
    {
        self.inner.as_slice()
    }

    /// How many bytes there are.
    pub fn len(&self) -> usize
        ensures { result ≡ length self.now }
    {
        self.inner.len()
    }
}

impl Clone for Bytes {
    ghost is_clone = { λ a copy. copy ≡ a };

    fn clone(&self) -> Result<Self, AllocError> {
        Ok(Bytes {
            inner: self.inner.clone()?,
        })
    }
}
