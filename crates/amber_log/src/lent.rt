//! What is lent, seen as the thing itself.

ghost use Rattle.std.specs.Prelude.{◌≡◌, map};

use std::marker::Model;

/// A value that stays where it is. A definition sees the value itself.
#[derive(Drop)]
pub struct Lent<'a, T> {
    inner: &'a T,
}

impl<'a, T> Model for Lent<'a, T> {
    ghost Value = { T };

    ghost view = { λ a. a.inner.now };
}

impl<'a, T> Lent<'a, T> {
    /// Lends a value.
    pub fn new(inner: &'a T) -> Self
        ensures { result ≡ inner.now }
    {
        Lent { inner }
    }

    /// The value.
    pub fn get(&self) -> &'a T
        ensures { result.now ≡ self.now }
    {
        self.inner
    }
}

/// A word in ASCII, seen as its bytes.
#[derive(Drop)]
pub struct Word {
    inner: &'static [u8],
}

impl Model for Word {
    ghost use Rattle.std.specs.Prelude.{List, ℕ};

    ghost Value = { List ℕ };

    ghost view = { λ a. a.inner.now };
}

impl Word {
    /// The word of these bytes.
    pub fn new(inner: &'static [u8]) -> Self
        ensures { result ≡ inner.now }
    {
        Word { inner }
    }

    /// Its bytes.
    pub fn get(&self) -> &'static [u8]
        ensures { result.now ≡ self.now }
    {
        self.inner
    }
}

/// Words in ASCII, seen as the list of their bytes.
#[derive(Drop)]
pub struct Words {
    inner: &'static [&'static [u8]],
}

impl Model for Words {
    ghost use Rattle.std.specs.Prelude.{List, ℕ, map};

    ghost Value = { List (List ℕ) };

    ghost view = { λ a. map (λ w. w.now) a.inner.now };
}

impl Words {
    /// The words of these bytes.
    pub fn new(inner: &'static [&'static [u8]]) -> Self
        ensures { result ≡ map (λ w. w.now) inner.now }
    {
        Words { inner }
    }

    /// The words.
    pub fn get(&self) -> &'static [&'static [u8]]
        ensures { map (λ w. w.now) result.now ≡ self.now }
    {
        self.inner
    }
}
