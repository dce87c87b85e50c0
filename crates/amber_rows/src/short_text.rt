//! Texts that own no memory.

ghost use Rattle.std.specs.Prelude.{◌≡◌, ◌≤◌, ◌↔◌, IfSome, IsSome, length};

use std::marker::Model;
use std::str;

// The most bytes of a short text. With their count they leave room for a tag in 16 bytes.
const MOST: usize = 14;

/// A text of at most 14 bytes, which lie in the value itself, seen as the list of its UTF-8 bytes.
#[derive(Drop)]
pub struct ShortText {
    len: u8,
    bytes: [u8; 14],
}

impl Model for ShortText {
    ghost use Rattle.std.specs.Prelude.{◌≡◌, ◌≤◌, IsUtf8, List, length, take, ℕ};

    ghost Value = { List ℕ };

    ghost view = { λ a. take a.len a.bytes };

    ghost invariant = { λ a. (a.len ≤ 14) × (length a.bytes ≡ 14)
        × ∥ IsUtf8 (take a.len a.bytes) ∥₁ };
}

impl ShortText {
    /// A copy of std's text, where it is short enough.
    pub fn of(text: &str) -> Option<Self>
        ensures variant { IsSome result ↔ (length text.now ≤ 14) }
        ensures some { IfSome result (λ copy. copy ≡ text.now) }
    {
        let len = text.len();
        if len > MOST {
            return None;
        }
        let mut bytes = [0; MOST];
        bytes[..len].copy_from_slice(text.as_bytes());
        Some(ShortText {
            len: len as u8,
            bytes,
        })
    }

    /// The text as std's text.
    pub fn get(&self) -> &str
        ensures { result.now ≡ self.now }
    {
        unsafe { str::from_utf8_unchecked(&self.bytes[..self.len as usize]) }
    }

    /// The same text.
    pub fn copy(&self) -> Self
        ensures { result ≡ self.now }
    {
        ShortText {
            len: self.len,
            bytes: self.bytes,
        }
    }
}
