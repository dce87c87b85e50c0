//! Sort keys: one number for a row that settles most comparisons. Over the row's cells.

ghost use Rattle.std.specs.Prelude.{◌≡◌, ◌^◌, ◌<◌, slice_index};
ghost use Rattle.amber_rows.specs.SortKey as key;
ghost use Rattle.amber_rows.specs.SortKey.{key_tells_number};

use crate::value::Value;

// Each key below this is a number's, each other one is a text's.
const TEXTS: u64 = 1 << 63;

// The key of 0.
const ZERO: u64 = 1 << 62;

/// The key of a row with these cells: one number in place of most of the work of a comparison. It is that of
/// the first cell, so rows with one key are still compared cell by cell.
#[tactic(auto, unfolding(crate::specs::SortKey::key_of))]
pub fn key_of(cells: &[Value]) -> u64
    ensures { result ≡ key.key_of cells.now }
{
    match cells {
        [] => 0,
        [Value::Int(number), ..] => int_key(*number),
        [Value::Text(text), ..] => TEXTS + front(text.get().as_bytes()),
    }
}

/// Whether a key is that of one number alone: all but the first and the last of numbers.
pub fn tells_number(key: u64) -> bool
    ensures { result ≡ key_tells_number key }
{
    0 < key && key < TEXTS - 1
}

/// The key of a number.
fn int_key(number: i64) -> u64
    ensures { result ≡ key.int_key number }
{
    let size = number.unsigned_abs();
    if number < 0 {
        ZERO.saturating_sub(size)
    } else {
        ZERO + size.min(ZERO - 1)
    }
}

/// The first seven bytes as one number, the first of them highest.
fn front(bytes: &[u8]) -> u64
    ensures value { result ≡ key.front 7 bytes.now }
    ensures small { result < 2 ^ 56 }
{
    // Straight lines, so that no step can overflow unseen.
    let mut number = byte(bytes, 0);
    number = number * 256 + byte(bytes, 1);
    number = number * 256 + byte(bytes, 2);
    number = number * 256 + byte(bytes, 3);
    number = number * 256 + byte(bytes, 4);
    number = number * 256 + byte(bytes, 5);
    number * 256 + byte(bytes, 6)
}

/// The byte at a place, or 0 past the end.
fn byte(bytes: &[u8], place: usize) -> u64
    ensures value { result ≡ slice_index bytes.now place }
    ensures small { result < 2 ^ 8 }
{
    match bytes.get(place) {
        None => 0,
        Some(byte) => u64::from(*byte),
    }
}
