//! What the pieces of a text add to it, some of them from what was found after a run. Rests on
//! `Piece` and `sums`.

use crate::case_text::Piece;
use crate::sums::add_sum;
use std::alloc::{AllocError, Global};

/// How many bytes are left, where of those after `start` only the first `keep` are kept.
pub(crate) fn kept_length(start: usize, keep: u64) -> usize {
    match usize::try_from(keep) {
        Ok(keep) => start.saturating_add(keep),
        Err(_) => usize::MAX,
    }
}

/// Adds the bytes of one piece.
pub(crate) fn add_piece(
    alloc: Global,
    all: &mut Vec<u8>,
    summands: &mut Vec<u64>,
    piece: &Piece,
    found: &[u8],
) -> Result<(), AllocError> {
    match piece {
        Piece::Front => Ok(()),
        Piece::Bytes(bytes) => all.extend_from_slice(bytes.as_slice()),
        Piece::Repeated { times, bytes } => repeat(all, *times, bytes.as_slice()),
        Piece::Filled { length, bytes } => fill(all, *length, bytes.as_slice()),
        Piece::Number { least, most } => {
            add_number(alloc, all, *least, *most, found)?;
            Ok(())
        }
        Piece::Summand { least, most } => {
            if let Some(number) = add_number(alloc, all, *least, *most, found)? {
                summands.push(number)?;
            }
            Ok(())
        }
        Piece::Sum { least, most } => {
            add_sum(alloc, all, summands.as_slice(), *least, *most)?;
            summands.clear();
            Ok(())
        }
        Piece::OneOf(texts) => add_one_of(all, texts.as_slice(), found),
    }
}

/// Adds what no line of a text is, where no sum follows the last summands.
pub(crate) fn add_missing_sum(all: &mut Vec<u8>, summands: &[u64]) -> Result<(), AllocError> {
    if summands.is_empty() {
        return Ok(());
    }
    all.extend_from_slice(b"{no sum}")
}

// Adds a piece `times` times.
fn repeat(all: &mut Vec<u8>, times: u64, piece: &[u8]) -> Result<(), AllocError> {
    for _ in 0..times {
        all.extend_from_slice(piece)?;
    }
    Ok(())
}

// Adds a piece again and again, the last time perhaps in part, up to `length` bytes in all.
fn fill(all: &mut Vec<u8>, length: u64, piece: &[u8]) -> Result<(), AllocError> {
    let missing = length.saturating_sub(all.len() as u64);
    let size = piece.len() as u64;
    if size == 0 {
        return Ok(());
    }
    repeat(all, missing / size, piece)?;
    let rest = (missing % size) as usize;
    all.extend_from_slice(piece.get(..rest).unwrap_or(piece))
}

// The digits at a place.
fn digits_at(bytes: &[u8], place: usize) -> &[u8] {
    let rest = bytes.get(place..).unwrap_or(b"");
    for (count, byte) in rest.iter().enumerate() {
        if !byte.is_ascii_digit() {
            return rest.get(..count).unwrap_or(b"");
        }
    }
    rest
}

// The number that digits are, where it is in the range, without a leading zero.
fn number_between(digits: &[u8], least: u64, most: u64) -> Option<u64> {
    if digits.len() > 1 && digits[0] == b'0' {
        return None;
    }
    let Ok(text) = str::from_utf8(digits) else {
        return None;
    };
    match text.parse::<u64>() {
        Ok(number) if least <= number && number <= most => Some(number),
        _ => None,
    }
}

// Adds the number that was found at the end of `all`, or, where it is not in the range, the range.
fn add_number(
    alloc: Global,
    all: &mut Vec<u8>,
    least: u64,
    most: u64,
    found: &[u8],
) -> Result<Option<u64>, AllocError> {
    let digits = digits_at(found, all.len());
    let number = number_between(digits, least, most);
    if number.is_some() {
        all.extend_from_slice(digits)?;
    } else {
        let range = format!(in alloc; "{{{least}..{most}}}")?;
        all.extend_from_slice(range.as_bytes())?;
    }
    Ok(number)
}

// Adds the first text that was found at the end of `all`, or, where none was, all of them.
fn add_one_of(all: &mut Vec<u8>, texts: &[Vec<u8>], found: &[u8]) -> Result<(), AllocError> {
    let rest = found.get(all.len()..).unwrap_or(b"");
    for text in texts {
        if rest.starts_with(text.as_slice()) {
            return all.extend_from_slice(text.as_slice());
        }
    }
    add_all(all, texts)
}

// Adds texts in braces, with bars between them.
fn add_all(all: &mut Vec<u8>, texts: &[Vec<u8>]) -> Result<(), AllocError> {
    let mut mark = b"{";
    for text in texts {
        all.extend_from_slice(mark)?;
        all.extend_from_slice(text.as_slice())?;
        mark = b"|";
    }
    all.extend_from_slice(b"}")
}
