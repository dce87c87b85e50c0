//! The pieces of a text that leave open which bytes they are. Rests on `numbers`; gives `Piece`.

use crate::case_text::Piece;
use crate::fault::{Why, push};
use crate::numbers::{range, range_or_number};
use std::alloc::Global;

/// A line of a text with its line feed.
pub(crate) fn whole_line(alloc: Global, line: &str) -> Result<Vec<u8>, Why> {
    let mut bytes = Vec::from_slice(alloc, line.as_bytes())?;
    push(&mut bytes, b'\n')?;
    Ok(bytes)
}

/// What stands in braces: texts with bars between them, or a range.
pub(crate) fn braced(alloc: Global, written: &str) -> Result<Piece, Why> {
    if written.contains('|') {
        return one_of(alloc, written);
    }
    match written.strip_prefix('+') {
        Some(summand) => {
            let (least, most) = range(summand)?;
            Ok(Piece::Summand { least, most })
        }
        None => {
            let (least, most) = range(written)?;
            Ok(Piece::Number { least, most })
        }
    }
}

// One of the texts between bars.
fn one_of(alloc: Global, written: &str) -> Result<Piece, Why> {
    let mut texts = Vec::new(alloc);
    for text in written.split('|') {
        push(&mut texts, Vec::from_slice(alloc, text.as_bytes())?)?;
    }
    Ok(Piece::OneOf(texts))
}

/// A line, or none.
pub(crate) fn line_or_none(alloc: Global, line: &str) -> Result<Piece, Why> {
    let mut texts = Vec::new(alloc);
    push(&mut texts, whole_line(alloc, line)?)?;
    push(&mut texts, Vec::new(alloc))?;
    Ok(Piece::OneOf(texts))
}

/// What the summands before it add up to: a number, or one in a range.
pub(crate) fn sum(written: &str) -> Result<Piece, Why> {
    let (least, most) = range_or_number(written.trim())?;
    Ok(Piece::Sum { least, most })
}

/// Whether a piece leaves open which bytes it is.
pub(crate) fn is_open(piece: &Piece) -> bool {
    matches!(
        piece,
        Piece::Number { .. }
            | Piece::Summand { .. }
            | Piece::Sum { .. }
            | Piece::OneOf(_)
            | Piece::Front
    )
}
