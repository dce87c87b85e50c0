//! A text of a case, in pieces, some of which are filled in after a run.

ghost use Rattle.std.specs.Prelude.{◌≡◌, []};

use crate::filling::{add_missing_sum, add_piece, kept_length};
use std::alloc::{AllocError, Global};

/// A piece of a text.
#[derive(Clone)]
pub enum Piece {
    /// These bytes.
    Bytes(Vec<u8>),
    /// These bytes, `times` times.
    Repeated { times: u64, bytes: Vec<u8> },
    /// These bytes again and again, until the text has `length` bytes.
    Filled { length: u64, bytes: Vec<u8> },
    /// A number in a range, in decimal.
    Number { least: u64, most: u64 },
    /// Such a number, which is added to those before it.
    Summand { least: u64, most: u64 },
    /// Nothing, where the summands that came since the last sum add up to a number in the range.
    Sum { least: u64, most: u64 },
    /// The first of these texts that was found there.
    OneOf(Vec<Vec<u8>>),
    /// Of all that follows only the first bytes, as many as a failing call keeps.
    Front,
}

impl Drop for Piece {
    fn drop(self) {
        match self {
            Piece::Bytes(_) => {}
            Piece::Repeated { times: _, bytes: _ } => {}
            Piece::Filled {
                length: _,
                bytes: _,
            } => {}
            Piece::Number { least: _, most: _ } => {}
            Piece::Summand { least: _, most: _ } => {}
            Piece::Sum { least: _, most: _ } => {}
            Piece::OneOf(_) => {}
            Piece::Front => {}
        }
    }
}

/// A text of a case: of a file, or one that is expected.
#[derive(Clone)]
pub struct CaseText {
    pub pieces: Vec<Piece>,
}

impl Drop for CaseText {
    fn drop(self) {
        let CaseText { pieces: _ } = self;
    }
}

impl CaseText {
    /// The text without a piece.
    pub fn new(alloc: Global) -> CaseText
        ensures { result.pieces.items ≡ [] }
    {
        CaseText {
            pieces: Vec::new(alloc),
        }
    }

    /// The pieces of the text.
    pub fn into_pieces(self) -> Vec<Piece>
        ensures { result.items ≡ self.pieces.items }
    {
        let CaseText { pieces } = self;
        pieces
    }

    /// The bytes of the text, where `found` was found and a failing call keeps `keep` bytes.
    ///
    /// What the text leaves open is what was found at its place, where that fits.
    pub fn bytes(&self, alloc: Global, keep: u64, found: &[u8]) -> Result<Vec<u8>, AllocError> {
        let mut all = Vec::new(alloc);
        let mut length = usize::MAX;
        let mut summands = Vec::new(alloc);
        for piece in self.pieces.iter() {
            if let Piece::Front = piece {
                length = kept_length(all.len(), keep);
            }
            add_piece(alloc, &mut all, &mut summands, piece, found)?;
        }
        add_missing_sum(&mut all, &summands)?;
        all.truncate(length);
        Ok(all)
    }
}
