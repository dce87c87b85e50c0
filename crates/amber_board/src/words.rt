//! The words of a board. Word 0 is the target.

use crate::MOST_WORKERS;

/// The word of the units that are assigned to nobody.
pub(crate) const UNASSIGNED: usize = 1;

/// The words of the workers' allotments begin here.
pub(crate) const ALLOTMENTS: usize = 2;

/// The words of the workers' counts begin here.
pub(crate) const COUNTS: usize = 24;

/// The words of two workers' counts are so far apart that they share no line of a processor's cache: each worker counts on a
/// thread of its own.
pub(crate) const APART: usize = 8;

/// How many words there are.
pub(crate) const WORDS: usize = 152;

/// How many workers have words.
pub(crate) const PLACES: usize = MOST_WORKERS as usize;
