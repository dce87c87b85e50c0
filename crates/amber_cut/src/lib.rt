//! Cutting: the records of a file by their numbers, and the lines of a file.
//!
//! `Records` holds the records of a file, so that any of them can be taken by its number, also by several workers that
//! share it. A record is typed, as a row or its fault, when it is taken.
//!
//! A file of comma-separated values may have quoted fields, in which commas and ends of lines are text, so its records
//! are found one after the other, by a reader that knows where a quote was opened. Where no double quote stands in the
//! file, they are found faster: each line is a record, and its fields stand between its commas. So `Records` keeps a
//! file in one of two ways. Of a file without a double quote, shorter than 4 GiB, it keeps the file itself, which is
//! not copied, and where each line begins. Of any other file it keeps the fields that `csv` reads in it, one after the
//! other, and where each record ends among them.
//!
//! Where the lines of a long file begin is noted on several threads, if they are allowed: the file is cut in pieces at
//! places where a line begins, each thread notes the lines of a piece, and their places are put one behind the other.
//! The records are the same on any number of threads.
//!
//! `LineReader` goes through a file without a double quote line by line, and needs no memory. `type_line` types a line.
//!
//! That these are the records is proved: what either gives is `file_records` of the file, as `csv` reads it. A line
//! ends at a line feed, at a carriage return, or at both; empty lines are no records; the last line may lack its end;
//! and a byte order mark at the front is dropped. Wherever a double quote stands, the file is not taken line by line.
//!
//! `specs/Lines.antt` says what the lines of a text and the fields of a line are, `specs/Pieces.antt` what the records
//! among the fields of a file are.
//!
//! # Example
//!
//! The columns of `schema` are one of numbers and one of texts:
//!
//! ```rust
//! let bytes = Bytes::new(Vec::from_slice(alloc, b"day,word\r\n\n7,\n8,a b")?);
//! let records = Records::new(&rt, alloc, &FileBytes::new(alloc, bytes)?, 1)?;
//! assert_eq!(rt; records.len(), 3);
//! let typed = records.typed(alloc, 2, Vec::new(alloc), &schema)?;
//! ```
//!
//! Then `typed` is `Ok` of the row of 8 and `a b`. Of the lines `day,word`, `7,` and `8,a b` it is kept where they
//! begin, at 0, 11 and 14; record 2 is cut at the comma. With `"a b"` for `a b` the file has the same records, but is
//! kept as the fields `day`, `word`, `7`, an empty one, `8` and `a b`, of which the records end at the second, the
//! fourth and the sixth.
#![tactic(auto)]

mod fields;
mod file_fields;
mod file_lines;
mod finding;
mod line_reader;
mod records;
mod starts;
mod typing;

pub use line_reader::LineReader;
pub use records::Records;
pub use std::alloc::AllocError as NoMemory;
pub use typing::type_line;

#[cfg(test)]
mod tests;
