//! The lines of a file, one after the other. Over `finding`.

ghost use Rattle.std.specs.Prelude.{◌≡◌, ◌<◌, ◌↔◌, [], ◌∷◌, length, map, IfSome, IsNone, MatchOption};
ghost use Rattle.amber_rows.specs.Record.{file_records};
ghost use Rattle.amber_cut.specs.Lines.{HasQuote, cut, lines};

use crate::finding::{first_line, has_quote, mark_length};
use std::marker::Model;

/// Reads the records of a file without a double quote: its lines, the header first, seen as the list of those that are
/// left. A record's fields are its line cut at commas.
///
/// The format is that of RFC 4180, where lines may also end in a line feed or a carriage return alone, empty lines are
/// passed over, and a byte order mark at the front is dropped.
pub struct LineReader<'a> {
    rest: &'a [u8],
}

impl Drop for LineReader<'_> {
    fn drop(self) {
        let LineReader { rest: _ } = self;
    }
}

impl<'a> Model for LineReader<'a> {
    ghost use Rattle.std.specs.Prelude.{List, ℕ};
    ghost use Rattle.amber_cut.specs.Lines.{lines};

    ghost Value = { List (List ℕ) };

    ghost view = { λ a. lines a.rest.now };
}

// The first line that has bytes, and the text after it; nothing where all lines are empty.
fn next_line<'a>(bytes: &'a [u8]) -> Option<(&'a [u8], &'a [u8])>
    ensures { MatchOption result (lines bytes.now ≡ [])
        (λ found. lines bytes.now ≡ found.0.now ∷ lines found.1.now) }
{
    let mut rest = bytes;
    'lines: while !rest.is_empty() {
        let (line, later) = first_line(rest);
        if !line.is_empty() {
            return Some((line, later));
        }
        rest = later;
    }
    None
}

impl<'a> LineReader<'a> {
    /// A reader that has read nothing yet; none exactly where a double quote stands in the file.
    pub fn open(file: &'a [u8]) -> Option<Self>
        ensures refused { IsNone result ↔ HasQuote file.now }
        ensures records { IfSome result (λ reader. map cut reader ≡ file_records file.now) }
    {
        if has_quote(file) {
            return None;
        }
        Some(LineReader {
            rest: &file[mark_length(file)..],
        })
    }

    /// Takes the next line, without what ends it, and answers `None` exactly where none is left.
    pub fn next(&mut self) -> Option<&'a [u8]>
        ensures { MatchOption result ((self.old ≡ []) × (self.new ≡ []))
            (λ line. self.old ≡ line.now ∷ self.new) }
    {
        match next_line(self.rest) {
            Some((line, later)) => {
                self.rest = later;
                Some(line)
            }
            None => None,
        }
    }
}
