//! Finds quotes, the ends of lines and a byte order mark in a text. Rests on `memchr`.

ghost use Rattle.std.specs.Prelude.{◌≡◌, ◌<◌, ◌≤◌, ◌+◌, ◌-◌, ◌↔◌, IsTrue, drop, false, length, slice_index, take};
ghost use Rattle.csv.specs.Reading.{is_bom, strip_bom};
ghost use Rattle.amber_cut.specs.Lines.{AreLineEnds, CanBegin, HasQuote, past, ends_line, until};

use memchr::{memchr, memchr2};

/// Whether a double quote stands among these bytes.
pub fn has_quote(bytes: &[u8]) -> bool
    ensures { IsTrue result ↔ HasQuote bytes.now }
{
    memchr(b'"', bytes).is_some()
}

/// How long the first line is. Where nothing ends it, it goes on to the end of the text.
pub fn line_end(bytes: &[u8]) -> usize
    ensures within { result ≤ length bytes.now }
    ensures line { take result bytes.now ≡ until ends_line bytes.now }
    ensures later { drop (result + 1) bytes.now ≡ past ends_line bytes.now }
{
    match memchr2(b'\r', b'\n', bytes) {
        Some(end) => end,
        None => bytes.len(),
    }
}

/// How long a text is without the ends of lines at its end.
pub fn length_before_ends(bytes: &[u8]) -> usize
    ensures within { result ≤ length bytes.now }
    ensures ends { AreLineEnds bytes.now result (length bytes.now) }
    ensures last { 0 < result → ends_line (slice_index bytes.now (result - 1)) ≡ false }
{
    let mut length = bytes.len();
    'ends: while length > 0 && matches!(bytes[length - 1], b'\r' | b'\n') {
        length -= 1;
    }
    length
}

/// Where a line begins behind this place of a text: behind the first end of a line from this place on. Where nothing
/// ends a line there, the end of the text.
pub fn next_start(bytes: &[u8], place: usize) -> usize
    requires { place ≤ length bytes.now }
    ensures within { result ≤ length bytes.now }
    ensures later { place ≤ result }
    ensures begins { CanBegin bytes.now result }
{
    match memchr2(b'\r', b'\n', &bytes[place..]) {
        Some(end) => place + end + 1,
        None => bytes.len(),
    }
}

/// The first line without what ends it, and the text after that.
pub fn first_line<'a>(bytes: &'a [u8]) -> (&'a [u8], &'a [u8])
    ensures line { result.0.now ≡ until ends_line bytes.now }
    ensures later { result.1.now ≡ past ends_line bytes.now }
    ensures shorter { 0 < length bytes.now → length result.1.now < length bytes.now }
{
    let end = line_end(bytes);
    if end < bytes.len() {
        (&bytes[..end], &bytes[end + 1..])
    } else {
        (bytes, &bytes[end..])
    }
}

// Whether these bytes are a byte order mark, U+FEFF in UTF-8.
fn is_mark(first: u8, second: u8, third: u8) -> bool
    ensures { result ≡ is_bom first second third }
{
    first == 0xEF && second == 0xBB && third == 0xBF
}

/// How long the byte order mark at the front of a file is: 0 where there is none.
pub fn mark_length(file: &[u8]) -> usize
    ensures within { result ≤ length file.now }
    ensures rest { drop result file.now ≡ strip_bom file.now }
{
    if file.len() < 3 {
        return 0;
    }
    let found = is_mark(file[0], file[1], file[2]);
    if found { 3 } else { 0 }
}
