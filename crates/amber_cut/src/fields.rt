//! The fields of a line, one after the other. A field is short, so its end is searched for byte by byte.

ghost use Rattle.std.specs.Prelude.{◌≡◌, ◌≤◌, ◌+◌, ◌∷◌, length, take, drop};
ghost use Rattle.amber_cut.specs.Lines.{cut, ends_field, past, until};
ghost use Rattle.amber_cut.specs.Typing.{fields_if};

// How long the first field of a line is. Where no comma ends it, it goes on to the end of the line.
fn field_end(line: &[u8]) -> usize
    ensures within { result ≤ length line.now }
    ensures field { take result line.now ≡ until ends_field line.now }
    ensures later { drop (result + 1) line.now ≡ past ends_field line.now }
{
    'bytes: for end in 0..line.len() {
        if line[end] == b',' {
            return end;
        }
    }
    line.len()
}

/// The first field of a line, the text after its comma, and whether there is a comma.
pub fn next_field<'a>(line: &'a [u8]) -> (&'a [u8], &'a [u8], bool)
    ensures { cut line.now ≡ result.0.now ∷ fields_if result.2 result.1.now }
{
    let end = field_end(line);
    if end < line.len() {
        (&line[..end], &line[end + 1..], true)
    } else {
        (line, &line[end..], false)
    }
}
