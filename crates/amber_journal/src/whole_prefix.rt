//! How much of a log's file is whole. Rests on `splitting`.

ghost use Rattle.std.specs.Prelude.{◌≡◌, ◌≤◌, length};
ghost use Rattle.amber_log.specs.ReadAs.{closes, whole_items};

use crate::splitting::next_line;

/// Whether a line ends an item.
#[tactic(auto, unfolding(amber_log::specs::ReadAs::closes))]
fn closes(line: &[u8]) -> bool
    ensures { result ≡ closes line.now }
{
    line == b"cut".as_slice() || line == b"long".as_slice() || line.starts_with(b"do ")
}

/// How many bytes of a log's file are read: the most that are none, or end with the first line or with a line
/// that ends an item. What follows them was torn. It takes no memory.
pub fn whole_items(bytes: &[u8]) -> usize
    ensures value { result ≡ length (whole_items bytes.now) }
    ensures inside { result ≤ length bytes.now }
{
    let Some((_, mut rest)) = next_line(bytes) else {
        return 0;
    };
    let mut whole = bytes.len() - rest.len();
    while let Some((line, behind)) = next_line(rest) {
        rest = behind;
        if closes(line) {
            whole = bytes.len() - rest.len();
        }
    }
    whole
}
